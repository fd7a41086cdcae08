// Questions asked one after another: what is found, or does not hold, refuses.
ghost use Rattle.std.specs.Prelude.{◌≡◌, None};
ghost use Rattle.policy.specs.Asking.{question, ok_unless};

/// Passes where nothing was found.
///
/// # Errors
///
/// What was found.
pub fn none_of<E: Drop>(found: Option<E>) -> Result<(), E>
    ensures { result ≡ ok_unless found }
{
    found.map_or(Ok(()), Err)
}

/// Passes where it holds.
///
/// # Errors
///
/// The error that is given, where it does not hold.
pub fn check<E: Drop>(holds: bool, error: E) -> Result<(), E>
    ensures { result ≡ ok_unless (question holds error None) }
{
    if holds { Ok(()) } else { Err(error) }
}
