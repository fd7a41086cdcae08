// Prints the roll of each input that an argument names, under that name. Inputs named `own-` or
// `one-` are decided by an own rule above the house pile.
#![tactic(auto)]

ghost use Rattle.std.specs.Prelude.{◌≡◌, IfOk, nat_eq, string_bytes};
ghost use Rattle.std.specs.List.{starts_with};
ghost use Rattle.report.specs.Roll.{roll_text};
ghost use Rattle.report.specs.RollLaw.{ApartRollLaw};
ghost use Rattle.cases.specs.Piles.{rules_for};

use own::{OncePerUser, OneOpenSession};
use report::{roll, roll_with_own_above};
use std::alloc::Global;
use std::io::{BufWriter, Write};
use std::{env, fmt, fs};

// Whether the name starts so.
fn has_prefix(name: &str, prefix: &str) -> bool
    ensures { result ≡ starts_with nat_eq name.now prefix.now }
{
    name.starts_with(prefix)
}

// The roll of an input, by the pile that its name asks for.
fn roll_of(heap: Global, name: &str, bytes: &[u8]) -> Result<String, fmt::Error>
    ensures text { IfOk result (λ t. string_bytes t ≡ roll_text (rules_for name.now) bytes.now) }
    ensures law { IfOk result (λ t.
        ApartRollLaw (rules_for name.now) bytes.now (string_bytes t)) }
{
    if has_prefix(name, "own-") {
        // role 1 is never active in two sessions of one user
        roll_with_own_above(heap, bytes, OncePerUser { role: 1 })
    } else if has_prefix(name, "one-") {
        // at most one session is open
        roll_with_own_above(heap, bytes, OneOpenSession {})
    } else {
        roll(heap, bytes)
    }
}

fn main(rt: HostRuntime) -> anyhow::Result<()> {
    let mut out = BufWriter::new(rt.alloc(), rt.stdout())?;
    for name in env::args(&rt)?.skip(1) {
        let bytes = fs::read(&rt, name.as_str())?;
        let text = roll_of(rt.alloc(), name.as_str(), bytes.as_slice())?;
        write!(out, "{name}\n{text}")?;
    }
    out.flush()?;
    Ok(())
}
