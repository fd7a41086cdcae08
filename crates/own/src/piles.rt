// Piles of the rule, one pile above another, for a look at their places.
use crate::once::OncePerUser;
use monitor::Pair;

/// A pile above itself.
pub type Twofold<P> = Pair<P, P>;

/// A pile four times, one above another.
pub type Fourfold<P> = Twofold<Twofold<P>>;

// No type is computed from a number, so each height has a name. A pile of more than 32 needs a
// struct of its own among its parts, since a type may name only so many others.

/// Two rules.
pub type Two = Twofold<OncePerUser>;

/// Four rules.
pub type Four = Fourfold<OncePerUser>;

/// Sixteen rules.
pub type Sixteen = Fourfold<Four>;
