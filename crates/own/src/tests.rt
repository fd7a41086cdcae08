// How many places there are in piles of 1, 2, 16, 64, 128 and 256 rules.
ghost use Rattle.std.specs.Prelude.{[], ◌∷◌, replicate};
ghost use Rattle.own.specs.Lenient.{lenient};
ghost use Rattle.std.proofs.Common.{rules};

use crate::once::OncePerUser;
use crate::piles::{Fourfold, Sixteen, Two, Twofold};
use monitor::{PossibleEvent, Reason, Rule};
use std::process::Abort;

// A rule that admits every event, and holds nothing.
#[derive(Clone, Copy, Default)]
struct Lenient {}

impl Rule for Lenient {
    ghost rules = { λ _. lenient ∷ [] };

    ghost some = { Prim.search rules };

    ghost lawful = { Prim.search rules };

    fn consult(&self, possible: PossibleEvent) -> Result<(), Reason> {
        Ok(())
    }

    fn places(&self) -> u8 {
        1
    }
}

// Sixteen of them under one name.
#[derive(Default, Drop)]
struct SixteenLenient {
    pile: Fourfold<Fourfold<Lenient>>,
}

impl Rule for SixteenLenient {
    ghost rules = { λ _. replicate 16 lenient };

    ghost some = { Prim.search rules };

    ghost lawful = { Prim.search rules };

    fn consult(&self, possible: PossibleEvent) -> Result<(), Reason> {
        self.pile.consult(possible)
    }

    fn places(&self) -> u8 {
        self.pile.places()
    }
}

// The pile has so many places.
fn has_places<P: Default + Rule + Drop>(rt: &impl Abort, places: u8) {
    assert_eq!(rt; P::default().places(), places);
}

#[test]
fn places_up_to_16(rt: HostRuntime) {
    has_places::<OncePerUser>(&rt, 1);
    has_places::<Two>(&rt, 2);
    has_places::<Sixteen>(&rt, 16);
}

#[test]
fn places_of_64(rt: HostRuntime) {
    has_places::<Fourfold<SixteenLenient>>(&rt, 64);
}

#[test]
fn places_of_128(rt: HostRuntime) {
    has_places::<Fourfold<Twofold<SixteenLenient>>>(&rt, 128);
}

#[test]
fn places_of_256(rt: HostRuntime) {
    has_places::<Fourfold<Fourfold<SixteenLenient>>>(&rt, 255);
}
