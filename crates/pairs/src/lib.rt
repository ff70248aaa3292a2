// The pairs of a call (request A.6), as the code holds them: for each stop the set of the stops that must be flown before it. specs/Code says which pairs
// these are, and proofs/ that they are those of the pair file. The functions are public for the crates above and not for hosts; what they require, those
// crates meet.
#![tactic(auto)]

ghost use Rattle.std.specs.Prelude.{◌≡◌, ◌^◌, ◌≤◌, ◌<◌};
ghost use Rattle.sizes.specs.Sizes.{most_stops};
ghost use Rattle.orders.specs.Orders.{Partial};
ghost use Rattle.orders.specs.Pairs.{Pairing, respects};
ghost use Rattle.pairs.specs.Code.{OfStops, precedence_of, pairs_in, Readied};

use sizes::PLACES;
use stops::sets::{stops_of, with, without};

// For each stop the set of the stops that must be flown before it, where there are pairs at all.
#[derive(Clone, Copy)]
pub struct Precedence {
    pub before: Option<[u32; PLACES]>,
}

// The precedence that the pairs of a pair file make, two bytes a pair.
pub fn precedence_of(pairs: &[u8]) -> Precedence
    requires { OfStops pairs.now }
    ensures { result ≡ precedence_of pairs.now }
{
    if pairs.is_empty() {
        return Precedence { before: None };
    }
    let mut before = [0u32; PLACES];
    for pair in pairs.chunks_exact(2) {
        before[usize::from(pair[1])] = 1u32 << (pair[0] - 1);
    }
    Precedence {
        before: Some(before),
    }
}

// The stops to come that need not wait, all of them where there are no pairs.
pub fn ready(precedence: Precedence, rest: u32) -> u32
    requires { rest < 2 ^ most_stops }
    ensures { Readied precedence rest result }
{
    let Some(before) = precedence.before else {
        return rest;
    };
    let mut found = 0;
    for s in stops_of(rest) {
        if before[s as usize] & rest == 0 {
            found = with(found, s);
        }
    }
    found
}

// Whether the stops of x, flown one after another, each come behind those that must be flown before them.
pub fn respected(precedence: Precedence, n: u32, x: &[u8]) -> bool
    requires { (n ≤ most_stops) × (Pairing n (pairs_in precedence) × Partial n x.now) }
    ensures { result ≡ respects (pairs_in precedence) x.now }
{
    let Some(before) = precedence.before else {
        return true;
    };
    let mut rest = (1u32 << n) - 1;
    for s in x {
        let s = u32::from(*s);
        if before[s as usize] & rest != 0 {
            return false;
        }
        rest = without(rest, s);
    }
    true
}
