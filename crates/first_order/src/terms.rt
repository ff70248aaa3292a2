// What the exchanges of a first order go by.
ghost use Rattle.std.specs.Prelude.{◌≤◌};
ghost use Rattle.sizes.specs.Sizes.{most_stops};
ghost use Rattle.orders.specs.Pairs.{Pairing};
ghost use Rattle.stops.specs.Code.{Cheap};
ghost use Rattle.pairs.specs.Code.{pairs_in};

use pairs::Precedence;
use stops::table::Rows;

// How many stops there are, what flying counts, and what must be flown before what.
#[derive(Clone, Copy)]
pub struct Terms<'a> {
    pub n: u32,
    pub t: &'a Rows,
    pub precedence: Precedence,
    ghost some: { 1 ≤ n },
    ghost few: { n ≤ most_stops },
    ghost cheap: { Cheap t.now },
    ghost pairing: { Pairing n (pairs_in precedence) },
}
