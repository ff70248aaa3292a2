// A first order for a host (requests A.1, A.5 and A.6): `first_order` is open to a caller. The functions of `nearest` and `exchange` are this crate's
// own, and what they require `first_order` meets. specs/First of crate `first_answer` says what it answers; specs/Code is the code's own.
#![tactic(auto)]

ghost use Rattle.std.specs.Prelude.{◌≡◌, ◌≤◌, length};
ghost use Rattle.sizes.specs.Sizes.{most_stops};
ghost use Rattle.orders.specs.Pairs.{Pairing};
ghost use Rattle.stops.specs.Legs.{legs, cost};
ghost use Rattle.stops.specs.Code.{Cheap};
ghost use Rattle.pairs.specs.Code.{pairs_in};
ghost use Rattle.answer.specs.Checks.{first_cause};
ghost use Rattle.first_answer.specs.Nearest.{nearest};
ghost use Rattle.first_answer.specs.Exchanges.{improved};
ghost use Rattle.first_answer.specs.First.{legs_of, first_of, Promised};
ghost use Rattle.first_order.specs.Code.{allowed_by};

mod exchange;
mod nearest;
mod terms;

use crate::nearest::nearest_order;
use crate::terms::Terms;
use checks::first_cause;
use first_answer::FirstOrder;
use pairs::{Precedence, precedence_of};
use sizes::ORDER_PLACES;
use stops::table::{Rows, rows};

// Writes the first order of as many stops as x has places, and returns its cost.
fn make(t: &Rows, precedence: Precedence, x: &mut [u8]) -> u32
    requires { Cheap t.now × ((1 ≤ length x.old) × ((length x.old ≤ most_stops) × Pairing (length x.old) (pairs_in precedence))) }
    ensures { (x.new ≡ improved (legs t.now) (allowed_by precedence) (nearest (length x.old) (legs t.now) (allowed_by precedence))) × (result ≡ cost (legs t.now) x.new) }
{
    nearest_order(t, precedence, x);
    let terms = Terms {
        n: x.len() as u32,
        t,
        precedence,
    };
    terms.improve(x)
}

// The same by a table and a pair file that pass. The rows stand in a function of its own, so that a refusal doesn't pay for their places.
fn make_from(bound: u32, table: &[u32], pairs: &[u8], x: &mut [u8]) -> u32
    requires { first_cause (length x.old) bound table.now pairs.now ≡ 0 }
    ensures { (x.new ≡ first_of (length x.old) bound table.now pairs.now) × (result ≡ cost (legs_of (length x.old) bound table.now) x.new) }
{
    let t = rows(x.len(), bound, table);
    make(&t, precedence_of(pairs), x)
}

// The order that the unit makes of the stops 1 to n by itself, for the day that the bound is for (request A.5) and with the pairs of a pair file
// (request A.6), and its cost; or the number of the first of causes 1 to 4 and 11 that applies.
pub fn first_order(n: u32, bound: u32, table: &[u32], pairs: &[u8]) -> FirstOrder
    ensures { Promised n bound table.now pairs.now result }
{
    let mut order = [0u8; ORDER_PLACES];
    if let Err(refusal) = first_cause(n, bound, table, pairs) {
        return FirstOrder {
            number: u32::from(refusal),
            cost: 0,
            order,
        };
    }
    let cost = make_from(bound, table, pairs, &mut order[..n as usize]);
    FirstOrder {
        number: 0,
        cost,
        order,
    }
}
