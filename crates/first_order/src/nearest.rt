// The nearest-stop order. A set of stops is a word: bit s-1 is stop s's.
ghost use Rattle.std.specs.Prelude.{◌≡◌, [], ◌∷◌, ◌^◌, ◌≤◌, ◌<◌, length};
ghost use Rattle.sizes.specs.Sizes.{most_stops};
ghost use Rattle.orders.specs.Pairs.{Pairing};
ghost use Rattle.stops.specs.Legs.{legs};
ghost use Rattle.stops.specs.Code.{stops_in};
ghost use Rattle.pairs.specs.Code.{pairs_in};
ghost use Rattle.first_answer.specs.Nearest.{nearest};
ghost use Rattle.first_order.specs.Code.{nearest_in, allowed_by};

use pairs::{Precedence, ready};
use stops::sets::{later, next, stops_of, without};
use stops::table::{Rows, further};

// The nearer of two stops from a place, a of equals.
fn nearer(t: &Rows, place: u32, a: u32, b: u32) -> u32
    requires { (place ≤ most_stops) × ((a ≤ most_stops) × (b ≤ most_stops)) }
    ensures { (result ≡ nearest_in ((legs t.now).leg place) (a ∷ b ∷ [])) × (result ≤ most_stops) }
{
    if further(t, place, b) < further(t, place, a) {
        b
    } else {
        a
    }
}

// Of the stops of a set the nearest to a place, the lowest of equals.
fn nearest_stop(t: &Rows, place: u32, rest: u32) -> u32
    requires { (place ≤ most_stops) × ((0 < rest) × (rest < 2 ^ most_stops)) }
    ensures { result ≡ nearest_in ((legs t.now).leg place) (stops_in rest) }
{
    let mut found = next(rest);
    for s in stops_of(later(rest)) {
        found = nearer(t, place, found, s);
    }
    found
}

// Writes the nearest-stop order of as many stops as x has places: each time the nearest of the stops that need not wait (request A.6).
pub fn nearest_order(t: &Rows, precedence: Precedence, x: &mut [u8])
    requires { (length x.old ≤ most_stops) × Pairing (length x.old) (pairs_in precedence) }
    ensures { x.new ≡ nearest (length x.old) (legs t.now) (allowed_by precedence) }
{
    let mut rest = (1u32 << x.len()) - 1;
    let mut place = 0;
    for k in 0..x.len() {
        let open = ready(precedence, rest);
        let s = nearest_stop(t, place, open);
        rest = without(rest, s);
        x[k] = s as u8;
        place = s;
    }
}
