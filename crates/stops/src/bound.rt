// Which bound a number names, and what it adds to the path cost.
ghost use Rattle.std.specs.Prelude.{◌≡◌, ◌∷◌, ◌^◌, ◌≤◌, ◌<◌};
ghost use Rattle.sizes.specs.Sizes.{most_stops};
ghost use Rattle.lists.specs.Lists.{least};
ghost use Rattle.stops.specs.Legs.{row_leg, legs};
ghost use Rattle.stops.specs.Bounds.{ends_away, is_close, remainder};
ghost use Rattle.stops.specs.Code.{stops_in, reckon_on, Cheap};

use crate::legs::leg;
use crate::sets::{later, next, stops_of, without};
use crate::table::Rows;

// Whether a bound is for a day that ends away (request A.5).
pub fn ends_away(bound: u32) -> bool
    ensures { result ≡ ends_away bound }
{
    2 <= bound
}

// Whether a bound is close, for a day that ends at home or away.
#[tactic(auto, unfolding(crate::specs::Bounds::is_close))]
pub fn is_close(bound: u32) -> bool
    ensures { result ≡ is_close bound }
{
    matches!(bound, 1 | 3)
}

// The cheapest leg into a place from one of some stops.
pub fn cheapest(t: &Rows, stops: u32, to: u32) -> u32
    requires { (0 < stops) × ((stops < 2 ^ most_stops) × (to ≤ most_stops)) }
    ensures { result ≡ least (λ s. row_leg t.now s to) (stops_in stops) }
{
    let mut least = leg(t, next(stops), to);
    for s in stops_of(later(stops)) {
        least = least.min(leg(t, s, to));
    }
    least
}

// The cheapest leg into s from a place or one of some other stops.
fn into(t: &Rows, place: u32, others: u32, s: u32) -> u32
    requires { (place ≤ most_stops) × ((others < 2 ^ most_stops) × (s ≤ most_stops)) }
    ensures { result ≡ least (λ p. row_leg t.now p s) (place ∷ stops_in others) }
{
    let from_place = leg(t, place, s);
    if others == 0 {
        return from_place;
    }
    from_place.min(cheapest(t, others, s))
}

// For each stop to come the cheapest leg into it, and the cheapest leg home.
fn remainder(t: &Rows, place: u32, rest: u32) -> u32
    requires { (place ≤ most_stops) × ((0 < rest) × ((rest < 2 ^ most_stops) × Cheap t.now)) }
    ensures { result ≡ remainder (legs t.now) place (stops_in rest) }
{
    let mut sum = cheapest(t, rest, 0);
    for s in stops_of(rest) {
        sum += into(t, place, without(rest, s), s);
    }
    sum
}

// What a bound, plain or close, adds to the path cost of a node at a place that has the stops of rest to come.
pub fn ahead(t: &Rows, bound: u32, place: u32, rest: u32) -> u32
    requires { (place ≤ most_stops) × ((rest < 2 ^ most_stops) × Cheap t.now) }
    ensures { result ≡ (reckon_on t.now).ahead bound place (stops_in rest) }
{
    if rest == 0 {
        return leg(t, place, 0);
    }
    if is_close(bound) {
        return remainder(t, place, rest);
    }
    0
}
