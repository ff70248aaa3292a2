// Full enumeration: of all n! orders, or those that respect the day's pairs (request A.6), the least cost and the smallest order that has it (A.8), from
// the table directly. Nothing of the planner is used.
ghost use Rattle.std.specs.Prelude.{◌≡◌, ◌*◌, ◌<◌, ◌≤◌, length, IfSome};
ghost use Rattle.sizes.specs.Sizes.{most_stops, places, order_places};

use sizes::ORDER_PLACES;

// Whether the first n numbers of x are an order of 1 to n: each of these stands among them, and so none stands there twice.
pub fn is_order(x: &[u8; ORDER_PLACES], n: usize) -> bool
    requires { n ≤ most_stops }
{
    let front = &x[..n];
    (1u8..).take(n).all(|s| front.contains(&s))
}

// The leg from place i to place j of a table whose rows are `side` long; none outside the table.
fn leg(table: &[u32], side: usize, i: u8, j: u8) -> Option<u64>
    requires { side ≤ places }
    ensures { IfSome result (λ cost. cost < 4294967296) }
{
    let leg = table.get(usize::from(i) * side + usize::from(j))?;
    Some(u64::from(*leg))
}

// What flying from place i to place j costs: the leg, and the charge that stands on the diagonal for a landing at j.
fn flying(table: &[u32], side: usize, i: u8, j: u8) -> Option<u64>
    requires { side ≤ places }
    ensures { IfSome result (λ cost. cost ≤ 8589934590) }
{
    Some(leg(table, side, i, j)? + leg(table, side, j, j)?)
}

// Stops of the pairs of six stops.
pub const PAIR_BYTES: usize = 6;

// A day of n stops, which ends at home, or away: at its last stop; how many pairs it has, and their stops, the first of each to be flown before the
// second.
#[derive(Clone, Copy)]
pub struct Day {
    pub n: usize,
    pub away: bool,
    pub paired: usize,
    pub pairs: [u8; PAIR_BYTES],
    ghost few: { (1 ≤ n) × (n ≤ 6) },
    ghost in_pairs: { 2 * paired ≤ 6 },
    ghost six: { 6 ≡ length pairs },
}

impl Day {
    // The stops of its pairs.
    pub fn pair_stops(&self) -> &[u8] {
        &self.pairs[..2 * self.paired]
    }
}

// Where s stands among the first n numbers of x; n if it does not.
fn place_of(x: &[u8; ORDER_PLACES], n: usize, s: u8) -> usize
    requires { n ≤ most_stops }
{
    x[..n].iter().position(|t| *t == s).unwrap_or(n)
}

// Whether the first stop of each of the day's pairs stands in x before the second.
pub fn respects(x: &[u8; ORDER_PLACES], day: Day) -> bool {
    for pair in day.pair_stops().chunks_exact(2) {
        if place_of(x, day.n, pair[1]) < place_of(x, day.n, pair[0]) {
            return false;
        }
    }
    true
}

// Whether x is an order of the day's stops that respects its pairs.
pub fn allowed(x: &[u8; ORDER_PLACES], day: Day) -> bool {
    is_order(x, day.n) && respects(x, day)
}

// The cost of a day's order, from home to where the day ends; none if it leaves the table.
fn cost_in(table: &[u32], x: &[u8; ORDER_PLACES], day: Day) -> Option<u64> {
    let side = day.n + 1;
    let mut sum = 0;
    let mut place = 0;
    for s in &x[..day.n] {
        sum += flying(table, side, place, *s)?;
        place = *s;
    }
    if !day.away {
        sum += flying(table, side, place, 0)?;
    }
    Some(sum)
}

// The same; above every cost if it leaves the table.
pub fn cost_of(table: &[u32], x: &[u8; ORDER_PLACES], day: Day) -> u64 {
    cost_in(table, x, day).unwrap_or(u64::MAX)
}

// How many sequences of n numbers from 1 to n there are.
pub fn sequences(n: usize) -> u64
    ensures { (1 ≤ result) × (result ≤ 46656) }
{
    match n {
        1 => 1,
        2 => 4,
        3 => 27,
        4 => 256,
        5 => 3_125,
        _ => 46_656,
    }
}

// Sequence k of a day's n stops, and zeros: the digits of k to the base n, the lowest last, so that the sequences ascend stop by stop.
pub fn sequence(day: Day, k: u64) -> [u8; ORDER_PLACES]
    ensures { order_places ≡ length result }
{
    let base = day.n as u64;
    let mut x = [0u8; ORDER_PLACES];
    let mut rest = k;
    for i in (0..day.n).rev() {
        x[i] = (rest % base + 1) as u8;
        rest /= base;
    }
    x
}

// The least cost, and the smallest of the orders that cost it.
#[derive(Clone, Copy)]
pub struct Optimum {
    pub cost: u64,
    pub order: [u8; ORDER_PLACES],
    ghost whole: { order_places ≡ length order },
}

// The least cost over all orders that respect the pairs, and the smallest of the orders that cost it (request A.8): the first of them. Above every cost, and
// zeros, if there is no order.
pub fn best(table: &[u32], day: Day) -> Optimum
    ensures { order_places ≡ length result.order }
{
    (0..sequences(day.n))
        .map(|k| sequence(day, k))
        .filter(|order| allowed(order, day))
        .filter_map(|order| Some(Optimum {
            cost: cost_in(table, &order, day)?,
            order,
        }))
        .min_by_key(|optimum| optimum.cost)
        .unwrap_or(Optimum {
            cost: u64::MAX,
            order: [0u8; ORDER_PLACES],
        })
}
