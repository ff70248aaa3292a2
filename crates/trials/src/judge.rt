// What a report is held against: the best order, the table, and its own counts.
use crate::enumerate::{Day, Optimum, allowed, cost_of};
use answer::Report;
use first_answer::FirstOrder;
use sizes::ORDER_PLACES;

// The number of a report whose run filled the pool.
const POOL_FULL: u32 = 7;

// How a run ended whose report is right.
#[derive(Clone, Copy)]
pub enum Ending {
    // with the smallest of the cheapest orders
    Best,
    // with a full pool
    Full,
    // stopped by its budget, with an order known
    WithOrder,
    // and with none
    WithNone,
    // within its budget, with the report of the whole run
    Finished,
}

// A table, its day, and the best order.
#[derive(Clone, Copy)]
pub struct Table<'a> {
    pub numbers: &'a [u32],
    pub day: Day,
    pub best: Optimum,
}

// Whether generated = branched + eliminated + active.
pub fn adds_up(r: Report) -> bool {
    let others = r.generated.checked_sub(r.branched);
    others.and_then(|n| n.checked_sub(r.eliminated)) == Some(r.active)
}

// Whether x has zeros alone from place n on.
pub fn zeros(x: &[u8; ORDER_PLACES], n: usize) -> bool {
    x.iter().skip(n).all(|s| *s == 0)
}

// Whether x is an order of the day's stops that respects its pairs, and zeros, and its cost is the one given, which is not below the least.
pub fn priced(t: Table, cost: u32, x: &[u8; ORDER_PLACES]) -> bool {
    let cost = u64::from(cost);
    let known = zeros(x, t.day.n) && allowed(x, t.day) && t.best.cost <= cost;
    known && cost_of(t.numbers, x, t.day) == cost
}

// A first order is right if it is an order that respects the pairs, its cost is the one given, and that is not below the least.
pub fn first_right(t: Table, r: FirstOrder) -> bool {
    let order = r.order;
    r.number == 0 && priced(t, r.cost, &order)
}

// A finished report is right if its cost is the least and its order the smallest of that cost (request A.8); a full one if it has no cost and no order.
// Neither has a mark or a floor.
pub fn judged(best: Optimum, r: Report) -> Option<Ending> {
    if !adds_up(r) || r.mark != 0 || r.floor != 0 {
        return None;
    }
    let order = r.order;
    match r.number {
        0 => (u64::from(r.cost) == best.cost && order == best.order).then_some(Ending::Best),
        POOL_FULL => (r.cost == 0 && zeros(&order, 0)).then_some(Ending::Full),
        _ => None,
    }
}
