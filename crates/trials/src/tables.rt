// Table k: how many stops, where its day ends, which pairs it has, of which kind, and legs and landing charges by a generator that k starts.
ghost use Rattle.std.specs.Prelude.{◌≡◌, ◌+◌, ◌<◌, ◌≤◌, length};
ghost use Rattle.sizes.specs.Sizes.{dearest_leg, dearest_charge, order_places};

use crate::enumerate::{Day, PAIR_BYTES, allowed, sequence, sequences};
use sizes::{DEAREST_CHARGE, DEAREST_LEG, ORDER_PLACES};

// The number after x of a sequence that looks random.
pub fn next(x: u64) -> u64
    ensures { result < 2147483647 }
{
    (x % 2_147_483_647 + 1) * 48_271 % 2_147_483_647
}

// How many tables there are of up to five stops, and in all.
pub const SMALL: u64 = 1_500;

pub const TABLES: u64 = 1_530;

// How many stops table k has: 1 to 5 in turn, and 6 behind these.
fn stops_in(k: u64) -> usize
    ensures { (1 ≤ result) × (result ≤ 6) }
{
    if k < SMALL { (k % 5 + 1) as usize } else { 6 }
}

// How many pairs the day of table k has: none for every other two runs of tables of all kinds, then one to as many as its n stops make.
fn paired_in(k: u64, n: usize) -> usize
    requires { n ≤ 6 }
    ensures { result ≤ 3 }
{
    if n < 2 || k / TABLE_KINDS / 2 % 2 == 0 {
        return 0;
    }
    (k / TABLE_KINDS / 4 % (n as u64 / 2) + 1) as usize
}

// The day of table k: it ends away for every other run of tables of all kinds, and its pairs are stops behind one another in some order: that of the
// first sequence, from a place in the lower half on, which is one.
pub fn day_of(k: u64) -> Day
    ensures { (1 ≤ result.n) × (result.n ≤ 6) }
{
    let n = stops_in(k);
    let away = k / TABLE_KINDS % 2 == 1;
    let mut pairs = [0u8; PAIR_BYTES];
    let without = Day {
        n,
        away,
        paired: 0,
        pairs,
    };
    let order = order_from(without, next(next(k)) % (sequences(n) / 2 + 1));
    pairs.copy_from_slice(&order[..PAIR_BYTES]);
    Day {
        n,
        away,
        paired: paired_in(k, n),
        pairs,
    }
}

// The kinds of legs and charges together.
const TABLE_KINDS: u64 = 24;

// The numbers of a kind: from `least` on, so many different ones.
#[derive(Clone, Copy)]
struct Kind {
    least: u64,
    span: u64,
}

// The legs of table k: all equal, ties among few, ties among the longest, some, and any.
fn legs_of(k: u64) -> Kind
    ensures { (1 ≤ result.span) × (result.least + result.span ≤ dearest_leg + 1) }
{
    match k % 6 {
        0 => Kind { least: 7, span: 1 },
        1 => Kind { least: 0, span: 2 },
        2 => Kind { least: 0, span: 3 },
        3 => Kind {
            least: u64::from(DEAREST_LEG) - 2,
            span: 3,
        },
        4 => Kind { least: 1, span: 20 },
        _ => Kind {
            least: 0,
            span: u64::from(DEAREST_LEG) + 1,
        },
    }
}

// Its landing charges: none for half of the tables, few, and any.
fn charges_of(k: u64) -> Kind
    ensures { (1 ≤ result.span) × (result.least + result.span ≤ dearest_charge + 1) }
{
    match k / 6 % 4 {
        0 => Kind { least: 0, span: 4 },
        1 => Kind {
            least: 0,
            span: u64::from(DEAREST_CHARGE) + 1,
        },
        _ => Kind { least: 0, span: 1 },
    }
}

// A number of a kind, by x.
fn drawn(kind: Kind, x: u64) -> u32
    requires { (1 ≤ kind.span) × (kind.least + kind.span ≤ dearest_leg + 1) }
{
    (kind.least + x % kind.span) as u32
}

// Numbers of a table of six stops.
pub const TABLE: usize = 49;

// Table k, of n stops, with the charges on its diagonal; its numbers stand at the front.
pub fn table_of(k: u64, n: usize) -> [u32; TABLE]
    requires { n ≤ 6 }
    ensures { 49 ≡ length result }
{
    let legs = legs_of(k);
    let charges = charges_of(k);
    let mut table = [0u32; TABLE];
    let mut x = k;
    for (i, place) in table.iter_mut().enumerate() {
        x = next(x);
        let kind = if i % (n + 2) == 0 { charges } else { legs };
        *place = drawn(kind, x);
    }
    table
}

// An order of a day: that of the first sequence, from number x on and then from the first on, which respects its pairs.
pub fn order_from(day: Day, x: u64) -> [u8; ORDER_PLACES]
    requires { x < 2147483647 }
    ensures { order_places ≡ length result }
{
    let end = sequences(day.n);
    (x..x + end)
        .map(|k| sequence(day, k % end))
        .find(|order| allowed(order, day))
        .unwrap_or([0u8; ORDER_PLACES])
}
