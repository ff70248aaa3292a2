// The table: the checks on its numbers, and the rows that the planner reckons with.
ghost use Rattle.std.specs.Prelude.{◌≡◌, not, suc, ◌*◌, ◌≤◌, ltb, length};
ghost use Rattle.sizes.specs.Sizes.{most_stops, dearest_leg, dearest_charge};
ghost use Rattle.lists.specs.Lists.{any, from};
ghost use Rattle.stops.specs.Tables.{entry, charge, flying, rows};
ghost use Rattle.stops.specs.Bounds.{ends_away};
ghost use Rattle.stops.specs.Code.{Priced, row_of, reckon_on};

use crate::bound::ends_away;
use crate::legs::leg;
use sizes::{DEAREST_CHARGE, DEAREST_LEG, PLACES};

// What flying counts from each place to each other, in rows of one length; unused numbers are 0.
pub type Rows = [[u32; PLACES]; PLACES];

// Whether no number is above the dearest leg.
pub fn small(table: &[u32]) -> bool
    ensures { result ≡ not (any (ltb dearest_leg) table.now) }
{
    for w in table {
        if DEAREST_LEG < *w {
            return false;
        }
    }
    true
}

// A number of the table.
fn entry(n: usize, table: &[u32], i: usize, j: usize) -> u32
    requires { (n ≤ most_stops) × ((length table.now ≡ suc n * suc n) × ((i ≤ n) × (j ≤ n))) }
    ensures { result ≡ entry n table.now i j }
{
    table[i * (n + 1) + j]
}

// What a landing is charged (request A.4).
fn charge(n: usize, table: &[u32], j: usize) -> u32
    requires { (n ≤ most_stops) × ((length table.now ≡ suc n * suc n) × (j ≤ n)) }
    ensures { result ≡ charge n table.now j }
{
    entry(n, table, j, j)
}

// Whether no landing charge is above the dearest.
pub fn small_charges(n: usize, table: &[u32]) -> bool
    requires { (n ≤ most_stops) × (length table.now ≡ suc n * suc n) }
    ensures { result ≡ not (any (λ j. ltb dearest_charge (charge n table.now j)) (from 0 (suc n))) }
{
    for j in 0..n + 1 {
        if DEAREST_CHARGE < charge(n, table, j) {
            return false;
        }
    }
    true
}

// What flying from one place to another costs: the leg, and the landing there (request A.4).
fn flying(n: usize, table: &[u32], i: usize, j: usize) -> u32
    requires { Priced n table.now × ((i ≤ n) × (j ≤ n)) }
    ensures { result ≡ flying n table.now i j }
{
    entry(n, table, i, j) + charge(n, table, j)
}

// One row: what flying from a place costs, and zeros.
fn row(n: usize, table: &[u32], i: usize) -> [u32; PLACES]
    requires { Priced n table.now × (i ≤ n) }
    ensures { result ≡ row_of n table.now i }
{
    let mut r = [0u32; PLACES];
    for j in 0..n + 1 {
        r[j] = flying(n, table, i, j);
    }
    r
}

// The rows of the table, for the day that a bound is for.
pub fn rows(n: usize, bound: u32, table: &[u32]) -> Rows
    requires { Priced n table.now }
    ensures { result ≡ rows n (ends_away bound) table.now }
{
    let mut t = [[0u32; PLACES]; PLACES];
    for i in 0..n + 1 {
        t[i] = row(n, table, i);
    }
    if ends_away(bound) {
        // no leg home counts
        for s in 0..n + 1 {
            t[s][0] = 0;
        }
    }
    t
}

// What a stop adds to the path cost of a node at a place: what flying there costs.
pub fn further(t: &Rows, place: u32, stop: u32) -> u32
    requires { (place ≤ most_stops) × (stop ≤ most_stops) }
    ensures { result ≡ (reckon_on t.now).further place stop }
{
    leg(t, place, stop)
}
