// From the layout while a call works (active records at the front, branched ones at the far end, latest first, a gap between) to
// document 01's: active, branched with the earliest first, zeros.
ghost use Rattle.std.specs.Prelude.{◌≡◌, ◌++◌, reverse, ◌+◌, ◌-◌, ◌≤◌, length, take, drop, replicate};
ghost use Rattle.std.proofs.Math.Seq.{slice};
ghost use Rattle.stops.specs.Code.{empty_record};
ghost use Rattle.records.specs.Code.{records, Sifted, always};
ghost use Rattle.lanes.specs.Code.{live_of, far_of};

use lanes::constants::EVERY_BOUND;
use lanes::layout::Layout;
use lanes::squeeze::{resize, squeeze};
use records::{load, store};
use stops::node_record::Record;

// Turns the records from `from` to `to` around.
fn turn(w: &mut [u32], from: usize, to: usize)
    requires { (from ≤ to) × (to ≤ length (records w.old)) }
    ensures { records w.new ≡ take from (records w.old) ++ (reverse (slice from to (records w.old)) ++ drop to (records w.old)) }
{
    for k in 0..(to - from) / 2 {
        let i = from + k;
        let j = to - 1 - k;
        let x = load(w, i);
        let y = load(w, j);
        store(w, i, y);
        store(w, j, x);
    }
}

// Moves the records from `from` to `to` to `at` and behind it.
fn slide(w: &mut [u32], from: usize, to: usize, at: usize) -> usize
    requires { (at ≤ from) × ((from ≤ to) × (to ≤ length (records w.old))) }
    ensures { Sifted always (records w.old) from to at (records w.new) result }
{
    if at == from {
        return to;
    }
    let mut next = at;
    for i in from..to {
        let x = load(w, i);
        store(w, next, x);
        next += 1;
    }
    next
}

// Clears the records from `from` on.
fn clear(w: &mut [u32], capacity: usize, from: usize)
    requires { (capacity ≡ length (records w.old)) × (from ≤ capacity) }
    ensures { records w.new ≡ take from (records w.old) ++ replicate (capacity - from) empty_record }
{
    for k in from..capacity {
        store(w, k, Record::empty());
    }
}

// Lays out a pool with its first records active and its last ones, at the far end, branched.
fn lay_out(w: &mut [u32], capacity: usize, active: usize, far: usize)
    requires { (capacity ≡ length (records w.old)) × (active + far ≤ capacity) }
    ensures { records w.new ≡ take active (records w.old) ++ (reverse (drop (capacity - far) (records w.old)) ++ replicate (capacity - (active + far)) empty_record) }
{
    let from = capacity - far;
    turn(w, from, capacity);
    let end = slide(w, from, capacity, active);
    clear(w, capacity, end);
}

// Puts everything back into document 01's layout: the nodes of both lanes with their sizes, and zeros behind.
pub fn settle(w: &mut [u32], p: Layout)
    requires { (p.capacity ≡ length (records w.old)) × (p.used + p.far ≤ p.capacity) }
    ensures { records w.new ≡ live_of p.used (records w.old) ++ (reverse (far_of p.far (records w.old)) ++ replicate (p.capacity - (length (live_of p.used (records w.old)) + p.far)) empty_record) }
{
    let from = p.capacity - p.far;
    let active = squeeze(w, p.used, EVERY_BOUND);
    resize(w, 0, active);
    resize(w, from, p.capacity);
    lay_out(w, p.capacity, active, p.far);
}
