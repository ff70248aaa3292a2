// The minima kept right: of a record that leaves, of records that join, and from nothing.
ghost use Rattle.std.specs.Prelude.{◌≡◌, ℕ, ◌*◌, ◌+◌, ◌^◌, ◌≤◌, ◌<◌, length, get_or, set};
ghost use Rattle.stops.specs.Code.{empty_record};
ghost use Rattle.records.specs.Code.{records};
ghost use Rattle.lanes.specs.Sizes.{blocks, gone};
ghost use Rattle.lanes.specs.Code.{marked};
ghost use Rattle.blocks.specs.Code.{Least, BlockedBut, Blocked, Same, bound_at};

use lanes::constants::{BLOCKS, GONE};
use lanes::mark;
use records::bound_at;

// The least bound of the records from `from` to `to`; that of gone records if there is none.
pub fn least_in(w: &[u32], from: usize, to: usize) -> u32
    requires { (from ≤ to) × (to ≤ length (records w.now)) }
    ensures { Least (λ (i : ℕ). (from ≤ i) × (i < to)) (bound_at (records w.now)) result }
{
    let mut least = GONE;
    for i in from..to {
        least = least.min(bound_at(w, i));
    }
    least
}

// Finds the minimum of block k anew.
fn refresh(w: &[u32], used: usize, shift: u32, k: usize, index: &mut [u32])
    requires { BlockedBut k (records w.now) used (2 ^ shift) index.old × ((k < blocks) × (blocks * 2 ^ shift < 2 ^ 62)) }
    ensures { Blocked (records w.now) used (2 ^ shift) index.new × Same index.old index.new }
{
    let from = (k << shift).min(used);
    let to = ((k + 1) << shift).min(used);
    index[k] = least_in(w, from, to);
}

// Marks the record at i as gone, and finds the minimum of its block anew if it may have been the record's bound.
pub fn kill(w: &mut [u32], used: usize, shift: u32, i: usize, index: &mut [u32])
    requires { Blocked (records w.old) used (2 ^ shift) index.old × ((i < used) × (blocks * 2 ^ shift < 2 ^ 62)) }
    ensures { (records w.new ≡ set (records w.old) i (marked (get_or (records w.old) i empty_record))) × (Blocked (records w.new) used (2 ^ shift) index.new × Same index.old index.new) }
{
    let k = i >> shift;
    let bound = bound_at(w, i);
    mark(w, i);
    if index[k] < bound {
        return;
    }
    refresh(w, used, shift, k, index);
}

// The records from `from` to `to` join the blocks.
pub fn note(w: &[u32], from: usize, to: usize, shift: u32, index: &mut [u32])
    requires { Blocked (records w.now) from (2 ^ shift) index.old × ((from ≤ to) × ((to ≤ length (records w.now)) × ((to ≤ blocks * 2 ^ shift) × (blocks * 2 ^ shift < 2 ^ 62)))) }
    ensures { Blocked (records w.now) to (2 ^ shift) index.new × Same index.old index.new }
{
    for i in from..to {
        let k = i >> shift;
        index[k] = index[k].min(bound_at(w, i));
    }
}

// Clears the minima.
fn clear(index: &mut [u32])
    requires { blocks ≤ length index.old }
    ensures { ((k : ℕ) → k < blocks → get_or index.new k 0 ≡ gone) × Same index.old index.new }
{
    index[..BLOCKS].fill(GONE);
}

// The minima of the first `used` records, from nothing.
pub fn rebuild(w: &[u32], used: usize, shift: u32, index: &mut [u32])
    requires { (blocks ≤ length index.old) × ((used ≤ length (records w.now)) × ((used ≤ blocks * 2 ^ shift) × (blocks * 2 ^ shift < 2 ^ 62))) }
    ensures { Blocked (records w.now) used (2 ^ shift) index.new × Same index.old index.new }
{
    clear(index);
    note(w, 0, used, shift, index);
}

// A shift by which the blocks reach `used` places; from one that there is on, which answers do not depend on.
pub fn wide_enough(used: usize, shift: u32) -> u32
    requires { (used < 2 ^ 60) × (blocks * 2 ^ shift < 2 ^ 62) }
    ensures { (used ≤ blocks * 2 ^ result) × (blocks * 2 ^ result < 2 ^ 62) }
{
    let mut s = shift;
    while BLOCKS << s < used {
        s += 1;
    }
    s
}
