// Nodes that are not complete, looked for from the front or from the end: place by place, and block by block.
ghost use Rattle.std.specs.Prelude.{◌≡◌, ℕ, ◌*◌, ◌+◌, ◌^◌, ◌≤◌, ◌<◌, length, get_or};
ghost use Rattle.stops.specs.Code.{empty_record};
ghost use Rattle.records.specs.Code.{records};
ghost use Rattle.lanes.specs.Sizes.{blocks};
ghost use Rattle.blocks.specs.Code.{Blocked, in_block};
ghost use Rattle.selection.specs.Code.{nth_of, is_open, FirstOpen};

use blocks::find::blocks_of;
use lanes::layout::Layout;
use records::{bound_at, set_at};

// Number c of those from `from` to `to`, counted from 0 and from the front or, if late, from the end.
fn nth(late: bool, from: usize, to: usize, c: usize) -> usize
    requires { from + c < to }
    ensures { result ≡ nth_of late from to c }
{
    if late { to - 1 - c } else { from + c }
}

// Whether record i has a bound up to a limit and is not complete, of n stops.
pub fn open(w: &[u32], i: usize, limit: u32, n: u32) -> bool
    requires { i < length (records w.now) }
    ensures { result ≡ is_open n limit (get_or (records w.now) i empty_record) }
{
    bound_at(w, i) <= limit && u32::count_ones(set_at(w, i)) != n
}

// The first or, if late, the last open record of those from `from` to `to`, if there is one.
pub fn open_in(w: &[u32], from: usize, to: usize, late: bool, limit: u32, n: u32) -> Option<usize>
    requires { (from ≤ to) × (to ≤ length (records w.now)) }
    ensures { FirstOpen late (λ (i : ℕ). (from ≤ i) × (i < to)) n limit (records w.now) result }
{
    for c in 0..to - from {
        let i = nth(late, from, to, c);
        if open(w, i, limit, n) {
            return Some(i);
        }
    }
    None
}

// The same of the records in block k: none is open if the block's minimum is above the limit.
fn open_in_block(
    w: &[u32],
    p: Layout,
    k: usize,
    late: bool,
    limit: u32,
    n: u32,
    index: &[u32],
) -> Option<usize>
    requires { (Blocked (records w.now) p.used (2 ^ p.shift) index.now × (blocks * 2 ^ p.shift < 2 ^ 62)) × (k < blocks) }
    ensures { FirstOpen late (in_block p.used (2 ^ p.shift) k) n limit (records w.now) result }
{
    if limit < index[k] {
        return None;
    }
    let from = (k << p.shift).min(p.used);
    let to = ((k + 1) << p.shift).min(p.used);
    open_in(w, from, to, late, limit, n)
}

// The same of all records in use.
pub fn first_open(
    w: &[u32],
    p: Layout,
    late: bool,
    limit: u32,
    n: u32,
    index: &[u32],
) -> Option<usize>
    requires { (Blocked (records w.now) p.used (2 ^ p.shift) index.now × (blocks * 2 ^ p.shift < 2 ^ 62)) × (1 ≤ p.used) }
    ensures { FirstOpen late (λ (i : ℕ). i < p.used) n limit (records w.now) result }
{
    let end = blocks_of(p.used, p.shift);
    for c in 0..end {
        if let Some(i) = open_in_block(w, p, nth(late, 0, end, c), late, limit, n, index) {
            return Some(i);
        }
    }
    None
}
