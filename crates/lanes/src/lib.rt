// The pool while a call works. Its records stand in two lanes: the active ones from its first place on, the earliest generated first; the
// branched ones (rule 4) from its last place on, the earliest branched first. An active record that leaves keeps its place and gets a bound
// that no node has: it is gone, until the lane is squeezed. The size of a node is that of its set, so that the size word of a record is free
// while a call works; crate `chains` keeps a link there. specs/Code has how lanes show lists of nodes. The functions are public for the
// crates above and not for hosts; what they require, those crates meet.
#![tactic(auto)]

ghost use Rattle.std.specs.Prelude.{◌≡◌, ◌-◌, ◌≤◌, ◌<◌, length, get_or, set};
ghost use Rattle.stops.specs.Code.{empty_record};
ghost use Rattle.records.specs.Code.{records};
ghost use Rattle.lanes.specs.Code.{place_of, sized, is_live, marked};

pub mod constants;
pub mod layout;
pub mod squeeze;

use crate::constants::GONE;
use records::{bound_at, load, store};
use stops::node_record::Record;

// A lane of the pool: with `end` 0 its records stand at places 0, 1, 2 .., else at end-1, end-2 .., `count` of them. If it is linked,
// its chains start at `heads` in the index.
#[derive(Clone, Copy)]
pub struct Lane {
    pub end: usize,
    pub count: usize,
    pub heads: usize,
    pub linked: bool,
}

// The place of record c of a lane, counted from 1.
pub fn place(end: usize, c: usize) -> usize
    requires { (1 ≤ c) × (0 < end → c ≤ end) }
    ensures { result ≡ place_of end c }
{
    if end == 0 {
        return c - 1;
    }
    end - c
}

// The record at a place, with its size.
pub fn sized_at(w: &[u32], i: usize) -> Record
    requires { i < length (records w.now) }
    ensures { result ≡ sized (get_or (records w.now) i empty_record) }
{
    let mut x = load(w, i);
    x.size = u32::count_ones(x.set);
    x
}

// Whether the record at a place is a node, and not gone.
pub fn live(w: &[u32], i: usize) -> bool
    requires { i < length (records w.now) }
    ensures { result ≡ is_live (get_or (records w.now) i empty_record) }
{
    bound_at(w, i) < GONE
}

// Marks the record at a place as gone.
pub fn mark(w: &mut [u32], i: usize)
    requires { i < length (records w.old) }
    ensures { records w.new ≡ set (records w.old) i (marked (get_or (records w.old) i empty_record)) }
{
    let mut x = load(w, i);
    x.bound = GONE;
    store(w, i, x);
}
