// Records that join a lane: each gets its link and becomes the head of its chain.
ghost use Rattle.std.specs.Prelude.{◌≡◌, ◌++◌, ℕ, ◌+◌, ◌-◌, ◌^◌, ◌≤◌, ◌<◌, T, length, get_or, set, take, drop};
ghost use Rattle.lanes.specs.Sizes.{heads};
ghost use Rattle.lanes.specs.Code.{place_of};
ghost use Rattle.records.specs.Code.{records, slots, Slotted};
ghost use Rattle.chains.specs.Code.{Inside, Chained, joined_of, index_with, joined_all, index_all, Relinked, Only};

use crate::walk::bucket;
use lanes::constants::HEADS;
use lanes::{Lane, place, sized_at};
use records::{load, slot, store};
use sizes::RECORD_WORDS;
use stops::node_record::Record;
use stops::sets::stops_of;

// The record x as number c of a lane: with the link that it gets, and in the index the head of its chain.
fn joined(x: Record, p: Lane, c: usize, index: &mut [u32]) -> Record
    requires { T p.linked → (c < 2 ^ 32) × (p.heads + heads ≤ length index.old) }
    ensures { (result ≡ joined_of p index.old x) × (index.new ≡ index_with p c index.old x) }
{
    if !p.linked {
        return x;
    }
    let h = p.heads + bucket(x);
    let mut y = x;
    y.size = index[h];
    index[h] = c as u32;
    y
}

// Clears the heads of a lane.
fn clear(index: &mut [u32], from: usize)
    requires { from + heads ≤ length index.old }
    ensures { ((h : ℕ) → h < heads → get_or index.new (from + h) 0 ≡ 0) × Only from index.old index.new }
{
    index[from..from + HEADS].fill(0);
}

// Links a lane from nothing.
pub fn relink(w: &mut [u32], p: Lane, index: &mut [u32])
    requires { Inside (records w.old) p × (T p.linked → (p.count < 2 ^ 32) × (p.heads + heads ≤ length index.old)) }
    ensures { (T p.linked → Chained (records w.new) p index.new) × (Only p.heads index.old index.new × Relinked (records w.old) p (records w.new)) }
{
    if !p.linked {
        return;
    }
    clear(index, p.heads);
    for k in 0..p.count {
        let i = place(p.end, k + 1);
        let x = sized_at(w, i);
        store(w, i, joined(x, p, k + 1, index));
    }
}

// The record x, which has its size, joins a lane behind its records.
pub fn hold(w: &mut [u32], p: Lane, x: Record, index: &mut [u32])
    requires { (0 < p.end → p.count < p.end) × ((place_of p.end (p.count + 1) < length (records w.old)) × (T p.linked → (p.count + 1 < 2 ^ 32) × (p.heads + heads ≤ length index.old))) }
    ensures { (records w.new ≡ set (records w.old) (place_of p.end (p.count + 1)) (joined_of p index.old x)) × (index.new ≡ index_with p (p.count + 1) index.old x) }
{
    let c = p.count + 1;
    store(w, place(p.end, c), joined(x, p, c, index));
}

// Writes the children by the stops of `alive`, each from its slot and with its link, to the front of the part of the pool behind a lane, in
// ascending stop order, and says how many they are.
fn write(part: &mut [u32], p: Lane, kids: &[u32], alive: u32, index: &mut [u32]) -> usize
    requires { (Slotted alive (records kids.now) × (length (slots alive (records kids.now)) ≤ length (records part.old))) × ((p.count + length (slots alive (records kids.now)) < 2 ^ 64) × (T p.linked → (p.count + length (slots alive (records kids.now)) < 2 ^ 32) × (p.heads + heads ≤ length index.old))) }
    ensures { (result ≡ length (slots alive (records kids.now))) × ((records part.new ≡ joined_all p p.count index.old (slots alive (records kids.now)) ++ drop result (records part.old)) × (index.new ≡ index_all p p.count index.old (slots alive (records kids.now)))) }
{
    let mut k = 0;
    for s in stops_of(alive) {
        let x = load(kids, slot(s));
        store(part, k, joined(x, p, p.count + k + 1, index));
        k += 1;
    }
    k
}

// Writes the children by the stops of `alive` behind the records of the lane at the pool's front: the part of the pool that starts there is
// lent on.
pub fn write_at(w: &mut [u32], p: Lane, kids: &[u32], alive: u32, index: &mut [u32]) -> usize
    requires { (Slotted alive (records kids.now) × (p.count + length (slots alive (records kids.now)) ≤ length (records w.old))) × (T p.linked → (p.count + length (slots alive (records kids.now)) < 2 ^ 32) × (p.heads + heads ≤ length index.old)) }
    ensures { (result ≡ length (slots alive (records kids.now))) × ((records w.new ≡ take p.count (records w.old) ++ (joined_all p p.count index.old (slots alive (records kids.now)) ++ drop (p.count + result) (records w.old))) × (index.new ≡ index_all p p.count index.old (slots alive (records kids.now)))) }
{
    let from = RECORD_WORDS * p.count;
    write(&mut w[from..], p, kids, alive, index)
}
