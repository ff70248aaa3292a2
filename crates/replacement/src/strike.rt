// Rule 8: active records that a child dominates are marked as gone, found along the child's chain.
ghost use Rattle.std.specs.Prelude.{◌≡◌, ◌&&◌, ◌<◌, length, get_or, set};
ghost use Rattle.std.specs.Int.Count.{ones};
ghost use Rattle.stops.specs.Code.{empty_record, rec_dominates};
ghost use Rattle.records.specs.Code.{records, slots, Slotted};
ghost use Rattle.lanes.specs.Code.{sized, is_live, marked};
ghost use Rattle.chains.specs.Code.{Sized};
ghost use Rattle.pool.specs.Code.{Laid};
ghost use Rattle.replacement.specs.Code.{struck, is_beaten, Strikes};

use blocks::keep::kill;
use chains::walk::{after, top};
use lanes::layout::{Layout, active_lane};
use lanes::{live, mark, sized_at};
use records::{load, set_at, slot};
use stops::sets::stops_of;

// Whether record k of kids dominates record i of w. Sets are compared before anything else is read.
pub fn beaten(w: &[u32], i: usize, kids: &[u32], k: usize) -> bool
    requires { (i < length (records w.now)) × (k < length (records kids.now)) }
    ensures { result ≡ rec_dominates (get_or (records kids.now) k empty_record) (sized (get_or (records w.now) i empty_record)) }
{
    set_at(w, i) == set_at(kids, k) && load(kids, k).dominates(sized_at(w, i))
}

// Record i leaves the active nodes.
pub fn leave(w: &mut [u32], p: Layout, i: usize, index: &mut [u32])
    requires { Laid (records w.old) p index.old × (i < p.used) }
    ensures { (records w.new ≡ set (records w.old) i (marked (get_or (records w.old) i empty_record))) × Laid (records w.new) p index.new }
{
    if p.ranked {
        kill(w, p.used, p.shift, i, index);
        return;
    }
    mark(w, i);
}

// Record i leaves them if record k of kids dominates it; says whether it did.
fn strike_at(w: &mut [u32], p: Layout, i: usize, kids: &[u32], k: usize, index: &mut [u32]) -> bool
    requires { (Laid (records w.old) p index.old × (i < p.used)) × (k < length (records kids.now)) }
    ensures { Laid (records w.new) p index.new × ((records w.new ≡ set (records w.old) i (struck (λ x. rec_dominates (get_or (records kids.now) k empty_record) x) (get_or (records w.old) i empty_record))) × (result ≡ (is_live (get_or (records w.old) i empty_record) && rec_dominates (get_or (records kids.now) k empty_record) (sized (get_or (records w.old) i empty_record))))) }
{
    if !live(w, i) {
        return false;
    }
    if !beaten(w, i, kids, k) {
        return false;
    }
    leave(w, p, i, index);
    true
}

// The records that record k of kids dominates leave; says how many.
fn strike(w: &mut [u32], p: Layout, kids: &[u32], k: usize, index: &mut [u32]) -> usize
    requires { (Laid (records w.old) p index.old × (k < length (records kids.now))) × ((get_or (records kids.now) k empty_record).size ≡ ones (get_or (records kids.now) k empty_record).set) }
    ensures { Laid (records w.new) p index.new × Strikes (λ x. rec_dominates (get_or (records kids.now) k empty_record) x) p.used (records w.old) (records w.new) result }
{
    let lane = active_lane(p);
    let mut lost = 0;
    let mut c = top(lane, index, load(kids, k));
    while c != 0 {
        lost += usize::from(strike_at(w, p, c - 1, kids, k, index));
        c = after(w, lane, c);
    }
    lost
}

// Rule 8 by the children by the stops of `taking`: the records that one of them dominates leave; says how many.
pub fn strike_all(w: &mut [u32], p: Layout, kids: &[u32], taking: u32, index: &mut [u32]) -> usize
    requires { Laid (records w.old) p index.old × (Slotted taking (records kids.now) × Sized taking (records kids.now)) }
    ensures { Laid (records w.new) p index.new × Strikes (is_beaten (slots taking (records kids.now))) p.used (records w.old) (records w.new) result }
{
    let mut lost = 0;
    for s in stops_of(taking) {
        lost += strike(w, p, kids, slot(s), index);
    }
    lost
}
