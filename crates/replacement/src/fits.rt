// Whether the nodes to keep fit the pool.
ghost use Rattle.std.specs.Prelude.{◌≡◌, not, ◌+◌, ◌≤◌, ◌<◌, leb, length, get_or};
ghost use Rattle.std.proofs.Math.Seq.{slice};
ghost use Rattle.lists.specs.Lists.{keep};
ghost use Rattle.stops.specs.Code.{empty_record};
ghost use Rattle.records.specs.Code.{records, slots, Slotted};
ghost use Rattle.lanes.specs.Sizes.{gone};
ghost use Rattle.lanes.specs.Code.{sized, live_in};
ghost use Rattle.replacement.specs.Code.{is_beaten, is_staying, staying_of, Changing};

use crate::change::Change;
use crate::strike::beaten;
use lanes::layout::Layout;
use records::{bound_at, slot};
use stops::sets::{count, stops_of};

// Whether no child by a stop of `taking` dominates record i.
fn unbeaten(w: &[u32], i: usize, kids: &[u32], taking: u32) -> bool
    requires { (i < length (records w.now)) × Slotted taking (records kids.now) }
    ensures { result ≡ not (is_beaten (slots taking (records kids.now)) (sized (get_or (records w.now) i empty_record))) }
{
    for s in stops_of(taking) {
        if beaten(w, i, kids, slot(s)) {
            return false;
        }
    }
    true
}

// Whether record i stays active. One that is gone does not: it is above every limit.
fn stays(w: &[u32], i: usize, change: Change, kids: &[u32]) -> bool
    requires { (i < length (records w.now)) × Slotted change.taking (records kids.now) }
    ensures { result ≡ is_staying change.limit (slots change.taking (records kids.now)) (sized (get_or (records w.now) i empty_record)) }
{
    bound_at(w, i) <= change.limit && unbeaten(w, i, kids, change.taking)
}

// How many of the records from `from` to `to` stay active.
fn staying(w: &[u32], from: usize, to: usize, change: Change, kids: &[u32]) -> usize
    requires { ((from ≤ to) × (to ≤ length (records w.now))) × (Slotted change.taking (records kids.now) × (change.limit < gone)) }
    ensures { result ≡ length (keep (is_staying change.limit (slots change.taking (records kids.now))) (live_in (slice from to (records w.now)))) }
{
    let mut stay = 0;
    for i in from..to {
        stay += usize::from(stays(w, i, change, kids));
    }
    stay
}

// Whether the nodes to keep are at most the pool's capacity. The active records are counted only where some may go and it matters.
pub fn fits(w: &[u32], p: Layout, i: usize, change: Change, kids: &[u32]) -> bool
    requires { Changing (records w.now) p i change (records kids.now) }
    ensures { result ≡ leb (length (staying_of (records w.now) p i change (records kids.now)) + length (slots change.alive (records kids.now)) + change.far) p.capacity }
{
    let new = count(change.alive);
    if p.active - 1 + new + change.far <= p.capacity {
        return true;
    }
    if change.taking == 0 && !change.fell {
        return false;
    }
    let before = staying(w, 0, i, change, kids);
    let behind = staying(w, i + 1, p.used, change, kids);
    before + behind + new + change.far <= p.capacity
}
