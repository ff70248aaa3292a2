// The pool after parts 6 and 7: the branched node and those that rule 8 strikes out leave, the lane is squeezed where that is due, which is
// rule 1 on the active nodes too, b joins the far end under rule 4, and the children that survive are written behind the nodes that stay.
ghost use Rattle.std.specs.Prelude.{◌≡◌, not, false, ◌++◌, ◌⊎◌, ℕ, ◌+◌, ◌^◌, ◌≤◌, ◌<◌, length};
ghost use Rattle.sizes.specs.Sizes.{most_stops};
ghost use Rattle.lists.specs.Lists.{In, keep};
ghost use Rattle.stops.specs.Code.{stops_in};
ghost use Rattle.stops.specs.declared.node_record.Record.{Record};
ghost use Rattle.records.specs.Code.{records, in_slot, slots, Slotted};
ghost use Rattle.lanes.specs.Sizes.{gone};
ghost use Rattle.lanes.specs.Code.{sized, is_within, live_of, others_of, far_of};
ghost use Rattle.chains.specs.Code.{Sized};
ghost use Rattle.pool.specs.Code.{Laid, LaidTo, OnePool};
ghost use Rattle.replacement.specs.Code.{is_beaten, staying_of, far_with, Changing, Kept, Committed};

use crate::change::Change;
use crate::strike::{leave, strike_all};
use blocks::keep::{note, rebuild, wide_enough};
use chains::join::{hold, relink, write_at};
use chains::trim::trim;
use lanes::constants::{LIVE_FOR_GONE, SPARED};
use lanes::layout::{Layout, active_lane, far_lane};
use lanes::squeeze::squeeze;
use pool::rank::reranked;
use stops::node_record::Record;
use stops::sets::count;

// Record i leaves, and so do those that a child dominates which takes part in rule 8; gone records at the end of the lane are taken off.
fn cleared(
    w: &mut [u32],
    p: Layout,
    i: usize,
    change: Change,
    kids: &[u32],
    index: &mut [u32],
) -> Layout
    requires { Laid (records w.old) p index.old × Changing (records w.old) p i change (records kids.now) }
    ensures { Kept (records w.old) p (keep (λ x. not (is_beaten (slots change.taking (records kids.now)) x)) (others_of p.used i (records w.old))) (records w.new) result index.new }
{
    leave(w, p, i, index);
    let lost = strike_all(w, p, kids, change.taking, index);
    let used = trim(w, active_lane(p), index);
    Layout {
        used,
        active: p.active - 1 - lost,
        ..p
    }
}

// Whether the lane is to be squeezed: U fell, or there is no room behind it, or too many of its records are gone, on which no answer depends.
fn due(p: Layout, change: Change) -> bool
    requires { (p.active ≤ p.used) × ((p.used + p.far ≤ p.capacity) × ((p.capacity + change.far < 2 ^ 61) × (change.alive < 2 ^ most_stops))) }
    ensures { result ≡ false → (change.fell ≡ false) × (p.used + length (stops_in change.alive) + change.far ≤ p.capacity) }
{
    change.fell
        || p.capacity < p.used + count(change.alive) + change.far
        || p.active / LIVE_FOR_GONE + SPARED < p.used - p.active
}

// The lane squeezed to its nodes with bounds up to a limit; its chains and its minima are made anew.
fn squeezed(w: &mut [u32], p: Layout, limit: u32, index: &mut [u32]) -> Layout
    requires { Laid (records w.old) p index.old × (limit < gone) }
    ensures { Kept (records w.old) p (keep (is_within limit) (live_of p.used (records w.old))) (records w.new) result index.new × (result.used ≡ result.active) }
{
    let used = squeeze(w, p.used, limit);
    let q = Layout {
        used,
        active: used,
        ..p
    };
    relink(w, active_lane(q), index);
    reranked(w, q, index);
    q
}

// The lane squeezed where that is due. What is left then has room.
fn tidied(w: &mut [u32], p: Layout, change: Change, index: &mut [u32]) -> Layout
    requires { (Laid (records w.old) p index.old × (p.active ≡ length (live_of p.used (records w.old)))) × ((change.limit < gone) × ((change.alive < 2 ^ most_stops) × ((change.fell ≡ false → (x : Record) → In x (live_of p.used (records w.old)) → x.bound ≤ change.limit) × (length (keep (is_within change.limit) (live_of p.used (records w.old))) + length (stops_in change.alive) + change.far ≤ p.capacity)))) }
    ensures { Kept (records w.old) p (keep (is_within change.limit) (live_of p.used (records w.old))) (records w.new) result index.new × (result.used + length (stops_in change.alive) + change.far ≤ result.capacity) }
{
    if due(p, change) {
        return squeezed(w, p, change.limit, index);
    }
    p
}

// The branched node b joins the far end, if the pool holds branched nodes; far is how many there are then.
fn held(w: &mut [u32], p: Layout, b: Record, far: usize, index: &mut [u32]) -> Layout
    requires { (Laid (records w.old) p index.old × (b ≡ sized b)) × ((p.used + far ≤ p.capacity) × (((far ≡ 0) × (p.far ≡ 0)) ⊎ (far ≡ p.far + 1))) }
    ensures { (Laid (records w.new) result index.new × OnePool p result) × (((result.used ≡ p.used) × (result.active ≡ p.active)) × ((live_of p.used (records w.new) ≡ live_of p.used (records w.old)) × ((result.far ≡ far) × (far_of far (records w.new) ≡ far_with far b (far_of p.far (records w.old)))))) }
{
    if far == 0 {
        return p;
    }
    hold(w, far_lane(p), b, index);
    Layout { far, ..p }
}

// The minima of a lane that has grown from `from` records, in wider blocks where they would not reach.
fn ranked(w: &[u32], p: Layout, from: usize, index: &mut [u32]) -> Layout
    requires { LaidTo (records w.now) p from index.old × (from ≤ p.used) }
    ensures { (Laid (records w.now) result index.new × OnePool p result) × ((result.used ≡ p.used) × ((result.active ≡ p.active) × (result.far ≡ p.far))) }
{
    if !p.ranked {
        return p;
    }
    let shift = wide_enough(p.used, p.shift);
    if shift == p.shift {
        note(w, from, p.used, shift, index);
        return p;
    }
    rebuild(w, p.used, shift, index);
    Layout { shift, ..p }
}

// The children by the stops of `alive` are written behind the lane.
fn joined(w: &mut [u32], p: Layout, kids: &[u32], alive: u32, index: &mut [u32]) -> Layout
    requires { (Laid (records w.old) p index.old × (p.active ≡ length (live_of p.used (records w.old)))) × ((Slotted alive (records kids.now) × Sized alive (records kids.now)) × (((s : ℕ) → In s (stops_in alive) → (in_slot (records kids.now) s).bound < gone) × (p.used + length (stops_in alive) + p.far ≤ p.capacity))) }
    ensures { Kept (records w.old) p (live_of p.used (records w.old) ++ slots alive (records kids.now)) (records w.new) result index.new }
{
    let new = write_at(w, active_lane(p), kids, alive, index);
    let q = Layout {
        used: p.used + new,
        active: p.active + new,
        ..p
    };
    ranked(w, q, p.used, index)
}

// Parts 6 and 7 of the step of b, which stands at i.
pub fn commit(
    w: &mut [u32],
    p: Layout,
    i: usize,
    b: Record,
    change: Change,
    kids: &[u32],
    index: &mut [u32],
) -> Layout
    requires { (Laid (records w.old) p index.old × Changing (records w.old) p i change (records kids.now)) × ((b ≡ sized b) × (length (staying_of (records w.old) p i change (records kids.now)) + length (slots change.alive (records kids.now)) + change.far ≤ p.capacity)) }
    ensures { Committed (records w.old) p i b change (records kids.now) (records w.new) result index.new }
{
    let lighter = cleared(w, p, i, change, kids, index);
    let tidy = tidied(w, lighter, change, index);
    let with_b = held(w, tidy, b, change.far, index);
    joined(w, with_b, kids, change.alive, index)
}
