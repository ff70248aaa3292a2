// Which active node is branched, and the least bound among the active nodes. `choose` and `floor` are public for the crate above and not for
// hosts; what they require, that crate meets.
#![tactic(auto)]

ghost use Rattle.std.specs.Prelude.{◌≡◌, cond, ℕ, ◌*◌, ◌^◌, ◌≤◌, ◌<◌, length};
ghost use Rattle.lists.specs.Lists.{least};
ghost use Rattle.records.specs.Code.{records};
ghost use Rattle.lanes.specs.Sizes.{blocks, gone};
ghost use Rattle.lanes.specs.Code.{live_of};
ghost use Rattle.blocks.specs.Code.{Blocked, Foremost, bound_at};
ghost use Rattle.selection.specs.Code.{Chose, Chosen};

mod open_nodes;

use crate::open_nodes::{first_open, open, open_in};
use answer::refusal::Refusal;
use blocks::find::{earliest, last_before, latest, least};
use blocks::keep::least_in;
use lanes::constants::EVERY_BOUND;
use lanes::layout::Layout;

// The latest of the active nodes that is not complete; if all are, the latest.
fn latest_open(w: &[u32], used: usize, n: u32) -> usize
    requires { (used ≤ length (records w.now)) × (0 < length (live_of used (records w.now))) }
    ensures { Chosen n (records w.now) used 3 result }
{
    match open_in(w, 0, used, true, EVERY_BOUND, n) {
        Some(i) => i,
        None => last_before(w, used, EVERY_BOUND),
    }
}

// The floor of request A.3: the least bound among the active nodes.
pub fn floor(w: &[u32], used: usize) -> u32
    requires { (used ≤ length (records w.now)) × (0 < length (live_of used (records w.now))) }
    ensures { result ≡ least (λ x. x.bound) (live_of used (records w.now)) }
{
    least_in(w, 0, used)
}

// The first or, if late, the last record with a bound up to a limit, of which there is one.
fn foremost(w: &[u32], p: Layout, late: bool, limit: u32, index: &[u32]) -> usize
    requires { Blocked (records w.now) p.used (2 ^ p.shift) index.now × ((blocks * 2 ^ p.shift < 2 ^ 62) × ((limit < gone) × ((i : ℕ) × ((i < p.used) × (bound_at (records w.now) i ≤ limit))))) }
    ensures { Foremost late (records w.now) p.used limit result }
{
    if late {
        latest(w, p.used, p.shift, index, limit)
    } else {
        earliest(w, p.used, p.shift, index, limit)
    }
}

// The first or, if late, the last of the active nodes with the least bound that is not complete; if all of them are, the first or the last of
// them (request A.8). Mostly the first that is looked at is not complete, and the blocks are not searched for another.
fn least_bound(w: &[u32], p: Layout, late: bool, n: u32, index: &[u32]) -> usize
    requires { (Blocked (records w.now) p.used (2 ^ p.shift) index.now × (blocks * 2 ^ p.shift < 2 ^ 62)) × (0 < length (live_of p.used (records w.now))) }
    ensures { Chosen n (records w.now) p.used (cond late 1 0) result }
{
    let limit = least(p.used, p.shift, index);
    let i = foremost(w, p, late, limit, index);
    if open(w, i, limit, n) {
        return i;
    }
    first_open(w, p, late, limit, n, index).unwrap_or(i)
}

// The place of the node that a selection picks among the active ones; a selection that there is not is refused.
pub fn choose(w: &[u32], p: Layout, n: u32, selection: u32, index: &[u32]) -> Result<usize, Refusal>
    requires { ((p.used ≤ length (records w.now)) × (0 < length (live_of p.used (records w.now)))) × (selection < 3 → Blocked (records w.now) p.used (2 ^ p.shift) index.now × (blocks * 2 ^ p.shift < 2 ^ 62)) }
    ensures { Chose n (records w.now) p.used selection result }
{
    match selection {
        0 => Ok(least_bound(w, p, false, n, index)),
        1 => Ok(least_bound(w, p, true, n, index)),
        2 => Ok(earliest(w, p.used, p.shift, index, EVERY_BOUND)),
        3 => Ok(latest_open(w, p.used, n)),
        _ => Err(Refusal::Choice),
    }
}
