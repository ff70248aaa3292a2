// Parts 3, 4 and 5 of a step: which children survive rules 1, 2 and 4.
ghost use Rattle.std.specs.Prelude.{◌≡◌, ◌<◌};
ghost use Rattle.search.specs.Step.{on};
ghost use Rattle.records.specs.Code.{records, Slotted, Thinned};
ghost use Rattle.lanes.specs.Sizes.{gone};
ghost use Rattle.lanes.specs.Code.{is_within, live_of, far_of};
ghost use Rattle.chains.specs.Code.{Sized};
ghost use Rattle.pool.specs.Code.{Laid};
ghost use Rattle.children.specs.Code.{limit_of, survives};

use crate::rules::on;
use crate::setting::Setting;
use chains::walk::unrivalled;
use lanes::constants::EVERY_BOUND;
use lanes::layout::{Layout, active_lane, far_lane};
use records::{bound_at, slot};
use sizes::NO_LIMIT;
use stops::sets::{stops_of, with_if};

// What rule 1 keeps: bounds up to U, or all. The limit is below the bound of gone records, whatever U is.
pub fn limit_of(rules: u32, upper: u32) -> u32
    ensures { result ≡ limit_of (on 1 rules) upper }
{
    if on(1, rules) {
        upper.min(EVERY_BOUND)
    } else {
        EVERY_BOUND
    }
}

// The children by the stops of `alive` whose bound is at most limit.
fn within(kids: &[u32], alive: u32, limit: u32) -> u32
    requires { Slotted alive (records kids.now) }
    ensures { Thinned (is_within limit) (records kids.now) alive result }
{
    let mut kept = 0;
    for s in stops_of(alive) {
        kept = with_if(bound_at(kids, slot(s)) <= limit, kept, s);
    }
    kept
}

// Parts 3, 4 and 5, one after the other, on the children by the stops of `born`: those that are left. Part 4 goes by the active nodes, and part 5
// by the branched ones, whatever their bounds are. A rule that is off costs its test alone.
pub fn survivors(
    setting: Setting,
    kids: &[u32],
    born: u32,
    w: &[u32],
    p: Layout,
    index: &[u32],
    limit: u32,
) -> u32
    requires { (Laid (records w.now) p index.now × (limit < gone)) × (Slotted born (records kids.now) × Sized born (records kids.now)) }
    ensures { Thinned (survives setting.rules limit (live_of p.used (records w.now)) (far_of p.far (records w.now))) (records kids.now) born result }
{
    let mut left = born;
    if on(1, setting.rules) {
        left = within(kids, left, limit);
    }
    if on(2, setting.rules) {
        left = unrivalled(kids, left, w, active_lane(p), index, limit);
    }
    if on(4, setting.rules) {
        left = unrivalled(kids, left, w, far_lane(p), index, NO_LIMIT);
    }
    left
}
