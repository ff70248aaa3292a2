// One step of a run on the pool's records: its seven parts, of crates `children` and `replacement`, one after the other. specs/Code has
// what its functions compute, and proofs/ shows that these are the written step of crate `search`. The functions are public for the crate
// above and not for hosts; what they require, that crate meets.
#![tactic(auto)]

ghost use Rattle.std.specs.Prelude.{◌≡◌, ◌+◌, ◌-◌, ◌^◌, ◌≤◌, ◌<◌, length};
ghost use Rattle.sizes.specs.Sizes.{most_stops};
ghost use Rattle.search.specs.Problem.{State};
ghost use Rattle.stops.specs.declared.node_record.Record.{Record};
ghost use Rattle.records.specs.Code.{records};
ghost use Rattle.children.specs.Code.{Rows, Encoded};
ghost use Rattle.pool.specs.Code.{Laid};
ghost use Rattle.step.specs.Code.{Ready, Shown, Stepping, Expansion, node_at, rest_at, run_after};

pub mod change;

use crate::change::{falls, holding, taking_of};
use children::best::{Best, learn};
use children::family::family;
use children::setting::Setting;
use children::survivors::{limit_of, survivors};
use lanes::layout::Layout;
use lanes::sized_at;
use replacement::change::Change;
use replacement::commit::commit;
use replacement::fits::fits;
use sizes::PLACES;
use stops::node_record::Record;
use stops::sets::count;

// Where a run stands beside the pool: how the pool's records stand, U with its order, and the counts.
#[derive(Clone, Copy)]
pub struct Run {
    pub layout: Layout,
    pub best: Best,
    pub branched: u64,
    pub generated: u64,
    pub eliminated: u64,
    pub most: u64,
}

// The counts after a step that generated some children and left the pool in some layout.
fn counted(r: Run, best: Best, generated: usize, layout: Layout) -> Run
    requires { (1 ≤ r.layout.active) × ((r.layout.active + generated < 2 ^ 62) × ((layout.active ≤ r.layout.active - 1 + generated) × (r.generated + r.eliminated + r.branched < 2 ^ 62))) }
    ensures { result ≡ run_after r best generated layout }
{
    let before = r.layout;
    let gone = before.active - 1 + generated - layout.active;
    Run {
        layout,
        best,
        branched: r.branched + 1,
        generated: r.generated + generated as u64,
        eliminated: r.eliminated + gone as u64,
        most: r.most.max(layout.active as u64),
    }
}

// What parts 1 to 5 of a step give: the stops of the children and of those that survive, the limit of rule 1, and U.
#[derive(Clone, Copy)]
struct Expanded {
    born: u32,
    alive: u32,
    limit: u32,
    best: Best,
}

// Parts 1 to 5 of the step of b: each child stands in the slot of its stop in kids.
fn expand(
    setting: Setting,
    t: [[u32; PLACES]; PLACES],
    w: &[u32],
    b: Record,
    r: Run,
    kids: &mut [u32],
    index: &[u32],
) -> Expanded
    requires { (Rows setting t × (Encoded setting t b × (b.size < setting.n))) × (Laid (records w.now) r.layout index.now × (most_stops ≤ length (records kids.old))) }
    ensures { Expansion setting t w.now b r result (records kids.new) }
{
    let born = family(setting, t, b, kids);
    let best = learn(setting, kids, born, b.size + 1, r.best);
    let limit = limit_of(setting.rules, best.upper);
    let alive = survivors(setting, kids, born, w, r.layout, index, limit);
    Expanded {
        born,
        alive,
        limit,
        best,
    }
}

// The run after the step of the node at i, or None where the step does not fit the pool; kids has a slot for each stop's child, whatever stands
// there. Nothing is written to the pool before it is known that the step fits.
pub fn step(
    setting: Setting,
    t: [[u32; PLACES]; PLACES],
    w: &mut [u32],
    i: usize,
    r: Run,
    kids: &mut [u32],
    index: &mut [u32],
) -> Option<Run>
    requires { Ready setting t w.old index.old i r × (most_stops ≤ length (records kids.old)) }
    ensures { (s : State Record) → Shown setting w.old index.old r s → Stepping setting t (node_at w.old i) (rest_at w.old r i) w.old w.new index.new s result }
{
    let known = r.best;
    let p = r.layout;
    let b = sized_at(w, i);
    let e = expand(setting, t, w, b, r, kids, index);
    let best = e.best;
    let change = Change {
        limit: e.limit,
        alive: e.alive,
        taking: taking_of(setting.rules, e.alive),
        fell: falls(setting.rules, known.upper, best.upper),
        far: holding(setting.rules, p.far),
    };
    if !fits(w, p, i, change, kids) {
        return None;
    }
    let q = commit(w, p, i, b, change, kids, index);
    Some(counted(r, best, count(e.born), q))
}
