// The path cost and the bound of a record.
ghost use Rattle.std.specs.Prelude.{◌≡◌, true, [], ◌≤◌, T};
ghost use Rattle.sizes.specs.Sizes.{most_stops};
ghost use Rattle.stops.specs.Code.{Cheap};
ghost use Rattle.answer.specs.Checks.{job_cause};
ghost use Rattle.node_answers.specs.Answers.{figures, no_figures};
ghost use Rattle.node_answers.specs.Nodes.{is_node};
ghost use Rattle.inspection.specs.Code.{of_four, Flew};

use crate::node::is_record;
use answer::Job;
use checks::job_cause;
use node_answers::Figures;
use records::order::stop_at;
use sizes::PLACES;
use stops::bound::ahead;
use stops::table::{further, rows};

// Where a path stands: what it cost, and its last place.
#[derive(Clone, Copy)]
struct Walked {
    path: u32,
    place: u32,
}

// Flies the stops of a record's order.
fn along(t: &[[u32; PLACES]; PLACES], size: u32, first: u32, second: u32) -> Walked
    requires { (size ≤ most_stops) × Cheap t.now }
    ensures { Flew t.now (of_four size 0 first second) result.path result.place }
{
    let mut path = 0;
    let mut place = 0;
    for k in 0..size {
        let s = stop_at(first, second, k);
        path += further(t, place, s);
        place = s;
    }
    Walked { path, place }
}

// No figures: the number of a refusal, or 0, and zeros.
fn no_figures(inside: bool, number: u32) -> Figures
    ensures { result ≡ no_figures inside number }
{
    Figures {
        inside,
        number,
        node: false,
        path: 0,
        bound: 0,
    }
}

// The figures of a node's record, against a table that every check lets pass.
fn reckoned(size: u32, set: u32, first: u32, second: u32, job: Job, table: &[u32]) -> Figures
    requires { T (is_node job.n (of_four size set first second)) × (job_cause job table.now [] 0 ≡ 0) }
    ensures { result ≡ figures true (of_four size set first second) job table.now }
{
    let t = rows(job.n as usize, job.bound, table);
    let w = along(&t, size, first, second);
    let rest = (1u32 << job.n) - 1 - set;
    let to_come = ahead(&t, job.bound, w.place, rest);
    Figures {
        inside: true,
        number: 0,
        node: true,
        path: w.path,
        bound: w.path + to_come,
    }
}

// The figures of a record; none for one that is not inside, whose job has a cause, or that is no node's.
#[tactic(auto, using(crate::proofs::FigureLaws::figures_refused))]
pub fn figures_of(
    inside: bool,
    size: u32,
    set: u32,
    first: u32,
    second: u32,
    job: Job,
    table: &[u32],
) -> Figures
    ensures { result ≡ figures inside (of_four size set first second) job table.now }
{
    if !inside {
        return no_figures(false, 0);
    }
    // no starting order
    if let Err(refusal) = job_cause(job, table, &[]) {
        return no_figures(true, u32::from(refusal));
    }
    if !is_record(size, set, first, second, job.n) {
        return no_figures(true, 0);
    }
    reckoned(size, set, first, second, job, table)
}
