// The planner: `plan` is open to a caller; the functions of `run` and `report` are this crate's own, and what they require `plan` meets.
// specs/Answer of crate `answer` says what `plan` answers; specs/Code is the code's own.
#![tactic(auto)]

ghost use Rattle.std.specs.Prelude.{◌≡◌, ℕ};
ghost use Rattle.answer.specs.Call.{call_of};
ghost use Rattle.answer.specs.Checks.{cause};
ghost use Rattle.answer.specs.Refusals.{number_in};
ghost use Rattle.planner.specs.Code.{report_in};
ghost use Rattle.planner.specs.Promise.{Promised};

mod report;
mod run;

use crate::report::refused;
use crate::run::search;
use answer::refusal::Refusal;
use answer::{Job, Report};
use checks::{job_cause, pair_cause};
use sizes::RECORD_WORDS;

// The first of causes 1 to 6 and 11 that applies to a call, if one does; whatever its budget.
fn checked(job: Job, table: &[u32], start: &[u8], pairs: &[u8], pool: &[u32]) -> Result<(), Refusal>
    ensures { (budget : ℕ) → number_in result ≡ cause (call_of job table.now start.now pairs.now budget pool.now) }
{
    job_cause(job, table, start)?;
    pair_cause(job.n, start, pairs)?;
    if pool.len() < RECORD_WORDS || pool.len() % RECORD_WORDS != 0 {
        return Err(Refusal::Pool);
    }
    Ok(())
}

// The report of a call that ran, or why it is refused.
fn planned(
    job: Job,
    table: &[u32],
    start: &[u8],
    pairs: &[u8],
    budget: u64,
    pool: &mut [u32],
) -> Result<Report, Refusal>
    ensures { Promised (call_of job table.now start.now pairs.now budget pool.old) (report_in result) pool.new }
{
    checked(job, table, start, pairs, pool)?;
    search(job, table, start, pairs, budget, pool)
}

// Puts the stops 1 to n into the cheapest order that respects the pairs, with as many branchings as the budget has at most. The report and the pool's
// words are what document 01's run with the budget of request A.3, the pairs of request A.6 and the tie rule of request A.8 gives, over all inputs. Where
// number and mark are both 0, the order is the smallest of the cheapest.
pub fn plan(
    job: Job,
    table: &[u32],
    start: &[u8],
    pairs: &[u8],
    budget: u64,
    pool: &mut [u32],
) -> Report
    ensures { Promised (call_of job table.now start.now pairs.now budget pool.old) result pool.new }
{
    match planned(job, table, start, pairs, budget, pool) {
        Ok(report) => report,
        Err(refusal) => refused(refusal),
    }
}
