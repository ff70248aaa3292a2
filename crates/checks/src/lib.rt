// Checks 1 to 5, which look at a job, its table and its starting order: `job_cause`; and those of the pairs that are given with it (request A.6):
// `pair_cause`. Each answers why a call is refused, if it is, and the number of that is `job_cause` or `pair_cause` of crate `answer` (specs/Checks).
// `first_cause` is for a caller that has a bound and pairs but no job, `wrong_n` for one that has n alone. They are public for the crates above and not
// for hosts; of them only `pair_cause` asks something, which `job_cause` has seen to.
#![tactic(auto)]

ghost use Rattle.std.specs.Prelude.{◌≡◌, false, ◌≤◌};
ghost use Rattle.sizes.specs.Sizes.{most_stops};
ghost use Rattle.answer.specs.Refusals.{number_in};
ghost use Rattle.answer.specs.Checks.{cause₁, no_such_bound, cause₄, cause₅, table_cause, first_cause, job_cause, pair_cause};

mod order;
mod pair_file;

use crate::order::is_order;
use crate::pair_file::{against, wrong_pairs};
use answer::Job;
use answer::refusal::Refusal;
use sizes::MOST_STOPS;
use stops::table::{small, small_charges};

// Whether cause 1 applies.
pub fn wrong_n(n: u32) -> bool
    ensures { result ≡ cause₁ n }
{
    n == 0 || MOST_STOPS < n
}

// The first of causes 1 to 3 that applies, if one does.
fn table_cause(n: u32, table: &[u32]) -> Result<(), Refusal>
    ensures { number_in result ≡ table_cause n table.now 0 }
{
    if wrong_n(n) {
        return Err(Refusal::Stops);
    }
    let side = (n + 1) as usize;
    if table.len() != side * side {
        return Err(Refusal::Table);
    }
    if !small(table) || !small_charges(n as usize, table) {
        return Err(Refusal::Dear);
    }
    Ok(())
}

// Whether there is no such bound; 2 and 3 are those of request A.5.
fn unknown_bound(bound: u32) -> bool
    ensures { result ≡ no_such_bound bound }
{
    3 < bound
}

// The first of causes 1 to 4 and 11 that applies to a table, a bound and pairs, if one does.
pub fn first_cause(n: u32, bound: u32, table: &[u32], pairs: &[u8]) -> Result<(), Refusal>
    ensures { number_in result ≡ first_cause n bound table.now pairs.now }
{
    table_cause(n, table)?;
    if unknown_bound(bound) {
        return Err(Refusal::Choice);
    }
    if wrong_pairs(n, pairs) {
        return Err(Refusal::Pairs);
    }
    Ok(())
}

// Whether cause 4 applies.
fn unknown_choice(job: Job) -> bool
    ensures { result ≡ cause₄ job }
{
    3 < job.selection || 15 < job.rules || unknown_bound(job.bound)
}

// Whether cause 5 applies.
fn wrong_start(n: u32, start: &[u8]) -> bool
    requires { n ≤ most_stops }
    ensures { result ≡ cause₅ n start.now }
{
    !(start.is_empty() || is_order(n, start))
}

// The first of causes 1 to 5 that applies, if one does.
pub fn job_cause(job: Job, table: &[u32], start: &[u8]) -> Result<(), Refusal>
    ensures { number_in result ≡ job_cause job table.now start.now 0 }
{
    table_cause(job.n, table)?;
    if unknown_choice(job) {
        return Err(Refusal::Choice);
    }
    if wrong_start(job.n, start) {
        return Err(Refusal::Start);
    }
    Ok(())
}

// The first cause that applies to pairs (request A.6), if one does: 11 if they do not pass, 5 if they do and the starting order goes against them.
pub fn pair_cause(n: u32, start: &[u8], pairs: &[u8]) -> Result<(), Refusal>
    requires { (n ≤ most_stops) × (cause₅ n start.now ≡ false) }
    ensures { number_in result ≡ pair_cause n start.now pairs.now 0 }
{
    if wrong_pairs(n, pairs) {
        return Err(Refusal::Pairs);
    }
    if against(n, start, pairs) {
        return Err(Refusal::Start);
    }
    Ok(())
}
