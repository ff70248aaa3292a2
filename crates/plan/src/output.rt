// What is printed for an input: the text of its job's report, or of a refusal. specs/Output says it for every input.
ghost use Rattle.std.specs.Prelude.{◌≡◌, List, [], ℕ, replicate};
ghost use Rattle.sizes.specs.Sizes.{no_budget};
ghost use Rattle.answer.specs.Call.{call_of};
ghost use Rattle.job_format.specs.Reader.{read};
ghost use Rattle.planner.specs.Promise.{Promised};
ghost use Rattle.printing.specs.Promise.{text_of};
ghost use Rattle.plan.specs.Output.{pool_length, answered, output};

use answer::refusal::Refusal;
use answer::{Job, Report};
use job_file::reader::read;
use planner::plan;
use printing::{Text, refusal_text, report_text};
use sizes::{LONGEST, NO_BUDGET, RECORD_WORDS};

// Bytes of the input that are looked at: one more than the longest job has.
pub const INPUT: usize = LONGEST + 1;

// Records of the pool, and its words.
const RECORDS: usize = 2_000;

const POOL: usize = RECORDS * RECORD_WORDS;

// The report of a job, planned in a pool of the program's own. It is a function by itself, and stays one, so that no pool is cleared for an input that is
// refused.
#[inline(never)]
fn planned(job: Job, table: &[u32], start: &[u8]) -> Report
    ensures { (left : List ℕ) × Promised (call_of job table.now start.now [] no_budget (replicate pool_length 0)) result left }
{
    let mut pool = [0u32; POOL];
    plan(job, table, start, b"", NO_BUDGET, &mut pool)
}

// The text for a file that is no longer than the longest job.
fn answer(file: &[u8]) -> Text
    ensures { result ≡ text_of (answered (read file.now).number (read file.now).contents) }
{
    let reading = read(file);
    if reading.number != 0 {
        return refusal_text(reading.number);
    }
    let job = reading.job;
    let side = job.n as usize + 1;
    let table = &reading.table[..side * side];
    let start = &reading.start[..reading.stops as usize];
    report_text(job.n, planned(job, table, start))
}

// The text for an input.
pub fn output(input: &[u8]) -> Text
    ensures { result ≡ text_of (output input.now) }
{
    if LONGEST < input.len() {
        return refusal_text(u32::from(Refusal::Layout));
    }
    answer(input)
}
