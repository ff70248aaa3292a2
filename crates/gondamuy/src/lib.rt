// What a host in C or Rust calls. Each function is one of ours under a C name, and so is its promise; this crate holds nothing
// else.
#![tactic(auto)]

ghost use Rattle.std.specs.Prelude.{◌≡◌};
ghost use Rattle.answer.specs.Call.{call_of};
ghost use Rattle.planner.specs.Promise.{Promised};
ghost use Rattle.job_format.specs.Contents.{contents_of};
ghost use Rattle.job_format.specs.Reader.{read};
ghost use Rattle.job_file.specs.Promise.{returned, Promised as PromisedFile};
ghost use Rattle.first_answer.specs.First.{Promised as PromisedFirst};

use answer::{Job, Report};
use first_answer::FirstOrder;
use job_file::reader::Reading;
use job_file::writer::Written;

// `planner::plan` for C: a slice is a pointer and a length.
#[unsafe(no_mangle)]
pub extern "C" fn gondamuy_plan(
    job: Job,
    table: &[u32],
    start: &[u8],
    pairs: &[u8],
    budget: u64,
    pool: &mut [u32],
) -> Report
    ensures { Promised (call_of job table.now start.now pairs.now budget pool.old) result pool.new }
{
    planner::plan(job, table, start, pairs, budget, pool)
}

// `job_file::reader::read` for C.
#[unsafe(no_mangle)]
pub extern "C" fn gondamuy_read(file: &[u8]) -> Reading
    ensures { result ≡ returned (read file.now) }
{
    job_file::reader::read(file)
}

// `job_file::writer::write` for C.
#[unsafe(no_mangle)]
pub extern "C" fn gondamuy_write(
    job: Job,
    table: &[u32],
    start: &[u8],
    buffer: &mut [u8],
) -> Written
    ensures { PromisedFile (contents_of job table.now start.now) buffer.old result buffer.new }
{
    job_file::writer::write(job, table, start, buffer)
}

// `first_order::first_order` for C.
#[unsafe(no_mangle)]
pub extern "C" fn gondamuy_first_order(
    n: u32,
    bound: u32,
    table: &[u32],
    pairs: &[u8],
) -> FirstOrder
    ensures { PromisedFirst n bound table.now pairs.now result }
{
    first_order::first_order(n, bound, table, pairs)
}
