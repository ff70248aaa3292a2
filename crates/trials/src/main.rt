// Random tables under every choice, with pairs (request A.6) for half of the tables, without a starting order, with one, and with the unit's first
// order, each report held against full enumeration; those of the first two kinds also within half of their branchings, or just enough. The tables, and
// so what is printed, are the same in every run.
#![tactic(auto)]

ghost use Rattle.std.specs.Prelude.{◌≤◌};

mod enumerate;
mod judge;
mod stopped;
mod tables;
mod tally;

use crate::enumerate::{Day, best};
use crate::judge::{Table, first_right, judged};
use crate::stopped::{budget_of, limited};
use crate::tables::{TABLES, day_of, next, order_from, table_of};
use crate::tally::{OF_WHOLE, Tally, numbers_of};
use answer::{Job, Report};
use first_order::first_order;
use planner::plan;
use sizes::{NO_BUDGET, RECORD_WORDS};
use std::io;

// Records of the pool, and its words.
const RECORDS: usize = 330;

const POOL: usize = RECORDS * RECORD_WORDS;

// Selections, sums of rules, and choices of a selection, rules and a bound.
const SELECTIONS: u32 = 4;

const RULES: u32 = 16;

const CHOICES: u32 = 128;

// The jobs without a starting order and with one that is drawn: the whole runs, and those within a budget; and the jobs from the unit's first order.
#[derive(Clone, Copy, Default)]
struct Tallies {
    whole: Tally,
    limited: Tally,
    first: Tally,
}

// The bound that is plain for a day; the one behind it is close.
fn plain_for(day: Day) -> u32
    ensures { result ≤ 2 }
{
    if day.away { 2 } else { 0 }
}

// A day's job under a choice: the selection, four times the rules, and 64 times the bound, plain or close.
fn job_of(day: Day, choice: u32) -> Job {
    Job {
        n: day.n as u32,
        selection: choice % SELECTIONS,
        rules: choice / SELECTIONS % RULES,
        bound: plain_for(day) + choice / SELECTIONS / RULES,
    }
}

// The job over a table under a choice, planned with the day's pairs.
fn planned(t: Table, choice: u32, start: &[u8], budget: u64, pool: &mut [u32]) -> Report {
    let day = t.day;
    plan(
        job_of(day, choice),
        t.numbers,
        start,
        day.pair_stops(),
        budget,
        pool,
    )
}

// One job, planned and judged.
fn one(t: Table, choice: u32, start: &[u8], pool: &mut [u32], tally: &mut Tally) -> Report {
    let r = planned(t, choice, start, NO_BUDGET, pool);
    let numbers = numbers_of(r);
    tally.count(judged(t.best, r), &numbers[..OF_WHOLE]);
    r
}

// The same job, whose run without a budget gave `whole`, planned within one.
fn again(t: Table, choice: u32, start: &[u8], whole: Report, pool: &mut [u32], tally: &mut Tally) {
    let budget = budget_of(whole, choice);
    let r = planned(t, choice, start, budget, pool);
    tally.count(limited(t, budget, whole, r), &numbers_of(r));
}

// All choices over one table from one starting order or none, each job planned twice.
fn jobs_twice(t: Table, start: &[u8], pool: &mut [u32], tallies: &mut Tallies) {
    for choice in 0..CHOICES {
        let whole = one(t, choice, start, pool, &mut tallies.whole);
        again(t, choice, start, whole, pool, &mut tallies.limited);
    }
}

// All choices over one table from the unit's first order, if that is right.
fn from_first(t: Table, pool: &mut [u32], tally: &mut Tally) {
    let day = t.day;
    let first = first_order(day.n as u32, plain_for(day), t.numbers, day.pair_stops());
    if !first_right(t, first) {
        tally.count(None, &[]);
        return;
    }
    let start = first.order;
    for choice in 0..CHOICES {
        one(t, choice, &start[..day.n], pool, tally);
    }
}

// The jobs over table k, without a starting order, with one, and from the unit's first order.
fn trial(k: u64, pool: &mut [u32], tallies: &mut Tallies) {
    let day = day_of(k);
    let numbers = table_of(k, day.n);
    let numbers = &numbers[..(day.n + 1) * (day.n + 1)];
    let t = Table {
        numbers,
        day,
        best: best(numbers, day),
    };
    let start = order_from(day, next(k));
    jobs_twice(t, &start[..0], pool, tallies);
    jobs_twice(t, &start[..day.n], pool, tallies);
    from_first(t, pool, &mut tallies.first);
}

fn main(rt: HostRuntime) -> io::Result<()> {
    let mut pool = [0u32; POOL];
    let mut t = Tallies::default();
    for k in 0..TABLES {
        trial(k, &mut pool, &mut t);
    }
    t.whole.tell(&rt, " jobs planned\n")?;
    t.first
        .tell(&rt, " jobs planned from the unit's first order\n")?;
    t.limited.tell_limited(&rt)
}
