// How many jobs ended in which way, with checksums, and what is printed of it.
ghost use Rattle.std.specs.Prelude.{◌≡◌, length};

use crate::judge::Ending;
use answer::Report;
use std::io;

// Checksums are below it.
const PRIME: u64 = 1_000_000_007;

// A checksum with one number more.
fn mixed(sum: u64, x: u64) -> u64 {
    (sum % PRIME * 31 + x % PRIME) % PRIME
}

// What a checksum of whole runs is over: so many of a report's numbers.
pub const OF_WHOLE: usize = 7;

// A report's cost and counts, and its mark and floor.
pub fn numbers_of(r: Report) -> [u64; 9]
    ensures { 9 ≡ length result }
{
    [
        u64::from(r.number),
        u64::from(r.cost),
        r.branched,
        r.generated,
        r.eliminated,
        r.active,
        r.most,
        u64::from(r.mark),
        u64::from(r.floor),
    ]
}

// How many jobs ended in which way, how many differed, and a checksum over their reports.
#[derive(Clone, Copy, Default)]
pub struct Tally {
    best: u64,
    full: u64,
    with_order: u64,
    with_none: u64,
    finished: u64,
    differed: u64,
    sum: u64,
}

impl Tally {
    // One job more: how it ended, if its report is right, and the numbers of that for the checksum.
    pub fn count(&mut self, ending: Option<Ending>, numbers: &[u64]) {
        self.sum = numbers.iter().fold(self.sum, |sum, x| mixed(sum, *x));
        let jobs = match ending {
            Some(Ending::Best) => &mut self.best,
            Some(Ending::Full) => &mut self.full,
            Some(Ending::WithOrder) => &mut self.with_order,
            Some(Ending::WithNone) => &mut self.with_none,
            Some(Ending::Finished) => &mut self.finished,
            None => &mut self.differed,
        };
        *jobs = jobs.wrapping_add(1);
    }

    // How many jobs these are.
    fn jobs(&self) -> u64 {
        let whole = self.best.wrapping_add(self.full);
        let stopped = self.with_order.wrapping_add(self.with_none);
        let right = whole.wrapping_add(stopped).wrapping_add(self.finished);
        right.wrapping_add(self.differed)
    }

    // What it says of whole runs; the words are for all of the jobs.
    pub fn tell(&self, rt: &impl Print, words: &str) -> io::Result<()> {
        line(rt, self.jobs(), words)?;
        line(
            rt,
            self.best,
            " finished, with the smallest of the cheapest orders that respect the pairs\n",
        )?;
        line(rt, self.full, " filled the pool\n")?;
        line(rt, self.differed, " differed\n")?;
        line(rt, self.sum, " is the checksum over all costs and counts\n")
    }

    // What it says of runs within a budget.
    pub fn tell_limited(&self, rt: &impl Print) -> io::Result<()> {
        line(
            rt,
            self.jobs(),
            " jobs planned within half of their branchings, one in seven within all of them\n",
        )?;
        line(rt, self.with_order, " stopped with an order known\n")?;
        line(rt, self.with_none, " stopped with none\n")?;
        line(
            rt,
            self.finished,
            " finished, with the report of the whole run\n",
        )?;
        line(rt, self.differed, " differed\n")?;
        line(
            rt,
            self.sum,
            " is the checksum over all costs, counts, marks and floors\n",
        )
    }
}

// A line: a number and words.
fn line(rt: &impl Print, n: u64, words: &str) -> io::Result<()> {
    print!(rt; "{n}{words}")
}
