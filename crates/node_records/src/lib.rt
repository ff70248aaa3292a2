// Node records in a run that a host holds: thin functions over `&[Record]` and `&mut [Record]`, open to a host. Their answers are those of
// crate `node_answers`. Those that inspect or extend a record take it apart and call a function of crate `inspection` on its words,
// which carries the meaning. Nothing is asked of the arguments: an index past the end gives an answer that says so, and changes
// nothing.
#![tactic(auto)]

ghost use Rattle.std.specs.Prelude.{◌≡◌, set};
ghost use Rattle.node_answers.specs.Answers.{is_inside, record_at, found, verdict, flown_at, figures, extension, extend_at};

use answer::Job;
use inspection::check::verdict_of;
use inspection::cost::figures_of;
use inspection::extend::{Added, extended_of};
use inspection::order::flown_of;
use node_answers::{Extended, Figures, Flown, Found, Verdict};
use stops::node_record::Record;

// Reads record i.
pub fn read(pool: &[Record], i: usize) -> Found
    ensures { result ≡ found pool.now i }
{
    match pool.get(i) {
        Some(x) => Found {
            inside: true,
            found: *x,
        },
        None => Found {
            inside: false,
            found: Record::empty(),
        },
    }
}

// Writes record i; whether there is one.
pub fn write(pool: &mut [Record], i: usize, x: Record) -> bool
    ensures { (result ≡ is_inside pool.old i) × (pool.new ≡ set pool.old i x) }
{
    if i < pool.len() {
        pool[i] = x;
        return true;
    }
    false
}

// Whether record i is a node's at all, for n stops.
pub fn is_node(pool: &[Record], i: usize, n: u32) -> Verdict
    ensures { result ≡ verdict (is_inside pool.now i) (record_at pool.now i) n }
{
    let r = read(pool, i);
    verdict_of(
        r.inside,
        r.found.size,
        r.found.set,
        r.found.first,
        r.found.second,
        n,
    )
}

// The stops of record i in flown order.
pub fn stops(pool: &[Record], i: usize) -> Flown
    ensures { result ≡ flown_at (is_inside pool.now i) (record_at pool.now i) }
{
    let r = read(pool, i);
    flown_of(r.inside, r.found.size, r.found.first, r.found.second)
}

// The path cost of record i and its bound, against a job and its table.
pub fn costs(pool: &[Record], i: usize, job: Job, table: &[u32]) -> Figures
    ensures { result ≡ figures (is_inside pool.now i) (record_at pool.now i) job table.now }
{
    let r = read(pool, i);
    figures_of(
        r.inside,
        r.found.size,
        r.found.set,
        r.found.first,
        r.found.second,
        job,
        table,
    )
}

// Extends record i by a stop and what flying there costs, its landing included, where they fit.
pub fn extend(pool: &mut [Record], i: usize, stop: u32, leg: u32) -> Extended
    ensures { (result ≡ extension (is_inside pool.old i) (record_at pool.old i) stop leg) × (pool.new ≡ extend_at pool.old i stop leg) }
{
    if i < pool.len() {
        let x = pool[i];
        let r = extended_of(
            x.size,
            x.set,
            x.path,
            x.bound,
            x.first,
            x.second,
            Added { stop, leg },
        );
        pool[i] = r.after;
        return r;
    }
    Extended {
        inside: false,
        fits: false,
        after: Record::empty(),
    }
}
