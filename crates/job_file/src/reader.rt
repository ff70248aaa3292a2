// The reader: from the bytes of a file to what it holds, or to the number of the first cause against it.
ghost use Rattle.std.specs.Prelude.{◌≡◌, ◌*◌, ◌≤◌, length};
ghost use Rattle.sizes.specs.Sizes.{most_stops, table_numbers, order_places};
ghost use Rattle.lists.specs.Lists.{padded};
ghost use Rattle.job_format.specs.Bytes.{word_bytes};
ghost use Rattle.job_format.specs.Contents.{trailer_length};
ghost use Rattle.job_format.specs.Reader.{words_in, trailer_from, contents_by, misplaced, refusal, read};
ghost use Rattle.job_file.specs.Promise.{returned};
ghost use Rattle.job_file.specs.Code.{checked, Filled, Laid};

use crate::bytes::{put_bytes, word_at};
use crate::layout::{TRAILER_BYTES, WORD_BYTES, area};
use answer::Job;
use answer::refusal::Refusal;
use checks::{job_cause, wrong_n};
use sizes::{LONGEST, ORDER_PLACES, TABLE_NUMBERS};

// What the reader hands back: a number, and what the file holds, with zeros in unused places.
#[repr(C)]
#[derive(Clone, Copy)]
pub struct Reading {
    pub number: u32,
    pub job: Job,
    pub table: [u32; TABLE_NUMBERS],
    pub start: [u8; ORDER_PLACES],
    // of the starting order: 0 or n
    pub stops: u32,
}

// A reading of zeros.
fn unread() -> Reading
    ensures { result ≡ returned (refusal 0) }
{
    let job = Job {
        n: 0,
        selection: 0,
        rules: 0,
        bound: 0,
    };
    Reading {
        number: 0,
        job,
        table: [0u32; TABLE_NUMBERS],
        start: [0u8; ORDER_PLACES],
        stops: 0,
    }
}

// The first words of a file, with zeros behind.
fn table_of(file: &[u8], count: usize) -> [u32; TABLE_NUMBERS]
    requires { (count ≤ table_numbers) × (word_bytes * count ≤ length file.now) }
    ensures { result ≡ padded table_numbers (words_in count file.now) }
{
    let mut table = [0u32; TABLE_NUMBERS];
    for k in 0..count {
        table[k] = word_at(file, WORD_BYTES * k);
    }
    table
}

// A starting order, with zeros behind.
fn start_of(order: &[u8]) -> [u8; ORDER_PLACES]
    requires { length order.now ≤ order_places }
    ensures { result ≡ padded order_places order.now }
{
    let mut start = [0u8; ORDER_PLACES];
    put_bytes(order, &mut start);
    start
}

// The job of a trailer.
fn job_of(trailer: &[u8]) -> Job
    requires { length trailer.now ≡ trailer_length }
    ensures { result ≡ (trailer_from trailer.now).job }
{
    Job {
        n: u32::from(trailer[8]),
        selection: u32::from(trailer[10]),
        rules: u32::from(trailer[11]),
        bound: u32::from(trailer[12]),
    }
}

// Whether the length of a file or the places in its trailer are not those of the layout for n stops.
fn misplaced(trailer: &[u8], n: u32, len: usize) -> bool
    requires { (length trailer.now ≡ trailer_length) × ((n ≡ (trailer_from trailer.now).job.n) × (n ≤ most_stops)) }
    ensures { result ≡ misplaced (trailer_from trailer.now) len }
{
    let place = WORD_BYTES * area(n);
    let table_place = word_at(trailer, 0);
    let start_place = word_at(trailer, WORD_BYTES) as usize;
    let end = place + usize::from(trailer[9]) + TRAILER_BYTES;
    table_place != 0 || start_place != place || len != end || LONGEST < len
}

// Writes over zeros what a file holds whose length and places are those of the layout, or answers the first of causes 3 to 5 against it and leaves
// the zeros.
fn accept(file: &[u8], trailer: &[u8], job: Job, into: &mut Reading) -> Result<(), Refusal>
    requires { Laid file.now trailer.now job × (into.old ≡ returned (refusal 0)) }
    ensures { Filled (checked (contents_by (trailer_from trailer.now) file.now)) result into.new }
{
    let stops = u32::from(trailer[9]);
    let count = area(job.n);
    let table = table_of(file, count);
    let from = WORD_BYTES * count;
    let to = from + stops as usize;
    let order = &file[from..to];
    job_cause(job, &table[..count], order)?;
    into.job = job;
    into.table = table;
    into.start = start_of(order);
    into.stops = stops;
    Ok(())
}

// Writes over zeros what a file holds, or answers the first cause against it and leaves the zeros. It stays a function by itself: put in line, it makes
// `read` so long that the compiler clears once more what `read` hands back.
#[inline(never)]
fn try_read(file: &[u8], into: &mut Reading) -> Result<(), Refusal>
    requires { into.old ≡ returned (refusal 0) }
    ensures { Filled (read file.now) result into.new }
{
    if file.len() < TRAILER_BYTES {
        return Err(Refusal::Short);
    }
    let end = file.len() - TRAILER_BYTES;
    let trailer = &file[end..];
    let job = job_of(trailer);
    if wrong_n(job.n) {
        return Err(Refusal::Stops);
    }
    if misplaced(trailer, job.n, file.len()) {
        return Err(Refusal::Layout);
    }
    accept(file, trailer, job, into)
}

// Reads a job file. What it answers is what document 01's layout and causes give, for every string of bytes. A `Reading` is large, so that it is filled
// where it stands: in a `Result` it would be copied from function to function.
pub fn read(file: &[u8]) -> Reading
    ensures { result ≡ returned (read file.now) }
{
    let mut reading = unread();
    if let Err(cause) = try_read(file, &mut reading) {
        reading.number = u32::from(cause);
    }
    reading
}
