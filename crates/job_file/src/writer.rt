// The writer: from a job, a table and a starting order to the bytes of their file at the front of a buffer, or to the number of the first cause
// against them.
ghost use Rattle.std.specs.Prelude.{◌≡◌, ◌*◌, ◌≤◌, length};
ghost use Rattle.lists.specs.Lists.{each};
ghost use Rattle.job_format.specs.Bytes.{word_bytes, word, overwrite};
ghost use Rattle.job_format.specs.Contents.{contents_of, trailer_length, trailer_bytes, bytes_of};
ghost use Rattle.job_file.specs.Promise.{Promised};
ghost use Rattle.job_file.specs.Code.{written, trailer_by, Small, Fits};

use crate::bytes::{put_bytes, put_word};
use crate::layout::{TRAILER_BYTES, WORD_BYTES};
use answer::Job;
use answer::refusal::Refusal;
use checks::job_cause;

// What the writer hands back: a number, and the length of the file.
#[repr(C)]
#[derive(Clone, Copy)]
pub struct Written {
    pub number: u32,
    pub length: usize,
}

// Writes the table at the front of a buffer.
fn put_table(table: &[u32], buffer: &mut [u8])
    requires { word_bytes * length table.now ≤ length buffer.old }
    ensures { buffer.new ≡ overwrite (each word table.now) buffer.old }
{
    for (k, x) in table.iter().enumerate() {
        put_word(buffer, WORD_BYTES * k, *x);
    }
}

// Writes a trailer at the front of a buffer: the place of the starting order, the job, and how many stops the starting order has.
fn put_trailer(place: u32, job: Job, stops: u8, buffer: &mut [u8])
    requires { Small job × (trailer_length ≤ length buffer.old) }
    ensures { buffer.new ≡ overwrite (trailer_bytes (trailer_by place job stops)) buffer.old }
{
    put_word(buffer, 0, 0);
    put_word(buffer, WORD_BYTES, place);
    buffer[8] = job.n as u8;
    buffer[9] = stops;
    buffer[10] = job.selection as u8;
    buffer[11] = job.rules as u8;
    buffer[12] = job.bound as u8;
}

// Writes a file at the front of a buffer.
fn put_file(job: Job, table: &[u32], start: &[u8], buffer: &mut [u8])
    requires { Fits job table.now start.now buffer.old }
    ensures { buffer.new ≡ overwrite (bytes_of (contents_of job table.now start.now)) buffer.old }
{
    let place = WORD_BYTES * table.len();
    let end = place + start.len();
    put_table(table, buffer);
    put_bytes(start, &mut buffer[place..]);
    put_trailer(place as u32, job, start.len() as u8, &mut buffer[end..]);
}

// Writes a job file and answers its length, or the first cause against it.
fn try_write(job: Job, table: &[u32], start: &[u8], buffer: &mut [u8]) -> Result<usize, Refusal>
    ensures { Promised (contents_of job table.now start.now) buffer.old (written result) buffer.new }
{
    job_cause(job, table, start)?;
    let length = WORD_BYTES * table.len() + start.len() + TRAILER_BYTES;
    if buffer.len() < length {
        return Err(Refusal::Buffer);
    }
    put_file(job, table, start, buffer);
    Ok(length)
}

// Writes a job file. What it answers and leaves in the buffer is what document 01's layout and causes give, for every job, table, starting
// order and buffer.
pub fn write(job: Job, table: &[u32], start: &[u8], buffer: &mut [u8]) -> Written
    ensures { Promised (contents_of job table.now start.now) buffer.old result buffer.new }
{
    match try_write(job, table, start, buffer) {
        Ok(length) => Written { number: 0, length },
        Err(cause) => Written {
            number: u32::from(cause),
            length: 0,
        },
    }
}
