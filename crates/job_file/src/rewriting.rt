// The letter's demand 2 of the code itself: what is read from a file, written back. Nobody calls it; it is here for its promise, which says of
// every `&[u8]` what specs/Demands says of lists that hold bytes alone.
ghost use Rattle.job_file.specs.Demands.{Rewritten};

use crate::layout::area;
use crate::reader::read;
use crate::writer::{Written, write};

fn rewrite(file: &[u8], buffer: &mut [u8]) -> Written
    ensures { Rewritten file.now buffer.old result buffer.new }
{
    let reading = read(file);
    if reading.number != 0 {
        return Written {
            number: reading.number,
            length: 0,
        };
    }
    let table = &reading.table[..area(reading.job.n)];
    let start = &reading.start[..reading.stops as usize];
    write(reading.job, table, start, buffer)
}
