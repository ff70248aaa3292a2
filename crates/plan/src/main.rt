// The program `plan`: reads a job file from standard input, and prints the report of its job or a refusal. What is printed for an input is
// `output`'s; here it is read and written. A read or a write that fails ends the program with that error.
#![tactic(auto)]

ghost use Rattle.std.specs.Prelude.{◌≤◌, length, IfOk};

mod output;

use crate::output::{INPUT, output};
use std::io;
use std::io::Read;

// Reads until the buffer is full or the input ends, and answers how many bytes it put at the buffer's front.
fn read_full<R: Read>(input: &mut R, buffer: &mut [u8]) -> io::Result<usize>
    ensures { IfOk result (λ count. count ≤ length buffer.new) }
{
    let mut done = 0;
    while done < buffer.len() {
        let count = input.read(&mut buffer[done..])?;
        if count == 0 {
            break;
        }
        done += count;
    }
    Ok(done)
}

#[tactic(auto, using(crate::proofs::OutputLaws::text_fits))]
fn main(rt: HostRuntime) -> io::Result<()> {
    let mut input = [0u8; INPUT];
    let count = read_full(&mut rt.stdin(), &mut input)?;
    let text = output(&input[..count]);
    rt.write_all(&text.bytes[..text.length])
}
