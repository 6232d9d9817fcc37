// Standard input, as the programs read it.
#![tactic(auto)]

ghost use Rattle.std.specs.Prelude.{◌≤◌, length};
ghost use Rattle.standard_input.specs.Input.{Within};

use std::io::{self, Read};

// Reads the input to its end, or until the buffer is full or a read fails, and answers how many bytes were read, and the failure.
// kept: the loop, since std's `read_to_end` wants a Vec, and its `read_exact` takes an input that ends early for an error.
fn read<R: Read>(input: &mut R, buffer: &mut [u8]) -> (usize, io::Result<()>)
    ensures { result.0 ≤ length buffer.new }
{
    let mut n = 0;
    while n < buffer.len() {
        match input.read(&mut buffer[n..]) {
            Ok(0) => break,
            Ok(more) => n += more,
            Err(failure) => return (n, Err(failure)),
        }
    }
    (n, Ok(()))
}

// Reads the input to its end, or until the buffer is full, and answers how many bytes were read.
pub fn read_input<R: Read>(input: &mut R, buffer: &mut [u8]) -> io::Result<usize>
    ensures { Within result (length buffer.new) }
{
    let (n, end) = read(input, buffer);
    end?;
    Ok(n)
}

// The same, but the input ends where a read fails: what was read before counts.
pub fn read_until_failure<R: Read>(input: &mut R, buffer: &mut [u8]) -> usize
    ensures { result ≤ length buffer.new }
{
    let (n, _) = read(input, buffer);
    n
}
