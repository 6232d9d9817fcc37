// Prints why rows of the batch on standard input do not decode, or that all do, or the first refusal. Where a read fails it prints
// nothing, and says so on standard error.
#![tactic(auto)]

use standard_input::read_input;
use std::io::Write;

// kept: beside the main of terminals, which it resembles: all that they share is input and output, of which no clause can speak.
fn main(rt: HostRuntime) {
    // One byte over the limit, so that a longer batch is seen to be too long.
    let mut batch = [0u8; batch::MAX_LEN + 1];
    let Ok(n) = read_input(&mut rt.stdin(), &mut batch) else {
        let _ = eprintln!(rt; "inspect: a read of the batch failed");
        return;
    };
    let mut text = [0u8; 4096];
    let length = inspect_report::report(&batch[..n], &mut text);
    let _ = rt.stdout().write_all(&text[..length]);
}
