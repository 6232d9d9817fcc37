// Prints the cells of the last row that the batch on standard input leads to, or the first refusal. Where a read fails it prints
// nothing, and says so on standard error.
#![tactic(auto)]

use standard_input::read_input;
use std::io::Write;

// kept: beside the main of inspect, which it resembles: all that they share is input and output, of which no clause can speak.
fn main(rt: HostRuntime) {
    // One byte over the limit, so that a longer batch is seen to be too long.
    let mut batch = [0u8; batch::MAX_LEN + 1];
    let Ok(n) = read_input(&mut rt.stdin(), &mut batch) else {
        let _ = eprintln!(rt; "terminals: a read of the batch failed");
        return;
    };
    let mut text = [0u8; 1024];
    let length = terminals_report::report(&batch[..n], &mut text);
    let _ = rt.stdout().write_all(&text[..length]);
}
