// Compares tip5's published table, on standard input as lines of three digits, with the const of `tip5`.
// The input ends where a read fails, and a write that fails changes nothing.
#![tactic(auto)]

ghost use Rattle.std.specs.Prelude.{◌≤◌};

use standard_input::read_until_failure;
use tip5::LOOKUP_TABLE;

// A line's length with its end.
const LINE: usize = 4;

// More than a byte: a line that is missing, or a character that is no digit.
const NO_BYTE: u64 = 1000;

fn digit(byte: u8) -> u64
    ensures { result ≤ 1000 }
{
    match byte {
        b'0'..=b'9' => u64::from(byte - b'0'),
        _ => NO_BYTE,
    }
}

fn published(line: &[u8; LINE]) -> u64 {
    let [hundreds, tens, ones, _] = *line;
    digit(hundreds) * 100 + digit(tens) * 10 + digit(ones)
}

fn main(rt: HostRuntime) {
    let mut buffer = [0u8; 4096];
    let n = read_until_failure(&mut rt.stdin(), &mut buffer);
    let (lines, _) = buffer[..n].as_chunks::<LINE>();
    let mut differences = 0u64;
    for (i, here) in LOOKUP_TABLE.iter().enumerate() {
        let there = lines.get(i).map_or(NO_BYTE, published);
        if there != u64::from(*here) {
            let _ = println!(rt; "entry {i}: published {there}, here {here}");
            differences += 1;
        }
    }
    let _ = println!(rt; "{} bytes, {differences} differences", lines.len());
}
