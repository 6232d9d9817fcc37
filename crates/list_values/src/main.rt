// Replays document 01's values to hold that are not proved in `terms_cases`, from lines on standard input, written by hand from its text:
// an operation, the table's rows, `table_len` or a difference, and the answer.
// The input ends where a read fails, and a write that fails changes nothing.
#![tactic(auto)]

ghost use Rattle.std.specs.Prelude.{◌≤◌};

use air::MainIndex;
use refusal::answer_number;
use standard_input::read_until_failure;

// A line with its end: an operation of four letters, two numbers of two digits, an answer.
const LINE: usize = 13;

const MAX_ROWS: usize = 32;

const WORDS: usize = MAX_ROWS * MainIndex::COUNT;

// A character that is no digit counts as 0.
fn digit(byte: u8) -> u8
    ensures { result ≤ 9 }
{
    match byte {
        b'0'..=b'9' => byte - b'0',
        _ => 0,
    }
}

fn two_digits(tens: u8, ones: u8) -> u8
    ensures { result ≤ 99 }
{
    digit(tens) * 10 + digit(ones)
}

fn words_of(rows: u8) -> usize {
    usize::from(rows) * MainIndex::COUNT
}

// Nothing for more rows than `MAX_ROWS`.
fn pad(rows: u8, table_len: u8) -> Option<u32> {
    let mut table = [0u64; WORDS];
    let table = table.get_mut(..words_of(rows))?;
    Some(answer_number(table_pad::pad(table, usize::from(table_len))))
}

// A trace of zeros that fills the table, and one difference; nothing for more rows than `MAX_ROWS`.
fn fill(rows: u8, difference: u8) -> Option<u32> {
    let trace = [0u64; WORDS];
    let mut table = [0u64; WORDS];
    let trace = trace.get(..words_of(rows))?;
    let table = table.get_mut(..words_of(rows))?;
    let differences = [u64::from(difference)];
    Some(answer_number(table_fill::fill(trace, &differences, &[], &[], table)))
}

// Whether the operation in a line, which its first letter names, answers what stands there.
fn holds(line: &[u8; LINE]) -> bool {
    let [
        operation,
        _,
        _,
        _,
        _,
        row_tens,
        row_ones,
        _,
        tens,
        ones,
        _,
        expected,
        _,
    ] = *line;
    let rows = two_digits(row_tens, row_ones);
    let word = two_digits(tens, ones);
    let answer = match operation {
        b'p' => pad(rows, word),
        b'f' => fill(rows, word),
        _ => None,
    };
    answer == Some(u32::from(digit(expected)))
}

fn main(rt: HostRuntime) {
    let mut buffer = [0u8; 4096];
    let n = read_until_failure(&mut rt.stdin(), &mut buffer);
    let (lines, _) = buffer[..n].as_chunks::<LINE>();
    let differences = lines.iter().filter(|line| !holds(line)).count();
    let _ = println!(rt; "{} values, {differences} differences", lines.len());
}
