// Replays the original's answers: batches on standard input, each with the number and the last row's cells that the original gives.
// `vectors`, a program of bindings/oracle, writes the file `stdin` by the original's own files: the number, the batch's length in
// two bytes, the batch, and `AUX_WORDS` words, little-endian, zeros where the original panics.
// The input ends where a read fails, what is missing of the last vector counts as zeros, and a write that fails changes nothing.
#![tactic(auto)]

use air::AUX_WORDS;
use refusal::answer_number;
use standard_input::read_until_failure;
use std::io::Read;

// More than the file holds.
const MOST: u64 = 1000;

// Whether the words are the bytes, little-endian.
fn same_words(words: &[u64], bytes: &[u8]) -> bool {
    words
        .iter()
        .zip(bytes.chunks_exact(8))
        .all(|(word, bytes)| word.to_le_bytes().as_slice() == bytes)
}

fn agrees(number: u8, batch: &[u8], expected: &[u8]) -> bool {
    let mut cells = [0u64; AUX_WORDS];
    let answer = terminals_batch::last_cells(batch, &mut cells);
    answer_number(answer) == u32::from(number) && same_words(&cells, expected)
}

// Whether the next vector's answer is the original's; nothing at the end of the file.
fn next_agrees(input: &mut impl Read) -> Option<bool> {
    let mut head = [0u8; 3];
    if read_until_failure(input, &mut head) < 3 {
        return None;
    }
    let [number, low, high] = head;
    let length = u16::from_le_bytes([low, high]);
    let mut batch = [0u8; batch::MAX_LEN];
    let Some(batch) = batch.get_mut(..usize::from(length)) else {
        return Some(false);
    };
    read_until_failure(input, batch);
    let mut expected = [0u8; AUX_WORDS * 8];
    read_until_failure(input, &mut expected);
    Some(agrees(number, batch, &expected))
}

fn main(rt: HostRuntime) {
    let mut vectors = 0u64;
    let mut differences = 0u64;
    for _ in 0..MOST {
        let Some(agrees) = next_agrees(&mut rt.stdin()) else {
            break;
        };
        vectors += 1;
        if !agrees {
            differences += 1;
        }
    }
    let _ = println!(rt; "{vectors} vectors, {differences} differences");
}
