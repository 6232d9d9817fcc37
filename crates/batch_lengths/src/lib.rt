// The lengths of what is written.
#![tactic(auto)]

ghost use Rattle.std.specs.Prelude.{◌≡◌, ◌≤◌, eqb};
ghost use Rattle.batch_lengths.specs.Lengths.{height_length, batch_length, right_numbers};

use air::{DIGEST_WORDS, MainIndex, SAMPLED_WORDS};
use batch_commands::{MAX_DIFFERENCES, MAX_WORDS};

// What 01, 07, 06 and 00 take, and 0B, and a row, and a difference or a word.
const ONCE_LEN: usize = 1464;

const HEIGHT_LEN: usize = 2;

const ROW_LEN: usize = 313;

const WORD_LEN: usize = 9;

// What k takes: no 0B is written for 0.
fn height_len(log2_height: usize) -> usize
    ensures { result ≡ height_length log2_height }
{
    if log2_height == 0 { 0 } else { HEIGHT_LEN }
}

// Whether a batch with k, so many rows, and so many differences and words is that long.
fn is_batch_length(log2_height: usize, rows: usize, words: usize, batch: usize) -> bool
    requires { words ≤ 512 }
    ensures { result ≡ eqb batch (batch_length log2_height rows words) }
{
    let without_rows = ONCE_LEN + height_len(log2_height) + WORD_LEN * words;
    without_rows <= batch
        && (batch - without_rows) % ROW_LEN == 0
        && (batch - without_rows) / ROW_LEN == rows
}

// Of whole rows, lists within their counts, and a batch as long as they make it.
pub fn right_lengths(
    trace: usize,
    op_stack: usize,
    ram: usize,
    jump_stack: usize,
    sampled: usize,
    digest: usize,
    input: usize,
    output: usize,
    log2_height: usize,
    batch: usize,
) -> bool
    ensures { result ≡ right_numbers trace op_stack ram jump_stack sampled digest input output log2_height batch }
{
    trace % MainIndex::COUNT == 0
        && op_stack <= MAX_DIFFERENCES
        && ram <= MAX_DIFFERENCES
        && jump_stack <= MAX_DIFFERENCES
        && sampled == SAMPLED_WORDS
        && digest == DIGEST_WORDS
        && input <= MAX_WORDS
        && output <= MAX_WORDS
        && is_batch_length(
            log2_height,
            trace / MainIndex::COUNT,
            op_stack + ram + jump_stack + input + output,
            batch,
        )
}
