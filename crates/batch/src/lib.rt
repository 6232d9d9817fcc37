// Open: it decides on its answer first, and writes only then, section by section.
#![tactic(auto)]

ghost use Rattle.std.specs.Prelude.{◌≡◌, cond, eqb, length};
ghost use Rattle.batch_commands.specs.Format.{ROW, OP-STACK, RAM, JUMP-STACK, SAMPLED, DIGEST, INPUT, OUTPUT};
ghost use Rattle.batch.specs.Open.{right_lengths, open_answer, open_slice};

use air::{DIGEST_WORDS, MainIndex, SAMPLED_WORDS};
use batch_commands::{Code, MAX_DIFFERENCES, MAX_ROWS, MAX_WORDS};
use batch_reader::unchecked::{put_rows, put_section};
use batch_reader::{Counts, read};
use field_montgomery::Form;
use refusal::Refusal;

// Longer batches are turned away unread.
pub const MAX_LEN: usize = 16384;

// Of the slice for the trace.
pub const TRACE_WORDS: usize = MAX_ROWS * MainIndex::COUNT;

// Where 01 ends, and where 0B does.
const BEHIND_ROWS: usize = 5;

const BEHIND_HEIGHT: usize = 7;

// Where 07 stands.
fn digest_at(log2_height: usize) -> usize
    ensures { result ≡ cond (eqb log2_height 0) 5 7 }
{
    if log2_height == 0 {
        BEHIND_ROWS
    } else {
        BEHIND_HEIGHT
    }
}

fn right_lengths(
    trace: usize,
    op_stack: usize,
    ram: usize,
    jump_stack: usize,
    sampled: usize,
    digest: usize,
    input: usize,
    output: usize,
) -> bool
    ensures { result ≡ right_lengths trace op_stack ram jump_stack sampled digest input output }
{
    trace == TRACE_WORDS
        && op_stack == MAX_DIFFERENCES
        && ram == MAX_DIFFERENCES
        && jump_stack == MAX_DIFFERENCES
        && sampled == SAMPLED_WORDS
        && digest == DIGEST_WORDS
        && input == MAX_WORDS
        && output == MAX_WORDS
}

// Reads the batch into the slices, or writes nothing where it refuses.
#[tactic(auto, unfolding(crate::specs::Open::open_answer, crate::specs::Open::open_slice, batch_reader::specs::Answers::brought))]
pub fn open(
    batch: &[u8],
    trace: &mut [u64],
    op_stack: &mut [u64],
    ram: &mut [u64],
    jump_stack: &mut [u64],
    sampled: &mut [u64],
    digest: &mut [u64],
    input: &mut [u64],
    output: &mut [u64],
) -> Result<Counts, Refusal>
    ensures answer { result ≡ open_answer batch.now
        (length trace.old) (length op_stack.old) (length ram.old) (length jump_stack.old)
        (length sampled.old) (length digest.old) (length input.old) (length output.old) }
    ensures trace { trace.new ≡ open_slice result ROW batch.now trace.old }
    ensures op_stack { op_stack.new ≡ open_slice result OP-STACK batch.now op_stack.old }
    ensures ram { ram.new ≡ open_slice result RAM batch.now ram.old }
    ensures jump_stack { jump_stack.new ≡ open_slice result JUMP-STACK batch.now jump_stack.old }
    ensures sampled { sampled.new ≡ open_slice result SAMPLED batch.now sampled.old }
    ensures digest { digest.new ≡ open_slice result DIGEST batch.now digest.old }
    ensures input { input.new ≡ open_slice result INPUT batch.now input.old }
    ensures output { output.new ≡ open_slice result OUTPUT batch.now output.old }
{
    if MAX_LEN < batch.len()
        || !right_lengths(
            trace.len(),
            op_stack.len(),
            ram.len(),
            jump_stack.len(),
            sampled.len(),
            digest.len(),
            input.len(),
            output.len(),
        )
    {
        return Err(Refusal::SliceLength);
    }
    let counts = read(batch)?;
    let at = digest_at(counts.log2_height);
    let at = put_section(batch, at, Code::Digest, Form::Plain, digest);
    let at = put_section(batch, at, Code::Input, Form::Plain, input);
    let at = put_section(batch, at, Code::Output, Form::Plain, output);
    let at = put_section(batch, at, Code::Sampled, Form::Plain, sampled);
    let at = put_rows(batch, at, trace);
    let at = put_section(batch, at, Code::OpStack, Form::Plain, op_stack);
    let at = put_section(batch, at, Code::Ram, Form::Plain, ram);
    put_section(batch, at, Code::JumpStack, Form::Plain, jump_stack);
    Ok(counts)
}
