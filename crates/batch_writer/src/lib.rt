// Write: it decides on its answer first, and writes only then.
#![tactic(auto)]

ghost use Rattle.std.specs.Prelude.{◌≡◌, length};
ghost use Rattle.batch_writer.specs.Contents.{contents_of, contents_in};
ghost use Rattle.batch_writer.specs.Write.{all_words_below, refused_height, write_answer, write_batch};

use air::MainIndex;
use batch_commands::{MAX_ROWS, wrong_height};
use batch_lengths::right_lengths;
use field_base::all_below;
use field_montgomery::Form;
use refusal::Refusal;
use unchecked::put_batch;

mod unchecked;

// What a batch holds but for k.
#[derive(Clone, Copy)]
pub(crate) struct Lists<'a> {
    pub(crate) trace: &'a [u64],
    pub(crate) op_stack: &'a [u64],
    pub(crate) ram: &'a [u64],
    pub(crate) jump_stack: &'a [u64],
    pub(crate) sampled: &'a [u64],
    pub(crate) digest: &'a [u64],
    pub(crate) input: &'a [u64],
    pub(crate) output: &'a [u64],
}

fn all_words_below(lists: Lists) -> bool
    ensures { result ≡ all_words_below (contents_in lists.entry 0) }
{
    all_below(lists.trace)
        && all_below(lists.op_stack)
        && all_below(lists.ram)
        && all_below(lists.jump_stack)
        && all_below(lists.sampled)
        && all_below(lists.digest)
        && all_below(lists.input)
        && all_below(lists.output)
}

// Whether k is neither 0 nor the height of a table with these rows.
fn refused_height(rows: usize, log2_height: usize) -> bool
    ensures { result ≡ refused_height rows log2_height }
{
    log2_height != 0 && wrong_height(rows, log2_height)
}

// Writes the batch of these contents, its rows in the form and without 0B for k 0, or nothing where it refuses.
pub fn write(
    trace: &[u64],
    op_stack: &[u64],
    ram: &[u64],
    jump_stack: &[u64],
    sampled: &[u64],
    digest: &[u64],
    input: &[u64],
    output: &[u64],
    form: Form,
    log2_height: usize,
    batch: &mut [u8],
) -> Result<(), Refusal>
    ensures answer { result ≡ write_answer form (contents_of trace.now op_stack.now ram.now jump_stack.now sampled.now digest.now input.now output.now log2_height) (length batch.old) }
    ensures batch { batch.new ≡ write_batch form (contents_of trace.now op_stack.now ram.now jump_stack.now sampled.now digest.now input.now output.now log2_height) batch.old }
{
    if !right_lengths(
        trace.len(),
        op_stack.len(),
        ram.len(),
        jump_stack.len(),
        sampled.len(),
        digest.len(),
        input.len(),
        output.len(),
        log2_height,
        batch.len(),
    ) {
        return Err(Refusal::SliceLength);
    }
    let rows = trace.len() / MainIndex::COUNT;
    if !(1..=MAX_ROWS).contains(&rows) {
        return Err(Refusal::RowCount);
    }
    if refused_height(rows, log2_height) {
        return Err(Refusal::HeightOutOfRange);
    }
    let lists = Lists {
        trace,
        op_stack,
        ram,
        jump_stack,
        sampled,
        digest,
        input,
        output,
    };
    if !all_words_below(lists) {
        return Err(Refusal::WordNotBelowP);
    }
    put_batch(lists, form, log2_height, batch);
    Ok(())
}
