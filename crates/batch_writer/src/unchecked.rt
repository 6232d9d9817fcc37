// The caller knows that the batch reaches as far as the commands.
ghost use Rattle.std.specs.Prelude.{◌≡◌, true, ◌∷◌, ◌+◌, ◌*◌, ◌/◌, ◌%◌, ◌<◌, ◌≤◌, length};
ghost use Rattle.field_montgomery.specs.Form.{in_form};
ghost use Rattle.table_rows.specs.Rows.{rows};
ghost use Rattle.batch_words.specs.Words.{little_endian, bytes_of};
ghost use Rattle.batch_words.specs.Pasted.{pasted};
ghost use Rattle.batch_commands.specs.Format.{TRACE-ROWS, MAX-ROWS, MAX-LOG-2-HEIGHT, width, laid_out, MAX-DIFFERENCES};
ghost use Rattle.batch_commands.specs.Code.{byte_of};
ghost use Rattle.batch_sorted.specs.Sorted.{sorted};
ghost use Rattle.batch_lengths.specs.Lengths.{height_length};
ghost use Rattle.batch_writer.specs.Contents.{contents_in};
ghost use Rattle.batch_writer.specs.Layout.{commands_of_height, commands_with, batch_of};
ghost use Rattle.batch_writer.specs.Write.{right_lengths};

use crate::Lists;
use air::MainIndex;
use batch_commands::{Code, MAX_DIFFERENCES, row_command};
use batch_sorted::unchecked::put_sorted;
use batch_words::unchecked::{write_half, write_words};
use field_montgomery::Form;

// The first command.
fn put_trace_rows(batch: &mut [u8], rows: usize)
    requires { (rows ≤ MAX-ROWS) × (5 ≤ length batch.old) }
    ensures { batch.new ≡ pasted batch.old 0 (TRACE-ROWS ∷ little_endian 4 rows) }
{
    batch[0] = u8::from(Code::TraceRows);
    write_half(batch, 1, rows as u32);
}

// 0B behind it, unless k is 0. Answers the place past it.
fn put_height(batch: &mut [u8], log2_height: usize) -> usize
    requires { (log2_height ≤ MAX-LOG-2-HEIGHT) × (5 + height_length log2_height ≤ length batch.old) }
    ensures value { result ≡ 5 + height_length log2_height }
    ensures batch_after { batch.new ≡ pasted batch.old 5 (laid_out (commands_of_height log2_height)) }
{
    if log2_height == 0 {
        return 5;
    }
    batch[5] = u8::from(Code::Height);
    batch[6] = log2_height as u8;
    7
}

fn put_command(batch: &mut [u8], at: usize, code: Code, form: Form, words: &[u64])
    requires { at + 1 + 8 * length words.now ≤ length batch.old }
    ensures { batch.new ≡ pasted batch.old at (byte_of code ∷ bytes_of (in_form form words.now)) }
{
    batch[at] = u8::from(code);
    write_words(words, form, batch, at + 1);
}

// Commands of one kind, their words in the form, from there on. Answers the place past them.
fn put_commands(batch: &mut [u8], at: usize, code: Code, form: Form, words: &[u64]) -> usize
    requires code_bound { (0 < width (byte_of code)) × (width (byte_of code) % 8 ≡ 0) }
    requires code_in_bounds { at + length words.now / (width (byte_of code) / 8) * (1 + width (byte_of code)) ≤ length batch.old }
    ensures value { result ≡ at + length words.now / (width (byte_of code) / 8) * (1 + width (byte_of code)) }
    ensures batch_after { batch.new ≡ pasted batch.old at (laid_out (commands_with (length words.now / (width (byte_of code) / 8)) (byte_of code) (in_form form words.now))) }
{
    let each = code.width() / 8;
    let mut to = at;
    for part in words.chunks_exact(each) {
        put_command(batch, to, code, form, part);
        to += 1 + 8 * each;
    }
    to
}

// The differences of a list, ascending.
fn put_differences(batch: &mut [u8], at: usize, code: Code, list: &[u64]) -> usize
    requires code_bound { (width (byte_of code) ≡ 8) × (length list.now ≤ MAX-DIFFERENCES) }
    requires list_in_bounds { at + length list.now * 9 ≤ length batch.old }
    ensures value { result ≡ at + length list.now * 9 }
    ensures batch_after { batch.new ≡ pasted batch.old at (laid_out (commands_with (length list.now) (byte_of code) (sorted list.now))) }
{
    let mut room = [0; MAX_DIFFERENCES];
    let ascending = &mut room[..list.len()];
    put_sorted(list, ascending);
    put_commands(batch, at, code, Form::Plain, ascending)
}

// The batch of these contents.
#[tactic(auto, using(crate::proofs::Lengths::right))]
pub fn put_batch(lists: Lists, form: Form, log2_height: usize, batch: &mut [u8])
    requires trace_bound { (rows lists.trace.now ≤ MAX-ROWS) × (log2_height ≤ MAX-LOG-2-HEIGHT) }
    requires batch_value { right_lengths form (contents_in lists log2_height) (length batch.old) ≡ true }
    ensures { batch.new ≡ batch_of form (contents_in lists.entry log2_height) }
{
    put_trace_rows(batch, lists.trace.len() / MainIndex::COUNT);
    let mut at = put_height(batch, log2_height);
    at = put_commands(batch, at, Code::Digest, Form::Plain, lists.digest);
    at = put_commands(batch, at, Code::Input, Form::Plain, lists.input);
    at = put_commands(batch, at, Code::Output, Form::Plain, lists.output);
    at = put_commands(batch, at, Code::Sampled, Form::Plain, lists.sampled);
    at = put_commands(batch, at, row_command(form), form, lists.trace);
    at = put_differences(batch, at, Code::OpStack, lists.op_stack);
    at = put_differences(batch, at, Code::Ram, lists.ram);
    at = put_differences(batch, at, Code::JumpStack, lists.jump_stack);
    batch[at] = u8::from(Code::End);
}
