// The caller knows that the batch is read to its end, and lends room for what it brings.
ghost use Rattle.std.specs.Prelude.{◌≡◌, ◌+◌, ◌<◌, ◌≤◌, length};
ghost use Rattle.field_montgomery.specs.Form.{plain};
ghost use Rattle.batch_commands.specs.Format.{ROW, rank};
ghost use Rattle.batch_commands.specs.Code.{byte_of};
ghost use Rattle.batch_commands.specs.Form.{OfForm};
ghost use Rattle.batch_reader.specs.Commands.{contents, form_of};
ghost use Rattle.batch_reader.specs.Reading.{read, reading, commands_of};
ghost use Rattle.batch_reader.specs.Answers.{brought, written};
ghost use Rattle.batch_reader.specs.Steps.{bytes_below};

use batch_commands::Code;
use batch_words::unchecked::put_words;
use field_montgomery::Form;

// The words of the commands of the wanted kind, the first of which stands at `at`, go from their form into the slice. Answers the place behind the last.
pub fn put_section(batch: &[u8], at: usize, wanted: Code, form: Form, slice: &mut [u64]) -> usize
    requires batch_value { reading batch.now ≡ read (commands_of (reading batch.now)) }
    requires wanted_nonzero { (0 < byte_of wanted) × OfForm (form_of (commands_of (reading batch.now))) (byte_of wanted) }
    requires at_value { at ≡ bytes_below (rank (byte_of wanted)) (commands_of (reading batch.now)) }
    requires batch_in_bounds { length (contents (byte_of wanted) (commands_of (reading batch.now))) ≤ length slice.old }
    ensures value { result ≡ bytes_below (rank (byte_of wanted) + 1) (commands_of (reading batch.now)) }
    ensures slice_after { slice.new ≡ written (plain form (contents (byte_of wanted) (commands_of (reading batch.now)))) slice.old }
{
    let byte = u8::from(wanted);
    let width = wanted.width();
    let n = width / 8;
    let mut to = 0;
    let mut place = at;
    // kept: no iterator, since the place behind the section is the answer, and only the command that stands there says that it is.
    while batch[place] == byte {
        put_words(batch, place + 1, n, form, slice, to);
        to += n;
        place += 1 + width;
    }
    place
}

// The rows, the first of which stands at `at`, go into the slice. Answers the place behind the last.
pub fn put_rows(batch: &[u8], at: usize, slice: &mut [u64]) -> usize
    requires batch_value { reading batch.now ≡ read (commands_of (reading batch.now)) }
    requires at_value { at ≡ bytes_below (rank ROW) (commands_of (reading batch.now)) }
    requires batch_in_bounds { length (brought ROW batch.now) ≤ length slice.old }
    ensures value { result ≡ bytes_below (rank ROW + 1) (commands_of (reading batch.now)) }
    ensures slice_after { slice.new ≡ written (brought ROW batch.now) slice.old }
{
    if batch[at] == u8::from(Code::MontgomeryRow) {
        put_section(batch, at, Code::MontgomeryRow, Form::Montgomery, slice)
    } else {
        put_section(batch, at, Code::Row, Form::Plain, slice)
    }
}
