// Each function writes from `at` on, where the caller lends room enough, and answers where its text ends.
ghost use Rattle.std.specs.Prelude.{◌≡◌, ◌+◌, ◌*◌, ◌≤◌, ◌<◌, length};
ghost use Rattle.std.proofs.lemmas.List.Edits.{sets};
ghost use Rattle.table_rows.specs.Rows.{rows};
ghost use Rattle.air_names.specs.Instruction.{name_of};
ghost use Rattle.batch_commands.specs.Format.{MAX-ROWS};
ghost use Rattle.inspect_text.specs.Text.{limits, unknown_text, outside_text, numbers_text, line, row_text, lines, trace_text};

use air::MainIndex;
use air::unchecked::word_at;
use isa::Instruction;
use isa_decoding::{Class, Undecodable};
use table_rows::unchecked::row_at;
use text::unchecked::{put_bytes, put_decimal, put_word};

fn put_name(i: Instruction, out: &mut [u8], at: usize) -> usize
    requires { at + 17 ≤ length out.old }
    ensures end { (result ≡ at + length (name_of i)) × (result ≤ at + 17) }
    ensures text { out.new ≡ sets out.old at (name_of i) }
{
    put_bytes(air_names::instruction(i).as_bytes(), out, at)
}

fn put_limits(class: Class, out: &mut [u8], at: usize) -> usize
    requires { at + 7 ≤ length out.old }
    ensures end { (result ≡ at + length (limits class)) × (result ≤ at + 7) }
    ensures text { out.new ≡ sets out.old at (limits class) }
{
    match class {
        Class::StackElement => put_bytes(b"0 to 15", out, at),
        Class::NumberOfWords => put_bytes(b"1 to 5", out, at),
    }
}

#[tactic(auto, using(text::proofs::Stores::stores, text::proofs::Digits::at_most_twenty), unfolding(crate::specs::Text::unknown_text))]
fn put_unknown(ci: u64, out: &mut [u8], at: usize) -> usize
    requires { at + 35 ≤ length out.old }
    ensures end { (result ≡ at + length (unknown_text ci)) × (result ≤ at + 35) }
    ensures text { out.new ≡ sets out.old at (unknown_text ci) }
{
    let at0 = put_bytes(b"opcode ", out, at);
    let at1 = put_decimal(ci, out, at0);
    put_bytes(b" is none", out, at1)
}

#[tactic(auto, using(text::proofs::Stores::stores, text::proofs::Digits::at_most_twenty), unfolding(crate::specs::Text::outside_text))]
fn put_outside(class: Class, i: Instruction, nia: u64, out: &mut [u8], at: usize) -> usize
    requires { at + 68 ≤ length out.old }
    ensures end { (result ≡ at + length (outside_text class i nia)) × (result ≤ at + 68) }
    ensures text { out.new ≡ sets out.old at (outside_text class i nia) }
{
    let at0 = put_bytes(b"argument ", out, at);
    let at1 = put_decimal(nia, out, at0);
    let at2 = put_bytes(b" of ", out, at1);
    let at3 = put_name(i, out, at2);
    let at4 = put_bytes(b" is not in ", out, at3);
    put_limits(class, out, at4)
}

// kept: a row's number as a number, since it is printed; below 100 it has two digits.
// Three numbers, and a space after each.
#[tactic(auto, using(text::proofs::Stores::stores, text::proofs::Digits::at_most_two), unfolding(crate::specs::Text::numbers_text))]
fn put_numbers(row: usize, ci: u64, nia: u64, out: &mut [u8], at: usize) -> usize
    requires { (row < 100) × (at + 63 ≤ length out.old) }
    ensures end { (result ≡ at + length (numbers_text row ci nia)) × (result ≤ at + 45) }
    ensures text { out.new ≡ sets out.old at (numbers_text row ci nia) }
{
    let at0 = put_word(row as u64, b' ', out, at);
    let at1 = put_word(ci, b' ', out, at0);
    put_word(nia, b' ', out, at1)
}

// The line of a row that does not decode; nothing for one that does.
#[tactic(auto, using(text::proofs::Stores::stores), unfolding(crate::specs::Text::line))]
fn put_line(row: usize, ci: u64, nia: u64, out: &mut [u8], at: usize) -> usize
    requires { (row < 100) × (at + 114 ≤ length out.old) }
    ensures end { (result ≡ at + length (line row ci nia)) × (result ≤ at + 114) }
    ensures text { out.new ≡ sets out.old at (line row ci nia) }
{
    match isa_decoding::instruction_from(ci, nia) {
        Ok(_) => at,
        Err(Undecodable::Unknown) => {
            let at0 = put_numbers(row, ci, nia, out, at);
            let at1 = put_unknown(ci, out, at0);
            put_bytes(b"\n", out, at1)
        }
        Err(Undecodable::Outside(class, i)) => {
            let at0 = put_numbers(row, ci, nia, out, at);
            let at1 = put_outside(class, i, nia, out, at0);
            put_bytes(b"\n", out, at1)
        }
    }
}

fn put_row(words: &[u64; MainIndex::COUNT], row: usize, out: &mut [u8], at: usize) -> usize
    requires { (row < 100) × (at + 114 ≤ length out.old) }
    ensures end { (result ≡ at + length (row_text words.now row)) × (result ≤ at + 114) }
    ensures text { out.new ≡ sets out.old at (row_text words.now row) }
{
    let ci = word_at(words, MainIndex::CI);
    let nia = word_at(words, MainIndex::NIA);
    put_line(row, ci, nia, out, at)
}

// At the start of `out`.
#[tactic(auto, using(text::proofs::Stores::stores, table_rows::proofs::Rows::one_more_row, table_rows::proofs::Rows::row_part), unfolding(crate::specs::Text::lines, table_rows::specs::Rows::rows_from))]
fn put_lines(trace: &[u64], out: &mut [u8]) -> usize
    requires { (rows trace.now ≤ MAX-ROWS) × (MAX-ROWS * 114 ≤ length out.old) }
    ensures end { (result ≡ length (lines trace.now)) × (result ≤ MAX-ROWS * 114) }
    ensures text { out.new ≡ sets out.old 0 (lines trace.now) }
{
    let rows = trace.len() / MainIndex::COUNT;
    let mut at = 0;
    for row in 0..rows {
        at = put_row(row_at(trace, row), row, out, at);
    }
    at
}

// The lines of a trace's rows, or one that says that all decode, at the start of `out`.
#[tactic(auto, unfolding(crate::specs::Text::trace_text))]
pub fn put_trace(trace: &[u64], out: &mut [u8]) -> usize
    requires { (rows trace.now ≤ MAX-ROWS) × (MAX-ROWS * 114 ≤ length out.old) }
    ensures end { (result ≡ length (trace_text trace.now)) × (result ≤ MAX-ROWS * 114) }
    ensures text { out.new ≡ sets out.old 0 (trace_text trace.now) }
{
    let end = put_lines(trace, out);
    if end == 0 {
        return put_bytes(b"all rows decode\n", out, 0);
    }
    end
}
