// Padding below the trace, and the height of the table that holds it.
#![tactic(auto)]

ghost use Rattle.std.specs.Prelude.{◌≡◌, ◌+◌, ◌-◌, ◌*◌, ◌≤◌, ◌<◌, length, set};
ghost use Rattle.air.specs.MainColumn.{MAIN-WIDTH};
ghost use Rattle.table_rows.specs.Rows.{rows, row_at};
ghost use Rattle.table_rows.specs.Writes.{with_row, with_rows};
ghost use Rattle.table_pad.specs.Height.{height};
ghost use Rattle.table_pad.specs.Pad.{pad_answer, pad_table, padding_row};

use air::MainIndex;
use refusal::{MAX_LEN, Refusal};
use table_rows::unchecked::{put_row, raise_multiplicity, row};

pub mod unchecked;

// Copies the last row of the trace downward as padding, or writes nothing where it refuses.
#[tactic(auto, unfolding(crate::specs::Pad::pad_table, crate::specs::Pad::padded))]
pub fn pad(table: &mut [u64], table_len: usize) -> Result<(), Refusal>
    ensures answer { result ≡ pad_answer table.old table_len }
    ensures padded { table.new ≡ pad_table table.old table_len }
{
    pad_answer(table, table_len)?;
    let padding_rows = table.len() / MainIndex::COUNT - table_len;
    copy_down(table, table_len);
    // The jump stack looks the difference 1 up once in each padding row.
    raise_multiplicity(table, 1, padding_rows as u64);
    Ok(())
}

#[tactic(auto, unfolding(crate::specs::Pad::pad_answer))]
fn pad_answer(table: &[u64], table_len: usize) -> Result<(), Refusal>
    ensures { result ≡ pad_answer table.now table_len }
{
    if table.len() % MainIndex::COUNT != 0 {
        return Err(Refusal::SliceLength);
    }
    let rows = table.len() / MainIndex::COUNT;
    if rows < 2 || MAX_LEN < rows || table_len == 0 || rows < table_len {
        return Err(Refusal::RowCount);
    }
    let end = table_len * MainIndex::COUNT;
    if !field_base::all_below(&table[..end]) {
        return Err(Refusal::WordNotBelowP);
    }
    Ok(())
}

// A padding row like `last`, at the clock c.
pub fn padding_row(last: [u64; MainIndex::COUNT], c: usize) -> [u64; MainIndex::COUNT]
    ensures { result ≡ padding_row last c }
{
    let is_padding = MainIndex::IS_PADDING.0;
    let multiplicity = MainIndex::CLOCK_JUMP_DIFFERENCE_LOOKUP_MULTIPLICITY.0;
    let clk = MainIndex::CLK.0;
    let mut padding = last;
    padding[is_padding] = 1;
    padding[multiplicity] = 0;
    padding[clk] = c as u64;
    padding
}

// Rows from table_len on become padding like the row above them.
fn copy_down(table: &mut [u64], table_len: usize)
    requires { (0 < table_len) × (table_len ≤ rows table.old) }
    ensures { table.new ≡ with_rows MAIN-WIDTH table.old (padding_row (row_at table.old (table_len - 1))) table_len (rows table.old - table_len) }
{
    let rows = table.len() / MainIndex::COUNT;
    if table_len < rows {
        let last = row(table, table_len - 1);
        put_row(table, table_len, padding_row(last, table_len));
        for c in table_len + 1..rows {
            repeat_row(table, c);
        }
    }
}

// Row c like the row above it, at the clock c: the clock is its first word.
fn repeat_row(table: &mut [u64], c: usize)
    requires { (0 < c) × ((c + 1) * MAIN-WIDTH ≤ length table.old) }
    ensures { table.new ≡ with_row MAIN-WIDTH table.old c (set (row_at table.old (c - 1)) 0 c) }
{
    let at = c * MainIndex::COUNT;
    let to = at + 1;
    let from = to - MainIndex::COUNT;
    // kept: word by word, since copy_within, which copies backward here, takes a twentieth longer.
    for i in 0..38 {
        table[to + i] = table[from + i];
    }
    table[at] = c as u64;
}

// The rows of the table that holds a trace: a power of two, at least 2.
pub fn table_height(rows: usize) -> usize
    ensures { (result ≡ height rows) × (2 ≤ result) × (result ≤ 32) }
{
    rows.clamp(2, 32).next_power_of_two()
}
