// The lines of the cells, where the caller lends room enough.
ghost use Rattle.std.specs.Prelude.{◌≡◌, ◌+◌, ◌≤◌, ◌<◌, length};
ghost use Rattle.std.proofs.lemmas.List.Edits.{sets};
ghost use Rattle.air.specs.AuxColumn.{AUX-WIDTH};
ghost use Rattle.terminals_text.specs.Text.{line, lines};

use air::{AUX_WORDS, AuxIndex};
use text::unchecked::put_word;

// A column and its three words.
#[tactic(auto, using(text::proofs::Stores::stores))]
fn put_line(column: usize, cells: &[u64; AUX_WORDS], out: &mut [u8], at: usize) -> usize
    requires { (column < AUX-WIDTH) × (at + 84 ≤ length out.old) }
    ensures end { (result ≡ at + length (line cells.now column)) × (result ≤ at + 84) }
    ensures text { out.new ≡ sets out.old at (line cells.now column) }
{
    let first = column * 3;
    let at0 = put_word(column as u64, b' ', out, at);
    let at1 = put_word(cells[first], b' ', out, at0);
    let at2 = put_word(cells[first + 1], b' ', out, at1);
    put_word(cells[first + 2], b'\n', out, at2)
}

#[tactic(auto, using(text::proofs::Stores::stores, table_rows::proofs::Rows::one_more_row), unfolding(crate::specs::Text::lines, table_rows::specs::Rows::rows_from))]
pub fn put_lines(cells: &[u64; AUX_WORDS], out: &mut [u8]) -> usize
    requires { 924 ≤ length out.old }
    ensures end { (result ≡ length (lines cells.now)) × (result ≤ 924) }
    ensures text { out.new ≡ sets out.old 0 (lines cells.now) }
{
    let mut at = 0;
    for column in 0..AuxIndex::COUNT {
        at = put_line(column, cells, out, at);
    }
    at
}
