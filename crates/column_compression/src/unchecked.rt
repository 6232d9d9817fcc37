// Reading a row.
ghost use Rattle.std.specs.Prelude.{◌≡◌, ◌+◌, ◌≤◌, length};
ghost use Rattle.column_entries.specs.Row.{words_from, is_padding, instruction_of};

use air::MainIndex;
use air::unchecked::word_at;
use isa::Instruction;
use isa_decoding::Undecodable;

// `n` words, from a column on.
pub fn words_from(row: &[u64], column: MainIndex, n: usize) -> &[u64]
    requires { column.0 + n ≤ length row.now }
    ensures words { result.now ≡ words_from row.now column.0 n }
    ensures count { length result.now ≡ n }
{
    let start = column.0;
    let end = start + n;
    &row[start..end]
}

pub fn is_padding(row: &[u64; MainIndex::COUNT]) -> bool
    ensures { result ≡ is_padding row.now }
{
    word_at(row, MainIndex::IS_PADDING) == 1
}

pub fn instruction_from_row(row: &[u64; MainIndex::COUNT]) -> Result<Instruction, Undecodable>
    ensures { result ≡ instruction_of row.now }
{
    let ci = word_at(row, MainIndex::CI);
    let nia = word_at(row, MainIndex::NIA);
    isa_decoding::instruction_from(ci, nia)
}
