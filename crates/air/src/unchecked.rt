// Reading a row in a column; the caller proves that the row reaches that far.
ghost use Rattle.std.specs.Prelude.{◌≡◌, ◌<◌, length, get_or};

use crate::MainIndex;

pub fn word_at(row: &[u64], column: MainIndex) -> u64
    requires { column.0 < length row.now }
    ensures { result ≡ get_or row.now column.0 0 }
{
    row[column.0]
}
