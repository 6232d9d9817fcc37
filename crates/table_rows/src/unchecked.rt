// Rows by their index; the caller proves that the table reaches that far.
ghost use Rattle.std.specs.Prelude.{◌≡◌, [], ◌∷◌, ◌+◌, ◌*◌, ◌≤◌, ◌<◌, length};
ghost use Rattle.refusal.specs.Long.{MAX-LEN};
ghost use Rattle.air.specs.MainColumn.{MAIN-WIDTH};
ghost use Rattle.table_rows.specs.Rows.{rows, row_at, row_before, started_chunks};
ghost use Rattle.table_rows.specs.Writes.{with_row, raised};

use air::MainIndex;

// Word by word: where such a row is only read, the compiler makes no copy of it.
pub fn row(table: &[u64], c: usize) -> [u64; MainIndex::COUNT]
    requires { (c + 1) * MAIN-WIDTH ≤ length table.now }
    ensures { result ≡ row_at table.now c }
{
    let at = c * MainIndex::COUNT;
    std::array::from_fn(|i| table[at + i])
}

// A row where it stands.
pub fn row_at(table: &[u64], c: usize) -> &[u64; MainIndex::COUNT]
    requires { (c + 1) * MAIN-WIDTH ≤ length table.now }
    ensures { result.now ≡ row_at table.now c }
{
    let start = c * MainIndex::COUNT;
    let end = start + MainIndex::COUNT;
    table[start..end].as_array().unwrap()
}

// The row before row c, where `before` stands before row 0.
pub fn row_before<'a>(
    before: &'a [u64; MainIndex::COUNT],
    table: &'a [u64],
    c: usize,
) -> &'a [u64; MainIndex::COUNT]
    requires { c * MAIN-WIDTH ≤ length table.now }
    ensures { result.now ≡ row_before before.now (row_at table.now) c }
{
    if c == 0 {
        return before;
    }
    row_at(table, c - 1)
}

pub fn window(
    prev: &[u64; MainIndex::COUNT],
    curr: &[u64; MainIndex::COUNT],
) -> [[u64; MainIndex::COUNT]; 2]
    ensures { result ≡ prev.now ∷ curr.now ∷ [] }
{
    [*prev, *curr]
}

pub fn put_row(table: &mut [u64], c: usize, row: [u64; MainIndex::COUNT])
    requires { (c + 1) * MAIN-WIDTH ≤ length table.old }
    ensures { table.new ≡ with_row MAIN-WIDTH table.old c row }
{
    let start = c * MainIndex::COUNT;
    let end = start + MainIndex::COUNT;
    table[start..end].copy_from_slice(&row);
}

// Row c of one table into another.
// kept: word by word, which compiles to moves; `copy_from_slice` between two slices calls memmove, which the archive for C does not need.
pub fn copy_row(from: &[u64], to: &mut [u64], c: usize)
    requires { ((c + 1) * MAIN-WIDTH ≤ length from.now) × ((c + 1) * MAIN-WIDTH ≤ length to.old) }
    ensures { to.new ≡ with_row MAIN-WIDTH to.old c (row_at from.now c) }
{
    let at = c * MainIndex::COUNT;
    for i in 0..MainIndex::COUNT {
        to[at + i] = from[at + i];
    }
}

// Row c's multiplicity grows, modulo p.
pub fn raise_multiplicity(table: &mut [u64], c: usize, by: u64)
    requires { (c < rows table.old) × (by ≤ MAX-LEN) }
    ensures { table.new ≡ raised table.old c by }
{
    let at = c * MainIndex::COUNT + MainIndex::CLOCK_JUMP_DIFFERENCE_LOOKUP_MULTIPLICITY.0;
    table[at] = field_base::unchecked::add(table[at], by);
}

// At most the rows, so that a caller who bounds these may multiply.
pub fn started_chunks(rows: usize, chunk: usize) -> usize
    requires { 0 < chunk }
    ensures { (result ≡ started_chunks rows chunk) × (result ≤ rows) }
{
    rows.div_ceil(chunk)
}
