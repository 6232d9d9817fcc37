// An operation at a time, where the caller knows the counts to lie within the slices; the first refusal is the answer.
ghost use Rattle.std.specs.Prelude.{◌≡◌, true, ◌≤◌, length};
ghost use Rattle.refusal.specs.Number.{on_done};
ghost use Rattle.refusal.specs.Long.{MAX-LEN};
ghost use Rattle.table_rows.specs.Rows.{whole_rows, rows};
ghost use Rattle.batch_commands.specs.Format.{MAX-ROWS, MAX-LOG-2-HEIGHT};
ghost use Rattle.batch.specs.Lent.{Within};
ghost use Rattle.batch.specs.Open.{TRACE-WORDS};
ghost use Rattle.terminals_cells.specs.Terminals.{padded_answer, padded_cells, filled_answer, filled_cells, table_answer, table_cells, opened_answer, opened_cells};
ghost use Rattle.terminals_cells.specs.Kept.{Kept, longer};

use air::{AUX_WORDS, MainIndex, RECORD_WORDS};
use batch_reader::Counts;
use challenges::Challenges;
use refusal::Refusal;
use table_pad::unchecked::padded_height;
use table_rows::unchecked::raise_multiplicity;
use terminals_extended::unchecked::MAX_KEPT;
use terminals_walk::unchecked::walked_cells;

// Of a table of `height` rows, `table` has the first ones.
#[tactic(auto, using(crate::proofs::Padded::same_answer), unfolding(crate::specs::Terminals::padded_answer))]
fn padded_cells(
    table: &mut [u64],
    table_len: usize,
    height: usize,
    challenges: &[u64],
    cells: &mut [u64; AUX_WORDS],
) -> Result<(), Refusal>
    requires table_value { whole_rows table.old ≡ true }
    requires kept { Kept table_len (rows table.old) height }
    ensures answer { result ≡ padded_answer (longer height table.old) table_len challenges.now }
    ensures cells { cells.new ≡ on_done result (padded_cells (longer height table.old) table_len challenges.now) cells.old }
{
    table_pad::pad(table, table_len)?;
    // Row 1 looks up for the padding rows that follow too, and its entry stands before theirs.
    let more = height - table.len() / MainIndex::COUNT;
    raise_multiplicity(table, 1, more as u64);
    walked_cells(table, height, challenges, cells)
}

#[tactic(auto, using(crate::proofs::Filled::same_answer, crate::proofs::Filled::same_table), unfolding(crate::specs::Terminals::filled_answer, crate::specs::Terminals::filled_cells))]
fn filled_cells(
    trace: &[u64],
    op_stack: &[u64],
    ram: &[u64],
    jump_stack: &[u64],
    challenges: &[u64],
    table: &mut [u64],
    height: usize,
    cells: &mut [u64; AUX_WORDS],
) -> Result<(), Refusal>
    requires table_value { whole_rows table.old ≡ true }
    requires kept { Kept (rows trace.now) (rows table.old) height }
    ensures answer { result ≡ filled_answer trace.now op_stack.now ram.now jump_stack.now challenges.now (longer height table.old) }
    ensures cells { cells.new ≡ on_done result (filled_cells trace.now op_stack.now ram.now jump_stack.now challenges.now (longer height table.old)) cells.old }
{
    table_fill::fill(trace, op_stack, ram, jump_stack, table)?;
    padded_cells(
        table,
        trace.len() / MainIndex::COUNT,
        height,
        challenges,
        cells,
    )
}

// The trace's rows and one window of padding, unless the table has no more.
fn kept_rows(rows: usize, height: usize) -> usize
    requires { (rows ≤ MAX-ROWS) × (2 ≤ height) × (height ≤ MAX-LEN) }
    ensures { Kept rows result height }
{
    height.min(rows + 2)
}

fn table_cells(
    log2_height: usize,
    trace: &[u64],
    op_stack: &[u64],
    ram: &[u64],
    jump_stack: &[u64],
    challenges: &[u64],
    cells: &mut [u64; AUX_WORDS],
) -> Result<(), Refusal>
    requires { (log2_height ≤ MAX-LOG-2-HEIGHT) × (rows trace.now ≤ MAX-ROWS) }
    ensures answer { result ≡ table_answer log2_height trace.now op_stack.now ram.now jump_stack.now challenges.now }
    ensures cells { cells.new ≡ on_done result (table_cells log2_height trace.now op_stack.now ram.now jump_stack.now challenges.now) cells.old }
{
    let mut table = [0u64; MAX_KEPT * MainIndex::COUNT];
    let rows = trace.len() / MainIndex::COUNT;
    let height = padded_height(log2_height, rows);
    let end = kept_rows(rows, height) * MainIndex::COUNT;
    filled_cells(
        trace,
        op_stack,
        ram,
        jump_stack,
        challenges,
        &mut table[..end],
        height,
        cells,
    )
}

#[tactic(auto, unfolding(crate::specs::Terminals::opened_answer, crate::specs::Terminals::opened_cells, batch::specs::Lent::zeros))]
pub fn opened_cells(
    counts: Counts,
    trace: &[u64],
    op_stack: &[u64],
    ram: &[u64],
    jump_stack: &[u64],
    sampled: &[u64],
    digest: &[u64],
    input: &[u64],
    output: &[u64],
    cells: &mut [u64; AUX_WORDS],
) -> Result<(), Refusal>
    requires within { Within counts (length trace.now) (length op_stack.now) (length ram.now) (length jump_stack.now) (length input.now) (length output.now) }
    requires trace_len_bound { length trace.now ≤ TRACE-WORDS }
    ensures answer { result ≡ opened_answer counts trace.now op_stack.now ram.now jump_stack.now sampled.now digest.now input.now output.now }
    ensures cells { cells.new ≡ on_done result (opened_cells counts trace.now op_stack.now ram.now jump_stack.now sampled.now digest.now input.now output.now) cells.old }
{
    let input_end = counts.input;
    let output_end = counts.output;
    let mut lent = [0u64; RECORD_WORDS];
    Challenges::new(
        sampled,
        digest,
        &input[..input_end],
        &output[..output_end],
        &mut lent,
    )?;
    let trace_end = counts.rows * MainIndex::COUNT;
    let op_stack_end = counts.op_stack;
    let ram_end = counts.ram;
    let jump_stack_end = counts.jump_stack;
    table_cells(
        counts.log2_height,
        &trace[..trace_end],
        &op_stack[..op_stack_end],
        &ram[..ram_end],
        &jump_stack[..jump_stack_end],
        &lent,
        cells,
    )
}
