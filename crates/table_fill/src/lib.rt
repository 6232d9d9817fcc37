// The main table from the trace, each row with its lookup multiplicity.
#![tactic(auto)]

ghost use Rattle.std.specs.Prelude.{◌≡◌, true, ◌%◌, ◌≤◌, length};
ghost use Rattle.air.specs.MainColumn.{MAIN-WIDTH};
ghost use Rattle.table_rows.specs.Rows.{rows};
ghost use Rattle.table_fill.specs.Fill.{fill_answer, fill_table, filled, all_under};
ghost use Rattle.table_fill.specs.Counted.{counted};

use air::MainIndex;
use refusal::{MAX_LEN, Refusal};
use table_rows::unchecked::{copy_row, raise_multiplicity};

// Copies the trace, each row with its multiplicity, or writes nothing where it refuses.
#[tactic(auto, unfolding(crate::specs::Fill::fill_table))]
pub fn fill(
    trace: &[u64],
    op_stack: &[u64],
    ram: &[u64],
    jump_stack: &[u64],
    table: &mut [u64],
) -> Result<(), Refusal>
    ensures answer { result ≡ fill_answer trace.now op_stack.now ram.now jump_stack.now table.old }
    ensures filled { table.new ≡ fill_table trace.now op_stack.now ram.now jump_stack.now table.old }
{
    fill_answer(trace, op_stack, ram, jump_stack, table)?;
    copy_rows(trace, table);
    count_differences(op_stack, table);
    count_differences(ram, table);
    count_differences(jump_stack, table);
    Ok(())
}

#[tactic(auto, unfolding(crate::specs::Fill::fill_answer))]
fn fill_answer(
    trace: &[u64],
    op_stack: &[u64],
    ram: &[u64],
    jump_stack: &[u64],
    table: &[u64],
) -> Result<(), Refusal>
    ensures { result ≡ fill_answer trace.now op_stack.now ram.now jump_stack.now table.now }
{
    if trace.len() % MainIndex::COUNT != 0
        || table.len() % MainIndex::COUNT != 0
        || MAX_LEN < op_stack.len()
        || MAX_LEN < ram.len()
        || MAX_LEN < jump_stack.len()
    {
        return Err(Refusal::SliceLength);
    }
    let trace_rows = trace.len() / MainIndex::COUNT;
    let table_rows = table.len() / MainIndex::COUNT;
    if MAX_LEN < table_rows || table_rows < trace_rows {
        return Err(Refusal::RowCount);
    }
    if !field_base::all_below(trace)
        || !field_base::all_below(op_stack)
        || !field_base::all_below(ram)
        || !field_base::all_below(jump_stack)
    {
        return Err(Refusal::WordNotBelowP);
    }
    if !all_under(op_stack, trace_rows)
        || !all_under(ram, trace_rows)
        || !all_under(jump_stack, trace_rows)
    {
        return Err(Refusal::DifferenceTooLarge);
    }
    Ok(())
}

// Whether every difference is the index of a row.
fn all_under(differences: &[u64], rows: usize) -> bool
    ensures { result ≡ all_under rows differences.now }
{
    differences.iter().all(|&d| d < rows as u64)
}

// Each row of the trace, with multiplicity 0.
fn copy_rows(trace: &[u64], table: &mut [u64])
    requires { (length trace.now % MAIN-WIDTH ≡ 0) × (length trace.now ≤ length table.old) }
    ensures { table.new ≡ filled trace.now (λ c. 0) table.old }
{
    let rows = trace.len() / MainIndex::COUNT;
    let multiplicity = MainIndex::CLOCK_JUMP_DIFFERENCE_LOOKUP_MULTIPLICITY.0;
    for c in 0..rows {
        copy_row(trace, table, c);
        table[c * MainIndex::COUNT + multiplicity] = 0;
    }
}

// Row d's multiplicity grows by one for each difference d.
fn count_differences(differences: &[u64], table: &mut [u64])
    requires { all_under (rows table.old) differences.now ≡ true }
    ensures { table.new ≡ counted differences.now table.old }
{
    for &d in differences {
        raise_multiplicity(table, d as usize, 1);
    }
}
