// The way from a batch to the last cells of its table.
#![tactic(auto)]

ghost use Rattle.std.specs.Prelude.{◌≡◌};
ghost use Rattle.refusal.specs.Number.{on_done};
ghost use Rattle.terminals_cells.specs.Terminals.{terminals_answer, terminals_cells};
ghost use Rattle.terminals_batch.specs.Into.{terminals_into, cells_into};

use air::{AUX_WORDS, DIGEST_WORDS, SAMPLED_WORDS};
use batch::TRACE_WORDS;
use batch_commands::{MAX_DIFFERENCES, MAX_WORDS};
use refusal::Refusal;
use terminals_cells::unchecked::opened_cells;

// Opens the batch, derives the challenges, fills, pads and extends; the cells of the last row, or nothing where one of these refuses.
#[tactic(auto, using(batch::proofs::Opened::within_opened), unfolding(terminals_cells::specs::Terminals::terminals_answer, terminals_cells::specs::Terminals::terminals_cells, batch::specs::Lent::zeros))]
pub fn last_cells(batch: &[u8], cells: &mut [u64; AUX_WORDS]) -> Result<(), Refusal>
    ensures answer { result ≡ terminals_answer batch.now }
    ensures cells { cells.new ≡ on_done result (terminals_cells batch.now) cells.old }
{
    let mut trace = [0u64; TRACE_WORDS];
    let mut op_stack = [0u64; MAX_DIFFERENCES];
    let mut ram = [0u64; MAX_DIFFERENCES];
    let mut jump_stack = [0u64; MAX_DIFFERENCES];
    let mut sampled = [0u64; SAMPLED_WORDS];
    let mut digest = [0u64; DIGEST_WORDS];
    let mut input = [0u64; MAX_WORDS];
    let mut output = [0u64; MAX_WORDS];
    let counts = batch::open(
        batch,
        &mut trace,
        &mut op_stack,
        &mut ram,
        &mut jump_stack,
        &mut sampled,
        &mut digest,
        &mut input,
        &mut output,
    )?;
    opened_cells(
        counts,
        &trace,
        &op_stack,
        &ram,
        &jump_stack,
        &sampled,
        &digest,
        &input,
        &output,
        cells,
    )
}

// The same in a lent slice, which is to have `AUX_WORDS`.
#[tactic(auto, unfolding(crate::specs::Into::terminals_into, crate::specs::Into::cells_into))]
pub fn terminals(batch: &[u8], cells: &mut [u64]) -> Result<(), Refusal>
    ensures answer { result ≡ terminals_into batch.now cells.old }
    ensures cells { cells.new ≡ cells_into batch.now cells.old }
{
    let cells = cells
        .as_mut_array::<AUX_WORDS>()
        .ok_or(Refusal::SliceLength)?;
    last_cells(batch, cells)
}
