// The caller lends a table of a few rows.
ghost use Rattle.std.specs.Prelude.{◌≡◌, ◌+◌, ◌≤◌, length};
ghost use Rattle.refusal.specs.Number.{on_done};
ghost use Rattle.air.specs.AuxColumn.{AUX-WORDS};
ghost use Rattle.table_rows.specs.Rows.{rows};
ghost use Rattle.extend_answer.specs.Answer.{extend_answer};
ghost use Rattle.extend.specs.Extend.{extend_aux};
ghost use Rattle.batch_commands.specs.Format.{MAX-ROWS};
ghost use Rattle.terminals_extended.specs.Extended.{last_row, extended_answer, extended_cells};

use air::{AUX_WORDS, MainIndex};
use batch_commands::MAX_ROWS;
use extend_answer::WORK_WORDS;
use refusal::Refusal;
use table_rows::unchecked::started_chunks;

// The longest trace, and a window of padding.
pub const MAX_KEPT: usize = MAX_ROWS + 2;

const CHUNK: usize = 4;

fn extended_into(
    main: &[u64],
    challenges: &[u64],
    aux: &mut [u64],
    work: &mut [u64],
    cells: &mut [u64; AUX_WORDS],
) -> Result<(), Refusal>
    requires { AUX-WORDS ≤ length aux.old }
    ensures answer { result ≡ extend_answer main.now challenges.now 4 aux.old work.old }
    ensures cells { cells.new ≡ on_done result (last_row (extend_aux main.now challenges.now 4 aux.old work.old)) cells.old }
{
    extend::extend(main, challenges, CHUNK, aux, work)?;
    let last = aux.len() - AUX_WORDS;
    cells.copy_from_slice(&aux[last..]);
    Ok(())
}

pub fn extended_cells(
    main: &[u64],
    challenges: &[u64],
    cells: &mut [u64; AUX_WORDS],
) -> Result<(), Refusal>
    requires { (1 ≤ rows main.now) × (rows main.now ≤ MAX-ROWS + 2) }
    ensures answer { result ≡ extended_answer main.now challenges.now }
    ensures cells { cells.new ≡ on_done result (extended_cells main.now challenges.now) cells.old }
{
    let rows = main.len() / MainIndex::COUNT;
    let mut aux = [0u64; MAX_KEPT * AUX_WORDS];
    let mut work = [0u64; (MAX_KEPT / CHUNK + 1) * WORK_WORDS];
    let aux_end = rows * AUX_WORDS;
    let work_end = started_chunks(rows, CHUNK) * WORK_WORDS;
    extended_into(
        main,
        challenges,
        &mut aux[..aux_end],
        &mut work[..work_end],
        cells,
    )
}
