// The caller knows what the first rows of the table are.
ghost use Rattle.std.specs.Prelude.{◌≡◌, ◌+◌, ◌≤◌};
ghost use Rattle.refusal.specs.Number.{on_done};
ghost use Rattle.table_rows.specs.Rows.{rows};
ghost use Rattle.batch_commands.specs.Format.{MAX-ROWS};
ghost use Rattle.terminals_extended.specs.Extended.{extended_answer, extended_cells};
ghost use Rattle.terminals_walk.specs.Grown.{grown, Growing};

use air::{AUX_WORDS, MainIndex};
use column_weights::ready::Row;
use extend_padding::unchecked::walk_padding;
use refusal::Refusal;
use table_rows::unchecked::row;
use terminals_extended::unchecked::extended_cells;

// The last row of a table of `height` rows that begins with `main` and goes on with padding rows like its last: the first rows are
// extended, and the others walked.
#[tactic(auto, using(crate::proofs::Walked::answer_kept, crate::proofs::Walked::at_rest))]
pub fn walked_cells(
    main: &[u64],
    height: usize,
    challenges: &[u64],
    cells: &mut [u64; AUX_WORDS],
) -> Result<(), Refusal>
    requires growing { Growing main.now height }
    requires main_bound { rows main.now ≤ MAX-ROWS + 2 }
    ensures answer { result ≡ extended_answer (grown height main.now) challenges.now }
    ensures cells { cells.new ≡ on_done result (extended_cells (grown height main.now) challenges.now) cells.old }
{
    let rows = main.len() / MainIndex::COUNT;
    extended_cells(main, challenges, cells)?;
    if rows < height {
        let last = row(main, rows - 1);
        let left = height - rows;
        walk_padding(cells, Row::new(&last, challenges), rows, left);
    }
    Ok(())
}
