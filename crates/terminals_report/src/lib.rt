// The text that the program `terminals` prints of a batch.
#![tactic(auto)]

ghost use Rattle.std.specs.Prelude.{◌≡◌, ◌≤◌, length};
ghost use Rattle.std.proofs.lemmas.List.Edits.{sets};
ghost use Rattle.terminals_report.specs.Text.{terminals_text};

use air::AUX_WORDS;
use terminals_batch::last_cells;
use terminals_text::unchecked::put_lines;
use text::unchecked::put_refusal;

// Writes the text that `terminals` prints to the start of `out`, and answers its length.
pub fn report(batch: &[u8], out: &mut [u8; 1024]) -> usize
    ensures length { (result ≡ length (terminals_text batch.now)) × (result ≤ 1024) }
    ensures text { out.new ≡ sets out.old 0 (terminals_text batch.now) }
{
    let mut cells = [0u64; AUX_WORDS];
    match last_cells(batch, &mut cells) {
        Err(refusal) => put_refusal(refusal, out),
        Ok(()) => put_lines(&cells, out),
    }
}
