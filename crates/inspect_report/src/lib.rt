// The way from a batch to the text that the program `inspect` prints of it.
#![tactic(auto)]

ghost use Rattle.std.specs.Prelude.{◌≡◌, ◌≤◌, length};
ghost use Rattle.std.proofs.lemmas.List.Edits.{sets};
ghost use Rattle.batch_commands.specs.Format.{ROW, MAX-DIFFERENCES, MAX-WORDS};
ghost use Rattle.air.specs.ChallengeId.{SAMPLED-WORDS, DIGEST-WORDS};
ghost use Rattle.batch.specs.Open.{TRACE-WORDS, open_answer, open_slice};
ghost use Rattle.inspect_report.specs.Text.{inspect_text};

use air::{DIGEST_WORDS, MainIndex, SAMPLED_WORDS};
use batch::TRACE_WORDS;
use batch_commands::{MAX_DIFFERENCES, MAX_WORDS};
use batch_reader::Counts;
use inspect_text::unchecked::put_trace;
use refusal::Refusal;
use text::unchecked::put_refusal;

// Opens the batch for its trace.
fn open_trace(batch: &[u8], trace: &mut [u64; TRACE_WORDS]) -> Result<Counts, Refusal>
    ensures answer { result ≡ open_answer batch.now TRACE-WORDS MAX-DIFFERENCES MAX-DIFFERENCES MAX-DIFFERENCES SAMPLED-WORDS DIGEST-WORDS MAX-WORDS MAX-WORDS }
    ensures trace { trace.new ≡ open_slice result ROW batch.now trace.old }
    ensures length { length trace.new ≡ TRACE-WORDS }
{
    let mut op_stack = [0u64; MAX_DIFFERENCES];
    let mut ram = [0u64; MAX_DIFFERENCES];
    let mut jump_stack = [0u64; MAX_DIFFERENCES];
    let mut sampled = [0u64; SAMPLED_WORDS];
    let mut digest = [0u64; DIGEST_WORDS];
    let mut input = [0u64; MAX_WORDS];
    let mut output = [0u64; MAX_WORDS];
    batch::open(
        batch,
        trace,
        &mut op_stack,
        &mut ram,
        &mut jump_stack,
        &mut sampled,
        &mut digest,
        &mut input,
        &mut output,
    )
}

// Writes the text that `inspect` prints to the start of `out`, and answers its length.
#[tactic(auto, using(batch::proofs::Opened::within_opened), unfolding(crate::specs::Text::inspect_text))]
pub fn report(batch: &[u8], out: &mut [u8; 4096]) -> usize
    ensures length { (result ≡ length (inspect_text batch.now)) × (result ≤ 4096) }
    ensures text { out.new ≡ sets out.old 0 (inspect_text batch.now) }
{
    let mut trace = [0u64; TRACE_WORDS];
    match open_trace(batch, &mut trace) {
        Err(refusal) => put_refusal(refusal, out),
        Ok(counts) => {
            let end = counts.rows * MainIndex::COUNT;
            put_trace(&trace[..end], out)
        }
    }
}
