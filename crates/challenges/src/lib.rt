// The record of challenges: the sampled ones, then four that follow from them and from the claim.
#![tactic(auto)]

ghost use Rattle.std.specs.Prelude.{◌≡◌, true, ◌++◌, ◌+◌, ◌*◌, ◌≤◌, length, drop};
ghost use Rattle.std.proofs.lemmas.List.Edits.{sets};
ghost use Rattle.field_base.specs.Words.{all_below};
ghost use Rattle.field.specs.Element.{words_of};
ghost use Rattle.air.specs.ChallengeId.{RECORD-WORDS, SAMPLED-WORDS};
ghost use Rattle.challenges.specs.Derived.{terminal, right_lengths, all_words_below, derived_record, challenges_answer, challenges_record};

use air::{ChallengeId, DIGEST_WORDS, RECORD_WORDS, SAMPLED_WORDS};
use cross_table_argument::unchecked::compute_terminal;
use field::XFieldElement;
use refusal::{MAX_LEN, Refusal};

// The record itself lies in a slice that the caller lends.
#[derive(Clone, Copy)]
pub struct Challenges {}

impl Challenges {
    pub const COUNT: usize = ChallengeId::COUNT;

    pub const SAMPLE_COUNT: usize = Challenges::COUNT - ChallengeId::NUM_DERIVED_CHALLENGES;

    // Writes the record, or nothing where it refuses.
    #[tactic(auto, unfolding(crate::specs::Derived::challenges_answer, crate::specs::Derived::challenges_record))]
    pub fn new(
        sampled: &[u64],
        digest: &[u64],
        input: &[u64],
        output: &[u64],
        lent: &mut [u64],
    ) -> Result<(), Refusal>
        ensures answer { result ≡ challenges_answer sampled.now digest.now input.now output.now lent.old }
        ensures written { lent.new ≡ challenges_record sampled.now digest.now input.now output.now lent.old }
    {
        if !right_lengths(sampled, digest, input, output, lent) {
            return Err(Refusal::SliceLength);
        }
        if !all_words_below(sampled, digest, input, output) {
            return Err(Refusal::WordNotBelowP);
        }
        derive(sampled, digest, input, output, lent);
        Ok(())
    }
}

fn right_lengths(
    sampled: &[u64],
    digest: &[u64],
    input: &[u64],
    output: &[u64],
    lent: &[u64],
) -> bool
    ensures { result ≡ right_lengths sampled.now digest.now input.now output.now lent.now }
{
    sampled.len() == SAMPLED_WORDS
        && digest.len() == DIGEST_WORDS
        && input.len() <= MAX_LEN
        && output.len() <= MAX_LEN
        && lent.len() == RECORD_WORDS
}

fn all_words_below(sampled: &[u64], digest: &[u64], input: &[u64], output: &[u64]) -> bool
    ensures { result ≡ all_words_below sampled.now digest.now input.now output.now }
{
    field_base::all_below(sampled)
        && field_base::all_below(digest)
        && field_base::all_below(input)
        && field_base::all_below(output)
}

#[tactic(auto, using(tip5::proofs::Table::table_below), unfolding(crate::specs::Derived::derived_record))]
fn derive(sampled: &[u64], digest: &[u64], input: &[u64], output: &[u64], lent: &mut [u64])
    requires sampled_len { (length sampled.now ≡ SAMPLED-WORDS) × (length lent.old ≡ RECORD-WORDS) }
    requires digest_value { (all_below digest.now ≡ true) × (all_below input.now ≡ true) × (all_below output.now ≡ true) }
    ensures { lent.new ≡ derived_record sampled.now digest.now input.now output.now }
{
    let compressed_digest = terminal(
        sampled,
        ChallengeId::COMPRESS_PROGRAM_DIGEST_INDETERMINATE,
        digest,
    );
    let input_terminal = terminal(sampled, ChallengeId::STANDARD_INPUT_INDETERMINATE, input);
    let output_terminal = terminal(sampled, ChallengeId::STANDARD_OUTPUT_INDETERMINATE, output);
    let lookup_terminal = terminal(
        sampled,
        ChallengeId::LOOKUP_TABLE_PUBLIC_INDETERMINATE,
        &tip5::lookup_words(),
    );
    write_record(
        sampled,
        input_terminal,
        output_terminal,
        lookup_terminal,
        compressed_digest,
        lent,
    )
}

// The terminal of the words under a sampled challenge.
#[tactic(auto, unfolding(crate::specs::Derived::terminal))]
fn terminal(sampled: &[u64], id: ChallengeId, words: &[u64]) -> XFieldElement
    requires id_in_bounds { id.0 * 3 + 3 ≤ length sampled.now }
    requires words_value { all_below words.now ≡ true }
    ensures { result ≡ terminal sampled.now id.0 words.now }
{
    let challenge = field::unchecked::element_at(sampled, id.0 * 3);
    compute_terminal(words, challenge)
}

fn write_record(
    sampled: &[u64],
    input: XFieldElement,
    output: XFieldElement,
    lookup: XFieldElement,
    digest: XFieldElement,
    lent: &mut [u64],
)
    requires { (length sampled.now ≡ SAMPLED-WORDS) × (length lent.old ≡ RECORD-WORDS) }
    ensures { lent.new ≡ sampled.now ++ words_of input ++ words_of output ++ words_of lookup ++ words_of digest }
{
    copy(sampled, lent);
    put_challenge(lent, ChallengeId::STANDARD_INPUT_TERMINAL, input);
    put_challenge(lent, ChallengeId::STANDARD_OUTPUT_TERMINAL, output);
    put_challenge(lent, ChallengeId::LOOKUP_TABLE_PUBLIC_TERMINAL, lookup);
    put_challenge(lent, ChallengeId::COMPRESSED_PROGRAM_DIGEST, digest);
}

// kept: word by word; `copy_from_slice` between two slices calls memmove, which the archive for C does not need.
fn copy(from: &[u64], to: &mut [u64])
    requires { length from.now ≤ length to.old }
    ensures { to.new ≡ from.now ++ drop (length from.now) to.old }
{
    for i in 0..from.len() {
        to[i] = from[i];
    }
}

fn put_challenge(lent: &mut [u64], id: ChallengeId, challenge: XFieldElement)
    requires { id.0 * 3 + 3 ≤ length lent.old }
    ensures { lent.new ≡ sets lent.old (id.0 * 3) (words_of challenge) }
{
    field::unchecked::put_element(lent, id.0 * 3, challenge)
}
