// The caller lends a slice of the right length.
ghost use Rattle.std.specs.Prelude.{◌≡◌, ℕ, List, length};
ghost use Rattle.refusal.specs.Number.{answer_number_of};
ghost use Rattle.tealbobbin_answers.specs.Into.{written};
ghost use Rattle.tealbobbin_answers.specs.Open.{counts_into};
ghost use Rattle.tealbobbin_answers.specs.Check.{check_written};

use crate::{count_words, verdict_word, verdict_words};
use batch_reader::Counts;
use check_relations::Place;
use refusal::Refusal;

// Hands an answer's words out through a slice of as many.
pub(crate) fn put<const N: usize>(answer: Result<[u64; N], Refusal>, out: &mut [u64]) -> u32
    requires { length out.old ≡ N }
    ensures number { result ≡ answer_number_of answer.entry }
    ensures written { out.new ≡ written (λ (words : List ℕ). words) out.old answer.entry }
{
    match answer {
        Ok(words) => {
            out.copy_from_slice(&words);
            0
        }
        Err(refusal) => u32::from(refusal),
    }
}

// kept: slices that C lends, each of a length of its own.

// Hands the counts of an opened batch out through a slice of seven words.
pub fn put_counts(answer: Result<Counts, Refusal>, counts: &mut [u64]) -> u32
    requires { length counts.old ≡ 7 }
    ensures number { result ≡ answer_number_of answer }
    ensures counts { counts.new ≡ counts_into answer counts.old }
{
    put(answer.map(count_words), counts)
}

// Hands a verdict out through a slice of one word.
pub fn put_verdict(answer: Result<Option<Place>, Refusal>, verdict: &mut [u64]) -> u32
    requires { length verdict.old ≡ 1 }
    ensures number { result ≡ answer_number_of answer }
    ensures written { verdict.new ≡ check_written 1 verdict.old answer }
{
    put(answer.map(verdict_word), verdict)
}

// The same with the place of a no, through a slice of three words.
pub fn put_place(answer: Result<Option<Place>, Refusal>, verdict: &mut [u64]) -> u32
    requires { length verdict.old ≡ 3 }
    ensures number { result ≡ answer_number_of answer }
    ensures written { verdict.new ≡ check_written 3 verdict.old answer }
{
    put(answer.map(verdict_words), verdict)
}
