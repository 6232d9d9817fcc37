// At a place of a batch; the caller proves that the batch reaches that far.
ghost use Rattle.std.specs.Prelude.{◌≡◌, ◌++◌, ◌+◌, ◌*◌, ◌<◌, ◌≤◌, length, take, drop};
ghost use Rattle.field_base.specs.Words.{all_below};
ghost use Rattle.field_montgomery.specs.Form.{plain, in_form};
ghost use Rattle.batch_words.specs.Words.{number, words, little_endian, bytes_of};
ghost use Rattle.batch_words.specs.Pasted.{pasted};

use field_montgomery::Form;
use field_montgomery::reducing::{plain_word, word_in};

// The N bytes from there on.
#[tactic(auto, using(crate::proofs::Bytes::chunk_there))]
fn bytes_at<const N: usize>(batch: &[u8], at: usize) -> [u8; N]
    requires n_nonzero { 0 < N }
    requires n_in_bounds { at + N ≤ length batch.now }
    ensures { result ≡ take N (drop at batch.now) }
{
    batch[at..].as_chunks().0[0]
}

// The number in four bytes.
#[tactic(auto, using(crate::proofs::Bytes::four_bytes))]
pub fn half_at(batch: &[u8], at: usize) -> u32
    requires { at + 4 ≤ length batch.now }
    ensures { result ≡ number (take 4 (drop at batch.now)) }
{
    u32::from_le_bytes(bytes_at(batch, at))
}

// The word in eight bytes.
#[tactic(auto, using(crate::proofs::Bytes::eight_bytes))]
pub fn word_at(batch: &[u8], at: usize) -> u64
    requires { at + 8 ≤ length batch.now }
    ensures { result ≡ number (take 8 (drop at batch.now)) }
{
    u64::from_le_bytes(bytes_at(batch, at))
}

// Whether the n words from there on are below p.
pub fn words_below(batch: &[u8], at: usize, n: usize) -> bool
    requires { at + 8 * n ≤ length batch.now }
    ensures { result ≡ all_below (words n (drop at batch.now)) }
{
    for i in 0..n {
        if field_base::P <= word_at(batch, at + 8 * i) {
            return false;
        }
    }
    true
}

// The n words from there on, which are in the form, go into the slice at `to` as plain ones.
pub fn put_words(batch: &[u8], at: usize, n: usize, form: Form, slice: &mut [u64], to: usize)
    requires n_in_bounds { at + 8 * n ≤ length batch.now }
    requires n_in_bounds_2 { to + n ≤ length slice.old }
    ensures { slice.new ≡ take to slice.old ++ plain form (words n (drop at batch.now)) ++ drop (to + n) slice.old }
{
    for i in 0..n {
        slice[to + i] = plain_word(form, word_at(batch, at + 8 * i));
    }
}

// The bytes go into the batch in the place of as many.
fn put_bytes<const N: usize>(batch: &mut [u8], at: usize, bytes: [u8; N])
    requires { at + N ≤ length batch.old }
    ensures { batch.new ≡ pasted batch.old at bytes.entry }
{
    batch[at..at + N].copy_from_slice(&bytes);
}

// Four bytes of a number.
#[tactic(auto, using(crate::proofs::Writing::four_written))]
pub fn write_half(batch: &mut [u8], at: usize, number: u32)
    requires { at + 4 ≤ length batch.old }
    ensures { batch.new ≡ pasted batch.old at (little_endian 4 number) }
{
    put_bytes(batch, at, number.to_le_bytes());
}

// The bytes of the words in the form, from there on.
pub fn write_words(words: &[u64], form: Form, batch: &mut [u8], at: usize)
    requires { at + 8 * length words.now ≤ length batch.old }
    ensures { batch.new ≡ pasted batch.old at (bytes_of (in_form form words.now)) }
{
    for (i, &word) in words.iter().enumerate() {
        put_bytes(batch, at + 8 * i, word_in(form, word).to_le_bytes());
    }
}
