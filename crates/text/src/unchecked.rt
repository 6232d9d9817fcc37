// Each function writes from `at` on, where the caller lends room enough, and answers where its text ends.
// kept: no `write!`, since a writer of std promises no `Ok` where there is room, and these promise the text to every such caller.
ghost use Rattle.std.specs.Prelude.{◌≡◌, ◌+◌, ◌≤◌, length};
ghost use Rattle.std.proofs.lemmas.List.Edits.{sets};
ghost use Rattle.text.specs.Text.{decimal, word, refusal_text};

use refusal::Refusal;

pub fn put_bytes(text: &[u8], out: &mut [u8], at: usize) -> usize
    requires { at + length text.now ≤ length out.old }
    ensures end { result ≡ at + length text.now }
    ensures text { out.new ≡ sets out.old at text.now }
{
    let end = at + text.len();
    out[at..end].copy_from_slice(text);
    end
}

#[tactic(auto, using(crate::proofs::Digits::printed))]
pub fn put_decimal(n: u64, out: &mut [u8], at: usize) -> usize
    requires { at + length (decimal n) ≤ length out.old }
    ensures end { result ≡ at + length (decimal n) }
    ensures text { out.new ≡ sets out.old at (decimal n) }
{
    let mut digits = itoa::Buffer::new();
    put_bytes(digits.format(n).as_bytes(), out, at)
}

// The number, and then a space or a line's end.
#[tactic(auto, using(crate::proofs::Stores::stores, crate::proofs::Digits::at_most_twenty))]
pub fn put_word(n: u64, then: u8, out: &mut [u8], at: usize) -> usize
    requires { at + 21 ≤ length out.old }
    ensures end { (result ≡ at + length (word n then)) × (result ≤ at + 21) }
    ensures text { out.new ≡ sets out.old at (word n then) }
{
    let end = put_decimal(n, out, at);
    out[end] = then;
    end + 1
}

// At the start of `out`.
#[tactic(auto, using(crate::proofs::Stores::stores))]
pub fn put_refusal(refusal: Refusal, out: &mut [u8]) -> usize
    requires { 29 ≤ length out.old }
    ensures end { (result ≡ length (refusal_text refusal)) × (result ≤ 29) }
    ensures text { out.new ≡ sets out.old 0 (refusal_text refusal) }
{
    let at = put_bytes(b"refused ", out, 0);
    put_word(u64::from(u32::from(refusal)), b'\n', out, at)
}
