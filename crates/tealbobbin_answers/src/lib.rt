// How arguments and answers pass the C ABI.
#![tactic(auto)]

ghost use Rattle.std.specs.Prelude.{◌≡◌, ℕ, List};
ghost use Rattle.field.specs.Element.{words_of};
ghost use Rattle.isa_decoding.specs.Answer.{class_word, decoded_words};
ghost use Rattle.tealbobbin_answers.specs.Into.{number_into, into};
ghost use Rattle.tealbobbin_answers.specs.Decode.{decode_number_into, decode_into};
ghost use Rattle.tealbobbin_answers.specs.Open.{count_words};
ghost use Rattle.tealbobbin_answers.specs.Check.{verdict_words, check_words};
ghost use Rattle.tealbobbin_answers.specs.Write.{told_form};
ghost use Rattle.tealbobbin_answers.specs.Field.{word_alone, base_number_into, base_into, element_number_into, element_into};

use batch_reader::Counts;
use check_relations::Place;
use field::XFieldElement;
use field_montgomery::Form;
use isa::Instruction;
use isa_decoding::{Class, Undecodable};
use refusal::Refusal;

pub mod unchecked;

// Hands an answer's words out through a slice of as many.
fn put<const N: usize>(answer: Result<[u64; N], Refusal>, out: &mut [u64]) -> u32
    ensures number { result ≡ number_into N out.old answer.entry }
    ensures written { out.new ≡ into N (λ (words : List ℕ). words) out.old answer.entry }
{
    if out.len() != N {
        return u32::from(Refusal::SliceLength);
    }
    unchecked::put(answer, out)
}

fn word_alone(word: u64) -> [u64; 1]
    ensures { result ≡ word_alone word }
{
    [word]
}

// Hands a base answer out through a slice of one word.
pub fn put_base(answer: Result<u64, Refusal>, out: &mut [u64]) -> u32
    ensures number { result ≡ base_number_into out.old answer }
    ensures written { out.new ≡ base_into out.old answer }
{
    put(answer.map(word_alone), out)
}

fn element_words(element: XFieldElement) -> [u64; 3]
    ensures { result ≡ words_of element }
{
    [element.c0, element.c1, element.c2]
}

// Hands an element answer out through a slice of three words.
pub fn put_element(answer: Result<XFieldElement, Refusal>, out: &mut [u64]) -> u32
    ensures number { result ≡ element_number_into out.old answer }
    ensures written { out.new ≡ element_into out.old answer }
{
    put(answer.map(element_words), out)
}

fn class_word(class: Class) -> u64
    ensures { result ≡ class_word class }
{
    match class {
        Class::StackElement => 2,
        Class::NumberOfWords => 3,
    }
}

fn decoded_words(decoded: Result<Instruction, Undecodable>) -> [u64; 2]
    ensures { result ≡ decoded_words decoded }
{
    match decoded {
        Ok(i) => [1, isa::opcode(i)],
        Err(Undecodable::Unknown) => [0, 0],
        Err(Undecodable::Outside(class, i)) => [class_word(class), isa::opcode(i)],
    }
}

// Hands what a row decodes to out through a slice of two words.
pub fn put_decoded(
    answer: Result<Result<Instruction, Undecodable>, Refusal>,
    out: &mut [u64],
) -> u32
    ensures number { result ≡ decode_number_into out.old answer }
    ensures written { out.new ≡ decode_into out.old answer }
{
    put(answer.map(decoded_words), out)
}

fn count_words(counts: Counts) -> [u64; 7]
    ensures { result ≡ count_words counts }
{
    [
        counts.rows as u64,
        counts.op_stack as u64,
        counts.ram as u64,
        counts.jump_stack as u64,
        counts.input as u64,
        counts.output as u64,
        counts.log2_height as u64,
    ]
}

fn verdict_words(verdict: Option<Place>) -> [u64; 3]
    ensures { result ≡ verdict_words verdict }
{
    match verdict {
        None => [1, 0, 0],
        Some(found) => [0, found.row as u64, found.column.0 as u64],
    }
}

fn verdict_word(verdict: Option<Place>) -> [u64; 1]
    ensures { result ≡ check_words 1 verdict }
{
    [u64::from(verdict.is_none())]
}

// The form of rows that a caller asks for.
pub fn told_form(word: u64) -> Form
    ensures { result ≡ told_form word }
{
    if word == 0 {
        Form::Plain
    } else {
        Form::Montgomery
    }
}
