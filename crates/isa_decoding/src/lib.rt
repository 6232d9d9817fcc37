// What a row of the processor table decodes to.
#![tactic(auto)]

ghost use Rattle.std.specs.Prelude.{◌≡◌};
ghost use Rattle.isa.specs.Instruction.{stack_element, number_of_words, allowed};
ghost use Rattle.isa_decoding.specs.Decode.{decoded};
ghost use Rattle.isa_decoding.specs.Byte.{kind_at, decided_on};
ghost use Rattle.isa_decoding.specs.Candidate.{candidate};
ghost use Rattle.isa_decoding.specs.Answer.{decode_answer};

use air::MainIndex;
use air::unchecked::word_at;
use isa::Instruction;
use refusal::Refusal;

// Why the words CI and NIA stand for no instruction.
#[derive(Clone, Copy)]
pub enum Undecodable {
    // No instruction has the opcode.
    Unknown,
    // The instruction's argument is not in its class.
    Outside(Class, Instruction),
}

// The classes that have limits.
#[derive(Clone, Copy)]
pub enum Class {
    // 0 to 15: the stack's elements ST0 to ST15.
    StackElement,
    // 1 to 5: the words that can be moved at once.
    NumberOfWords,
}

// The test that an argument must pass, and the place of its answer in `fits`. A byte that is no opcode has one that nothing passes.
#[derive(Clone, Copy)]
enum Test {
    Any,
    StackElement,
    NumberOfWords,
    NoOpcode,
}

// The test that the argument must pass, and the instruction if it does.
#[derive(Clone, Copy)]
struct Candidate(Test, Instruction);

#[tactic(auto, unfolding(crate::specs::Byte::kind_at))]
fn candidate_of(opcode: u8, argument: u64) -> Candidate
    ensures { result ≡ candidate (kind_at opcode) argument }
{
    match opcode {
        0 => Candidate(Test::Any, Instruction::Halt),
        1 => Candidate(Test::Any, Instruction::Push(argument)),
        2 => Candidate(Test::Any, Instruction::Skiz),
        3 => Candidate(Test::NumberOfWords, Instruction::Pop(argument)),
        4 => Candidate(Test::Any, Instruction::Split),
        6 => Candidate(Test::Any, Instruction::Lt),
        8 => Candidate(Test::Any, Instruction::Nop),
        9 => Candidate(Test::NumberOfWords, Instruction::Divine(argument)),
        10 => Candidate(Test::Any, Instruction::Assert),
        11 => Candidate(Test::NumberOfWords, Instruction::WriteMem(argument)),
        12 => Candidate(Test::Any, Instruction::Log2Floor),
        14 => Candidate(Test::Any, Instruction::And),
        16 => Candidate(Test::Any, Instruction::Return),
        17 => Candidate(Test::StackElement, Instruction::Pick(argument)),
        18 => Candidate(Test::Any, Instruction::Hash),
        19 => Candidate(Test::NumberOfWords, Instruction::WriteIo(argument)),
        20 => Candidate(Test::Any, Instruction::DivMod),
        22 => Candidate(Test::Any, Instruction::Xor),
        24 => Candidate(Test::Any, Instruction::Recurse),
        25 => Candidate(Test::StackElement, Instruction::Place(argument)),
        26 => Candidate(Test::Any, Instruction::AssertVector),
        28 => Candidate(Test::Any, Instruction::PopCount),
        30 => Candidate(Test::Any, Instruction::Pow),
        32 => Candidate(Test::Any, Instruction::RecurseOrReturn),
        33 => Candidate(Test::StackElement, Instruction::Dup(argument)),
        34 => Candidate(Test::Any, Instruction::SpongeAbsorb),
        36 => Candidate(Test::Any, Instruction::MerkleStep),
        40 => Candidate(Test::Any, Instruction::SpongeInit),
        41 => Candidate(Test::StackElement, Instruction::Swap(argument)),
        42 => Candidate(Test::Any, Instruction::Add),
        44 => Candidate(Test::Any, Instruction::MerkleStepMem),
        48 => Candidate(Test::Any, Instruction::SpongeAbsorbMem),
        49 => Candidate(Test::Any, Instruction::Call(argument)),
        50 => Candidate(Test::Any, Instruction::Mul),
        56 => Candidate(Test::Any, Instruction::SpongeSqueeze),
        57 => Candidate(Test::NumberOfWords, Instruction::ReadMem(argument)),
        58 => Candidate(Test::Any, Instruction::Eq),
        64 => Candidate(Test::Any, Instruction::Invert),
        65 => Candidate(Test::Any, Instruction::AddI(argument)),
        66 => Candidate(Test::Any, Instruction::XxAdd),
        72 => Candidate(Test::Any, Instruction::XInvert),
        73 => Candidate(Test::NumberOfWords, Instruction::ReadIo(argument)),
        74 => Candidate(Test::Any, Instruction::XxMul),
        80 => Candidate(Test::Any, Instruction::XxDotStep),
        82 => Candidate(Test::Any, Instruction::XbMul),
        88 => Candidate(Test::Any, Instruction::XbDotStep),
        _ => Candidate(Test::NoOpcode, Instruction::Halt),
    }
}

fn is_stack_element(argument: u64) -> bool
    ensures { result ≡ allowed (stack_element argument) }
{
    argument <= 15
}

fn is_number_of_words(argument: u64) -> bool
    ensures { result ≡ allowed (number_of_words argument) }
{
    1 <= argument && argument <= 5
}

// The tests' answers stand in an array: with a branch for each the compiler makes a jump of `candidate_of`, where it makes two tables of
// bytes.
fn instruction_from_byte(opcode: u8, argument: u64) -> Result<Instruction, Undecodable>
    ensures { result ≡ decided_on (kind_at opcode) argument }
{
    let Candidate(test, instruction) = candidate_of(opcode, argument);
    let fits = [
        true,
        is_stack_element(argument),
        is_number_of_words(argument),
        false,
    ];
    if fits[test as usize] {
        return Ok(instruction);
    }
    match test {
        Test::StackElement => Err(Undecodable::Outside(Class::StackElement, instruction)),
        Test::NumberOfWords => Err(Undecodable::Outside(Class::NumberOfWords, instruction)),
        _ => Err(Undecodable::Unknown),
    }
}

// The instruction with the opcode `ci`, and with `nia` as its argument if it takes one. The words may be any.
#[tactic(auto, using(crate::proofs::Bytes::decoded_byte, crate::proofs::Bytes::decoded_above))]
pub fn instruction_from(ci: u64, nia: u64) -> Result<Instruction, Undecodable>
    ensures { result ≡ decoded ci nia }
{
    // No opcode exceeds 88.
    if ci > 88 {
        return Err(Undecodable::Unknown);
    }
    instruction_from_byte(ci as u8, nia)
}

// The instruction of a row: SliceLength unless it is a whole row, then WordNotBelowP unless all are below p.
#[tactic(auto, unfolding(crate::specs::Answer::decode_answer))]
pub fn decode(row: &[u64]) -> Result<Result<Instruction, Undecodable>, Refusal>
    ensures { result ≡ decode_answer row.now }
{
    if row.len() != MainIndex::COUNT {
        return Err(Refusal::SliceLength);
    }
    if !field_base::all_below(row) {
        return Err(Refusal::WordNotBelowP);
    }
    let ci = word_at(row, MainIndex::CI);
    let nia = word_at(row, MainIndex::NIA);
    Ok(instruction_from(ci, nia))
}
