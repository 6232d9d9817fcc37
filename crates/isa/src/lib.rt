// Triton VM's instructions.
#![tactic(auto)]

ghost use Rattle.std.specs.Prelude.{◌≡◌};
ghost use Rattle.isa.specs.Instruction.{opcode_of, influence_of};

pub mod opcodes;

// An instruction with its argument.
#[derive(Clone, Copy)]
pub enum Instruction {
    // The operational stack.
    Push(u64),
    Pop(u64),
    Divine(u64),
    Pick(u64),
    Place(u64),
    Dup(u64),
    Swap(u64),

    // Control flow.
    Halt,
    Nop,
    Skiz,
    Call(u64),
    Return,
    Recurse,
    RecurseOrReturn,
    Assert,

    // Memory.
    ReadMem(u64),
    WriteMem(u64),

    // Hashing.
    Hash,
    AssertVector,
    SpongeInit,
    SpongeAbsorb,
    SpongeAbsorbMem,
    SpongeSqueeze,

    // Base field arithmetic.
    Add,
    AddI(u64),
    Mul,
    Invert,
    Eq,

    // Arithmetic on 32-bit words.
    Split,
    Lt,
    And,
    Xor,
    Log2Floor,
    Pow,
    DivMod,
    PopCount,

    // Arithmetic in the extension field.
    XxAdd,
    XxMul,
    XInvert,
    XbMul,

    // Input and output.
    ReadIo(u64),
    WriteIo(u64),

    // Several steps in one.
    MerkleStep,
    MerkleStepMem,
    XxDotStep,
    XbDotStep,
}

// By how many elements an instruction changes the stack's height.
#[derive(Clone, Copy, PartialEq, Eq)]
pub enum Influence {
    Grows(u64),
    Shrinks(u64),
    Keeps,
}

// The instruction's first word.
pub fn opcode(i: Instruction) -> u64
    ensures { result ≡ opcode_of i }
{
    match i {
        Instruction::Push(_) => opcodes::PUSH,
        Instruction::Pop(_) => opcodes::POP,
        Instruction::Divine(_) => opcodes::DIVINE,
        Instruction::Pick(_) => opcodes::PICK,
        Instruction::Place(_) => opcodes::PLACE,
        Instruction::Dup(_) => opcodes::DUP,
        Instruction::Swap(_) => opcodes::SWAP,
        Instruction::Halt => opcodes::HALT,
        Instruction::Nop => opcodes::NOP,
        Instruction::Skiz => opcodes::SKIZ,
        Instruction::Call(_) => opcodes::CALL,
        Instruction::Return => opcodes::RETURN,
        Instruction::Recurse => opcodes::RECURSE,
        Instruction::RecurseOrReturn => opcodes::RECURSE_OR_RETURN,
        Instruction::Assert => opcodes::ASSERT,
        Instruction::ReadMem(_) => opcodes::READ_MEM,
        Instruction::WriteMem(_) => opcodes::WRITE_MEM,
        Instruction::Hash => opcodes::HASH,
        Instruction::AssertVector => opcodes::ASSERT_VECTOR,
        Instruction::SpongeInit => opcodes::SPONGE_INIT,
        Instruction::SpongeAbsorb => opcodes::SPONGE_ABSORB,
        Instruction::SpongeAbsorbMem => opcodes::SPONGE_ABSORB_MEM,
        Instruction::SpongeSqueeze => opcodes::SPONGE_SQUEEZE,
        Instruction::Add => opcodes::ADD,
        Instruction::AddI(_) => opcodes::ADD_I,
        Instruction::Mul => opcodes::MUL,
        Instruction::Invert => opcodes::INVERT,
        Instruction::Eq => opcodes::EQ,
        Instruction::Split => opcodes::SPLIT,
        Instruction::Lt => opcodes::LT,
        Instruction::And => opcodes::AND,
        Instruction::Xor => opcodes::XOR,
        Instruction::Log2Floor => opcodes::LOG_2_FLOOR,
        Instruction::Pow => opcodes::POW,
        Instruction::DivMod => opcodes::DIV_MOD,
        Instruction::PopCount => opcodes::POP_COUNT,
        Instruction::XxAdd => opcodes::XX_ADD,
        Instruction::XxMul => opcodes::XX_MUL,
        Instruction::XInvert => opcodes::X_INVERT,
        Instruction::XbMul => opcodes::XB_MUL,
        Instruction::ReadIo(_) => opcodes::READ_IO,
        Instruction::WriteIo(_) => opcodes::WRITE_IO,
        Instruction::MerkleStep => opcodes::MERKLE_STEP,
        Instruction::MerkleStepMem => opcodes::MERKLE_STEP_MEM,
        Instruction::XxDotStep => opcodes::XX_DOT_STEP,
        Instruction::XbDotStep => opcodes::XB_DOT_STEP,
    }
}

pub fn op_stack_size_influence(i: Instruction) -> Influence
    ensures { result ≡ influence_of i }
{
    match i {
        Instruction::Push(_) => Influence::Grows(1),
        Instruction::Pop(n) => Influence::Shrinks(n),
        Instruction::Divine(n) => Influence::Grows(n),
        Instruction::Pick(_) => Influence::Keeps,
        Instruction::Place(_) => Influence::Keeps,
        Instruction::Dup(_) => Influence::Grows(1),
        Instruction::Swap(_) => Influence::Keeps,
        Instruction::Halt => Influence::Keeps,
        Instruction::Nop => Influence::Keeps,
        Instruction::Skiz => Influence::Shrinks(1),
        Instruction::Call(_) => Influence::Keeps,
        Instruction::Return => Influence::Keeps,
        Instruction::Recurse => Influence::Keeps,
        Instruction::RecurseOrReturn => Influence::Keeps,
        Instruction::Assert => Influence::Shrinks(1),
        Instruction::ReadMem(n) => Influence::Grows(n),
        Instruction::WriteMem(n) => Influence::Shrinks(n),
        Instruction::Hash => Influence::Shrinks(5),
        Instruction::AssertVector => Influence::Shrinks(5),
        Instruction::SpongeInit => Influence::Keeps,
        Instruction::SpongeAbsorb => Influence::Shrinks(10),
        Instruction::SpongeAbsorbMem => Influence::Keeps,
        Instruction::SpongeSqueeze => Influence::Grows(10),
        Instruction::Add => Influence::Shrinks(1),
        Instruction::AddI(_) => Influence::Keeps,
        Instruction::Mul => Influence::Shrinks(1),
        Instruction::Invert => Influence::Keeps,
        Instruction::Eq => Influence::Shrinks(1),
        Instruction::Split => Influence::Grows(1),
        Instruction::Lt => Influence::Shrinks(1),
        Instruction::And => Influence::Shrinks(1),
        Instruction::Xor => Influence::Shrinks(1),
        Instruction::Log2Floor => Influence::Keeps,
        Instruction::Pow => Influence::Shrinks(1),
        Instruction::DivMod => Influence::Keeps,
        Instruction::PopCount => Influence::Keeps,
        Instruction::XxAdd => Influence::Shrinks(3),
        Instruction::XxMul => Influence::Shrinks(3),
        Instruction::XInvert => Influence::Keeps,
        Instruction::XbMul => Influence::Shrinks(1),
        Instruction::ReadIo(n) => Influence::Grows(n),
        Instruction::WriteIo(n) => Influence::Shrinks(n),
        Instruction::MerkleStep => Influence::Keeps,
        Instruction::MerkleStepMem => Influence::Keeps,
        Instruction::XxDotStep => Influence::Keeps,
        Instruction::XbDotStep => Influence::Keeps,
    }
}
