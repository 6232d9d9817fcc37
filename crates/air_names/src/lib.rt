// The names of instructions, columns and challenges, as the Rust has them.
#![tactic(auto)]

ghost use Rattle.std.specs.Prelude.{◌≡◌, ◌≤◌, length};
ghost use Rattle.air_names.specs.Instruction.{name_of};

use air::{AuxIndex, ChallengeId, MainIndex};
use isa::Instruction;

const MAIN_COLUMNS: [(MainIndex, &str); MainIndex::COUNT] = [
    (MainIndex::CLK, "CLK"),
    (MainIndex::IS_PADDING, "IsPadding"),
    (MainIndex::IP, "IP"),
    (MainIndex::CI, "CI"),
    (MainIndex::NIA, "NIA"),
    (MainIndex::IB0, "IB0"),
    (MainIndex::IB1, "IB1"),
    (MainIndex::IB2, "IB2"),
    (MainIndex::IB3, "IB3"),
    (MainIndex::IB4, "IB4"),
    (MainIndex::IB5, "IB5"),
    (MainIndex::IB6, "IB6"),
    (MainIndex::JSP, "JSP"),
    (MainIndex::JSO, "JSO"),
    (MainIndex::JSD, "JSD"),
    (MainIndex::ST0, "ST0"),
    (MainIndex::ST1, "ST1"),
    (MainIndex::ST2, "ST2"),
    (MainIndex::ST3, "ST3"),
    (MainIndex::ST4, "ST4"),
    (MainIndex::ST5, "ST5"),
    (MainIndex::ST6, "ST6"),
    (MainIndex::ST7, "ST7"),
    (MainIndex::ST8, "ST8"),
    (MainIndex::ST9, "ST9"),
    (MainIndex::ST10, "ST10"),
    (MainIndex::ST11, "ST11"),
    (MainIndex::ST12, "ST12"),
    (MainIndex::ST13, "ST13"),
    (MainIndex::ST14, "ST14"),
    (MainIndex::ST15, "ST15"),
    (MainIndex::OP_STACK_POINTER, "OpStackPointer"),
    (MainIndex::HV0, "HV0"),
    (MainIndex::HV1, "HV1"),
    (MainIndex::HV2, "HV2"),
    (MainIndex::HV3, "HV3"),
    (MainIndex::HV4, "HV4"),
    (MainIndex::HV5, "HV5"),
    (
        MainIndex::CLOCK_JUMP_DIFFERENCE_LOOKUP_MULTIPLICITY,
        "ClockJumpDifferenceLookupMultiplicity",
    ),
];

const AUX_COLUMNS: [(AuxIndex, &str); AuxIndex::COUNT] = [
    (AuxIndex::INPUT_TABLE_EVAL_ARG, "InputTableEvalArg"),
    (AuxIndex::OUTPUT_TABLE_EVAL_ARG, "OutputTableEvalArg"),
    (
        AuxIndex::INSTRUCTION_LOOKUP_CLIENT_LOG_DERIVATIVE,
        "InstructionLookupClientLogDerivative",
    ),
    (AuxIndex::OP_STACK_TABLE_PERM_ARG, "OpStackTablePermArg"),
    (AuxIndex::RAM_TABLE_PERM_ARG, "RamTablePermArg"),
    (AuxIndex::JUMP_STACK_TABLE_PERM_ARG, "JumpStackTablePermArg"),
    (AuxIndex::HASH_INPUT_EVAL_ARG, "HashInputEvalArg"),
    (AuxIndex::HASH_DIGEST_EVAL_ARG, "HashDigestEvalArg"),
    (AuxIndex::SPONGE_EVAL_ARG, "SpongeEvalArg"),
    (
        AuxIndex::U32_LOOKUP_CLIENT_LOG_DERIVATIVE,
        "U32LookupClientLogDerivative",
    ),
    (
        AuxIndex::CLOCK_JUMP_DIFFERENCE_LOOKUP_SERVER_LOG_DERIVATIVE,
        "ClockJumpDifferenceLookupServerLogDerivative",
    ),
];

const CHALLENGES: [(ChallengeId, &str); ChallengeId::COUNT] = [
    (
        ChallengeId::COMPRESS_PROGRAM_DIGEST_INDETERMINATE,
        "CompressProgramDigestIndeterminate",
    ),
    (
        ChallengeId::STANDARD_INPUT_INDETERMINATE,
        "StandardInputIndeterminate",
    ),
    (
        ChallengeId::STANDARD_OUTPUT_INDETERMINATE,
        "StandardOutputIndeterminate",
    ),
    (
        ChallengeId::INSTRUCTION_LOOKUP_INDETERMINATE,
        "InstructionLookupIndeterminate",
    ),
    (
        ChallengeId::HASH_INPUT_INDETERMINATE,
        "HashInputIndeterminate",
    ),
    (
        ChallengeId::HASH_DIGEST_INDETERMINATE,
        "HashDigestIndeterminate",
    ),
    (ChallengeId::SPONGE_INDETERMINATE, "SpongeIndeterminate"),
    (ChallengeId::OP_STACK_INDETERMINATE, "OpStackIndeterminate"),
    (ChallengeId::RAM_INDETERMINATE, "RamIndeterminate"),
    (
        ChallengeId::JUMP_STACK_INDETERMINATE,
        "JumpStackIndeterminate",
    ),
    (ChallengeId::U32_INDETERMINATE, "U32Indeterminate"),
    (
        ChallengeId::CLOCK_JUMP_DIFFERENCE_LOOKUP_INDETERMINATE,
        "ClockJumpDifferenceLookupIndeterminate",
    ),
    (
        ChallengeId::RAM_TABLE_BEZOUT_RELATION_INDETERMINATE,
        "RamTableBezoutRelationIndeterminate",
    ),
    (ChallengeId::PROGRAM_ADDRESS_WEIGHT, "ProgramAddressWeight"),
    (
        ChallengeId::PROGRAM_INSTRUCTION_WEIGHT,
        "ProgramInstructionWeight",
    ),
    (
        ChallengeId::PROGRAM_NEXT_INSTRUCTION_WEIGHT,
        "ProgramNextInstructionWeight",
    ),
    (ChallengeId::OP_STACK_CLK_WEIGHT, "OpStackClkWeight"),
    (ChallengeId::OP_STACK_IB1_WEIGHT, "OpStackIb1Weight"),
    (ChallengeId::OP_STACK_POINTER_WEIGHT, "OpStackPointerWeight"),
    (
        ChallengeId::OP_STACK_FIRST_UNDERFLOW_ELEMENT_WEIGHT,
        "OpStackFirstUnderflowElementWeight",
    ),
    (ChallengeId::RAM_CLK_WEIGHT, "RamClkWeight"),
    (ChallengeId::RAM_POINTER_WEIGHT, "RamPointerWeight"),
    (ChallengeId::RAM_VALUE_WEIGHT, "RamValueWeight"),
    (
        ChallengeId::RAM_INSTRUCTION_TYPE_WEIGHT,
        "RamInstructionTypeWeight",
    ),
    (ChallengeId::JUMP_STACK_CLK_WEIGHT, "JumpStackClkWeight"),
    (ChallengeId::JUMP_STACK_CI_WEIGHT, "JumpStackCiWeight"),
    (ChallengeId::JUMP_STACK_JSP_WEIGHT, "JumpStackJspWeight"),
    (ChallengeId::JUMP_STACK_JSO_WEIGHT, "JumpStackJsoWeight"),
    (ChallengeId::JUMP_STACK_JSD_WEIGHT, "JumpStackJsdWeight"),
    (
        ChallengeId::PROGRAM_ATTESTATION_PREPARE_CHUNK_INDETERMINATE,
        "ProgramAttestationPrepareChunkIndeterminate",
    ),
    (
        ChallengeId::PROGRAM_ATTESTATION_SEND_CHUNK_INDETERMINATE,
        "ProgramAttestationSendChunkIndeterminate",
    ),
    (ChallengeId::HASH_CI_WEIGHT, "HashCIWeight"),
    (ChallengeId::STACK_WEIGHT0, "StackWeight0"),
    (ChallengeId::STACK_WEIGHT1, "StackWeight1"),
    (ChallengeId::STACK_WEIGHT2, "StackWeight2"),
    (ChallengeId::STACK_WEIGHT3, "StackWeight3"),
    (ChallengeId::STACK_WEIGHT4, "StackWeight4"),
    (ChallengeId::STACK_WEIGHT5, "StackWeight5"),
    (ChallengeId::STACK_WEIGHT6, "StackWeight6"),
    (ChallengeId::STACK_WEIGHT7, "StackWeight7"),
    (ChallengeId::STACK_WEIGHT8, "StackWeight8"),
    (ChallengeId::STACK_WEIGHT9, "StackWeight9"),
    (ChallengeId::STACK_WEIGHT10, "StackWeight10"),
    (ChallengeId::STACK_WEIGHT11, "StackWeight11"),
    (ChallengeId::STACK_WEIGHT12, "StackWeight12"),
    (ChallengeId::STACK_WEIGHT13, "StackWeight13"),
    (ChallengeId::STACK_WEIGHT14, "StackWeight14"),
    (ChallengeId::STACK_WEIGHT15, "StackWeight15"),
    (
        ChallengeId::HASH_CASCADE_LOOKUP_INDETERMINATE,
        "HashCascadeLookupIndeterminate",
    ),
    (
        ChallengeId::HASH_CASCADE_LOOK_IN_WEIGHT,
        "HashCascadeLookInWeight",
    ),
    (
        ChallengeId::HASH_CASCADE_LOOK_OUT_WEIGHT,
        "HashCascadeLookOutWeight",
    ),
    (
        ChallengeId::CASCADE_LOOKUP_INDETERMINATE,
        "CascadeLookupIndeterminate",
    ),
    (
        ChallengeId::LOOKUP_TABLE_INPUT_WEIGHT,
        "LookupTableInputWeight",
    ),
    (
        ChallengeId::LOOKUP_TABLE_OUTPUT_WEIGHT,
        "LookupTableOutputWeight",
    ),
    (
        ChallengeId::LOOKUP_TABLE_PUBLIC_INDETERMINATE,
        "LookupTablePublicIndeterminate",
    ),
    (ChallengeId::U32_LHS_WEIGHT, "U32LhsWeight"),
    (ChallengeId::U32_RHS_WEIGHT, "U32RhsWeight"),
    (ChallengeId::U32_CI_WEIGHT, "U32CiWeight"),
    (ChallengeId::U32_RESULT_WEIGHT, "U32ResultWeight"),
    (
        ChallengeId::STANDARD_INPUT_TERMINAL,
        "StandardInputTerminal",
    ),
    (
        ChallengeId::STANDARD_OUTPUT_TERMINAL,
        "StandardOutputTerminal",
    ),
    (
        ChallengeId::LOOKUP_TABLE_PUBLIC_TERMINAL,
        "LookupTablePublicTerminal",
    ),
    (
        ChallengeId::COMPRESSED_PROGRAM_DIGEST,
        "CompressedProgramDigest",
    ),
];

// The name that stands beside an index.
fn named<I: Copy + PartialEq>(names: &[(I, &'static str)], index: I) -> Option<&'static str> {
    names
        .iter()
        .find(|(i, _)| *i == index)
        .map(|(_, name)| *name)
}

#[tactic(auto, unfolding(crate::specs::Instruction::name_of))]
pub fn instruction(i: Instruction) -> &'static str
    ensures name { result.now ≡ name_of i }
    ensures short { length result.now ≤ 17 }
{
    match i {
        Instruction::Push(_) => "push",
        Instruction::Pop(_) => "pop",
        Instruction::Divine(_) => "divine",
        Instruction::Pick(_) => "pick",
        Instruction::Place(_) => "place",
        Instruction::Dup(_) => "dup",
        Instruction::Swap(_) => "swap",
        Instruction::Halt => "halt",
        Instruction::Nop => "nop",
        Instruction::Skiz => "skiz",
        Instruction::Call(_) => "call",
        Instruction::Return => "return",
        Instruction::Recurse => "recurse",
        Instruction::RecurseOrReturn => "recurse_or_return",
        Instruction::Assert => "assert",
        Instruction::ReadMem(_) => "read_mem",
        Instruction::WriteMem(_) => "write_mem",
        Instruction::Hash => "hash",
        Instruction::AssertVector => "assert_vector",
        Instruction::SpongeInit => "sponge_init",
        Instruction::SpongeAbsorb => "sponge_absorb",
        Instruction::SpongeAbsorbMem => "sponge_absorb_mem",
        Instruction::SpongeSqueeze => "sponge_squeeze",
        Instruction::Add => "add",
        Instruction::AddI(_) => "addi",
        Instruction::Mul => "mul",
        Instruction::Invert => "invert",
        Instruction::Eq => "eq",
        Instruction::Split => "split",
        Instruction::Lt => "lt",
        Instruction::And => "and",
        Instruction::Xor => "xor",
        Instruction::Log2Floor => "log_2_floor",
        Instruction::Pow => "pow",
        Instruction::DivMod => "div_mod",
        Instruction::PopCount => "pop_count",
        Instruction::XxAdd => "xx_add",
        Instruction::XxMul => "xx_mul",
        Instruction::XInvert => "x_invert",
        Instruction::XbMul => "xb_mul",
        Instruction::ReadIo(_) => "read_io",
        Instruction::WriteIo(_) => "write_io",
        Instruction::MerkleStep => "merkle_step",
        Instruction::MerkleStepMem => "merkle_step_mem",
        Instruction::XxDotStep => "xx_dot_step",
        Instruction::XbDotStep => "xb_dot_step",
    }
}

// No name for a number that is no place.
pub fn main_column(column: MainIndex) -> Option<&'static str> {
    named(&MAIN_COLUMNS, column)
}

pub fn aux_column(column: AuxIndex) -> Option<&'static str> {
    named(&AUX_COLUMNS, column)
}

pub fn challenge(id: ChallengeId) -> Option<&'static str> {
    named(&CHALLENGES, id)
}
