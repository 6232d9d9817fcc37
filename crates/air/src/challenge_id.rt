// The challenges, in the order of the record: the sampled ones, then those derived from them.
ghost use Rattle.std.specs.Prelude.{◌≡◌};
ghost use Rattle.air.specs.ChallengeId.{challenges};

use crate::ChallengeId;

impl ChallengeId {
    pub const COUNT: usize = 63;

    pub const NUM_DERIVED_CHALLENGES: usize = 4;

    pub const COMPRESS_PROGRAM_DIGEST_INDETERMINATE: ChallengeId = ChallengeId(0);

    pub const STANDARD_INPUT_INDETERMINATE: ChallengeId = ChallengeId(1);

    pub const STANDARD_OUTPUT_INDETERMINATE: ChallengeId = ChallengeId(2);

    pub const INSTRUCTION_LOOKUP_INDETERMINATE: ChallengeId = ChallengeId(3);

    pub const HASH_INPUT_INDETERMINATE: ChallengeId = ChallengeId(4);

    pub const HASH_DIGEST_INDETERMINATE: ChallengeId = ChallengeId(5);

    pub const SPONGE_INDETERMINATE: ChallengeId = ChallengeId(6);

    pub const OP_STACK_INDETERMINATE: ChallengeId = ChallengeId(7);

    pub const RAM_INDETERMINATE: ChallengeId = ChallengeId(8);

    pub const JUMP_STACK_INDETERMINATE: ChallengeId = ChallengeId(9);

    pub const U32_INDETERMINATE: ChallengeId = ChallengeId(10);

    pub const CLOCK_JUMP_DIFFERENCE_LOOKUP_INDETERMINATE: ChallengeId = ChallengeId(11);

    pub const RAM_TABLE_BEZOUT_RELATION_INDETERMINATE: ChallengeId = ChallengeId(12);

    pub const PROGRAM_ADDRESS_WEIGHT: ChallengeId = ChallengeId(13);

    pub const PROGRAM_INSTRUCTION_WEIGHT: ChallengeId = ChallengeId(14);

    pub const PROGRAM_NEXT_INSTRUCTION_WEIGHT: ChallengeId = ChallengeId(15);

    pub const OP_STACK_CLK_WEIGHT: ChallengeId = ChallengeId(16);

    pub const OP_STACK_IB1_WEIGHT: ChallengeId = ChallengeId(17);

    pub const OP_STACK_POINTER_WEIGHT: ChallengeId = ChallengeId(18);

    pub const OP_STACK_FIRST_UNDERFLOW_ELEMENT_WEIGHT: ChallengeId = ChallengeId(19);

    pub const RAM_CLK_WEIGHT: ChallengeId = ChallengeId(20);

    pub const RAM_POINTER_WEIGHT: ChallengeId = ChallengeId(21);

    pub const RAM_VALUE_WEIGHT: ChallengeId = ChallengeId(22);

    pub const RAM_INSTRUCTION_TYPE_WEIGHT: ChallengeId = ChallengeId(23);

    pub const JUMP_STACK_CLK_WEIGHT: ChallengeId = ChallengeId(24);

    pub const JUMP_STACK_CI_WEIGHT: ChallengeId = ChallengeId(25);

    pub const JUMP_STACK_JSP_WEIGHT: ChallengeId = ChallengeId(26);

    pub const JUMP_STACK_JSO_WEIGHT: ChallengeId = ChallengeId(27);

    pub const JUMP_STACK_JSD_WEIGHT: ChallengeId = ChallengeId(28);

    pub const PROGRAM_ATTESTATION_PREPARE_CHUNK_INDETERMINATE: ChallengeId = ChallengeId(29);

    pub const PROGRAM_ATTESTATION_SEND_CHUNK_INDETERMINATE: ChallengeId = ChallengeId(30);

    pub const HASH_CI_WEIGHT: ChallengeId = ChallengeId(31);

    pub const STACK_WEIGHT0: ChallengeId = ChallengeId(32);

    pub const STACK_WEIGHT1: ChallengeId = ChallengeId(33);

    pub const STACK_WEIGHT2: ChallengeId = ChallengeId(34);

    pub const STACK_WEIGHT3: ChallengeId = ChallengeId(35);

    pub const STACK_WEIGHT4: ChallengeId = ChallengeId(36);

    pub const STACK_WEIGHT5: ChallengeId = ChallengeId(37);

    pub const STACK_WEIGHT6: ChallengeId = ChallengeId(38);

    pub const STACK_WEIGHT7: ChallengeId = ChallengeId(39);

    pub const STACK_WEIGHT8: ChallengeId = ChallengeId(40);

    pub const STACK_WEIGHT9: ChallengeId = ChallengeId(41);

    pub const STACK_WEIGHT10: ChallengeId = ChallengeId(42);

    pub const STACK_WEIGHT11: ChallengeId = ChallengeId(43);

    pub const STACK_WEIGHT12: ChallengeId = ChallengeId(44);

    pub const STACK_WEIGHT13: ChallengeId = ChallengeId(45);

    pub const STACK_WEIGHT14: ChallengeId = ChallengeId(46);

    pub const STACK_WEIGHT15: ChallengeId = ChallengeId(47);

    pub const HASH_CASCADE_LOOKUP_INDETERMINATE: ChallengeId = ChallengeId(48);

    pub const HASH_CASCADE_LOOK_IN_WEIGHT: ChallengeId = ChallengeId(49);

    pub const HASH_CASCADE_LOOK_OUT_WEIGHT: ChallengeId = ChallengeId(50);

    pub const CASCADE_LOOKUP_INDETERMINATE: ChallengeId = ChallengeId(51);

    pub const LOOKUP_TABLE_INPUT_WEIGHT: ChallengeId = ChallengeId(52);

    pub const LOOKUP_TABLE_OUTPUT_WEIGHT: ChallengeId = ChallengeId(53);

    pub const LOOKUP_TABLE_PUBLIC_INDETERMINATE: ChallengeId = ChallengeId(54);

    pub const U32_LHS_WEIGHT: ChallengeId = ChallengeId(55);

    pub const U32_RHS_WEIGHT: ChallengeId = ChallengeId(56);

    pub const U32_CI_WEIGHT: ChallengeId = ChallengeId(57);

    pub const U32_RESULT_WEIGHT: ChallengeId = ChallengeId(58);

    pub const STANDARD_INPUT_TERMINAL: ChallengeId = ChallengeId(59);

    pub const STANDARD_OUTPUT_TERMINAL: ChallengeId = ChallengeId(60);

    pub const LOOKUP_TABLE_PUBLIC_TERMINAL: ChallengeId = ChallengeId(61);

    pub const COMPRESSED_PROGRAM_DIGEST: ChallengeId = ChallengeId(62);

    // Each challenge once, in the order of the record.
    pub fn all() -> [usize; ChallengeId::COUNT]
        ensures { result ≡ challenges }
    {
        [
            ChallengeId::COMPRESS_PROGRAM_DIGEST_INDETERMINATE.0,
            ChallengeId::STANDARD_INPUT_INDETERMINATE.0,
            ChallengeId::STANDARD_OUTPUT_INDETERMINATE.0,
            ChallengeId::INSTRUCTION_LOOKUP_INDETERMINATE.0,
            ChallengeId::HASH_INPUT_INDETERMINATE.0,
            ChallengeId::HASH_DIGEST_INDETERMINATE.0,
            ChallengeId::SPONGE_INDETERMINATE.0,
            ChallengeId::OP_STACK_INDETERMINATE.0,
            ChallengeId::RAM_INDETERMINATE.0,
            ChallengeId::JUMP_STACK_INDETERMINATE.0,
            ChallengeId::U32_INDETERMINATE.0,
            ChallengeId::CLOCK_JUMP_DIFFERENCE_LOOKUP_INDETERMINATE.0,
            ChallengeId::RAM_TABLE_BEZOUT_RELATION_INDETERMINATE.0,
            ChallengeId::PROGRAM_ADDRESS_WEIGHT.0,
            ChallengeId::PROGRAM_INSTRUCTION_WEIGHT.0,
            ChallengeId::PROGRAM_NEXT_INSTRUCTION_WEIGHT.0,
            ChallengeId::OP_STACK_CLK_WEIGHT.0,
            ChallengeId::OP_STACK_IB1_WEIGHT.0,
            ChallengeId::OP_STACK_POINTER_WEIGHT.0,
            ChallengeId::OP_STACK_FIRST_UNDERFLOW_ELEMENT_WEIGHT.0,
            ChallengeId::RAM_CLK_WEIGHT.0,
            ChallengeId::RAM_POINTER_WEIGHT.0,
            ChallengeId::RAM_VALUE_WEIGHT.0,
            ChallengeId::RAM_INSTRUCTION_TYPE_WEIGHT.0,
            ChallengeId::JUMP_STACK_CLK_WEIGHT.0,
            ChallengeId::JUMP_STACK_CI_WEIGHT.0,
            ChallengeId::JUMP_STACK_JSP_WEIGHT.0,
            ChallengeId::JUMP_STACK_JSO_WEIGHT.0,
            ChallengeId::JUMP_STACK_JSD_WEIGHT.0,
            ChallengeId::PROGRAM_ATTESTATION_PREPARE_CHUNK_INDETERMINATE.0,
            ChallengeId::PROGRAM_ATTESTATION_SEND_CHUNK_INDETERMINATE.0,
            ChallengeId::HASH_CI_WEIGHT.0,
            ChallengeId::STACK_WEIGHT0.0,
            ChallengeId::STACK_WEIGHT1.0,
            ChallengeId::STACK_WEIGHT2.0,
            ChallengeId::STACK_WEIGHT3.0,
            ChallengeId::STACK_WEIGHT4.0,
            ChallengeId::STACK_WEIGHT5.0,
            ChallengeId::STACK_WEIGHT6.0,
            ChallengeId::STACK_WEIGHT7.0,
            ChallengeId::STACK_WEIGHT8.0,
            ChallengeId::STACK_WEIGHT9.0,
            ChallengeId::STACK_WEIGHT10.0,
            ChallengeId::STACK_WEIGHT11.0,
            ChallengeId::STACK_WEIGHT12.0,
            ChallengeId::STACK_WEIGHT13.0,
            ChallengeId::STACK_WEIGHT14.0,
            ChallengeId::STACK_WEIGHT15.0,
            ChallengeId::HASH_CASCADE_LOOKUP_INDETERMINATE.0,
            ChallengeId::HASH_CASCADE_LOOK_IN_WEIGHT.0,
            ChallengeId::HASH_CASCADE_LOOK_OUT_WEIGHT.0,
            ChallengeId::CASCADE_LOOKUP_INDETERMINATE.0,
            ChallengeId::LOOKUP_TABLE_INPUT_WEIGHT.0,
            ChallengeId::LOOKUP_TABLE_OUTPUT_WEIGHT.0,
            ChallengeId::LOOKUP_TABLE_PUBLIC_INDETERMINATE.0,
            ChallengeId::U32_LHS_WEIGHT.0,
            ChallengeId::U32_RHS_WEIGHT.0,
            ChallengeId::U32_CI_WEIGHT.0,
            ChallengeId::U32_RESULT_WEIGHT.0,
            ChallengeId::STANDARD_INPUT_TERMINAL.0,
            ChallengeId::STANDARD_OUTPUT_TERMINAL.0,
            ChallengeId::LOOKUP_TABLE_PUBLIC_TERMINAL.0,
            ChallengeId::COMPRESSED_PROGRAM_DIGEST.0,
        ]
    }
}
