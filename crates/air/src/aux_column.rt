// The auxiliary columns, in the order of the row.
ghost use Rattle.std.specs.Prelude.{◌≡◌};
ghost use Rattle.air.specs.AuxColumn.{columns};

use crate::AuxIndex;

impl AuxIndex {
    pub const COUNT: usize = 11;

    pub const INPUT_TABLE_EVAL_ARG: AuxIndex = AuxIndex(0);

    pub const OUTPUT_TABLE_EVAL_ARG: AuxIndex = AuxIndex(1);

    pub const INSTRUCTION_LOOKUP_CLIENT_LOG_DERIVATIVE: AuxIndex = AuxIndex(2);

    pub const OP_STACK_TABLE_PERM_ARG: AuxIndex = AuxIndex(3);

    pub const RAM_TABLE_PERM_ARG: AuxIndex = AuxIndex(4);

    pub const JUMP_STACK_TABLE_PERM_ARG: AuxIndex = AuxIndex(5);

    pub const HASH_INPUT_EVAL_ARG: AuxIndex = AuxIndex(6);

    pub const HASH_DIGEST_EVAL_ARG: AuxIndex = AuxIndex(7);

    pub const SPONGE_EVAL_ARG: AuxIndex = AuxIndex(8);

    pub const U32_LOOKUP_CLIENT_LOG_DERIVATIVE: AuxIndex = AuxIndex(9);

    pub const CLOCK_JUMP_DIFFERENCE_LOOKUP_SERVER_LOG_DERIVATIVE: AuxIndex = AuxIndex(10);

    // Each column once, in the order of the row.
    pub fn all() -> [usize; AuxIndex::COUNT]
        ensures { result ≡ columns }
    {
        [
            AuxIndex::INPUT_TABLE_EVAL_ARG.0,
            AuxIndex::OUTPUT_TABLE_EVAL_ARG.0,
            AuxIndex::INSTRUCTION_LOOKUP_CLIENT_LOG_DERIVATIVE.0,
            AuxIndex::OP_STACK_TABLE_PERM_ARG.0,
            AuxIndex::RAM_TABLE_PERM_ARG.0,
            AuxIndex::JUMP_STACK_TABLE_PERM_ARG.0,
            AuxIndex::HASH_INPUT_EVAL_ARG.0,
            AuxIndex::HASH_DIGEST_EVAL_ARG.0,
            AuxIndex::SPONGE_EVAL_ARG.0,
            AuxIndex::U32_LOOKUP_CLIENT_LOG_DERIVATIVE.0,
            AuxIndex::CLOCK_JUMP_DIFFERENCE_LOOKUP_SERVER_LOG_DERIVATIVE.0,
        ]
    }
}
