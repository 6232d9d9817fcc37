// What a window of two rows brings to the u32 lookup's column.
#![tactic(auto)]

ghost use Rattle.std.specs.Prelude.{◌≡◌, false, List, [], ℕ};
ghost use Rattle.field.specs.declared.XFieldElement.{XFieldElement};
ghost use Rattle.air.specs.MainColumn.{CI};
ghost use Rattle.column_entries.specs.Row.{word_at};
ghost use Rattle.column_entries.specs.Entries.{u32_entries};

use isa::opcodes;

pub mod unchecked;

// Whether an instruction with this opcode in the previous row looks up in the u32 table.
#[tactic(auto, unfolding(column_entries::specs::Entries::u32_lookups, column_entries::specs::Entries::u32_entries))]
pub fn looks_up_u32(ci: u64) -> bool
    ensures { result ≡ false → (weights : List XFieldElement) (prev curr : List ℕ) → ci ≡ word_at prev CI → u32_entries weights prev curr ≡ [] }
{
    matches!(
        ci,
        opcodes::SPLIT
            | opcodes::LT
            | opcodes::LOG_2_FLOOR
            | opcodes::AND
            | opcodes::DIV_MOD
            | opcodes::XOR
            | opcodes::POP_COUNT
            | opcodes::POW
            | opcodes::MERKLE_STEP
            | opcodes::MERKLE_STEP_MEM
    )
}
