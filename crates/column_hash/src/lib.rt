// What a window of two rows does to the running values of the hash input and hash digest columns.
#![tactic(auto)]

ghost use Rattle.std.specs.Prelude.{◌≡◌, ◌||◌, eqb};
ghost use Rattle.isa.specs.Opcode.{HASH};
ghost use Rattle.column_entries.specs.Entries.{is_merkle_step};

use isa::opcodes;

pub mod unchecked;

pub fn is_hashing(ci: u64) -> bool
    ensures { result ≡ eqb ci HASH || is_merkle_step ci }
{
    matches!(
        ci,
        opcodes::HASH | opcodes::MERKLE_STEP | opcodes::MERKLE_STEP_MEM
    )
}
