// Opcodes by the names of the instructions.
pub const PUSH: u64 = 1;

pub const POP: u64 = 3;

pub const DIVINE: u64 = 9;

pub const PICK: u64 = 17;

pub const PLACE: u64 = 25;

pub const DUP: u64 = 33;

pub const SWAP: u64 = 41;

pub const HALT: u64 = 0;

pub const NOP: u64 = 8;

pub const SKIZ: u64 = 2;

pub const CALL: u64 = 49;

pub const RETURN: u64 = 16;

pub const RECURSE: u64 = 24;

pub const RECURSE_OR_RETURN: u64 = 32;

pub const ASSERT: u64 = 10;

pub const READ_MEM: u64 = 57;

pub const WRITE_MEM: u64 = 11;

pub const HASH: u64 = 18;

pub const ASSERT_VECTOR: u64 = 26;

pub const SPONGE_INIT: u64 = 40;

pub const SPONGE_ABSORB: u64 = 34;

pub const SPONGE_ABSORB_MEM: u64 = 48;

pub const SPONGE_SQUEEZE: u64 = 56;

pub const ADD: u64 = 42;

pub const ADD_I: u64 = 65;

pub const MUL: u64 = 50;

pub const INVERT: u64 = 64;

pub const EQ: u64 = 58;

pub const SPLIT: u64 = 4;

pub const LT: u64 = 6;

pub const AND: u64 = 14;

pub const XOR: u64 = 22;

pub const LOG_2_FLOOR: u64 = 12;

pub const POW: u64 = 30;

pub const DIV_MOD: u64 = 20;

pub const POP_COUNT: u64 = 28;

pub const XX_ADD: u64 = 66;

pub const XX_MUL: u64 = 74;

pub const X_INVERT: u64 = 72;

pub const XB_MUL: u64 = 82;

pub const READ_IO: u64 = 73;

pub const WRITE_IO: u64 = 19;

pub const MERKLE_STEP: u64 = 36;

pub const MERKLE_STEP_MEM: u64 = 44;

pub const XX_DOT_STEP: u64 = 80;

pub const XB_DOT_STEP: u64 = 88;
