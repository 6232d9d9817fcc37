// CI decides whether a window may bring a column an entry.
ghost use Rattle.std.specs.Prelude.{◌≡◌};
ghost use Rattle.column_steps.specs.Opcodes.{is_read_io, is_write_io, is_sponge, is_ram_access};

use isa::opcodes;

pub fn is_read_io(ci: u64) -> bool
    ensures { result ≡ is_read_io ci }
{
    ci == opcodes::READ_IO
}

pub fn is_write_io(ci: u64) -> bool
    ensures { result ≡ is_write_io ci }
{
    ci == opcodes::WRITE_IO
}

pub fn is_sponge(ci: u64) -> bool
    ensures { result ≡ is_sponge ci }
{
    matches!(
        ci,
        opcodes::SPONGE_INIT
            | opcodes::SPONGE_ABSORB
            | opcodes::SPONGE_ABSORB_MEM
            | opcodes::SPONGE_SQUEEZE
    )
}

pub fn is_ram_access(ci: u64) -> bool
    ensures { result ≡ is_ram_access ci }
{
    matches!(
        ci,
        opcodes::READ_MEM
            | opcodes::WRITE_MEM
            | opcodes::SPONGE_ABSORB_MEM
            | opcodes::MERKLE_STEP_MEM
            | opcodes::XX_DOT_STEP
            | opcodes::XB_DOT_STEP
    )
}
