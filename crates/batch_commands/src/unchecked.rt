// How often each command came.
ghost use Rattle.std.specs.Prelude.{◌≡◌, ◌+◌, ◌≤◌, get_or, set};
ghost use Rattle.batch_commands.specs.Format.{MAX-DIFFERENCES};
ghost use Rattle.batch_commands.specs.Code.{byte_of};
ghost use Rattle.batch_commands.specs.Fault.{rows_in};

use crate::Code;

// The rows that came, in whichever form.
pub fn rows_in(came: &[usize; Code::COUNT]) -> usize
    ensures { result ≡ rows_in came.now }
{
    match came[Code::MontgomeryRow as usize] {
        0 => came[Code::Row as usize],
        rows => rows,
    }
}

// Counts the command too.
pub fn count(came: &mut [usize; Code::COUNT], code: Code)
    requires { get_or came.old (byte_of code) 0 ≤ MAX-DIFFERENCES }
    ensures { came.new ≡ set came.old (byte_of code) (get_or came.old (byte_of code) 0 + 1) }
{
    came[code as usize] += 1;
}
