// A lent batch together with how far it has been read.
ghost use Rattle.std.specs.Prelude.{◌≡◌, ◌+◌, ◌≤◌, length, drop, MatchResult, IfOk};
ghost use Rattle.batch_commands.specs.Format.{width};
ghost use Rattle.batch_commands.specs.Code.{byte_of};
ghost use Rattle.batch_commands.specs.Fault.{head_of};

use batch_commands::command::Command;
use batch_commands::{Code, head_at};
use refusal::Refusal;

#[derive(Clone, Copy)]
pub(crate) struct Opener<'a> {
    pub(crate) batch: &'a [u8],
    // How many bytes have been read.
    pub(crate) at: usize,
}

impl<'a> Opener<'a> {
    // Nothing has been read.
    pub(crate) fn new(batch: &'a [u8]) -> Opener<'a>
        ensures { (result.batch ≡ batch.entry) × (result.at ≡ 0) }
    {
        Opener { batch, at: 0 }
    }

    // What stands there.
    pub(crate) fn head(self) -> Result<Command<'a>, Refusal>
        ensures value { MatchResult result (λ command. head_of (drop self.entry.at self.entry.batch.now) ≡ Ok (byte_of command.code)) (λ refusal. head_of (drop self.entry.at self.entry.batch.now) ≡ Err refusal) }
        ensures rest { IfOk result (λ command. command.rest.now ≡ drop (self.entry.at + 1) self.entry.batch.now) }
    {
        let batch = self.batch;
        let code = head_at(batch, self.at)?;
        Ok(Command {
            code,
            rest: &batch[self.at + 1..],
        })
    }

    // The command that stands there has been read too.
    pub(crate) fn past(self, code: Code) -> Opener<'a>
        requires { self.at + 1 + width (byte_of code) ≤ length self.batch.now }
        ensures { (result.batch ≡ self.entry.batch) × (result.at ≡ self.entry.at + 1 + width (byte_of code)) }
    {
        Opener {
            batch: self.batch,
            at: self.at + 1 + code.width(),
        }
    }
}
