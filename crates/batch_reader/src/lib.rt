// Reading a batch from left to right.
#![tactic(auto)]

ghost use Rattle.std.specs.Prelude.{◌≡◌, ◌+◌, ◌≤◌, drop, get_or, IfOk, IfSome};
ghost use Rattle.batch_commands.specs.Format.{MAX-DIFFERENCES};
ghost use Rattle.batch_commands.specs.Code.{byte_of};
ghost use Rattle.batch_reader.specs.Reading.{reading};
ghost use Rattle.batch_reader.specs.Answers.{counts_in, answer_of};
ghost use Rattle.batch_reader.specs.Steps.{seen_nothing, seen_past, step_in, step_of};

use crate::opener::Opener;
use batch_commands::command::Command;
use batch_commands::unchecked::{count, rows_in};
use batch_commands::{Code, Seen};
use refusal::Refusal;

mod opener;
pub mod unchecked;

#[derive(Clone, Copy)]
pub struct Counts {
    pub rows: usize,
    pub op_stack: usize,
    pub ram: usize,
    pub jump_stack: usize,
    pub input: usize,
    pub output: usize,
    // The k that 0B set, or 0.
    // kept: no Option, since opening answers k so, 0 without 0B.
    pub log2_height: usize,
}

fn seen_nothing() -> Seen
    ensures { result ≡ seen_nothing }
{
    Seen {
        rows: 0,
        log2_height: 0,
        came: [0; Code::COUNT],
        rank: 0,
        key: 0,
    }
}

fn counts_in(came: &[usize; Code::COUNT], log2_height: usize) -> Counts
    ensures { result ≡ counts_in came.now log2_height }
{
    Counts {
        rows: rows_in(came),
        op_stack: came[Code::OpStack as usize],
        ram: came[Code::Ram as usize],
        jump_stack: came[Code::JumpStack as usize],
        input: came[Code::Input as usize],
        output: came[Code::Output as usize],
        log2_height,
    }
}

// The command that stands there, if nothing is wrong with it; None for the last, 00.
fn step<'a>(opener: Opener<'a>, seen: &Seen) -> Result<Option<Command<'a>>, Refusal>
    ensures value { step_in result ≡ step_of seen.now (drop opener.entry.at opener.entry.batch.now) }
    ensures rest { IfOk result (λ next. IfSome next (λ command. command.rest.now ≡ drop (opener.entry.at + 1) opener.entry.batch.now)) }
{
    let command = opener.head()?;
    command.judge(seen)?;
    match command.code {
        Code::End => Ok(None),
        _ => Ok(Some(command)),
    }
}

// Remembers the command too.
fn see(seen: &mut Seen, command: Command)
    requires { get_or seen.old.came (byte_of command.code) 0 ≤ MAX-DIFFERENCES }
    ensures { seen.new ≡ seen_past seen.old (byte_of command.entry.code) command.entry.rest.now }
{
    seen.rows = command.announced(seen.rows);
    seen.log2_height = command.log2_height(seen.log2_height);
    count(&mut seen.came, command.code);
    seen.rank = command.code.rank();
    seen.key = command.key();
}

// The answer to a batch.
pub fn read(batch: &[u8]) -> Result<Counts, Refusal>
    ensures { result ≡ answer_of (reading batch.now) }
{
    let mut opener = Opener::new(batch);
    let mut seen = seen_nothing();
    while let Some(command) = step(opener, &seen)? {
        see(&mut seen, command);
        opener = opener.past(command.code);
    }
    Ok(counts_in(&seen.came, seen.log2_height))
}
