// A command whose operand stands whole: its code, and the batch from the operand on.
ghost use Rattle.std.specs.Prelude.{◌≡◌, cond, ◌≤◌, eqb, length, take};
ghost use Rattle.batch_words.specs.Words.{number};
ghost use Rattle.batch_commands.specs.Format.{TRACE-ROWS, HEIGHT, width, key};
ghost use Rattle.batch_commands.specs.Code.{byte_of};
ghost use Rattle.batch_commands.specs.Fault.{mixed, missing, out_of_place, out_of_order, wrong_row_count, height_out_of_range, judged};

use crate::unchecked::rows_in;
use crate::{Code, Seen, wrong_height};
use batch_words::unchecked::{half_at, word_at, words_below};
use refusal::Refusal;

const MAX_ROWS: u32 = crate::MAX_ROWS as u32;

#[derive(Clone, Copy)]
pub struct Command<'a> {
    pub code: Code,
    // The operand and what stands behind it.
    pub rest: &'a [u8],
    ghost whole: { width (byte_of code) ≤ length rest.now },
}

impl<'a> Command<'a> {
    // What must not descend from one command of a kind to the next: a difference, or nothing.
    #[tactic(auto, unfolding(crate::specs::Format::key, batch_words::specs::Words::number))]
    pub fn key(self) -> u64
        ensures { result ≡ key (byte_of self.entry.code) self.entry.rest.now }
    {
        let rest = self.rest;
        match self.code {
            Code::OpStack | Code::Ram | Code::JumpStack => word_at(rest, 0),
            _ => 0,
        }
    }

    fn out_of_order(self, seen: &Seen) -> bool
        ensures { result ≡ out_of_order seen.now (byte_of self.entry.code) self.entry.rest.now }
    {
        let rank = self.code.rank();
        rank < seen.rank || (rank == seen.rank && self.key() < seen.key)
    }

    fn wrong_row_count(self) -> bool
        ensures { result ≡ wrong_row_count (byte_of self.entry.code) (take (width (byte_of self.entry.code)) self.entry.rest.now) }
    {
        let rest = self.rest;
        match self.code {
            Code::TraceRows => !(1..=MAX_ROWS).contains(&half_at(rest, 0)),
            _ => false,
        }
    }

    // Whether it is an 0B that cannot set the height.
    #[tactic(auto, using(crate::proofs::Heights::one_byte))]
    fn height_out_of_range(self, rows: usize) -> bool
        ensures { result ≡ height_out_of_range rows (byte_of self.entry.code) (take (width (byte_of self.entry.code)) self.entry.rest.now) }
    {
        let rest = self.rest;
        match self.code {
            Code::Height => wrong_height(rows, rest[0] as usize),
            _ => false,
        }
    }

    // What is wrong with it, after those that were seen.
    #[tactic(auto, using(crate::proofs::Tables::all_words), unfolding(crate::specs::Fault::judged))]
    pub fn judge(self, seen: &Seen) -> Result<(), Refusal>
        ensures { result ≡ judged seen.now (byte_of self.entry.code) self.entry.rest.now }
    {
        let rest = self.rest;
        let width = self.code.width();
        if out_of_place(seen, self.code, rest.len() - width) {
            return Err(Refusal::CommandOutOfPlace);
        }
        if self.out_of_order(seen) {
            return Err(Refusal::CommandOutOfOrder);
        }
        if self.wrong_row_count() {
            return Err(Refusal::RowCount);
        }
        if self.height_out_of_range(seen.rows) {
            return Err(Refusal::HeightOutOfRange);
        }
        if !words_below(rest, 0, width / 8) {
            return Err(Refusal::WordNotBelowP);
        }
        Ok(())
    }

    // The rows that are announced after it.
    pub fn announced(self, rows: usize) -> usize
        ensures { result ≡ cond (eqb (byte_of self.entry.code) TRACE-ROWS) (number (take (width (byte_of self.entry.code)) self.entry.rest.now)) rows }
    {
        let rest = self.rest;
        match self.code {
            Code::TraceRows => half_at(rest, 0) as usize,
            _ => rows,
        }
    }

    // The k that is set after it.
    #[tactic(auto, using(crate::proofs::Heights::one_byte))]
    pub fn log2_height(self, before: usize) -> usize
        ensures { result ≡ cond (eqb (byte_of self.entry.code) HEIGHT) (number (take (width (byte_of self.entry.code)) self.entry.rest.now)) before }
    {
        let rest = self.rest;
        match self.code {
            Code::Height => rest[0] as usize,
            _ => before,
        }
    }
}

// Whether the command is a row after rows in the other form.
fn mixed(came: &[usize; Code::COUNT], code: Code) -> bool
    ensures { result ≡ mixed came.now (byte_of code) }
{
    match code {
        Code::Row => came[Code::MontgomeryRow as usize] != 0,
        Code::MontgomeryRow => came[Code::Row as usize] != 0,
        _ => false,
    }
}

fn missing(rows: usize, came: &[usize; Code::COUNT]) -> bool
    ensures { result ≡ missing rows came.now }
{
    rows_in(came) < rows || came[Code::Sampled as usize] == 0 || came[Code::Digest as usize] == 0
}

fn out_of_place(seen: &Seen, code: Code, left: usize) -> bool
    ensures { result ≡ out_of_place seen.now.rows seen.now.came (byte_of code) left }
{
    let came = &seen.came;
    (came[Code::TraceRows as usize] == 0 && code != Code::TraceRows)
        || code.limit(seen.rows) <= came[code as usize]
        || mixed(came, code)
        || (code == Code::End && (missing(seen.rows, came) || left != 0))
}
