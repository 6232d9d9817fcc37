// The commands of a batch, one at a time: a byte, then an operand of the width that the byte says.
#![tactic(auto)]

ghost use Rattle.std.specs.Prelude.{◌≡◌, drop};
ghost use Rattle.batch_commands.specs.Format.{width, limit, rank};
ghost use Rattle.batch_commands.specs.Form.{row_command};
ghost use Rattle.batch_commands.specs.Code.{byte_of, byte_in, Decodes};
ghost use Rattle.batch_commands.specs.Fault.{wrong_height, head_of};

use field_montgomery::Form;
use refusal::Refusal;

pub mod command;
// For callers that know that a command is within its count.
pub mod unchecked;

// Each with its byte.
#[derive(Clone, Copy, PartialEq, Eq)]
pub enum Code {
    End = 0,
    TraceRows = 1,
    Row = 2,
    OpStack = 3,
    Ram = 4,
    JumpStack = 5,
    Sampled = 6,
    Digest = 7,
    Input = 8,
    Output = 9,
    MontgomeryRow = 10,
    Height = 11,
}

// The most rows, differences of a list, and words of input or of output.
pub const MAX_ROWS: usize = 32;

pub const MAX_DIFFERENCES: usize = 128;

pub const MAX_WORDS: usize = 64;

const MAX_LOG2_HEIGHT: usize = 22;

impl TryFrom<u8> for Code {
    type Error = Refusal;

    ghost try_from_gives = { Decodes };

    fn try_from(byte: u8) -> Result<Code, Refusal> {
        match byte {
            0 => Ok(Code::End),
            1 => Ok(Code::TraceRows),
            2 => Ok(Code::Row),
            3 => Ok(Code::OpStack),
            4 => Ok(Code::Ram),
            5 => Ok(Code::JumpStack),
            6 => Ok(Code::Sampled),
            7 => Ok(Code::Digest),
            8 => Ok(Code::Input),
            9 => Ok(Code::Output),
            10 => Ok(Code::MontgomeryRow),
            11 => Ok(Code::Height),
            _ => Err(Refusal::UnknownCommand),
        }
    }
}

impl From<Code> for u8 {
    ghost from_gives = { λ code byte. byte ≡ byte_of code };

    fn from(code: Code) -> u8 {
        code as u8
    }
}

impl Code {
    // How many commands there are.
    pub const COUNT: usize = 12;

    // The width of the operand, in bytes.
    pub fn width(self) -> usize
        ensures { result ≡ width (byte_of self) }
    {
        match self {
            Code::End => 0,
            Code::TraceRows => 4,
            Code::Height => 1,
            Code::Digest => 40,
            Code::Sampled => 1416,
            Code::Row | Code::MontgomeryRow => 312,
            Code::Input | Code::Output => 8,
            Code::OpStack | Code::Ram | Code::JumpStack => 8,
        }
    }

    // The place in the order of a batch.
    pub fn rank(self) -> usize
        ensures { result ≡ rank (byte_of self) }
    {
        match self {
            Code::TraceRows => 0,
            Code::Height => 1,
            Code::Digest => 2,
            Code::Input => 3,
            Code::Output => 4,
            Code::Sampled => 5,
            Code::Row | Code::MontgomeryRow => 6,
            Code::OpStack => 7,
            Code::Ram => 8,
            Code::JumpStack => 9,
            Code::End => 10,
        }
    }

    // How often it may stand in a batch whose 01 announced `rows`.
    fn limit(self, rows: usize) -> usize
        ensures { result ≡ limit rows (byte_of self) }
    {
        match self {
            Code::End | Code::TraceRows | Code::Sampled | Code::Digest | Code::Height => 1,
            Code::Row | Code::MontgomeryRow => rows,
            Code::OpStack | Code::Ram | Code::JumpStack => MAX_DIFFERENCES,
            Code::Input | Code::Output => MAX_WORDS,
        }
    }
}

// The command of a row in the form.
pub fn row_command(form: Form) -> Code
    ensures { byte_of result ≡ row_command form }
{
    match form {
        Form::Plain => Code::Row,
        Form::Montgomery => Code::MontgomeryRow,
    }
}

// Whether k cannot set the height of a table with so many rows in its trace.
pub fn wrong_height(rows: usize, log2_height: usize) -> bool
    ensures { result ≡ wrong_height rows log2_height }
{
    !(1..=MAX_LOG2_HEIGHT).contains(&log2_height) || 1 << log2_height < rows
}

// What counts for a command of those before it.
#[derive(Clone, Copy)]
pub struct Seen {
    // The rows that 01 announced.
    pub rows: usize,
    // The k that 0B set, or 0.
    // kept: no Option, since opening answers k so, 0 without 0B.
    pub log2_height: usize,
    // How often each command came.
    pub came: [usize; Code::COUNT],
    // How far behind in the order they belong.
    pub rank: usize,
    // The last one's key.
    pub key: u64,
}

// The command that stands at a place with its whole operand.
pub fn head_at(batch: &[u8], at: usize) -> Result<Code, Refusal>
    ensures { byte_in result ≡ head_of (drop at batch.now) }
{
    let byte = batch.get(at).ok_or(Refusal::BatchCutOff)?;
    let code = Code::try_from(*byte)?;
    if batch.len() - (at + 1) < code.width() {
        return Err(Refusal::BatchCutOff);
    }
    Ok(code)
}
