// What an operation answers when it turns its input away. Nothing that was lent has changed then.
#![tactic(auto)]

ghost use Rattle.std.specs.Prelude.{◌≡◌};
ghost use Rattle.refusal.specs.Number.{number_of, answer_number_of};

// A table with more rows is long, and so is a list with more words.
pub const MAX_LEN: usize = 4194304;

// Each with its number.
#[derive(Clone, Copy)]
pub enum Refusal {
    SliceLength = 1,
    WordNotBelowP = 2,
    RowCount = 3,
    DifferenceTooLarge = 4,
    ChunkLengthZero = 5,
    ZeroDenominator = 6,
    UnknownCommand = 7,
    BatchCutOff = 8,
    CommandOutOfPlace = 9,
    CommandOutOfOrder = 10,
    UndecodableRow = 11,
    HeightOutOfRange = 12,
}

impl From<Refusal> for u32 {
    ghost from_gives = { λ refusal number. number ≡ number_of refusal };

    fn from(refusal: Refusal) -> u32 {
        refusal as u32
    }
}

// 0, or the refusal's number.
pub fn answer_number(answer: Result<(), Refusal>) -> u32
    ensures { result ≡ answer_number_of answer }
{
    match answer {
        Ok(()) => 0,
        Err(refusal) => u32::from(refusal),
    }
}
