// What extension answers, strict or not, before it writes a word.
#![tactic(auto)]

ghost use Rattle.std.specs.Prelude.{◌≡◌, true, [], ◌∷◌};
ghost use Rattle.refusal.specs.Tests.{first};
ghost use Rattle.table_rows.specs.Rows.{whole_rows};
ghost use Rattle.extend_answer.specs.Answer.{right_lengths, words_test};
ghost use Rattle.extend_answer.specs.Strict.{answer_in};
ghost use Rattle.extend_answer.specs.RowsAnswer.{rows_answer};

use air::{AUX_WORDS, MainIndex, RECORD_WORDS};
use column_compression::unchecked::instruction_from_row;
use column_weights::ready::Table;
use extend_denominators::unchecked::has_zero_denominator;
use refusal::{MAX_LEN, Refusal};
use table_rows::unchecked::{row_at, started_chunks};

// What a started chunk has of `work`: the product of its denominators, and its inverse.
pub const WORK_WORDS: usize = 6;

pub fn right_lengths(main: &[u64], challenges: &[u64], aux: &[u64]) -> bool
    ensures { result ≡ right_lengths main.now challenges.now aux.now }
{
    main.len() % MainIndex::COUNT == 0
        && aux.len() == main.len() / MainIndex::COUNT * AUX_WORDS
        && challenges.len() == RECORD_WORDS
}

pub fn words_answer(words: &[u64]) -> Result<(), Refusal>
    ensures { result ≡ first (words_test (words.now ∷ []) ∷ []) }
{
    if !field_base::all_below(words) {
        return Err(Refusal::WordNotBelowP);
    }
    Ok(())
}

// A row's words are decoded where they are tested, since a pass of its own would wait for each row to come from memory. Past the
// first row that does not decode, words alone are left to test: 2 stands before 11.
fn strict_rows_answer(main: &[u64]) -> Result<(), Refusal>
    requires { whole_rows main.now ≡ true }
    ensures { result ≡ rows_answer true main.now }
{
    let rows = main.len() / MainIndex::COUNT;
    for c in 0..rows {
        let row = row_at(main, c);
        if instruction_from_row(row).is_err() {
            words_answer(&main[c * MainIndex::COUNT..])?;
            return Err(Refusal::UndecodableRow);
        }
        words_answer(row)?;
    }
    Ok(())
}

fn rows_answer(strict: bool, main: &[u64]) -> Result<(), Refusal>
    requires { whole_rows main.now ≡ true }
    ensures { result ≡ rows_answer strict main.now }
{
    if strict {
        strict_rows_answer(main)
    } else {
        words_answer(main)
    }
}

pub fn extend_answer(
    strict: bool,
    main: &[u64],
    challenges: &[u64],
    chunk: usize,
    aux: &[u64],
    work: &[u64],
) -> Result<(), Refusal>
    ensures { result ≡ answer_in strict main.now challenges.now chunk aux.now work.now }
{
    if !right_lengths(main, challenges, aux) {
        return Err(Refusal::SliceLength);
    }
    let rows = main.len() / MainIndex::COUNT;
    if rows == 0 || MAX_LEN < rows {
        return Err(Refusal::RowCount);
    }
    if chunk == 0 {
        return Err(Refusal::ChunkLengthZero);
    }
    if work.len() != started_chunks(rows, chunk) * WORK_WORDS {
        return Err(Refusal::SliceLength);
    }
    words_answer(challenges)?;
    rows_answer(strict, main)?;
    if has_zero_denominator(Table::new(main, challenges)) {
        return Err(Refusal::ZeroDenominator);
    }
    Ok(())
}
