// The check of columns that were made elsewhere: whether they are just those of extension.
#![tactic(auto)]

ghost use Rattle.std.specs.Prelude.{◌≡◌};
ghost use Rattle.check_columns.specs.Check.{check_answer};

use air::MainIndex;
use check_relations::Place;
use check_relations::unchecked::first_failing;
use column_weights::ready::Table;
use extend_answer::{right_lengths, words_answer};
use extend_denominators::unchecked::has_zero_denominator;
use refusal::{MAX_LEN, Refusal};

// Inverts nothing. A zero denominator would empty its row's relation, so it is looked for before any verdict.
pub fn check(main: &[u64], challenges: &[u64], offered: &[u64]) -> Result<Option<Place>, Refusal>
    ensures { result ≡ check_answer main.now challenges.now offered.now }
{
    if !right_lengths(main, challenges, offered) {
        return Err(Refusal::SliceLength);
    }
    let rows = main.len() / MainIndex::COUNT;
    if rows == 0 || MAX_LEN < rows {
        return Err(Refusal::RowCount);
    }
    words_answer(main)?;
    words_answer(challenges)?;
    words_answer(offered)?;
    let table = Table::new(main, challenges);
    if has_zero_denominator(table) {
        return Err(Refusal::ZeroDenominator);
    }
    Ok(first_failing(table, offered))
}
