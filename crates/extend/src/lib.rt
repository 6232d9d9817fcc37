// Extension: the auxiliary table of the processor, eleven columns of three words.
#![tactic(auto)]

ghost use Rattle.std.specs.Prelude.{◌≡◌, length, replicate};
ghost use Rattle.refusal.specs.Number.{on_done};
ghost use Rattle.extend_table.specs.Extended.{extended};
ghost use Rattle.extend_answer.specs.Answer.{extend_answer};
ghost use Rattle.extend_answer.specs.Strict.{strict_answer, answer_in};
ghost use Rattle.extend.specs.Extend.{extend_aux, extend_work, strict_aux, strict_work};

use column_weights::ready::Table;
use extend_answer::extend_answer;
use extend_chunks::unchecked::extend_by_chunks;
use refusal::Refusal;

// Writes every cell and leaves zeros in `work`, or writes nothing where it refuses. The cells don't depend on the chunk length.
pub fn extend(
    main: &[u64],
    challenges: &[u64],
    chunk: usize,
    aux: &mut [u64],
    work: &mut [u64],
) -> Result<(), Refusal>
    ensures answer { result ≡ extend_answer main.now challenges.now chunk aux.old work.old }
    ensures extended { aux.new ≡ extend_aux main.now challenges.now chunk aux.old work.old }
    ensures cleared { work.new ≡ extend_work main.now challenges.now chunk aux.old work.old }
{
    extended_or_refused(false, main, challenges, chunk, aux, work)
}

// The same, but that it refuses a table with a row that does not decode.
pub fn extend_strict(
    main: &[u64],
    challenges: &[u64],
    chunk: usize,
    aux: &mut [u64],
    work: &mut [u64],
) -> Result<(), Refusal>
    ensures answer { result ≡ strict_answer main.now challenges.now chunk aux.old work.old }
    ensures extended { aux.new ≡ strict_aux main.now challenges.now chunk aux.old work.old }
    ensures cleared { work.new ≡ strict_work main.now challenges.now chunk aux.old work.old }
{
    extended_or_refused(true, main, challenges, chunk, aux, work)
}

fn extended_or_refused(
    strict: bool,
    main: &[u64],
    challenges: &[u64],
    chunk: usize,
    aux: &mut [u64],
    work: &mut [u64],
) -> Result<(), Refusal>
    ensures answer { result ≡ answer_in strict main.now challenges.now chunk aux.old work.old }
    ensures extended { aux.new ≡ on_done result (extended main.now challenges.now) aux.old }
    ensures cleared { work.new ≡ on_done result (replicate (length work.old) 0) work.old }
{
    extend_answer(strict, main, challenges, chunk, aux, work)?;
    extend_by_chunks(Table::new(main, challenges), chunk, aux, work);
    work.fill(0);
    Ok(())
}
