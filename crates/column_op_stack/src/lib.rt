// The factor that a window brings to the op stack's product column.
#![tactic(auto)]

ghost use Rattle.std.specs.Prelude.{◌≡◌};
ghost use Rattle.column_entries.specs.Entries.{shorter, height_change};

use air::MainIndex;
use isa::Influence;

pub mod unchecked;

fn op_stack_delta(influence: Influence) -> u64
    ensures { result ≡ height_change influence }
{
    match influence {
        Influence::Grows(n) => n,
        Influence::Shrinks(n) => n,
        Influence::Keeps => 0,
    }
}

// The previous or the current row itself.
fn row_with_shorter_stack<'a>(
    influence: Influence,
    prev: &'a [u64; MainIndex::COUNT],
    curr: &'a [u64; MainIndex::COUNT],
) -> &'a [u64; MainIndex::COUNT]
    ensures value { result ≡ shorter influence prev.entry curr.entry }
    ensures result_value { result.now ≡ shorter influence prev.now curr.now }
{
    match influence {
        Influence::Grows(_) => prev,
        Influence::Shrinks(_) => curr,
        Influence::Keeps => curr,
    }
}
