// The local relations of columns that were made elsewhere.
#![tactic(auto)]

ghost use Rattle.std.specs.Prelude.{◌≡◌, not, option_map, position};
ghost use Rattle.check_relations.specs.First.{place};

use air::AuxIndex;

pub mod unchecked;

// Where a relation fails.
#[derive(Clone, Copy)]
pub struct Place {
    pub row: usize,
    pub column: AuxIndex,
}

fn first_false(held: &[bool]) -> Option<usize>
    ensures { result ≡ position not held.now }
{
    held.iter().position(|held| !*held)
}

// Row r's place where it fails first, by whether each column's relation holds.
fn first_to_fail(held: [bool; AuxIndex::COUNT], r: usize) -> Option<Place>
    ensures { result ≡ option_map (λ k. place r (record { 0 = k })) (position not held) }
{
    let column = first_false(&held)?;
    Some(Place {
        row: r,
        column: AuxIndex(column),
    })
}
