// Rows together with the challenges, known to be whole and below p.
ghost use Rattle.std.specs.Prelude.{◌≡◌, true, [], ◌∷◌};
ghost use Rattle.table_rows.specs.Rows.{whole_rows};
ghost use Rattle.column_weights.specs.Ready.{ReadyTable, ReadyRows};

use air::{MainIndex, RECORD_WORDS};

#[derive(Clone, Copy)]
pub struct Table<'a> {
    pub main: &'a [u64],
    pub challenges: &'a [u64; RECORD_WORDS],
    ghost whole: { whole_rows main.now ≡ true },
    ghost ready: { ReadyTable challenges.now main.now },
}

// A table of one row.
#[derive(Clone, Copy)]
pub struct Row<'a> {
    pub words: &'a [u64; MainIndex::COUNT],
    pub challenges: &'a [u64; RECORD_WORDS],
    ghost ready: { ReadyTable challenges.now words.now },
}

// A row behind the row before it.
#[derive(Clone, Copy)]
pub struct Window<'a> {
    pub prev: &'a [u64; MainIndex::COUNT],
    pub curr: &'a [u64; MainIndex::COUNT],
    pub challenges: &'a [u64; RECORD_WORDS],
    ghost ready: { ReadyRows challenges.now prev.now curr.now },
}

impl<'a> Table<'a> {
    pub fn new(main: &'a [u64], challenges: &'a [u64]) -> Table<'a>
        requires whole { whole_rows main.now ≡ true }
        requires ready { ReadyTable challenges.now main.now }
        ensures main { result.main.now ≡ main.now }
        ensures challenges { result.challenges.now ≡ challenges.now }
    {
        Table {
            main,
            challenges: challenges.as_array().unwrap(),
        }
    }
}

impl<'a> Row<'a> {
    pub fn new(words: &'a [u64; MainIndex::COUNT], challenges: &'a [u64]) -> Row<'a>
        requires { ReadyTable challenges.now words.now }
        ensures words { result.words.now ≡ words.now }
        ensures challenges { result.challenges.now ≡ challenges.now }
    {
        Row {
            words,
            challenges: challenges.as_array().unwrap(),
        }
    }
}

impl<'a> Window<'a> {
    // Its two rows by value, as the columns' entry functions take them.
    pub fn rows(self) -> [[u64; MainIndex::COUNT]; 2]
        ensures { result ≡ self.entry.prev.now ∷ self.entry.curr.now ∷ [] }
    {
        table_rows::unchecked::window(self.prev, self.curr)
    }
}
