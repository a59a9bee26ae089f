// Entries: four numbers for an objective or a row (document 01, 'Instance tables').
ghost use Rattle.std.specs.Prelude.{◌≡◌, ◌+◌, ◌*◌, ◌<◌, length, [], ◌∷◌};
ghost use Rattle.instance.specs.Tables.{kind_at, first_at, count_at, bound_at, is_objective, is_row};
ghost use Rattle.instance.specs.Structs.{EntryFine, EntryIs};

use crate::kinds::Kind;
use crate::signed::{equals, natural};
use crate::tables::Instance;
use crate::terms::Term;

// An entry: its kind, its first term's index, its count of terms, its bound (0 for an objective).
#[derive(Clone, Copy, Debug)]
pub struct Entry {
    pub kind: Kind,
    pub first: usize,
    pub count: usize,
    pub bound: i64,
}

impl Entry {
    // Numbers of the table for one entry.
    pub const NUMBERS: usize = 4;
    // Bounds are within this of zero, and so is every sum.
    pub const MAX_BOUND: u64 = Instance::MAX_TERMS as u64 * Term::MAX_COEF;

    // Entry k of the table, for an entry that is known to be fine.
    pub fn at(rows: &[i64], k: usize) -> Entry
        requires { EntryFine rows.now k }
        ensures { EntryIs rows.now k result }
    {
        let [kind, first, count, bound] = numbers_at(rows, k);
        Entry {
            kind: Kind::from(natural(kind)),
            first: natural(first),
            count: natural(count),
            bound,
        }
    }
}

// The four numbers of entry k.
pub fn numbers_at(rows: &[i64], k: usize) -> [i64; Entry::NUMBERS]
    requires { k * 4 + 3 < length rows.now }
    ensures { result ≡ kind_at rows.now k ∷ first_at rows.now k ∷ count_at rows.now k ∷ bound_at rows.now k ∷ [] }
{
    let at = k * Entry::NUMBERS;
    [rows[at], rows[at + 1], rows[at + 2], rows[at + 3]]
}

// Whether entry k is an objective. Here and below the table's own numbers are tested, which may be no kind's.
pub fn is_objective(rows: &[i64], k: usize) -> bool
    requires { k * 4 + 3 < length rows.now }
    ensures { result ≡ is_objective rows.now k }
{
    equals(1, rows[k * Entry::NUMBERS])
}

// Whether entry k is a row.
pub fn is_row(rows: &[i64], k: usize) -> bool
    requires { k * 4 + 3 < length rows.now }
    ensures { result ≡ is_row rows.now k }
{
    matches!(rows[k * Entry::NUMBERS], 2..=4)
}
