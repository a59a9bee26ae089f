// How many objectives, rows and terms the row table has (document 01, 'Instance tables').
ghost use Rattle.std.specs.Prelude.{◌≡◌, ◌+◌, ◌-◌, ◌*◌, ◌≤◌, ◌<◌, length};
ghost use Rattle.instance.specs.Limits.{max_terms, max_entries, row_room};
ghost use Rattle.instance.specs.Lists.{run};
ghost use Rattle.instance.specs.Tables.{objectives_in, is_row};
ghost use Rattle.instance.specs.Tests.{Decides};
ghost use Rattle.instance.specs.Parts.{EntryPlaced, TotalOf, NoBounds};

use crate::entries::{Entry, is_objective, is_row, numbers_at};
use crate::signed::{equals, natural, up_to};
use crate::tables::Instance;

// How many objectives come first.
pub fn objectives_of(rows: &[i64]) -> usize
    requires { row_room ≤ length rows.now }
    ensures { result ≡ objectives_in rows.now }
{
    for k in 0..Instance::MAX_ENTRIES {
        if !is_objective(rows, k) {
            return k;
        }
    }
    Instance::MAX_ENTRIES
}

// How many rows follow from entry `first` on.
// Beside objectives_of: the two definitions count another kind each, and one function over the test would state the test's law at both calls.
pub fn rows_of(rows: &[i64], first: usize) -> usize
    requires row_room_in_bounds { row_room ≤ length rows.now }
    requires first_le_max_entries { first ≤ max_entries }
    ensures { result ≡ run (is_row rows.now) first (max_entries - first) }
{
    let most = Instance::MAX_ENTRIES - first;
    for n in 0..most {
        if !is_row(rows, first + n) {
            return n;
        }
    }
    most
}

// Whether entry k is as it should be where `total` terms come before it, and leaves the total within its limit.
fn is_placed(rows: &[i64], k: usize, total: usize) -> bool
    requires k_in_bounds { k * 4 + 3 < length rows.now }
    requires total_le_max_terms { total ≤ max_terms }
    ensures { Decides result (EntryPlaced rows.now k total) }
{
    let [_, first, count, bound] = numbers_at(rows, k);
    equals(total, first)
        && up_to(Instance::MAX_TERMS - total, count)
        && bound.unsigned_abs() <= Entry::MAX_BOUND
}

// The total of the first n entries' counts, where each of them is as it should be.
pub fn total_of(rows: &[i64], n: usize) -> Option<usize>
    requires row_room_in_bounds { row_room ≤ length rows.now }
    requires n_le_max_entries { n ≤ max_entries }
    ensures { TotalOf rows.now n result }
{
    let mut total: usize = 0;
    for k in 0..n {
        if !is_placed(rows, k, total) {
            return None;
        }
        let [_, _, count, _] = numbers_at(rows, k);
        total += natural(count);
    }
    Some(total)
}

// Whether the bounds of the first n entries are 0.
pub fn no_bounds(rows: &[i64], n: usize) -> bool
    requires row_room_in_bounds { row_room ≤ length rows.now }
    requires n_le_max_entries { n ≤ max_entries }
    ensures { Decides result (NoBounds rows.now n) }
{
    for k in 0..n {
        let [_, _, _, bound] = numbers_at(rows, k);
        if bound != 0 {
            return false;
        }
    }
    true
}
