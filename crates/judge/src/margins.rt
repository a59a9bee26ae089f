// How far a row is from breaking, and the first row that is unmet.
ghost use Rattle.std.specs.Prelude.{◌≡◌, ◌+◌, ◌<◌, ◌≤◌, nat_abs, pos, neg_ℤ, ◌-ℤ◌};
ghost use Rattle.instance.specs.Kinds.{number_of};
ghost use Rattle.instance.specs.Limits.{max_bound};
ghost use Rattle.instance.specs.Lists.{tabulate};
ghost use Rattle.instance.specs.Rows.{margin_of, margin};
ghost use Rattle.instance.specs.Tables.{entries_in, IsInstance};
ghost use Rattle.instance.specs.Meaning.{entry_at};
ghost use Rattle.judge.specs.Judging.{first_unmet};

use crate::sums::sum_of;
use instance::{Entry, Kind};

// Minus the distance of two numbers.
fn minus_distance(s: i64, bound: i64) -> i64
    requires s_bound { nat_abs s ≤ max_bound }
    requires bound_bound { nat_abs bound ≤ max_bound }
    ensures { result ≡ neg_ℤ (pos (nat_abs (s -ℤ bound))) }
{
    -(s - bound).abs()
}

// The margin of a row by its kind, its sum and its bound: 0 or more exactly when the row holds.
fn margin_of(kind: Kind, s: i64, bound: i64) -> i64
    requires s_bound { nat_abs s ≤ max_bound }
    requires bound_bound { nat_abs bound ≤ max_bound }
    ensures { result ≡ margin_of (number_of kind) s bound }
{
    match kind {
        Kind::AtLeast => s - bound,
        Kind::AtMost => bound - s,
        Kind::Objective | Kind::Equal | Kind::Other(_) => minus_distance(s, bound),
    }
}

// The margin of entry k.
pub fn margin_at(terms: &[i32], rows: &[i64], k: usize, a: u64) -> i64
    requires instance { IsInstance terms.now rows.now }
    requires k_bound { k < entries_in rows.now }
    ensures { result ≡ margin (entry_at terms.now rows.now k) a }
{
    let e = Entry::at(rows, k);
    let s = sum_of(terms, e.first, e.count, a);
    margin_of(e.kind, s, e.bound)
}

// The first unmet row of the `count` entries from `first` on, counted from 1; 0 if all hold.
pub fn first_unmet(terms: &[i32], rows: &[i64], first: usize, count: usize, a: u64) -> u64
    requires instance { IsInstance terms.now rows.now }
    requires count_bound { first + count ≤ entries_in rows.now }
    ensures { result ≡ first_unmet (tabulate (entry_at terms.now rows.now) first count) a }
{
    for k in 0..count {
        let unmet = margin_at(terms, rows, first + k, a) < 0;
        if unmet {
            return k as u64 + 1;
        }
    }
    0
}
