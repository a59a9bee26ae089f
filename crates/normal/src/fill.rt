// The rows of an instance as half rows, one after the other.
ghost use Rattle.std.specs.Prelude.{◌+◌, ◌≤◌, nat_abs, length};
ghost use Rattle.instance.specs.Limits.{max_terms, max_bound, term_room};
ghost use Rattle.instance.specs.Parts.{TermsOk};
ghost use Rattle.instance.specs.Lists.{tabulate};
ghost use Rattle.instance.specs.Tables.{entries_in, IsInstance};
ghost use Rattle.instance.specs.Meaning.{entry_at};
ghost use Rattle.instance.specs.Structs.{entry_of};
ghost use Rattle.normal.specs.Rows.{Laid};
ghost use Rattle.normal.specs.Grown.{half_rows_of, half_rows_all, Grown, Rooms};

pub use crate::rows::Filled;
use crate::rows::add_half;
use charging::Term;
use instance::{Entry, Kind};

// Lays the half rows of one row out: a row `>=` is one, `<=` is one with all signs turned, any other is both.
pub fn add_row(
    terms: &[i32],
    e: Entry,
    at: Filled,
    starts: &mut [usize],
    laid: &mut [Term],
    needs: &mut [u64],
) -> Filled
    requires term_room_in_bounds { term_room ≤ length terms.now }
    requires count_bound { e.first + e.count ≤ max_terms }
    requires terms_ok { TermsOk terms.now (e.first + e.count) }
    requires bound_bound { nat_abs e.bound ≤ max_bound }
    requires rooms { Rooms starts.old laid.old needs.old (at.halves + 2) (at.used + (e.count + e.count)) }
    ensures { Grown (half_rows_of (entry_of terms.now e)) starts.old starts.new laid.old laid.new needs.old needs.new at.halves at.used result.halves result.used }
{
    match e.kind {
        Kind::AtLeast => add_half(terms, e, false, at, starts, laid, needs),
        Kind::AtMost => add_half(terms, e, true, at, starts, laid, needs),
        Kind::Objective | Kind::Equal | Kind::Other(_) => {
            let plain = add_half(terms, e, false, at, starts, laid, needs);
            add_half(terms, e, true, plain, starts, laid, needs)
        }
    }
}

// Lays the half rows of the `count` entries from `first` on out, from the beginning of each run.
pub fn lay_rows(
    terms: &[i32],
    rows: &[i64],
    first: usize,
    count: usize,
    starts: &mut [usize],
    laid: &mut [Term],
    needs: &mut [u64],
) -> Filled
    requires instance { IsInstance terms.now rows.now }
    requires count_bound { first + count ≤ entries_in rows.now }
    requires rooms { Rooms starts.old laid.old needs.old (count + count) (max_terms + max_terms) }
    ensures { Laid (half_rows_all (tabulate (entry_at terms.now rows.now) first count)) starts.new laid.new needs.new result.halves result.used }
{
    starts[0] = 0;
    let mut at = Filled { halves: 0, used: 0 };
    for k in 0..count {
        at = add_row(terms, Entry::at(rows, first + k), at, starts, laid, needs);
    }
    at
}
