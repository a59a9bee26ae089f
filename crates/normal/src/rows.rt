// One half row laid out: its terms behind those of the half rows before it, its need, and where the next one's terms begin.
ghost use Rattle.std.specs.Prelude.{◌≡◌, ◌∷◌, [], ◌+◌, ◌*◌, ◌≤◌, nat_abs, length};
ghost use Rattle.instance.specs.Limits.{max_terms, max_bound, term_room};
ghost use Rattle.instance.specs.Parts.{TermsOk};
ghost use Rattle.instance.specs.Structs.{entry_of};
ghost use Rattle.normal.specs.Rows.{HalfPut};
ghost use Rattle.normal.specs.Grown.{half_row, Grown, Rooms};
ghost use Rattle.normal.specs.Halves.{turned, need_by};

use crate::half_of;
use charging::Term;
use instance::{Entry, Instance};

// How many half rows are laid out, and how many terms of them.
#[derive(Clone, Copy, Debug, PartialEq, Eq)]
pub struct Filled {
    pub halves: usize,
    pub used: usize,
}

// The room that the half rows of any instance take.
impl Filled {
    // Half rows: a row has two at most.
    pub const HALVES: usize = Instance::MAX_ROWS * 2;
    // Where each half row's terms begin, and where the last one's end.
    pub const STARTS: usize = Filled::HALVES + 1;
    // Terms of half rows.
    pub const TERMS: usize = Instance::MAX_TERMS * 2;
}

// Lays the `count` terms from `first` on out from place `at` on, each as a term of a half row; answers what was added for all.
pub fn put_half(
    terms: &[i32],
    first: usize,
    count: usize,
    turn: bool,
    at: usize,
    laid: &mut [Term],
) -> u64
    requires term_room_in_bounds { term_room ≤ length terms.now }
    requires count_bound { first + count ≤ max_terms }
    requires terms_ok { TermsOk terms.now (first + count) }
    requires count_in_bounds { at + count ≤ length laid.old }
    ensures { HalfPut terms.now first count turn at laid.old laid.new result }
{
    let mut lost: u64 = 0;
    for k in 0..count {
        let h = half_of(turn, instance::Term::at(terms, first + k));
        laid[at + k] = h.term;
        lost += h.lost;
    }
    lost
}

// A bound, its sign turned where `turn` says so.
fn turned_bound(turn: bool, bound: i64) -> i64
    requires { nat_abs bound ≤ max_bound }
    ensures { result ≡ turned turn bound }
{
    if turn {
        return -bound;
    }
    bound
}

// What a half row needs: its bound with what was added, 0 where that is below 0.
pub fn need_of(turn: bool, bound: i64, lost: u64) -> u64
    requires bound_bound { nat_abs bound ≤ max_bound }
    requires lost_le_max_bound { lost ≤ max_bound }
    ensures { result ≡ need_by turn bound lost }
{
    let need = turned_bound(turn, bound) + lost as i64;
    if need < 0 {
        return 0;
    }
    need as u64
}

// Lays one half row of a row out, its signs turned where `turn` says so.
pub fn add_half(
    terms: &[i32],
    e: Entry,
    turn: bool,
    at: Filled,
    starts: &mut [usize],
    laid: &mut [Term],
    needs: &mut [u64],
) -> Filled
    requires term_room_in_bounds { term_room ≤ length terms.now }
    requires count_bound { e.first + e.count ≤ max_terms }
    requires terms_ok { TermsOk terms.now (e.first + e.count) }
    requires bound_bound { nat_abs e.bound ≤ max_bound }
    requires rooms { Rooms starts.old laid.old needs.old (at.halves + 1) (at.used + e.count) }
    ensures { Grown (half_row turn (entry_of terms.now e) ∷ []) starts.old starts.new laid.old laid.new needs.old needs.new at.halves at.used result.halves result.used }
{
    let lost = put_half(terms, e.first, e.count, turn, at.used, laid);
    let halves = at.halves + 1;
    let used = at.used + e.count;
    needs[at.halves] = need_of(turn, e.bound, lost);
    starts[halves] = used;
    Filled { halves, used }
}
