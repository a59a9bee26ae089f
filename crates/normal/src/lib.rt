// An instance in natural numbers: each row as one or two half rows, sums of weights that must reach a need.
// Signed numbers end here: what searches for points counts in natural numbers alone. Read specs/Halves.antt.
#![tactic(auto)]

pub mod rows; // rows.rt: one half row laid out
pub mod fill; // fill.rt: the rows of an instance, one after the other
pub mod costs; // costs.rt: objectives, by what each variable costs
pub mod narrow; // narrow.rt: half rows with the bounds of an instance
pub mod heaps; // heaps.rt: what half rows withhold, added up
pub mod ceilings; // ceilings.rt: half rows as objectives with a cap

ghost use Rattle.std.specs.Prelude.{◌≡◌, ◌≤◌, nat_abs};
ghost use Rattle.instance.specs.Structs.{term_of};
ghost use Rattle.instance.specs.Terms.{TermOk};
ghost use Rattle.normal.specs.Halves.{is_negative, off_side, half_of};

use charging::Term;
use instance::signed::magnitude32;

// A term of a row as one of a half row; `lost` was added to the need for it.
#[derive(Clone, Copy, Debug, PartialEq, Eq)]
pub struct Half {
    pub term: Term,
    pub lost: u64,
}

// Whether a coefficient is below 0, its sign turned where `turn` says so.
fn is_negative(turn: bool, coef: i32) -> bool
    ensures { result ≡ is_negative turn coef }
{
    if turn {
        return 0 < coef;
    }
    coef < 0
}

// The side at which a literal's term gives nothing.
fn off_side(lit: i32, negative: bool) -> u8
    ensures { result ≡ off_side lit negative }
{
    if lit < 0 {
        return if negative { 0 } else { 1 };
    }
    if negative { 1 } else { 0 }
}

// A term of a row as a term of a half row.
pub fn half_of(turn: bool, t: instance::Term) -> Half
    requires { TermOk (term_of t) }
    ensures { result ≡ half_of turn (term_of t) }
{
    let negative = is_negative(turn, t.coef);
    let weight = magnitude32(t.coef);
    let term = Term {
        weight,
        variable: (magnitude32(t.lit) - 1) as u8,
        off: off_side(t.lit, negative),
    };
    Half {
        term,
        lost: if negative { weight } else { 0 },
    }
}
