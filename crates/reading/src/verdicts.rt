// A verdict on each statement: the causes of its refusal in their order.
ghost use Rattle.std.specs.Prelude.{◌≡◌, ◌+◌, ◌^◌, ◌<◌, eqb};
ghost use Rattle.instance.specs.Kinds.{number_of};
ghost use Rattle.reading.specs.Outcomes.{late_by, full_by, verdict_by, VerdictIs, OneMore};

use crate::errors::ReadError;
use crate::statements::Statement;
use instance::{Instance, Kind};

// What was taken so far: objectives, rows, terms, and the highest variable.
#[derive(Clone, Copy, Debug, PartialEq, Eq)]
pub struct Taken {
    pub objectives: usize,
    pub rows: usize,
    pub terms: usize,
    pub top: u64,
}

impl Taken {
    // What was taken, with statement s more.
    pub fn with(self, s: Statement<'_>) -> Taken
        requires few { (self.objectives < 2 ^ 32) × (self.rows < 2 ^ 32) }
        requires terms { self.terms + s.count < 2 ^ 63 }
        ensures { OneMore self s.entry result }
    {
        let one = usize::from(is_objective(s.kind));
        Taken {
            objectives: self.objectives + one,
            rows: self.rows + (1 - one),
            terms: self.terms + s.count,
            top: self.top.max(s.top),
        }
    }
}

// Whether a kind is an objective's.
pub fn is_objective(kind: Kind) -> bool
    ensures { result ≡ eqb (number_of kind) 1 }
{
    matches!(kind, Kind::Objective)
}

// Whether an entry is an objective after a row.
fn is_late(kind: Kind, rows: usize) -> bool
    ensures { result ≡ late_by (number_of kind) rows }
{
    is_objective(kind) && 0 < rows
}

// Whether an entry is a fifth objective or a 257th row.
fn is_full(kind: Kind, objectives: usize, rows: usize) -> bool
    ensures { result ≡ full_by (number_of kind) objectives rows }
{
    if is_objective(kind) {
        Instance::MAX_OBJECTIVES <= objectives
    } else {
        Instance::MAX_ROWS <= rows
    }
}

// Whether statement `number` is taken after what was taken so far, or the first cause of its refusal.
pub fn check(s: Statement<'_>, taken: Taken, number: u64) -> Result<(), ReadError>
    requires { taken.terms + s.count < 2 ^ 63 }
    ensures { VerdictIs (verdict_by (late_by (number_of s.entry.kind) taken.rows) (full_by (number_of s.entry.kind) taken.objectives taken.rows) s.entry.wide s.entry.unnamed (taken.terms + s.entry.count)) number result }
{
    if is_late(s.kind, taken.rows) {
        return Err(ReadError::LateObjective(number));
    }
    if is_full(s.kind, taken.objectives, taken.rows) {
        return Err(ReadError::TooMany(number));
    }
    if s.wide {
        return Err(ReadError::OutOfRange(number));
    }
    if s.unnamed {
        return Err(ReadError::NoVariable(number));
    }
    if Instance::MAX_TERMS < taken.terms + s.count {
        return Err(ReadError::TooManyTerms(number));
    }
    Ok(())
}
