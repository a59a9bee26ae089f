// All limits together: they are those of specs/Limits.antt.
ghost use Rattle.std.specs.Prelude.{◌≡◌};
ghost use Rattle.instance.specs.Structs.{limits_named};

use crate::entries::Entry;
use crate::tables::Instance;
use crate::terms::Term;

// Each limit of the code, under the name of what it limits.
#[derive(Drop)]
pub struct Limits {
    pub objectives: usize,
    pub rows: usize,
    pub terms: usize,
    pub entries: usize,
    pub variable: u64,
    pub coef: u64,
    pub bound: u64,
    pub termroom: usize,
    pub rowroom: usize,
}

impl Limits {
    // The limits that the code names.
    pub fn all() -> Limits
        ensures { result ≡ limits_named }
    {
        Limits {
            objectives: Instance::MAX_OBJECTIVES,
            rows: Instance::MAX_ROWS,
            terms: Instance::MAX_TERMS,
            entries: Instance::MAX_ENTRIES,
            variable: Term::MAX_VARIABLE,
            coef: Term::MAX_COEF,
            bound: Entry::MAX_BOUND,
            termroom: Instance::TERM_ROOM,
            rowroom: Instance::ROW_ROOM,
        }
    }
}
