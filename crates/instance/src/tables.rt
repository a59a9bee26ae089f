// Whole tables: whether they are an instance, and its sizes (document 01, 'Instance tables').
ghost use Rattle.instance.specs.Answers.{CheckedAs};

use crate::counts::{no_bounds, objectives_of, rows_of, total_of};
use crate::entries::Entry;
use crate::terms::{Term, highest_of};
use crate::zeros::all_are;
use refusals::NotInstance;

// The sizes of an instance: objectives, rows and terms, and the highest variable named.
#[derive(Clone, Copy, Debug, PartialEq, Eq)]
pub struct Instance {
    pub objectives: usize,
    pub rows: usize,
    pub terms: usize,
    pub variables: u64,
}

impl Instance {
    // Objectives: at least 1, and at most so many.
    pub const MAX_OBJECTIVES: usize = 4;
    // Rows.
    pub const MAX_ROWS: usize = 256;
    // Terms over all objectives and rows.
    pub const MAX_TERMS: usize = 4_096;
    // Entries of the row table: objectives and rows.
    pub const MAX_ENTRIES: usize = Instance::MAX_OBJECTIVES + Instance::MAX_ROWS;
    // Numbers of the term table; those beyond are never touched.
    pub const TERM_ROOM: usize = Instance::MAX_TERMS * Term::NUMBERS;
    // Numbers of the row table; those beyond are never touched.
    pub const ROW_ROOM: usize = Instance::MAX_ENTRIES * Entry::NUMBERS;

    // Decides whether the lent tables are an instance, and answers its sizes.
    // Refuses 10 where they are not.
    // Leaves both tables as found; numbers beyond the room are not read.
    // Rules out: refusing an instance; taking tables with a fifth objective, a literal 0 or a number left over.
    pub fn of(terms: &[i32], rows: &[i64]) -> Result<Instance, NotInstance>
        ensures { CheckedAs terms.now rows.now result }
    {
        if terms.len() < Instance::TERM_ROOM {
            return Err(NotInstance);
        }
        if rows.len() < Instance::ROW_ROOM {
            return Err(NotInstance);
        }
        let objectives = objectives_of(rows);
        if objectives < 1 {
            return Err(NotInstance);
        }
        if Instance::MAX_OBJECTIVES < objectives {
            return Err(NotInstance);
        }
        let count = rows_of(rows, objectives);
        if Instance::MAX_ROWS < count {
            return Err(NotInstance);
        }
        let used = objectives + count;
        let unused = &rows[used * Entry::NUMBERS..Instance::ROW_ROOM];
        if !all_are(unused, 0) {
            return Err(NotInstance);
        }
        if !no_bounds(rows, objectives) {
            return Err(NotInstance);
        }
        let total = total_of(rows, used).ok_or(NotInstance)?;
        let variables = highest_of(terms, total).ok_or(NotInstance)?;
        let rest = &terms[total * Term::NUMBERS..Instance::TERM_ROOM];
        if !all_are(rest, 0) {
            return Err(NotInstance);
        }
        Ok(Instance {
            objectives,
            rows: count,
            terms: total,
            variables,
        })
    }
}
