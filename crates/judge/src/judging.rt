// Judging one assignment: the answer (document 01, 'The front' and 'Refusal numbers').
ghost use Rattle.std.specs.Prelude.{◌≡◌, pos, get_or};
ghost use Rattle.instance.specs.Tables.{objectives_in, IsInstance};
ghost use Rattle.instance.specs.Meaning.{meaning, vector};
ghost use Rattle.judge.specs.Judging.{padded};
ghost use Rattle.judge.specs.Answers.{JudgedAs};

use crate::errors::JudgeError;
use crate::margins::first_unmet;
use crate::sums::sum_of;
use instance::bits::within;
use instance::{Entry, Instance};

// The vector, unused values 0, and the first unmet row, counted from 1, or 0 if all rows hold, as document 01 answers it.
#[derive(Clone, Copy, Debug, PartialEq, Eq)]
pub struct Judgement {
    pub values: [i64; Instance::MAX_OBJECTIVES],
    pub row: u64,
}

// The value of objective k, counted from 0; 0 where there is none. For a caller that has judged the tables to be an instance already.
pub fn value_of(terms: &[i32], rows: &[i64], objectives: usize, k: usize, a: u64) -> i64
    requires instance { IsInstance terms.now rows.now }
    requires objectives_value { objectives ≡ objectives_in rows.now }
    ensures { result ≡ get_or (vector (meaning terms.now rows.now) a) k (pos 0) }
{
    if objectives <= k {
        return 0;
    }
    let e = Entry::at(rows, k);
    sum_of(terms, e.first, e.count, a)
}

// The four values of a vector, unused ones 0. For the same callers.
pub fn values_of(
    terms: &[i32],
    rows: &[i64],
    objectives: usize,
    a: u64,
) -> [i64; Instance::MAX_OBJECTIVES]
    requires instance { IsInstance terms.now rows.now }
    requires objectives_value { objectives ≡ objectives_in rows.now }
    ensures { result ≡ padded (vector (meaning terms.now rows.now) a) }
{
    [
        value_of(terms, rows, objectives, 0, a),
        value_of(terms, rows, objectives, 1, a),
        value_of(terms, rows, objectives, 2, a),
        value_of(terms, rows, objectives, 3, a),
    ]
}

// Judges one assignment of the instance that the tables are: its vector and the first row that it does not meet.
// Refuses 10 where the tables are not an instance, then 12 where the assignment has a bit from n up.
// Leaves both tables as found.
// Rules out: the vector of another assignment; naming a row after the first unmet one; taking bit n.
pub fn judge_assignment(
    terms: &[i32],
    rows: &[i64],
    assignment: u64,
) -> Result<Judgement, JudgeError>
    ensures { JudgedAs terms.now rows.now assignment result }
{
    let sizes = Instance::of(terms, rows)?;
    if !within(assignment, sizes.variables) {
        return Err(JudgeError::BitsBeyond);
    }
    let values = values_of(terms, rows, sizes.objectives, assignment);
    let row = first_unmet(terms, rows, sizes.objectives, sizes.rows, assignment);
    Ok(Judgement { values, row })
}
