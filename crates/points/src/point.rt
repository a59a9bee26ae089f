// A point: four values, unused ones 0, and an assignment (document 01, 'The front').
ghost use Rattle.std.specs.Prelude.{◌≡◌, ◌+◌, ◌*◌, ◌<◌, ◌≤◌, length, set};
ghost use Rattle.points.specs.Lists.{values_at, model_at, values_put};

use instance::{Entry, Instance, Term};

// A point by value: a value for each objective that there can be, and an assignment that has them.
#[derive(Clone, Copy, Debug, PartialEq, Eq)]
pub struct Point {
    pub values: [i64; Point::VALUES],
    pub model: u64,
}

impl Point {
    // Values of a point.
    pub const VALUES: usize = Instance::MAX_OBJECTIVES;
    // Points of a list.
    pub const MAX_POINTS: u64 = 1_024;
    // Objectives: at least 1, and at most so many.
    pub const MAX_OBJECTIVES: u64 = Instance::MAX_OBJECTIVES as u64;
    // Bits of an assignment.
    pub const MAX_BITS: u64 = Term::MAX_VARIABLE;
    // Values are within this of zero.
    pub const MAX_VALUE: u64 = Entry::MAX_BOUND;

    // Point k of the lent runs.
    pub fn at(values: &[i64], models: &[u64], k: usize) -> Point
        requires values_room { k * 4 + 4 ≤ length values.now }
        requires models_room { k < length models.now }
        ensures vector { result.values ≡ values_at values.now k }
        ensures model { result.model ≡ model_at models.now k }
    {
        let i = k * Point::VALUES;
        Point {
            values: [values[i], values[i + 1], values[i + 2], values[i + 3]],
            model: models[k],
        }
    }

    // Stores the point as point k of the lent runs.
    pub fn store(self, values: &mut [i64], models: &mut [u64], k: usize)
        requires values_room { k * 4 + 4 ≤ length values.old }
        requires models_room { k < length models.old }
        ensures values { values.new ≡ values_put values.old k self.values }
        ensures models { models.new ≡ set models.old k self.model }
    {
        let i = k * Point::VALUES;
        values[i..i + Point::VALUES].copy_from_slice(&self.values);
        models[k] = self.model;
    }
}
