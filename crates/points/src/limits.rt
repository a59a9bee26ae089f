// All limits together: they are those of specs/Limits.antt.
ghost use Rattle.std.specs.Prelude.{◌≡◌};
ghost use Rattle.points.specs.Structs.{limits_named};

use crate::point::Point;

// Each limit of the code, under the name of what it limits.
#[derive(Clone, Copy, Debug, PartialEq, Eq)]
pub struct Limits {
    pub objectives: u64,
    pub values: usize,
    pub points: u64,
    pub bits: u64,
    pub value: u64,
}

impl Limits {
    // The limits that the code names.
    pub fn all() -> Limits
        ensures { result ≡ limits_named }
    {
        Limits {
            objectives: Point::MAX_OBJECTIVES,
            values: Point::VALUES,
            points: Point::MAX_POINTS,
            bits: Point::MAX_BITS,
            value: Point::MAX_VALUE,
        }
    }
}
