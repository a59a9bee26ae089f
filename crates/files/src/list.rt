// The list that is written: points in lent runs that have room for them.
ghost use Rattle.std.specs.Prelude.{◌≡◌, ◌*◌, ◌<◌, ◌≤◌, length};
ghost use Rattle.points.specs.Limits.{max_points};

use points::Point;

// The first `points` points of two lent runs.
#[derive(Clone, Copy)]
pub struct List<'a> {
    pub points: usize,
    pub values: &'a [i64],
    pub models: &'a [u64],
    ghost few_points: { points ≤ max_points },
    ghost values_room: { points * 4 ≤ length values.now },
    ghost models_room: { points ≤ length models.now },
}

impl List<'_> {
    ghost use Rattle.points.specs.Lists.{values_at, model_at};

    // Point k.
    pub fn point(&self, k: usize) -> Point
        requires { k < self.now.points }
        ensures vector { result.values ≡ values_at self.now.values.now k }
        ensures model { result.model ≡ model_at self.now.models.now k }
    {
        Point::at(self.values, self.models, k)
    }
}
