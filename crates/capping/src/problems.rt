// An instance as the search sees it.
ghost use Rattle.std.specs.Prelude.{◌≡◌, ◌<◌, ◌≤◌};
ghost use Rattle.charging.specs.Rows.{Objectives, costs_of};
ghost use Rattle.charging.specs.Meets.{Ceiled};

use charging::{Cost, Rows};

// Rows to meet, up to K objectives, ceilings with a cap each that no feasible assignment passes, and an order of the variables, a hint.
// Objective i has the n costs from i * n on, and so has ceiling i.
#[derive(Clone, Copy)]
pub struct Problem<'a, const K: usize> {
    pub rows: Rows<'a>,
    pub count: usize,
    pub costs: &'a [Cost],
    pub ceilings: &'a [Cost],
    pub caps: &'a [u64],
    pub order: &'a [usize],
    pub ghost few: { count ≤ K },
    pub ghost priced: { Objectives rows.n count costs.now },
    pub ghost ceiled: { Ceiled rows ceilings.now caps.now },
}

impl<'a, const K: usize> Problem<'a, K> {
    // The costs of objective i. As for a Goal: both hand on to one function.
    pub fn costs_of(&self, i: usize) -> &'a [Cost]
        requires { i < self.now.count }
        ensures { result.now ≡ costs_of self.now.rows.n self.now.costs.now i }
    {
        charging::costs_of(self.rows.n, self.costs, i)
    }
}
