// What is wanted of an assignment.
ghost use Rattle.std.specs.Prelude.{◌≡◌, ◌<◌, length};
ghost use Rattle.charging.specs.Rows.{Objectives, costs_of};

use charging::{Cost, Rows};

// To meet the rows, and to cost at most the cap by each objective: objective i has the n costs from i * n on, and the cap caps[i].
#[derive(Clone, Copy)]
pub struct Goal<'a> {
    pub rows: Rows<'a>,
    pub costs: &'a [Cost],
    pub caps: &'a [u64],
    pub ghost priced: { Objectives rows.n (length caps.now) costs.now },
}

impl<'a> Goal<'a> {
    // The cap of an objective that has none: above every cost, so that charging is spared.
    pub const NO_CAP: u64 = 1 << 40;

    // The costs of objective i.
    pub fn costs_of(&self, i: usize) -> &'a [Cost]
        requires { i < length self.now.caps.now }
        ensures { result.now ≡ costs_of self.now.rows.n self.now.costs.now i }
    {
        charging::costs_of(self.rows.n, self.costs, i)
    }
}
