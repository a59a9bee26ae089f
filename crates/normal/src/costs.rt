// Objectives in natural numbers: what each variable costs on its dear side more than on the other.
ghost use Rattle.std.specs.Prelude.{◌≡◌, ◌+◌, ◌*◌, ◌^◌, ◌≤◌, ◌<◌, length};
ghost use Rattle.instance.specs.Tables.{objectives_in, IsInstance};
ghost use Rattle.instance.specs.Meaning.{meaning};
ghost use Rattle.normal.specs.Costs.{more_at, cost_of, Settled, Priced, PricedAll};

use crate::half_of;
use charging::Cost;
use instance::{Entry, Instance, Term};

// Two sides for each variable that an instance may have.
pub const MAX_SIDES: usize = Term::MAX_VARIABLE as usize;

// A cost for each variable in each objective that an instance may have.
pub const MAX_COSTS: usize = Instance::MAX_OBJECTIVES * Term::MAX_VARIABLE as usize;

// What a variable's sides give, or withhold: where it is 0, and where it is 1.
#[derive(Clone, Copy, Debug, PartialEq, Eq)]
pub struct Sides {
    pub zero: u64,
    pub one: u64,
}

impl Sides {
    pub const NONE: Sides = Sides { zero: 0, one: 0 };

    // Adds m to one side.
    pub fn add(&mut self, side: u8, m: u64)
        requires { (self.old.zero + m < 2 ^ 64) × (self.old.one + m < 2 ^ 64) }
        ensures { self.new ≡ more_at self.old side m }
    {
        if side == 0 {
            self.zero += m;
        } else {
            self.one += m;
        }
    }

    // The variable's cost by what each of its sides costs.
    fn cost(self) -> Cost
        ensures { result ≡ cost_of self }
    {
        Cost {
            gap: self.zero.abs_diff(self.one),
            dear: u8::from(self.zero < self.one),
        }
    }
}

// The costs of the variables by what their sides cost.
pub fn settle(sides: &[Sides], costs: &mut [Cost])
    requires { length costs.old ≤ length sides.now }
    ensures { Settled (length costs.old) sides.now costs.new }
{
    for v in 0..costs.len() {
        costs[v] = sides[v].cost();
    }
}

// Lays objective i out, the cost of each variable: what its terms give is added up for each side of their variables.
fn lay_objective(terms: &[i32], rows: &[i64], i: usize, costs: &mut [Cost])
    requires instance { IsInstance terms.now rows.now }
    requires i_bound { i < objectives_in rows.now }
    requires n_value { length costs.old ≡ (meaning terms.now rows.now).variables }
    ensures { Priced terms.now rows.now (length costs.old) i costs.new }
{
    let e = Entry::at(rows, i);
    let mut sides = [Sides::NONE; MAX_SIDES];
    for k in 0..e.count {
        let h = half_of(false, Term::at(terms, e.first + k));
        sides[usize::from(h.term.variable)].add(1 - h.term.off, h.term.weight);
    }
    settle(&sides, costs);
}

// Lays the first `count` objectives out, the n costs of each one after the other.
pub fn lay_objectives(terms: &[i32], rows: &[i64], count: usize, n: usize, costs: &mut [Cost])
    requires instance { IsInstance terms.now rows.now }
    requires count_bound { count ≤ objectives_in rows.now }
    requires n_value { n ≡ (meaning terms.now rows.now).variables }
    requires n_in_bounds { count * n ≤ length costs.old }
    ensures { PricedAll terms.now rows.now n count costs.new }
{
    for i in 0..count {
        lay_objective(terms, rows, i, &mut costs[i * n..i * n + n]);
    }
}
