// The smallest witness of a known vector (document 01, 'The front'): among the assignments that meet the rows at a cost within the caps.
//
// smallest(goal, .., a)   the smallest number of a wanted assignment, given one that is wanted
//
// With the vector of a point as caps, wanted is: meets the rows and costs at most that vector; as no feasible vector dominates
// a point's, at most is equal. Read specs/Smallest.antt.
#![tactic(auto)]

ghost use Rattle.std.specs.Prelude.{◌+◌, ◌^◌, ◌<◌};
ghost use Rattle.charging.specs.Rows.{bit};
ghost use Rattle.forcing.specs.Goals.{Wanted};
ghost use Rattle.lowering.specs.Smallest.{Smallest, Lowered};

use charging::Part;
use forcing::Goal;

// A wanted assignment by its number, and a part that has the variables that are settled.
#[derive(Clone, Copy, Debug, PartialEq, Eq)]
pub struct Known {
    pub part: Part,
    pub number: u64,
}

// Settles v: off where some wanted assignment has it off under the variables settled above it, else on.
pub fn settle(goal: &Goal<'_>, order: &[usize], v: usize, known: Known) -> Known
    requires { (v < goal.now.rows.n) × Lowered goal.now.rows.n (Wanted goal.now) (v + 1) known.part known.number }
    ensures { Lowered goal.now.rows.n (Wanted goal.now) v result.part result.number }
{
    let n = goal.rows.n;
    let part = narrowing::put(n, known.part, v, 0);
    if (known.number >> v) % 2 == 0 {
        return Known {
            part,
            number: known.number,
        };
    }
    if let Some(found) = finding::find(goal, order, part) {
        return Known {
            part,
            number: found.one,
        };
    }
    Known {
        part: narrowing::put(n, known.part, v, 1),
        number: known.number,
    }
}

// The smallest number of a wanted assignment, where a is the number of one.
// Rules out: the first one found; one that costs more than the caps.
pub fn smallest(goal: &Goal<'_>, order: &[usize], a: u64) -> u64
    requires { Wanted goal.now (bit a) × (a < 2 ^ goal.now.rows.n) }
    ensures { Smallest goal.now.rows.n (Wanted goal.now) result }
{
    let mut known = Known {
        part: narrowing::blank(goal.rows.n),
        number: a,
    };
    for v in (0..goal.rows.n).rev() {
        known = settle(goal, order, v, known);
    }
    known.number
}
