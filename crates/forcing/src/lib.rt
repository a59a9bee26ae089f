// Forcing (R6): what caps on the objectives force in a partial assignment.
//
// Goal              rows to meet, and objectives with a cap each
// forces(goal, p)   sets a variable to its cheap side where the charged bound and its dear side would pass a cap
// reduce(goal, p)   rows and caps, until nothing more is forced
//
// An assignment is wanted where it meets the rows and costs at most the cap by each objective. Read specs/Goals.antt.
#![tactic(auto)]

mod goals;

ghost use Rattle.charging.specs.Rows.{Costs};
ghost use Rattle.narrowing.specs.Parts.{Good, Cuts};
ghost use Rattle.forcing.specs.Goals.{Under, Wanted};

use charging::{Cost, Part, Rows};
pub use goals::Goal;

// What the cap of one objective forces.
pub fn force(rows: &Rows<'_>, costs: &[Cost], cap: u64, p: Part) -> Option<Part>
    requires { Costs rows.now.n costs.now × Good rows.now.n p }
    ensures { Cuts rows.now.n (Under rows.now costs.now cap) p result }
{
    if Goal::NO_CAP <= cap {
        return Some(p);
    }
    let mut res = [0; Part::MOST];
    let bound = charging::charge(rows, costs, p, &mut res);
    if cap < bound {
        return None;
    }
    let slack = cap - bound;
    let mut q = p;
    for (v, cost) in costs.iter().enumerate() {
        q = narrowing::push(rows.n, q, v, cost.dear, res[v], slack);
    }
    Some(q)
}

// What the caps force, one objective after the other.
pub fn forces(goal: &Goal<'_>, p: Part) -> Option<Part>
    requires { Good goal.now.rows.n p }
    ensures { Cuts goal.now.rows.n (Wanted goal.now) p result }
{
    let mut q = p;
    for (i, cap) in goal.caps.iter().enumerate() {
        q = force(&goal.rows, goal.costs_of(i), *cap, q)?;
    }
    Some(q)
}

// Rows and caps, until nothing more is forced.
pub fn reduce(goal: &Goal<'_>, p: Part) -> Option<Part>
    requires { Good goal.now.rows.n p }
    ensures { Cuts goal.now.rows.n (Wanted goal.now) p result }
{
    let mut q = p;
    // Kept a loop: it ends with the first round that forces nothing more.
    loop {
        let before = q.left;
        let r = narrowing::pass(&goal.rows, q)?;
        q = forces(goal, r)?;
        if q.left == before {
            return Some(q);
        }
    }
}
