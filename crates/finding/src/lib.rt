// Finding one wanted completion of a partial assignment, or that there is none, by a recursion over the unset variables.
//
// find(goal, order, p)   the search; `order` is a hint, as is the side that is tried first
// branch, cheaper        the variable to branch on and the side to try first
// met, wanted            whether a complete part meets the rows, and is wanted
//
// Read specs/Finding.antt; proofs/FindLaws.antt has the argument.
#![tactic(auto)]

pub mod hints;

ghost use Rattle.std.specs.Prelude.{◌-◌, ◌<◌, ◌≤◌};
ghost use Rattle.charging.specs.Meets.{Meets};
ghost use Rattle.narrowing.specs.Parts.{Good};
ghost use Rattle.forcing.specs.Goals.{Wanted};
ghost use Rattle.finding.specs.Finding.{Finds, Tells, Cheap};

use charging::{Part, Rows};
use forcing::Goal;
pub use hints::{branch, cheaper};

// Whether every row can still be met.
pub fn met(rows: &Rows<'_>, p: Part) -> bool
    ensures { Tells rows.now.n (Meets rows.now) p result }
{
    // Kept a loop, as the one below: what a closure of `all` asks of the row's number stayed open.
    for (h, need) in rows.needs.iter().enumerate() {
        if charging::reach(rows.terms_of(h), p) < *need {
            return false;
        }
    }
    true
}

// Whether what is sure is within every cap.
pub fn cheap(goal: &Goal<'_>, p: Part) -> bool
    ensures { Tells goal.now.rows.n (Cheap goal.now) p result }
{
    for (i, cap) in goal.caps.iter().enumerate() {
        if *cap < charging::sure(goal.costs_of(i), p) {
            return false;
        }
    }
    true
}

// Whether p is wanted, if it is complete.
pub fn wanted(goal: &Goal<'_>, p: Part) -> bool
    ensures { Tells goal.now.rows.n (Wanted goal.now) p result }
{
    met(&goal.rows, p) && cheap(goal, p)
}

// A wanted completion of p, if there is one.
pub fn find(goal: &Goal<'_>, order: &[usize], p: Part) -> Option<Part>
    requires { Good goal.now.rows.n p }
    ensures { Finds goal.now.rows.n (Wanted goal.now) p result }
{
    let n = goal.rows.n;
    let q = forcing::reduce(goal, p)?;
    let Some(v) = branch(n, order, q) else {
        return wanted(goal, q).then_some(q);
    };
    let b = cheaper(n, goal.costs, goal.caps.len(), v);
    if let Some(found) = find(goal, order, narrowing::put(n, q, v, b)) {
        return Some(found);
    }
    find(goal, order, narrowing::put(n, q, v, 1 - b))
}
