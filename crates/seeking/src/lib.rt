// Gathering: points of the front, many from one tree, over normal tables.
//
// search(.., p, stock)    gathers what is fit below p, by a recursion over the unset variables
// reduce(.., p)           R1 to R7 to a fixpoint: sets what is forced, or finds that nothing is wanted below p
// least, fresh            the first gathered trade in the order of vectors; whether no trade dominates a vector
//
// A stock holds gathered trades in a lent run. Where there is no room for one more, the greatest is left out and is a limit from then on: what
// does not come before it is not sought. Each pruning rule enters by the contract of `reduce` alone.
// Read specs/Stocks.antt and specs/Gathers.antt; proofs/StockLaws.antt and proofs/SeekLaws.antt have the argument.
#![tactic(auto)]

mod leaves;
mod stocks;
mod vectors;

ghost use Rattle.std.specs.Prelude.{◌-◌, ◌<◌, ◌≤◌, length};
ghost use Rattle.narrowing.specs.Parts.{Good, Cuts};
ghost use Rattle.capping.specs.Caps.{Seeks};
ghost use Rattle.seeking.specs.Gathers.{Found, Held, Gathers};

use capping::{Problem, Trade, Vector};
use charging::Part;
use forcing::Goal;
use leaves::leaf;
pub use stocks::{Stock, least};
pub use vectors::fresh;

// Rows, ceilings (R7), caps and charges, until nothing more is forced. The limit is lent, since each round reads it.
fn reduce<const K: usize>(
    problem: &Problem<'_, K>,
    listed: &[Trade<K>],
    gathered: &[Trade<K>],
    limit: &Option<Vector<K>>,
    p: Part,
) -> Option<Part>
    requires { Good problem.now.rows.n p }
    ensures { Cuts problem.now.rows.n (Seeks problem.now listed.now gathered.now (length gathered.now) limit.now) p result }
{
    let ceilings = Goal {
        rows: problem.rows,
        costs: problem.ceilings,
        caps: problem.caps,
    };
    let mut q = p;
    // Kept a loop: it ends with the first round that forces nothing more.
    loop {
        let before = q.left;
        let r = narrowing::pass(&problem.rows, q)?;
        let s = forcing::forces(&ceilings, r)?;
        let cap = capping::caps(problem, listed, gathered, *limit, s)?;
        let goal = Goal {
            rows: problem.rows,
            costs: problem.costs,
            caps: &cap[..problem.count],
        };
        q = forcing::forces(&goal, s)?;
        if q.left == before {
            return Some(q);
        }
    }
}

// Gathers what is fit below p.
pub fn search<const K: usize>(
    problem: &Problem<'_, K>,
    listed: &[Trade<K>],
    points: &mut [Trade<K>],
    p: Part,
    stock: Stock<K>,
) -> Stock<K>
    requires part { Good problem.now.rows.n p }
    requires room { 1 ≤ length points.old }
    requires held { Held (Found problem.now listed.now) problem.now.count points.old stock }
    ensures { Gathers problem.now listed.now p points.old stock.entry points.new result }
{
    let Some(q) = reduce(problem, listed, &points[..stock.count], &stock.limit, p) else {
        return stock;
    };
    let n = problem.rows.n;
    let Some(v) = finding::branch(n, problem.order, q) else {
        return leaf(problem, listed, points, q, stock);
    };
    let b = finding::cheaper(n, problem.costs, problem.count, v);
    let first = search(problem, listed, points, narrowing::put(n, q, v, b), stock);
    search(
        problem,
        listed,
        points,
        narrowing::put(n, q, v, 1 - b),
        first,
    )
}
