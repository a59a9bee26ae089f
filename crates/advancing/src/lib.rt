// The next point of the list (document 01, 'The front'), over normal tables: the least vector that no listed trade weakly dominates,
// and its smallest witness.
//
// next_point(problem, listed, points, stock)   the trade that comes next, or that none is left, and the stock
//
// Trades come from a stock in a lent run (crate seeking), which is gathered anew, by one search tree, only when it is empty and there was a limit.
// A caller begins with the empty stock under the limit 0, which nothing comes before (stocked-empty), and goes on with the stock of the answer
// after it has listed the trade (stocked-more). Read specs/Next.antt and specs/Stocked.antt; proofs/NextLaws.antt has the argument.
#![tactic(auto)]

mod choices;

ghost use Rattle.std.specs.Prelude.{◌≤◌, ◌<◌, ◌^◌, length};
ghost use Rattle.charging.specs.Rows.{bit};
ghost use Rattle.lowering.specs.Smallest.{Smallest};
ghost use Rattle.advancing.specs.Next.{AtMost, Next};
ghost use Rattle.advancing.specs.Stocked.{Stocked};

use capping::{Problem, Trade, Vector};
pub use choices::Advance;
use choices::choose;
use forcing::Goal;
use seeking::Stock;

// The smallest number of an assignment that meets the rows and costs at most `costs`, where `model` is the number of one.
fn witness<const K: usize>(problem: &Problem<'_, K>, costs: &Vector<K>, model: u64) -> u64
    requires { AtMost problem.now costs.now (bit model) × (model < 2 ^ problem.now.rows.n) }
    ensures { Smallest problem.now.rows.n (AtMost problem.now costs.now) result }
{
    let goal = Goal {
        rows: problem.rows,
        costs: problem.costs,
        caps: &costs[..problem.count],
    };
    lowering::smallest(&goal, problem.order, model)
}

// The trade after the listed ones: its vector and its witness. In `points` are the gathered ones, before and after.
// Rules out: a vector that a listed trade weakly dominates; a later vector; a witness that is not the smallest.
pub fn next_point<const K: usize>(
    problem: &Problem<'_, K>,
    listed: &[Trade<K>],
    points: &mut [Trade<K>],
    stock: Stock<K>,
) -> Advance<K>
    requires room { 1 ≤ length points.old }
    requires stocked { Stocked problem.now listed.now points.old stock }
    ensures next { Next problem.now listed.now result.next }
    ensures stocked { Stocked problem.now listed.now points.new result.stock }
{
    let Advance { next, stock } = choose(problem, listed, points, stock);
    let Some(trade) = next else {
        return Advance { next: None, stock };
    };
    let smallest = witness(problem, &trade.costs, trade.model);
    let next = Trade {
        costs: trade.costs,
        model: smallest,
    };
    Advance {
        next: Some(next),
        stock,
    }
}
