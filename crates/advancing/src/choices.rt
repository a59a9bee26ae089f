// Choosing the next vector: from the stock of gathered trades, or from a new one.
ghost use Rattle.std.specs.Prelude.{◌≤◌, ◌≡◌, length};
ghost use Rattle.advancing.specs.Stocked.{Stocked, Sifted, Chosen, Ready};

use capping::{Problem, Trade};
use seeking::Stock;

// A trade, or none where none is left, and the stock.
#[derive(Clone, Copy, Debug, PartialEq, Eq)]
pub struct Advance<const K: usize> {
    pub next: Option<Trade<K>>,
    pub stock: Stock<K>,
}

// Takes out the least gathered trade as long as a listed one weakly dominates it, and chooses the one after these.
fn sift<const K: usize>(
    problem: &Problem<'_, K>,
    listed: &[Trade<K>],
    points: &mut [Trade<K>],
    stock: Stock<K>,
) -> Advance<K>
    requires { stock.count ≤ length points.old }
    ensures sifted { Sifted problem.now.count listed.now points.old stock.entry.count points.new result.stock.count }
    ensures limit { result.stock.limit ≡ stock.entry.limit }
    ensures chosen { Chosen problem.now.count listed.now points.new result.stock.count result.next }
{
    for last in (0..stock.count).rev() {
        let count = last + 1;
        let j = seeking::least(problem.count, &points[..count]);
        let trade = points[j];
        if seeking::fresh(problem.count, &trade.costs, listed) {
            return Advance {
                next: Some(trade),
                stock: Stock {
                    count,
                    limit: stock.limit,
                },
            };
        }
        points[j] = points[last];
    }
    Advance {
        next: None,
        stock: Stock {
            count: 0,
            limit: stock.limit,
        },
    }
}

// Gathers anew, by one tree, and chooses.
fn gather<const K: usize>(
    problem: &Problem<'_, K>,
    listed: &[Trade<K>],
    points: &mut [Trade<K>],
) -> Advance<K>
    requires { 1 ≤ length points.old }
    ensures { Ready problem.now listed.now points.new result.stock result.next }
{
    let p = narrowing::blank(problem.rows.n);
    let nothing = Stock {
        count: 0,
        limit: None,
    };
    let stock = seeking::search(problem, listed, points, p, nothing);
    if stock.count == 0 {
        return Advance { next: None, stock };
    }
    let j = seeking::least(problem.count, &points[..stock.count]);
    Advance {
        next: Some(points[j]),
        stock,
    }
}

// Chooses from the stock; where it has none left but there was a limit, gathers anew.
pub fn choose<const K: usize>(
    problem: &Problem<'_, K>,
    listed: &[Trade<K>],
    points: &mut [Trade<K>],
    stock: Stock<K>,
) -> Advance<K>
    requires room { 1 ≤ length points.old }
    requires stocked { Stocked problem.now listed.now points.old stock }
    ensures { Ready problem.now listed.now points.new result.stock result.next }
{
    let had = sift(problem, listed, points, stock);
    if had.next.is_some() {
        return had;
    }
    if stock.limit.is_none() {
        return had;
    }
    gather(problem, listed, points)
}
