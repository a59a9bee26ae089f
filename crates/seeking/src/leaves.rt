// A complete part against the stock.
ghost use Rattle.std.specs.Prelude.{◌≤◌, length};
ghost use Rattle.charging.specs.Rows.{of, Completes};
ghost use Rattle.narrowing.specs.Parts.{Good};
ghost use Rattle.seeking.specs.Gathers.{Found, Held, Gathers};

use crate::stocks::{Stock, keep};
use crate::vectors::{before, fresh, price};
use capping::{Problem, Trade};
use charging::Part;

// A complete q is gathered, if it is fit and not accounted for.
pub fn leaf<const K: usize>(
    problem: &Problem<'_, K>,
    listed: &[Trade<K>],
    points: &mut [Trade<K>],
    q: Part,
    stock: Stock<K>,
) -> Stock<K>
    requires part { Completes problem.now.rows.n (of q) (of q) × Good problem.now.rows.n q }
    requires room { 1 ≤ length points.old }
    requires held { Held (Found problem.now listed.now) problem.now.count points.old stock }
    ensures { Gathers problem.now listed.now q points.old stock.entry points.new result }
{
    if !finding::met(&problem.rows, q) {
        return stock;
    }
    let k = problem.count;
    let costs = price(problem, q);
    if !fresh(k, &costs, listed) {
        return stock;
    }
    if !fresh(k, &costs, &points[..stock.count]) {
        return stock;
    }
    if !before(k, &costs, stock.limit) {
        return stock;
    }
    let trade = Trade {
        costs,
        model: q.one,
    };
    keep(k, trade, points, stock)
}
