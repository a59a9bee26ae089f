// Stocks of gathered trades: the least and the greatest, keeping one more.
ghost use Rattle.std.specs.Prelude.{◌≡◌, true, ◌<◌, ◌≤◌, length};
ghost use Rattle.capping.specs.Caps.{at, Within, Before};
ghost use Rattle.seeking.specs.Stocks.{Worse, Least, Greatest, Limited, Keeps};

use crate::vectors::{earlier, within};
use capping::{Trade, Vector};

// How many trades are gathered, and the limit, if there is one: what does not come before it is not sought.
#[derive(Clone, Copy, Debug, PartialEq, Eq)]
pub struct Stock<const K: usize> {
    pub count: usize,
    pub limit: Option<Vector<K>>,
}

// A least of the trades.
pub fn least<const K: usize>(k: usize, trades: &[Trade<K>]) -> usize
    requires { k ≤ K }
    ensures { (1 ≤ length trades.now → result < length trades.now) × Least k trades.now (length trades.now) result }
{
    let mut best = 0;
    for (j, trade) in trades.iter().enumerate() {
        if earlier(k, &trade.costs, &trades[best].costs) {
            best = j;
        }
    }
    best
}

// A greatest of the trades. Kept beside `least`: a function over both orders would need the order's laws as parameters, and is longer.
pub fn greatest<const K: usize>(k: usize, trades: &[Trade<K>]) -> usize
    requires { (k ≤ K) × (1 ≤ length trades.now) }
    ensures { (result < length trades.now) × Greatest k trades.now (length trades.now) result }
{
    let mut best = 0;
    for (j, trade) in trades.iter().enumerate() {
        if earlier(k, &trades[best].costs, &trade.costs) {
            best = j;
        }
    }
    best
}

// The first of the trades that f weakly dominates.
pub fn worse<const K: usize>(k: usize, f: &Vector<K>, trades: &[Trade<K>]) -> Option<usize>
    requires { k ≤ K }
    ensures { Worse k (at f.now) trades.now result }
{
    // Clauses, as in `within`.
    trades.iter().position(
        |trade|
            requires { k ≤ K }
            ensures { result ≡ true → Within k (at f.entry.now) (at trade.now.costs) }
        { within(k, f, &trade.costs) },
    )
}

// The trade against the gathered ones where there is no room for more: the greatest of them and it is left out, and becomes the limit.
pub fn cut_last<const K: usize>(
    k: usize,
    trade: Trade<K>,
    points: &mut [Trade<K>],
    stock: Stock<K>,
) -> Stock<K>
    requires sizes { (k ≤ K) × (stock.count ≤ length points.old) × (1 ≤ stock.count) }
    requires limit { Limited k points.old stock × Before k stock.limit (at trade.costs) }
    ensures { Keeps k trade.entry points.old stock.entry points.new result }
{
    let count = stock.count;
    let j = greatest(k, &points[..count]);
    let last = points[j].costs;
    if earlier(k, &trade.costs, &last) {
        points[j] = trade;
        return Stock {
            count,
            limit: Some(last),
        };
    }
    Stock {
        count,
        limit: Some(trade.costs),
    }
}

// The trade in the place of one that it weakly dominates, or in a new place; where there is no room for it, a limit.
pub fn keep<const K: usize>(
    k: usize,
    trade: Trade<K>,
    points: &mut [Trade<K>],
    stock: Stock<K>,
) -> Stock<K>
    requires sizes { (k ≤ K) × (stock.count ≤ length points.old) × (1 ≤ length points.old) }
    requires limit { Limited k points.old stock × Before k stock.limit (at trade.costs) }
    ensures { Keeps k trade.entry points.old stock.entry points.new result }
{
    let count = stock.count;
    if let Some(j) = worse(k, &trade.costs, &points[..count]) {
        points[j] = trade;
        return stock;
    }
    if count < points.len() {
        points[count] = trade;
        return Stock {
            count: count + 1,
            limit: stock.limit,
        };
    }
    cut_last(k, trade, points, stock)
}
