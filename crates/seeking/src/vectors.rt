// Vectors of k costs: the one of a complete part, whether one dominates another, and which comes first.
ghost use Rattle.std.specs.Prelude.{◌≡◌, true, false, ◌<◌, ◌≤◌, length};
ghost use Rattle.charging.specs.Rows.{of};
ghost use Rattle.capping.specs.Caps.{vec, less, at, Within, Fresh, Before};
ghost use Rattle.seeking.specs.Stocks.{Same};

use capping::{Problem, Trade, Vector};
use charging::Part;

// The vector that is sure; that of a complete part is its own.
pub fn price<const K: usize>(problem: &Problem<'_, K>, p: Part) -> Vector<K>
    ensures { Same problem.now.count (at result) (vec problem.now (of p)) }
{
    let mut costs = [0; K];
    for i in 0..problem.count {
        costs[i] = charging::sure(problem.costs_of(i), p);
    }
    costs
}

// Whether f is at most h in every place: f weakly dominates h.
pub fn within<const K: usize>(k: usize, f: &Vector<K>, h: &Vector<K>) -> bool
    requires { k ≤ K }
    ensures yes { result ≡ true → Within k (at f.now) (at h.now) }
    ensures no { result ≡ false → Within k (at f.now) (at h.now) → ⊥ }
{
    // Clauses, since where K is a parameter nothing is known of a closure that has none.
    (0..k).all(
        |i|
            requires { i < K }
            ensures yes { result ≡ true → at f.entry.now i ≤ at h.entry.now i }
            ensures no { result ≡ false → at h.entry.now i < at f.entry.now i }
        { f[i] <= h[i] },
    )
}

// Whether none of the trades weakly dominates f.
pub fn fresh<const K: usize>(k: usize, f: &Vector<K>, trades: &[Trade<K>]) -> bool
    requires { k ≤ K }
    ensures yes { result ≡ true → Fresh k trades.now (length trades.now) (at f.now) }
    ensures no { result ≡ false → Fresh k trades.now (length trades.now) (at f.now) → ⊥ }
{
    // Kept a loop: the contract of `all` or `any` left open which trade it was.
    for trade in trades {
        if within(k, &trade.costs, f) {
            return false;
        }
    }
    true
}

// Whether f comes before h: by the first cost in which they differ.
pub fn earlier<const K: usize>(k: usize, f: &Vector<K>, h: &Vector<K>) -> bool
    requires { k ≤ K }
    ensures yes { result ≡ true → less k 0 (at f.now) (at h.now) }
    ensures no { result ≡ false → less k 0 (at f.now) (at h.now) → ⊥ }
{
    f[..k] < h[..k]
}

// Whether f comes before the limit, if there is one.
pub fn before<const K: usize>(k: usize, f: &Vector<K>, limit: Option<Vector<K>>) -> bool
    requires { k ≤ K }
    ensures yes { result ≡ true → Before k limit.entry (at f.now) }
    ensures no { result ≡ false → Before k limit.entry (at f.now) → ⊥ }
{
    match limit {
        Some(top) => earlier(k, f, &top),
        None => true,
    }
}
