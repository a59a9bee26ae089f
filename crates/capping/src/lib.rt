// Capping (R3 and R4): caps on the objectives from lower bounds, a limit, the listed trades and the gathered ones.
//
// Problem           rows, objectives, ceilings and an order, lent by the caller
// Trade, Vector     K costs by value, and the assignment that has them
// caps(.., p)       caps for all that is wanted below p; none where nothing is
//
// Read specs/Caps.antt; proofs/CapLaws.antt has the argument.
#![tactic(auto)]

mod problems;
mod trades;

ghost use Rattle.std.specs.Prelude.{◌≤◌, ◌<◌, ℕ, length};
ghost use Rattle.narrowing.specs.Parts.{Good};
ghost use Rattle.capping.specs.Caps.{at, Within, Before, Fresh, Tight, Capped, Seeks, Low};

use charging::Part;
use forcing::Goal;
pub use problems::Problem;
pub use trades::{Trade, Vector};

// R3: the caps that the limit gives, if there is one.
fn ahead<const K: usize>(
    k: usize,
    low: &Vector<K>,
    limit: Option<Vector<K>>,
    cap: Vector<K>,
) -> Option<Vector<K>>
    requires { k ≤ K }
    ensures { Tight k low.now cap.entry (Before k limit.entry) result }
{
    let Some(top) = limit else {
        return Some(cap);
    };
    let mut cap = cap;
    // Kept by index: three vectors are read in step, and one of them is written.
    for j in 0..k {
        if top[j] < low[j] {
            return None;
        }
        cap[j] = cap[j].min(top[j]);
        if low[j] < top[j] {
            return Some(cap);
        }
    }
    None
}

// R4: the cap that one trade gives, where `low` leaves it one place to be beaten at.
fn point<const K: usize>(
    k: usize,
    low: &Vector<K>,
    costs: &Vector<K>,
    cap: Vector<K>,
) -> Option<Vector<K>>
    requires { k ≤ K }
    ensures { Tight k low.now cap.entry (λ (f : ℕ → ℕ). Within k (at costs.now) f → ⊥) result }
{
    let mut only: Option<usize> = None;
    // Kept by index: the place itself is what is sought.
    for i in 0..k {
        if low[i] < costs[i] {
            if only.is_some() {
                return Some(cap);
            }
            only = Some(i);
        }
    }
    let i = only?;
    let mut cap = cap;
    cap[i] = cap[i].min(costs[i] - 1);
    Some(cap)
}

// R4, one trade after the other.
fn points<const K: usize>(
    k: usize,
    low: &Vector<K>,
    trades: &[Trade<K>],
    cap: Vector<K>,
) -> Option<Vector<K>>
    requires { k ≤ K }
    ensures { Tight k low.now cap.entry (Fresh k trades.now (length trades.now)) result }
{
    let mut cap = cap;
    for trade in trades {
        cap = point(k, low, &trade.costs, cap)?;
    }
    Some(cap)
}

// Charged lower bounds.
fn charges<const K: usize>(problem: &Problem<'_, K>, p: Part) -> Vector<K>
    ensures { Low problem.now problem.now.count p result }
{
    let mut low = [0; K];
    let mut res = [0; Part::MOST];
    for i in 0..problem.count {
        low[i] = charging::charge(&problem.rows, problem.costs_of(i), p, &mut res);
    }
    low
}

// Caps for what is wanted below p.
pub fn caps<const K: usize>(
    problem: &Problem<'_, K>,
    listed: &[Trade<K>],
    gathered: &[Trade<K>],
    limit: Option<Vector<K>>,
    p: Part,
) -> Option<Vector<K>>
    ensures { Capped problem.now (Seeks problem.now listed.now gathered.now (length gathered.now) limit.entry) p result }
{
    let k = problem.count;
    let low = charges(problem, p);
    let cap = ahead(k, &low, limit, [Goal::NO_CAP; K])?;
    let cap = points(k, &low, listed, cap)?;
    points(k, &low, gathered, cap)
}
