// The terms of one row: what they can reach, what they give without a charge, and charging them.
ghost use Rattle.std.specs.Prelude.{◌≡◌, false, ℕ, ◌+◌, ◌-◌, ◌^◌, ◌<◌, ◌≤◌, length};
ghost use Rattle.charging.specs.Rows.{span, given, of, Terms, spare_at, Paid, Least};

use crate::parts::Part;
use crate::rows::{Cost, Term};
use crate::sides::mark;

// The greatest sum of the terms that the part leaves in reach.
pub fn reach(terms: &[Term], p: Part) -> u64
    requires { Terms 64 terms.now }
    ensures { result ≡ given terms.now (of p) }
{
    // Kept a loop: the bound of the sum follows from the contract of `given`, which the chain's `sum` does not see.
    let mut sum: u64 = 0;
    for term in terms {
        sum += term.given(p.look(term.variable as usize));
    }
    sum
}

// Whether the terms that need no charge give `enough`. Most rows are covered by their first terms, and the rest is not looked at.
pub fn covered(terms: &[Term], costs: &[Cost], p: Part, res: &[u64], enough: u64) -> bool
    requires { Terms (length costs.now) terms.now × (length costs.now ≤ length res.now) }
    ensures { result ≡ false → span (spare_at terms.now (of p) costs.now res.now) 0 (length terms.now) < enough }
{
    let mut sum: u64 = 0;
    for term in terms {
        let v = term.variable as usize;
        sum += term.spared(p.look(v), costs[v].dear, res[v]);
        if enough <= sum {
            return true;
        }
    }
    enough <= sum
}

// At most what is left to charge at each term that can be charged.
pub fn least(terms: &[Term], costs: &[Cost], res: &[u64]) -> u64
    requires { Terms (length costs.now) terms.now × (length costs.now ≤ length res.now) }
    ensures { (result ≤ 2 ^ 34) × Least terms.now costs.now res.now (length terms.now) result }
{
    let mut m: u64 = 1 << 34;
    for term in terms {
        let v = term.variable as usize;
        m = term.lowered(m, costs[v].dear, res[v]);
    }
    m
}

// Takes m off what is left to charge at each term that can be charged; answers the variables where nothing is left, a hint.
pub fn pay(terms: &[Term], costs: &[Cost], res: &mut [u64], m: u64) -> u64
    requires { Terms (length costs.now) terms.now × (length costs.now ≤ length res.old) }
    ensures { Paid (length costs.now) terms.now costs.now (length terms.now) m res.old res.new }
{
    let mut free: u64 = 0;
    for term in terms {
        let v = term.variable as usize;
        let left = term.paid(m, costs[v].dear, res[v]);
        res[v] = left;
        free = mark(free, v, left);
    }
    free
}
