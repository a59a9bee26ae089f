// Heaps: what the terms of half rows withhold, added up for each side of each variable, and a heap laid out as a cost with a cap.
ghost use Rattle.std.specs.Prelude.{◌≡◌, ℕ, ◌+◌, ◌-◌, ◌*◌, ◌^◌, ◌≤◌, ◌<◌, length};
ghost use Rattle.charging.specs.Rows.{weight};
ghost use Rattle.charging.specs.Meets.{count};
ghost use Rattle.instance.specs.Limits.{max_coef, max_terms, max_variable};
ghost use Rattle.normal.specs.Costs.{side_of, base_of, Settled};
ghost use Rattle.normal.specs.Ceilings.{Heaps, weights_in};

use crate::costs::{Sides, settle};
use crate::narrow::NarrowRows;
use charging::{Cost, Term};

// What terms weigh.
pub fn weight_of(terms: &[Term]) -> u64
    requires { (length terms.now ≤ max_terms + max_terms) × ((k : ℕ) → k < length terms.now → weight terms.now k ≤ max_coef) }
    ensures { (result ≡ weights_in terms.now (length terms.now)) × (result ≤ length terms.now * max_coef) }
{
    // Kept a loop: that the sum fits follows from the bound of each weight, which the chain's `sum` does not see.
    let mut sum: u64 = 0;
    for t in terms {
        sum += t.weight;
    }
    sum
}

// What every assignment comes to at least, on n variables.
fn base_of(n: usize, sides: &[Sides]) -> u64
    requires { (n ≤ max_variable) × (n ≤ length sides.now) × ((v b : ℕ) → side_of sides.now v b ≤ 2 ^ 34) }
    ensures { (result ≡ base_of n sides.now) × (result ≤ n * 2 ^ 34) }
{
    // Kept a loop, as in `weight_of`.
    let mut sum: u64 = 0;
    for v in 0..n {
        sum += sides[v].zero.min(sides[v].one);
    }
    sum
}

// Adds what half row h withholds to the sides, and answers how much that is at most where the row is met.
pub fn heap_row(half: &NarrowRows<'_>, h: usize, sides: &mut [Sides]) -> u64
    requires h_in_bounds { (h < count half.now.rows) × (half.now.rows.n ≤ length sides.old) × ((v b : ℕ) → side_of sides.old v b ≤ 2 ^ 40) }
    ensures { Heaps half.now.rows h sides.old sides.new result }
{
    let terms = half.rows.terms_of(h);
    for t in terms {
        sides[usize::from(t.variable)].add(t.off, t.weight);
    }
    weight_of(terms).saturating_sub(half.rows.needs[h])
}

// Lays the sides out as costs, and answers their cap where what meets the rows has at most `slack` of the sides.
pub fn lay_heap(sides: &[Sides], slack: u64, costs: &mut [Cost]) -> u64
    requires { (length costs.old ≤ max_variable) × (length costs.old ≤ length sides.now) × ((v b : ℕ) → side_of sides.now v b ≤ 2 ^ 34) }
    ensures settled { Settled (length costs.old) sides.now costs.new }
    ensures cap { result ≡ slack - base_of (length costs.old) sides.now }
{
    settle(sides, costs);
    slack.saturating_sub(base_of(costs.len(), sides))
}
