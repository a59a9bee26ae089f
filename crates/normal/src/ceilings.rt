// Half rows as objectives with a cap (rule R7). A half row gives what all its terms weigh but for what those withhold that stand at the side where
// they give nothing; so, where it is met, what is withheld is at most its weight less its need. That is a cost with a cap, and charging it
// decides, say, rows that each ask for a site against a row that allows few. The sum of half rows is a half row too: what they withhold
// together is at most the sum of what each may.
ghost use Rattle.std.specs.Prelude.{◌≡◌, ℕ, ◌*◌, ◌^◌, ◌≤◌, ◌<◌, length, take};
ghost use Rattle.charging.specs.Meets.{count, Ceiled};
ghost use Rattle.normal.specs.Costs.{side_of};
ghost use Rattle.normal.specs.Ceilings.{Heaps, Ceiling, CeilingIf, CeilingAll};

use crate::costs::{MAX_SIDES, Sides};
use crate::heaps::{heap_row, lay_heap, weight_of};
use crate::narrow::NarrowRows;
use charging::Cost;

// How many ceilings are laid out at most.
pub const MAX_CEILINGS: usize = 4;

// How many terms a half row must have to be a ceiling, and to be one of the sum.
pub const MIN_TERMS: usize = 8;

pub const SUM_TERMS: usize = 3;

// Whether half row h is tight: it has so many terms at least, and must reach more than half of what it weighs.
fn is_tight(half: &NarrowRows<'_>, h: usize, least: usize) -> bool
    requires h_in_bounds { h < count half.now.rows }
{
    let terms = half.rows.terms_of(h);
    let weight = weight_of(terms);
    let need = half.rows.needs[h];
    least <= terms.len() && need <= weight && weight - need < need
}

// Lays half row h out as a ceiling, and answers its cap.
fn lay_ceiling(half: &NarrowRows<'_>, h: usize, costs: &mut [Cost]) -> u64
    requires h_in_bounds { (h < count half.now.rows) × (length costs.old ≡ half.now.rows.n) }
    ensures { Ceiling half.now.rows costs.new result }
{
    let mut sides = [Sides::NONE; MAX_SIDES];
    let slack = heap_row(half, h, &mut sides);
    lay_heap(&sides, slack, costs)
}

// Lays half row h out as one more ceiling, if it is tight and there is room; answers how many there are then.
fn lay_if(
    half: &NarrowRows<'_>,
    h: usize,
    laid: usize,
    costs: &mut [Cost],
    caps: &mut [u64],
) -> usize
    requires h_in_bounds { (h < count half.now.rows) × (laid ≤ 4) × (4 * half.now.rows.n ≤ length costs.old) × (4 ≤ length caps.old) }
    requires all { CeilingAll half.now.rows laid costs.old caps.old }
    ensures { (result ≤ 4) × CeilingAll half.now.rows result costs.new caps.new }
{
    if MAX_CEILINGS <= laid {
        return laid;
    }
    if !is_tight(half, h, MIN_TERMS) {
        return laid;
    }
    let from = laid * half.rows.n;
    caps[laid] = lay_ceiling(half, h, &mut costs[from..from + half.rows.n]);
    laid + 1
}

// Adds what half row h withholds to the sides, if it is tight; answers how much that is at most, 0 where it is not tight.
fn heap_if(half: &NarrowRows<'_>, h: usize, sides: &mut [Sides]) -> u64
    requires h_in_bounds { (h < count half.now.rows) × (half.now.rows.n ≤ length sides.old) × ((v b : ℕ) → side_of sides.old v b ≤ 2 ^ 40) }
    ensures { Heaps half.now.rows h sides.old sides.new result }
{
    if !is_tight(half, h, SUM_TERMS) {
        return 0;
    }
    heap_row(half, h, sides)
}

// Lays the sum of the tight half rows out as a ceiling, and answers its cap where it is the sum of two or more. It decides, say, more things than
// places, one thing in a place.
fn lay_sum(half: &NarrowRows<'_>, costs: &mut [Cost]) -> Option<u64>
    requires n_value { length costs.old ≡ half.now.rows.n }
    ensures { CeilingIf half.now.rows costs.new result }
{
    let mut sides = [Sides::NONE; MAX_SIDES];
    let mut slack: u64 = 0;
    let mut summed: usize = 0;
    for h in 0..half.rows.needs.len() {
        let more = heap_if(half, h, &mut sides);
        slack += more;
        if 0 < more {
            summed += 1;
        }
    }
    let cap = lay_heap(&sides, slack, costs);
    if summed < 2 {
        return None;
    }
    Some(cap)
}

// Lays the sum of the tight half rows out as the first ceiling, if it is one; answers how many there are then.
fn lay_first(half: &NarrowRows<'_>, costs: &mut [Cost], caps: &mut [u64]) -> usize
    requires n_in_bounds { (4 * half.now.rows.n ≤ length costs.old) × (4 ≤ length caps.old) }
    ensures { (result ≤ 1) × CeilingAll half.now.rows result costs.new caps.new }
{
    let Some(cap) = lay_sum(half, &mut costs[..half.rows.n]) else {
        return 0;
    };
    caps[0] = cap;
    1
}

// Lays the sum of the tight half rows out as a ceiling, then the first tight ones that are long, four ceilings at most, and answers how many.
pub fn lay_ceilings(half: &NarrowRows<'_>, costs: &mut [Cost], caps: &mut [u64]) -> usize
    requires n_in_bounds { (4 * half.now.rows.n ≤ length costs.old) × (4 ≤ length caps.old) }
    ensures { (result ≤ 4) × Ceiled half.now.rows costs.new (take result caps.new) }
{
    let mut count = lay_first(half, costs, caps);
    for h in 0..half.rows.needs.len() {
        count = lay_if(half, h, count, costs, caps);
    }
    count
}
