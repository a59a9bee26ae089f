// A lower bound of an objective over all completions that meet the rows.
ghost use Rattle.std.specs.Prelude.{◌≡◌, ◌+◌, ◌-◌, ◌*◌, ◌^◌, ◌<◌, ◌≤◌, length};
ghost use Rattle.charging.specs.Rows.{of, cost, Costs, Owed};
ghost use Rattle.charging.specs.Meets.{count, Charged, Step};

use crate::parts::Part;
use crate::rows::{Cost, Rows};
use crate::sides::mark;
use crate::terms::{covered, least, pay};

// The cost that is sure.
pub fn sure(costs: &[Cost], p: Part) -> u64
    requires { Costs (length costs.now) costs.now × (length costs.now ≤ 64) }
    ensures { (result ≡ cost costs.now (of p)) × (result ≤ 64 * 2 ^ 34) }
{
    // Kept a loop, as in `reach`.
    let mut sum: u64 = 0;
    for (v, cost) in costs.iter().enumerate() {
        sum += cost.charged(p.look(v));
    }
    sum
}

// What is left to charge at the start; answers the variables where that is nothing, a hint.
pub fn owed(costs: &[Cost], p: Part, res: &mut [u64]) -> u64
    requires { (length costs.now ≤ 64) × (length costs.now ≤ length res.old) }
    ensures { Owed (length costs.now) (of p) costs.now res.new }
{
    let mut free: u64 = 0;
    for (v, cost) in costs.iter().enumerate() {
        let left = cost.owed(p.look(v));
        res[v] = left;
        free = mark(free, v, left);
    }
    free
}

// What was charged, and the variables where nothing is left to charge since, a hint.
#[derive(Clone, Copy, Debug, PartialEq, Eq)]
pub struct Taken {
    pub by: u64,
    pub free: u64,
}

impl Taken {
    // Nothing is charged.
    const NONE: Taken = Taken { by: 0, free: 0 };
}

// The start of charging, in one pass: `res` as `owed` fills it, the cost that is sure, and the variables where nothing is left to charge, a hint.
fn begin(costs: &[Cost], p: Part, res: &mut [u64]) -> Taken
    requires { Costs (length costs.now) costs.now × (length costs.now ≤ 64) × (length costs.now ≤ length res.old) }
    ensures owed { Owed (length costs.now) (of p) costs.now res.new }
    ensures sure { (result.by ≡ cost costs.now (of p)) × (result.by ≤ 64 * 2 ^ 34) }
{
    let mut sum: u64 = 0;
    let mut free: u64 = 0;
    for (v, cost) in costs.iter().enumerate() {
        let y = p.look(v);
        let left = cost.owed(y);
        sum += cost.charged(y);
        res[v] = left;
        free = mark(free, v, left);
    }
    Taken { by: sum, free }
}

// Charges row h, if it needs a dear side.
pub fn charge_row(rows: &Rows<'_>, costs: &[Cost], p: Part, res: &mut [u64], h: usize) -> Taken
    requires { Costs rows.now.n costs.now × (rows.now.n ≤ length res.old) × (h < count rows.now) }
    ensures { Step rows.now costs.now (of p) res.old res.new result.by }
{
    let terms = rows.terms_of(h);
    if covered(terms, costs, p, &*res, rows.needs[h]) {
        return Taken::NONE;
    }
    let by = least(terms, costs, &*res);
    let free = pay(terms, costs, res, by);
    Taken { by, free }
}

// Charges the i-th row, unless it is met by a variable that is set, or by a free one.
pub fn charge_turn(
    rows: &Rows<'_>,
    costs: &[Cost],
    p: Part,
    res: &mut [u64],
    i: usize,
    free: u64,
) -> Taken
    requires { Costs rows.now.n costs.now × (rows.now.n ≤ length res.old) × (i < count rows.now) }
    ensures { Step rows.now costs.now (of p) res.old res.new result.by }
{
    let loose = free & !p.set;
    if rows.alone(i, p.one | loose, (p.set ^ p.one) | loose) {
        return Taken::NONE;
    }
    charge_row(rows, costs, p, res, rows.turn(i))
}

// A lower bound of the cost of every completion that meets the rows, and in `res` what is left to charge.
pub fn charge(rows: &Rows<'_>, costs: &[Cost], p: Part, res: &mut [u64]) -> u64
    requires { Costs rows.now.n costs.now × (rows.now.n ≤ length res.old) }
    ensures { Charged rows.now costs.now (of p) result res.new }
{
    let start = begin(costs, p, res);
    let mut free = start.free;
    let mut bound = start.by;
    for i in 0..rows.needs.len() {
        let taken = charge_turn(rows, costs, p, res, i, free);
        bound += taken.by;
        free |= taken.free;
    }
    bound
}
