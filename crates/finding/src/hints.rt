// Where to branch, and which side to try first: hints that no promise rests on. Any unset variable and any side are right.
ghost use Rattle.std.specs.Prelude.{◌-◌, ◌<◌, ◌≤◌};
ghost use Rattle.charging.specs.Rows.{Objectives};
ghost use Rattle.finding.specs.Finding.{Branch};

use charging::{Cost, Part};

// An unset variable, by the order that is asked for; none where all are set. Any list serves as the order.
pub fn branch(n: usize, order: &[usize], p: Part) -> Option<usize>
    requires { n ≤ 64 }
    ensures { Branch n p result }
{
    if let Some(v) = order.iter().find(|v| **v < n && p.look(**v) == 2) {
        return Some(*v);
    }
    // Kept a loop: the contract of a range's `find` left open that it went over all variables.
    for v in 0..n {
        if p.look(v) == 2 {
            return Some(v);
        }
    }
    None
}

// The side to try first: the one that is not dear by the objective that v is dearest in. A hint: any side is right.
pub fn cheaper(n: usize, costs: &[Cost], count: usize, v: usize) -> u8
    requires { Objectives n count costs.now × (v < n) }
    ensures { result < 2 }
{
    let mut dearest = Cost { gap: 0, dear: 1 };
    for i in 0..count {
        let cost = charging::costs_of(n, costs, i)[v];
        if dearest.gap < cost.gap {
            dearest = cost;
        }
    }
    1 - dearest.dear
}
