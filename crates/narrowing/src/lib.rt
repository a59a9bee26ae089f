// Narrowing (R1 and R2): what the rows force in a partial assignment.
//
// blank(n), put(n, p, v, b)   the part that sets nothing; p with v at b
// push(n, p, v, ..)           p with v at the side that is left to it, if the other takes too much
// pass(rows, p)               sets each variable without whose help a row cannot be met; none where p has no completion that meets the rows
//
// Rows and parts are those of the crate charging. Read specs/Parts.antt; proofs/PartLaws.antt has the argument.
#![tactic(auto)]

ghost use Rattle.std.specs.Prelude.{◌≡◌, ◌-◌, ◌<◌, ◌≤◌, ℕ};
ghost use Rattle.charging.specs.Rows.{of};
ghost use Rattle.charging.specs.Meets.{count, Meets};
ghost use Rattle.narrowing.specs.Parts.{Good, Put, Cuts, Maybe};

use charging::{Part, Rows};

// The part that sets no variable.
pub fn blank(n: usize) -> Part
    requires { n ≤ 64 }
    ensures { Good n result × ((v : ℕ) → of result v ≡ 2) }
{
    Part {
        set: 0,
        one: 0,
        left: n as u64,
    }
}

// p with v at b.
pub fn put(n: usize, p: Part, v: usize, b: u8) -> Part
    requires { Good n p × (v < n) × (n ≤ 64) × (b < 2) × (of p v ≡ 2) }
    ensures { Put n p v b result }
{
    let bit = 1 << v;
    let off = Part {
        set: p.set + bit,
        one: p.one,
        left: p.left - 1,
    };
    if b == 0 {
        return off;
    }
    Part {
        one: p.one + bit,
        ..off
    }
}

// Sets v to the other side than `side`, where standing there takes more than `slack`: the weight of a term that a row needs, or a cost.
pub fn push(n: usize, p: Part, v: usize, side: u8, takes: u64, slack: u64) -> Part
    requires { Good n p × (v < n) × (side < 2) × (n ≤ 64) }
    ensures { Maybe n p v (1 - side) (slack < takes) result }
{
    if takes <= slack {
        return p;
    }
    let y = p.look(v);
    if y == 2 {
        return put(n, p, v, 1 - side);
    }
    p
}

// What row h forces.
pub fn row(rows: &Rows<'_>, h: usize, p: Part) -> Option<Part>
    requires { Good rows.now.n p × (h < count rows.now) }
    ensures { Cuts rows.now.n (Meets rows.now) p result }
{
    let terms = rows.terms_of(h);
    let slack = charging::reach(terms, p).checked_sub(rows.needs[h])?;
    let mut q = p;
    for term in terms {
        q = push(
            rows.n,
            q,
            term.variable as usize,
            term.off,
            term.weight,
            slack,
        );
    }
    Some(q)
}

// What the i-th row forces, unless the hint says that it forces nothing.
pub fn visit(rows: &Rows<'_>, i: usize, p: Part) -> Option<Part>
    requires { Good rows.now.n p × (i < count rows.now) }
    ensures { Cuts rows.now.n (Meets rows.now) p result }
{
    if rows.idle(i, p) {
        return Some(p);
    }
    row(rows, rows.turn(i), p)
}

// What the rows force, one after the other.
pub fn pass(rows: &Rows<'_>, p: Part) -> Option<Part>
    requires { Good rows.now.n p }
    ensures { Cuts rows.now.n (Meets rows.now) p result }
{
    let mut q = p;
    for i in 0..rows.needs.len() {
        q = visit(rows, i, q)?;
    }
    Some(q)
}
