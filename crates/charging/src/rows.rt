// Normal tables, lent by the caller: half rows of terms, and the costs of an objective.
ghost use Rattle.std.specs.Prelude.{◌≡◌, ◌+◌, ◌*◌, ◌≤◌, length};
ghost use Rattle.charging.specs.Rows.{Table, costs_of};

use crate::parts::Part;

// A term gives its weight unless its variable stands at `off`. Sides are kept as numbers: the rules are stated on bits, and a look is compared with them.
#[derive(Clone, Copy, Debug, PartialEq, Eq)]
pub struct Term {
    pub weight: u64,
    pub variable: u8,
    pub off: u8,
}

// What a variable costs by an objective where it stands on its dear side.
#[derive(Clone, Copy, Debug, PartialEq, Eq)]
pub struct Cost {
    pub gap: u64,
    pub dear: u8,
}

// A hint: a row to look at, and as words the variables that meet it alone at 1 and those that do so at 0.
#[derive(Clone, Copy, Debug, PartialEq, Eq)]
pub struct Turn {
    pub row: usize,
    pub one: u64,
    pub zero: u64,
}

// Half rows over n variables, one after the other: row h has the terms from starts[h] to starts[h + 1], and needs needs[h]. In the order of `turns`
// they are looked at; no promise rests on that, so any turns are right. `starts` is kept beside `needs`, since it has one number more.
#[derive(Clone, Copy)]
pub struct Rows<'a> {
    pub n: usize,
    pub starts: &'a [usize],
    pub terms: &'a [Term],
    pub needs: &'a [u64],
    pub turns: &'a [Turn],
    pub ghost table: { Table n starts.now terms.now needs.now },
}

impl<'a> Rows<'a> {
    ghost use Rattle.std.specs.Prelude.{◌≡◌, ◌<◌};
    ghost use Rattle.charging.specs.Meets.{count, terms_of};

    // The terms of row h.
    pub fn terms_of(&self, h: usize) -> &'a [Term]
        requires { h < count self.now }
        ensures { result.now ≡ terms_of self.now h }
    {
        &self.terms[self.starts[h]..self.starts[h + 1]]
    }

    // The row that is looked at as the i-th: the one that the hint names, or i where it names none.
    pub fn turn(&self, i: usize) -> usize
        requires { i < count self.now }
        ensures { result < count self.now }
    {
        match self.turns.get(i) {
            Some(turn) if turn.row < self.needs.len() => turn.row,
            _ => i,
        }
    }

    // Whether one of the variables of `one`, at 1, or of `zero`, at 0, meets the i-th row alone.
    pub fn alone(&self, i: usize, one: u64, zero: u64) -> bool {
        self.turns
            .get(i)
            .is_some_and(|turn| (turn.one & one) | (turn.zero & zero) != 0)
    }

    // Whether two of the variables that are not in `set` can each meet the i-th row alone.
    fn choice(&self, i: usize, set: u64) -> bool {
        self.turns.get(i).is_some_and(|turn| {
            let open = (turn.one | turn.zero) & !set;
            open != 0 && open & (open - 1) != 0
        })
    }

    // Whether the i-th row forces nothing in p: a variable that is set meets it, or two that are unset can.
    pub fn idle(&self, i: usize, p: Part) -> bool {
        self.alone(i, p.one, p.set ^ p.one) || self.choice(i, p.set)
    }
}

// The costs of objective i, where objectives of n variables stand one after the other.
pub fn costs_of(n: usize, costs: &[Cost], i: usize) -> &[Cost]
    requires { i * n + n ≤ length costs.now }
    ensures { result.now ≡ costs_of n costs.now i }
{
    &costs[i * n..i * n + n]
}
