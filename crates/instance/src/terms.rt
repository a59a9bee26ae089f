// Terms: two numbers for a term, coefficient and literal (document 01, 'Instance tables').
ghost use Rattle.std.specs.Prelude.{◌≡◌, ◌+◌, ◌*◌, ◌≤◌, ◌<◌, nat_abs, length};
ghost use Rattle.instance.specs.Terms.{TermOk};
ghost use Rattle.instance.specs.Tables.{term_at};
ghost use Rattle.instance.specs.Tests.{Decides};
ghost use Rattle.instance.specs.Parts.{NamedIn};
ghost use Rattle.instance.specs.Structs.{term_of};

use crate::signed::magnitude32;

// A coefficient and a literal, i for xi and -i for ~xi.
#[derive(Clone, Copy, Debug, PartialEq, Eq)]
pub struct Term {
    pub coef: i32,
    pub lit: i32,
}

impl Term {
    // Numbers of the table for one term.
    pub const NUMBERS: usize = 2;
    // Coefficients are within this of zero.
    pub const MAX_COEF: u64 = 1_000_000;
    // Variables are x1 to x64.
    pub const MAX_VARIABLE: u64 = 64;

    // Term k of the table.
    pub fn at(terms: &[i32], k: usize) -> Term
        requires { k * 2 + 1 < length terms.now }
        ensures { term_of result ≡ term_at terms.now k }
    {
        let at = k * Term::NUMBERS;
        let coef = terms[at];
        let lit = terms[at + 1];
        Term { coef, lit }
    }

    // The number of the variable that the literal names.
    pub fn variable(self) -> u64
        ensures { result ≡ nat_abs self.lit }
    {
        magnitude32(self.lit)
    }

    // Whether coefficient and variable are in range.
    pub fn in_range(self) -> bool
        ensures { Decides result (TermOk (term_of self)) }
    {
        let v = self.variable();
        magnitude32(self.coef) <= Term::MAX_COEF && 1 <= v && v <= Term::MAX_VARIABLE
    }
}

// The highest variable that the first n terms name, where all of them are in range.
pub fn highest_of(terms: &[i32], n: usize) -> Option<u64>
    requires { n * 2 ≤ length terms.now }
    ensures { NamedIn terms.now n result }
{
    let mut top: u64 = 0;
    for k in 0..n {
        let t = Term::at(terms, k);
        if !t.in_range() {
            return None;
        }
        top = top.max(t.variable());
    }
    Some(top)
}
