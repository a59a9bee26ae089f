// Refusals (document 01, 'Refusal numbers'): what every error of an operation has.
//
// Refusal       its number in document 01, and the statement, block or count of points that it names
// NotInstance   tables are not an instance, which several operations refuse first
//
// Each crate has an error enum of its own and states the table of its numbers in its specs.
#![tactic(auto)]

ghost use Rattle.std.specs.Prelude.{◌≡◌, ℕ, ◌≤◌};

use std::error::Error;
use std::fmt;

// An error by its number.
pub trait Refusal: Copy {
    ghost number: { Self → ℕ };

    ghost value: { Self → ℕ };

    // Its number in document 01.
    fn number(self) -> u64
        ensures { result ≡ number self };

    // The statement, block or count that it names; 0 where it names none.
    fn value(self) -> u64
        ensures { result ≡ value self };

    // Done has the number 0.
    ghost some: { (e : Self) → 1 ≤ number e };

    ghost small: { (e : Self) → number e ≤ 99 };
}

// 10: tables are not an instance.
#[derive(Clone, Copy, Debug, PartialEq, Eq)]
pub struct NotInstance;

impl Refusal for NotInstance {
    ghost use Rattle.std.proofs.Common.{rules};

    ghost number = { λ _. 10 };

    ghost value = { λ _. 0 };

    ghost some = { Prim.search rules };

    ghost small = { Prim.search rules };

    fn number(self) -> u64 {
        10
    }

    fn value(self) -> u64 {
        0
    }
}

impl fmt::Display for NotInstance {
    fn fmt<W: fmt::Write>(&self, f: &mut fmt::Formatter<W>) -> fmt::Result {
        f.write_str("the tables are not an instance")
    }
}

impl Error for NotInstance {}
