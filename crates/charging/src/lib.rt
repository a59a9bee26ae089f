// Charging (R1 and R5): what a partial assignment leaves in reach of a row, and a lower bound of an objective over all completions that meet the rows.
//
// Rows, Term          half rows over n variables, lent by the caller; `terms_of` a row, and hints on the order of rows and on those to pass over
// Cost                what a variable costs by an objective; an objective is the slice of n of them, and more stand one after the other
// Part, look          a partial assignment by value, and how a variable stands in it: 0, 1, or 2 for unset
// reach(terms, p)     the greatest left side of a row that is still in reach
// sure(costs, p)      the cost of the variables that are set
// charge(.., res)     a lower bound of the cost, and in `res` what each variable may still be charged
//
// All numbers are unsigned. Read specs/Rows.antt and specs/Meets.antt; proofs/ChargeLaws.antt has the argument.
#![tactic(auto)]

mod charges;
mod parts;
mod rows;
mod sides;
mod terms;

pub use charges::{Taken, charge, charge_row, charge_turn, owed, sure};
pub use parts::Part;
pub use rows::{Cost, Rows, Term, Turn, costs_of};
pub use sides::mark;
pub use terms::{covered, least, pay, reach};
