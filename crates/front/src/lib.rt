// Listing the front (document 01, 'The front', refusals 10 and 11): every best trade, once, in rising order, with its smallest witness.
//
// list_front(terms, rows, values, models)   lists the points, or refuses 10 or 11
// ListError                                 its refusals
//
// The caller lends the tables and the runs for the points; scratch is local. Read specs/Listing.antt (candidates, the room, what the runs
// then hold) and specs/Answers.antt (the contract). A caller needs proofs/AnswerLaws.antt and proofs/ProperLaws.antt beside them: answers are
// determined, the list is complete, and it is proper.
// The lister is built on what judging, `normal` and `advancing` promise, and on none of their code.
#![tactic(auto)]

mod order; // order.rt: the order of branching, a hint
mod turns; // turns.rt: the order of rows, a hint
mod listing; // listing.rt: point after point
mod errors; // errors.rt: why a front is not listed whole
mod answer; // answer.rt: the answer

pub use answer::list_front;
pub use errors::ListError;
