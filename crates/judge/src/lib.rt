// Judging one assignment (document 01, 'The front', first paragraph; refusals 10 and 12): its vector and the first row that it does not meet.
//
// judge_assignment(terms, rows, assignment)   answers the vector and the first unmet row, or refuses 10 or 12
// value_of(.., k, assignment)                 the value of one objective, where the tables are known to be an instance
// values_of(.., assignment)                    the four values of a vector, for the same callers
// JudgeError                                  its refusals
// bits::bit, bits::literal_true               one bit of an assignment's number; whether a literal is true
//
// The caller lends the tables; nothing here writes to them.
// Read specs/Judging.antt (the first unmet row, the four values) and specs/Answers.antt (the contract). A caller needs
// proofs/AnswerLaws.antt beside them (VectorLaws, LowBitLaws and UnmetLaws tell more), and none of the code.
#![tactic(auto)]

pub mod bits; // bits.rt: bits of an assignment's number
mod sums; // sums.rt: the value of a term, the sum of terms
mod margins; // margins.rt: how far a row is from breaking, and the first row that is unmet
mod errors; // errors.rt: why an assignment is not judged
mod judging; // judging.rt: the answer

pub use errors::JudgeError;
pub use judging::{Judgement, judge_assignment, value_of, values_of};
