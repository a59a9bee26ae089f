// Reading instance text into lent tables: read_text, and ReadError for its refusals.
// Document 01, section 'Instance text', refusals 1 to 9. Read specs/Grammar.antt (what a statement says), specs/Reading.antt (what a text
// says), specs/Answers.antt (the contract). Each crate file below is one step; all but `texts` are parts of reading and not for other callers.
#![tactic(auto)]

pub mod cells; // cells.rt: what a term and an entry leave in the tables
pub mod terms; // terms.rt: a term, a run of terms
pub mod statements; // statements.rt: one statement
pub mod verdicts; // verdicts.rt: the causes of a statement's refusal, in their order
mod errors; // errors.rt: why a text is refused
pub mod texts; // texts.rt: a whole text

pub use errors::ReadError;
pub use texts::{MAX_TEXT, read_text};
