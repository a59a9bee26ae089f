// Why a text is refused (document 01, 'Refusal numbers').
use refusals::Refusal;
use std::error::Error;
use std::fmt;

// A refusal of reading; the number is that of the statement, counted from 1.
#[derive(Clone, Copy, Debug, PartialEq, Eq)]
pub enum ReadError {
    ShortTable, // 1: a lent table too short for reading text
    LongText, // 2: text too long
    Grammar(u64), // 3: the statement breaks the grammar
    LateObjective(u64), // 4: `min:` after a row
    TooMany(u64), // 5: fifth objective or 257th row
    OutOfRange(u64), // 6: coefficient or bound out of range
    NoVariable(u64), // 7: variable 0 or above 64
    TooManyTerms(u64), // 8: term total above 4,096
    NoObjective, // 9: no objective
}

impl Refusal for ReadError {
    ghost use Rattle.reading.specs.Refusals.{refusal_number, refusal_value, refusal-some, refusal-small};

    ghost number = { refusal_number };

    ghost value = { refusal_value };

    ghost some = { refusal-some };

    ghost small = { refusal-small };

    fn number(self) -> u64 {
        match self {
            ReadError::ShortTable => 1,
            ReadError::LongText => 2,
            ReadError::Grammar(_) => 3,
            ReadError::LateObjective(_) => 4,
            ReadError::TooMany(_) => 5,
            ReadError::OutOfRange(_) => 6,
            ReadError::NoVariable(_) => 7,
            ReadError::TooManyTerms(_) => 8,
            ReadError::NoObjective => 9,
        }
    }

    fn value(self) -> u64 {
        match self {
            ReadError::Grammar(s) => s,
            ReadError::LateObjective(s) => s,
            ReadError::TooMany(s) => s,
            ReadError::OutOfRange(s) => s,
            ReadError::NoVariable(s) => s,
            ReadError::TooManyTerms(s) => s,
            ReadError::ShortTable | ReadError::LongText | ReadError::NoObjective => 0,
        }
    }
}

impl fmt::Display for ReadError {
    fn fmt<W: fmt::Write>(&self, f: &mut fmt::Formatter<W>) -> fmt::Result {
        match self {
            ReadError::ShortTable => write!(f, "a table is too short"),
            ReadError::LongText => write!(f, "the text is too long"),
            ReadError::Grammar(s) => write!(f, "statement {s} breaks the grammar"),
            ReadError::LateObjective(s) => write!(f, "statement {s} is an objective after a row"),
            ReadError::TooMany(s) => write!(f, "statement {s} is one objective or row too many"),
            ReadError::OutOfRange(s) => write!(f, "statement {s} has a number out of range"),
            ReadError::NoVariable(s) => write!(f, "statement {s} names a variable out of range"),
            ReadError::TooManyTerms(s) => write!(f, "the terms up to statement {s} are too many"),
            ReadError::NoObjective => write!(f, "there is no objective"),
        }
    }
}

impl Error for ReadError {}
