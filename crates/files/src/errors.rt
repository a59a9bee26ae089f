// Why a file is not written or read, each with its number in document 01, 'Refusal numbers'.
ghost use Rattle.files.specs.Written.{write_number};
ghost use Rattle.files.specs.Taken.{read_number, read_block};

use refusals::Refusal;
use std::error::Error;
use std::fmt;

// Why a list is not written.
#[derive(Clone, Copy, Debug, PartialEq, Eq)]
pub enum WriteFileError {
    NotProper, // 14: list not proper
    ShortOutput, // 13: lent output shorter than what this answer would fill
}

// Why a file is not read.
#[derive(Clone, Copy, Debug, PartialEq, Eq)]
pub enum ReadFileError {
    BadLength, // 15: file length 0, not a multiple of 512, or above 44,544
    BadCheck(u64), // 16: a check does not fit: lowest such block
    BadLayout(u64), // 17: kind, number, form, block total or a zero byte wrong: lowest such block, the head if the total is wrong
    NotProper, // 14: list not proper
    ShortOutput, // 13: lent output shorter than what this answer would fill
}

impl Refusal for WriteFileError {
    ghost use Rattle.std.proofs.Common.{rules};

    ghost number = { write_number };

    ghost value = { λ _. 0 };

    ghost some = { Prim.search rules };

    ghost small = { Prim.search rules };

    fn number(self) -> u64 {
        match self {
            WriteFileError::NotProper => 14,
            WriteFileError::ShortOutput => 13,
        }
    }

    fn value(self) -> u64 {
        0
    }
}

impl Refusal for ReadFileError {
    ghost use Rattle.std.proofs.Common.{rules};

    ghost number = { read_number };

    ghost value = { read_block };

    ghost some = { Prim.search rules };

    ghost small = { Prim.search rules };

    fn number(self) -> u64 {
        match self {
            ReadFileError::BadLength => 15,
            ReadFileError::BadCheck(_) => 16,
            ReadFileError::BadLayout(_) => 17,
            ReadFileError::NotProper => 14,
            ReadFileError::ShortOutput => 13,
        }
    }

    fn value(self) -> u64 {
        match self {
            ReadFileError::BadCheck(block) | ReadFileError::BadLayout(block) => block,
            _ => 0,
        }
    }
}

impl fmt::Display for WriteFileError {
    fn fmt<W: fmt::Write>(&self, f: &mut fmt::Formatter<W>) -> fmt::Result {
        match self {
            WriteFileError::NotProper => f.write_str("the list is not proper"),
            WriteFileError::ShortOutput => f.write_str("the lent bytes are too few"),
        }
    }
}

impl fmt::Display for ReadFileError {
    fn fmt<W: fmt::Write>(&self, f: &mut fmt::Formatter<W>) -> fmt::Result {
        match self {
            ReadFileError::BadLength => f.write_str("the length is not that of a file"),
            ReadFileError::BadCheck(block) => write!(f, "the check of block {block} does not fit"),
            ReadFileError::BadLayout(block) => write!(
                f,
                "block {block} is not laid out as it should be"
            ),
            ReadFileError::NotProper => f.write_str("the list is not proper"),
            ReadFileError::ShortOutput => f.write_str("the lent runs are too short"),
        }
    }
}

impl Error for WriteFileError {}

impl Error for ReadFileError {}
