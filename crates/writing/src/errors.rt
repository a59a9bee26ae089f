// Why an instance is not written (document 01, 'Refusal numbers').
ghost use Rattle.std.specs.Prelude.{◌≡◌};
ghost use Rattle.writing.specs.declared.errors.WriteError.TheVariants.{NotInstance as Unwritten, ShortOutput};
ghost use Rattle.writing.specs.Refusals.{refusal_number};

use refusals::{NotInstance, Refusal};
use std::error::Error;
use std::fmt;

// A refusal of writing.
#[derive(Clone, Copy, Debug, PartialEq, Eq)]
pub enum WriteError {
    NotInstance, // 10: tables are not an instance
    ShortOutput, // 13: lent output shorter than the text
}

impl From<NotInstance> for WriteError {
    ghost from_gives = { λ _ e. e ≡ Unwritten };

    fn from(_error: NotInstance) -> WriteError {
        WriteError::NotInstance
    }
}

impl Refusal for WriteError {
    ghost use Rattle.std.proofs.Common.{rules};

    ghost number = { refusal_number };

    ghost value = { λ _. 0 };

    ghost some = { elim [ Unwritten ↦ Prim.search rules | ShortOutput ↦ Prim.search rules ] };

    ghost small = { elim [ Unwritten ↦ Prim.search rules | ShortOutput ↦ Prim.search rules ] };

    fn number(self) -> u64 {
        match self {
            WriteError::NotInstance => 10,
            WriteError::ShortOutput => 13,
        }
    }

    fn value(self) -> u64 {
        0
    }
}

impl fmt::Display for WriteError {
    fn fmt<W: fmt::Write>(&self, f: &mut fmt::Formatter<W>) -> fmt::Result {
        f.write_str(match self {
            WriteError::NotInstance => "the tables are not an instance",
            WriteError::ShortOutput => "the output is shorter than the text",
        })
    }
}

impl Error for WriteError {}
