// Why an assignment is not judged (document 01, 'Refusal numbers').
ghost use Rattle.std.specs.Prelude.{◌≡◌};
ghost use Rattle.judge.specs.declared.errors.JudgeError.TheVariants.{NotInstance as Unjudged, BitsBeyond};
ghost use Rattle.judge.specs.Refusals.{refusal_number};

use refusals::{NotInstance, Refusal};
use std::error::Error;
use std::fmt;

// A refusal of judging.
#[derive(Clone, Copy, Debug, PartialEq, Eq)]
pub enum JudgeError {
    NotInstance, // 10: tables are not an instance
    BitsBeyond, // 12: assignment has a bit from n up
}

impl From<NotInstance> for JudgeError {
    ghost from_gives = { λ _ e. e ≡ Unjudged };

    fn from(_error: NotInstance) -> JudgeError {
        JudgeError::NotInstance
    }
}

impl Refusal for JudgeError {
    ghost use Rattle.std.proofs.Common.{rules};

    ghost number = { refusal_number };

    ghost value = { λ _. 0 };

    ghost some = { elim [ Unjudged ↦ Prim.search rules | BitsBeyond ↦ Prim.search rules ] };

    ghost small = { elim [ Unjudged ↦ Prim.search rules | BitsBeyond ↦ Prim.search rules ] };

    fn number(self) -> u64 {
        match self {
            JudgeError::NotInstance => 10,
            JudgeError::BitsBeyond => 12,
        }
    }

    fn value(self) -> u64 {
        0
    }
}

impl fmt::Display for JudgeError {
    fn fmt<W: fmt::Write>(&self, f: &mut fmt::Formatter<W>) -> fmt::Result {
        f.write_str(match self {
            JudgeError::NotInstance => "the tables are not an instance",
            JudgeError::BitsBeyond => "the assignment has a bit above the highest variable",
        })
    }
}

impl Error for JudgeError {}
