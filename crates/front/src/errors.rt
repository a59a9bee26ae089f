// Why a front is not listed whole (document 01, 'Refusal numbers').
ghost use Rattle.std.specs.Prelude.{◌≡◌};
ghost use Rattle.front.specs.declared.errors.ListError.TheVariants.{NotInstance as Unlisted, Larger};
ghost use Rattle.front.specs.Refusals.{refusal_number, refusal_value};

use refusals::{NotInstance, Refusal};
use std::error::Error;
use std::fmt;

// A refusal of listing; the number is the room R.
#[derive(Clone, Copy, Debug, PartialEq, Eq)]
pub enum ListError {
    NotInstance, // 10: tables are not an instance
    Larger(u64), // 11: front larger than R
}

impl From<NotInstance> for ListError {
    ghost from_gives = { λ _ e. e ≡ Unlisted };

    fn from(_error: NotInstance) -> ListError {
        ListError::NotInstance
    }
}

impl Refusal for ListError {
    ghost use Rattle.std.proofs.Common.{rules};

    ghost number = { refusal_number };

    ghost value = { refusal_value };

    ghost some = { elim [ Unlisted ↦ Prim.search rules | Larger room ↦ Prim.search rules ] };

    ghost small = { elim [ Unlisted ↦ Prim.search rules | Larger room ↦ Prim.search rules ] };

    fn number(self) -> u64 {
        match self {
            ListError::NotInstance => 10,
            ListError::Larger(_) => 11,
        }
    }

    fn value(self) -> u64 {
        match self {
            ListError::NotInstance => 0,
            ListError::Larger(room) => room,
        }
    }
}

impl fmt::Display for ListError {
    fn fmt<W: fmt::Write>(&self, f: &mut fmt::Formatter<W>) -> fmt::Result {
        match self {
            ListError::NotInstance => write!(f, "the tables are not an instance"),
            ListError::Larger(room) => write!(f, "the front has more than {room} points"),
        }
    }
}

impl Error for ListError {}
