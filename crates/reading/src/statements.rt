// One statement, read from the part of the text that begins just after the last semicolon.
ghost use Rattle.std.specs.Prelude.{◌^◌, ◌≤◌, ◌<◌, length};
ghost use Rattle.instance.specs.Limits.{max_terms, term_room};
ghost use Rattle.words.specs.declared.Place.TheVariants.{Inside};
ghost use Rattle.words.specs.Tokens.{marks_at};
ghost use Rattle.reading.specs.Grammar.{objective, row};
ghost use Rattle.reading.specs.Steps.{BoundIs, Closing, StatementIs};

use crate::cells::is_far;
use crate::terms::{Malformed, read_terms};
use instance::Kind;
use words::numbers::{is_min, read_number, read_relation};
use words::{Place, Token, next_token, skip_blanks};

// A bound, and the text after the `;` that follows it.
#[derive(Clone, Copy, Debug)]
pub struct Bound<'a> {
    pub value: i64,
    pub rest: &'a [u8],
}

// A statement: what it is, the count of its terms, its bound, whether a number or a variable is out of range, its highest variable, and the
// text after it.
#[derive(Clone, Copy, Debug)]
pub struct Statement<'a> {
    pub kind: Kind,
    pub count: usize,
    pub bound: i64,
    pub wide: bool,
    pub unnamed: bool,
    pub top: u64,
    pub rest: &'a [u8],
}

// The bound and the `;` that stand first in a text.
fn read_bound(text: &[u8]) -> Option<Bound<'_>>
    ensures { BoundIs text.now result }
{
    let next = next_token(text, Place::Inside)?;
    let Token::Word(word) = next.token else {
        return None;
    };
    let value = read_number(word)?;
    let last = next_token(next.rest, Place::Inside)?;
    let Token::Stop = last.token else {
        return None;
    };
    Some(Bound {
        value,
        rest: last.rest,
    })
}

// After `min:`: terms, then `;`.
fn read_objective<'a>(
    text: &'a [u8],
    terms: &mut [i32],
    base: usize,
) -> Result<Statement<'a>, Malformed>
    requires text_len_bound { length text.now < 2 ^ 32 }
    requires base_le_max_terms { base ≤ max_terms }
    requires term_room_in_bounds { term_room ≤ length terms.old }
    ensures { Closing objective (marks_at Inside text.now) (length text.now) base terms.old terms.new result }
{
    let read = read_terms(text, terms, base)?;
    let run = read.run;
    let next = read.stop.ok_or(Malformed)?;
    let Token::Stop = next.token else {
        return Err(Malformed);
    };
    Ok(Statement {
        kind: Kind::Objective,
        count: run.count,
        bound: 0,
        wide: run.wide,
        unnamed: run.unnamed,
        top: run.top,
        rest: next.rest,
    })
}

// Terms, a relation, a bound, then `;`.
fn read_row<'a>(text: &'a [u8], terms: &mut [i32], base: usize) -> Result<Statement<'a>, Malformed>
    requires text_len_bound { length text.now < 2 ^ 32 }
    requires base_le_max_terms { base ≤ max_terms }
    requires term_room_in_bounds { term_room ≤ length terms.old }
    ensures { Closing row (marks_at Inside text.now) (length text.now) base terms.old terms.new result }
{
    let read = read_terms(text, terms, base)?;
    let run = read.run;
    let next = read.stop.ok_or(Malformed)?;
    let Token::Word(word) = next.token else {
        return Err(Malformed);
    };
    let kind = read_relation(word).ok_or(Malformed)?;
    let bound = read_bound(next.rest).ok_or(Malformed)?;
    Ok(Statement {
        kind,
        count: run.count,
        bound: bound.value,
        wide: run.wide || is_far(bound.value),
        unnamed: run.unnamed,
        top: run.top,
        rest: bound.rest,
    })
}

// The statement that a part of the text begins with, if any is left; `place` is where the part begins in its line.
pub fn read_statement<'a>(
    text: &'a [u8],
    place: Place,
    terms: &mut [i32],
    base: usize,
) -> Result<Option<Statement<'a>>, Malformed>
    requires text_len_bound { length text.now < 2 ^ 32 }
    requires base_le_max_terms { base ≤ max_terms }
    requires term_room_in_bounds { term_room ≤ length terms.old }
    ensures { StatementIs (marks_at place text.now) (length text.now) base terms.old terms.new result }
{
    let start = skip_blanks(text, place);
    let Some(next) = next_token(start, Place::Inside) else {
        return Ok(None);
    };
    let Token::Word(word) = next.token else {
        return Err(Malformed);
    };
    if is_min(word) {
        return Ok(Some(read_objective(next.rest, terms, base)?));
    }
    Ok(Some(read_row(start, terms, base)?))
}
