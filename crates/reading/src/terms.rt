// A run of terms of a statement.
ghost use Rattle.std.specs.Prelude.{◌^◌, ◌≤◌, ◌<◌, length};
ghost use Rattle.instance.specs.Limits.{max_terms, term_room};
ghost use Rattle.reading.specs.Steps.{SecondIs, StepIs, RunEnd, Longer};

use crate::cells::{is_unnamed, is_wide, store_term};
use words::numbers::{read_literal, read_number, read_relation};
use words::{Next, Place, Token, next_token};

// A statement breaks the grammar.
#[derive(Clone, Copy, Debug, PartialEq, Eq)]
pub struct Malformed;

// A literal, and the text after it.
#[derive(Clone, Copy, Debug)]
pub struct Literal<'a> {
    pub lit: i64,
    pub rest: &'a [u8],
}

// A coefficient and a literal, and the text after them.
#[derive(Clone, Copy, Debug)]
pub struct TermRead<'a> {
    pub coef: i64,
    pub lit: i64,
    pub rest: &'a [u8],
}

// The literal that stands first in a text, after a coefficient.
fn read_second(text: &[u8]) -> Option<Literal<'_>>
    ensures { SecondIs text.now result }
{
    let next = next_token(text, Place::Inside)?;
    let Token::Word(word) = next.token else {
        return None;
    };
    let lit = read_literal(word)?;
    Some(Literal {
        lit,
        rest: next.rest,
    })
}

// What stands where a term could begin: a term, or the token that stands there instead, if there is one.
#[derive(Clone, Copy, Debug)]
pub enum Step<'a> {
    Term(TermRead<'a>),
    Stop(Option<Next<'a>>),
}

// The term that stands first in a text, or the relation, the `;` or nothing that stands there.
pub fn read_term(text: &[u8]) -> Result<Step<'_>, Malformed>
    ensures { StepIs text.now result }
{
    let Some(next) = next_token(text, Place::Inside) else {
        return Ok(Step::Stop(None));
    };
    let Token::Word(word) = next.token else {
        return Ok(Step::Stop(Some(next)));
    };
    if read_relation(word).is_some() {
        return Ok(Step::Stop(Some(next)));
    }
    let coef = read_number(word).ok_or(Malformed)?;
    let second = read_second(next.rest).ok_or(Malformed)?;
    Ok(Step::Term(TermRead {
        coef,
        lit: second.lit,
        rest: second.rest,
    }))
}

// A run of terms: how many there are, whether a coefficient or a variable is out of range, the highest variable, and the text after them.
#[derive(Clone, Copy, Debug)]
pub struct Run<'a> {
    pub count: usize,
    pub wide: bool,
    pub unnamed: bool,
    pub top: u64,
    pub rest: &'a [u8],
}

impl<'a> Run<'a> {
    // The run with one term more.
    fn with(self, t: TermRead<'a>) -> Run<'a>
        requires { self.count < 2 ^ 32 }
        ensures { Longer self.entry t.entry result }
    {
        Run {
            count: self.count + 1,
            wide: self.wide || is_wide(t.coef),
            unnamed: self.unnamed || is_unnamed(t.lit),
            top: self.top.max(t.lit.unsigned_abs()),
            rest: t.rest,
        }
    }
}

// A run of terms, and the token that stands after it, if there is one.
#[derive(Clone, Copy, Debug)]
pub struct TermsRead<'a> {
    pub run: Run<'a>,
    pub stop: Option<Next<'a>>,
}

// The terms that stand first in a text, stored from place `base` of the table on where they are in range and have room.
pub fn read_terms<'a>(
    text: &'a [u8],
    terms: &mut [i32],
    base: usize,
) -> Result<TermsRead<'a>, Malformed>
    requires text_len_bound { length text.now < 2 ^ 32 }
    requires base_le_max_terms { base ≤ max_terms }
    requires term_room_in_bounds { term_room ≤ length terms.old }
    ensures { RunEnd text.now base terms.old terms.new result }
{
    let mut run = Run {
        count: 0,
        wide: false,
        unnamed: false,
        top: 0,
        rest: text,
    };
    // Kept as a loop: how much of the text a term takes is known once it is read.
    loop {
        match read_term(run.rest)? {
            Step::Stop(stop) => return Ok(TermsRead { run, stop }),
            Step::Term(t) => {
                store_term(terms, base + run.count, t.coef, t.lit);
                run = run.with(t);
            }
        }
    }
}
