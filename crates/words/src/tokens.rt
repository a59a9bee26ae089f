// Tokens: the words and semicolons of a text, one after the other.
ghost use Rattle.std.specs.Prelude.{◌-◌, ◌≤◌, length, take, drop};
ghost use Rattle.words.specs.Answers.{Skipped, WordEnd, NextToken};

use crate::{Place, begins_token, is_plain, next_place};

// A word, or the `;` that ends a statement.
#[derive(Clone, Copy, Debug)]
pub enum Token<'a> {
    Word(&'a [u8]),
    Stop,
}

// The first token of a text, and the rest of the text after it.
#[derive(Clone, Copy, Debug)]
pub struct Next<'a> {
    pub token: Token<'a>,
    pub rest: &'a [u8],
}

// The place of the first byte that is neither blank nor in a comment, or the text's end. `place` is where the text begins in its line.
fn blanks_end(text: &[u8], place: Place) -> usize
    ensures high { result ≤ length text.now }
    ensures skipped { Skipped text.now place (take (length text.now - result) (drop result text.now)) }
{
    let mut p = place;
    // Kept by index: over the bytes themselves, with a count beside them, a turn takes up to twice the time.
    for i in 0..text.len() {
        let b = text[i];
        if begins_token(p, b) {
            return i;
        }
        p = next_place(p, b);
    }
    text.len()
}

// The text from its first byte on that is neither blank nor in a comment. `place` is where the text begins in its line.
pub fn skip_blanks(text: &[u8], place: Place) -> &[u8]
    ensures { Skipped text.now place result.now }
{
    &text[blanks_end(text, place)..]
}

// The place of the first byte that is no part of a word, or the text's end.
pub fn word_end(text: &[u8]) -> usize
    ensures { WordEnd text.now result }
{
    for i in 0..text.len() {
        if !is_plain(text[i]) {
            return i;
        }
    }
    text.len()
}

// The first token of a text, if there is one.
pub fn next_token(text: &[u8], place: Place) -> Option<Next<'_>>
    ensures { NextToken text.now place result }
{
    let start = skip_blanks(text, place);
    if start.is_empty() {
        return None;
    }
    if start[0] == b';' {
        return Some(Next {
            token: Token::Stop,
            rest: &start[1..],
        });
    }
    let end = word_end(start);
    Some(Next {
        token: Token::Word(&start[..end]),
        rest: &start[end..],
    })
}
