// The bytes of instance text: comments, blanks and words (here), and what a word says (module numbers).
//
// next_token(text, place)   the first token of a text, and the rest of the text after it
// skip_blanks, word_end     the text without the blanks and comments that it begins with; where its first word ends
// is_blank, is_plain, ..    one byte, and where the byte after it stands
//
// Document 01, section 'Instance text'. Read specs/Bytes.antt and specs/Tokens.antt first.
#![tactic(auto)]

pub mod numbers;
mod tokens;

ghost use Rattle.std.specs.Prelude.{◌≡◌};
ghost use Rattle.words.specs.Bytes.{is_blank, is_plain, place_after, next_place, is_kept, begins};

pub use tokens::{Next, Token, next_token, skip_blanks, word_end};

// Where a byte stands: at a line's beginning, further on, or in a comment.
#[derive(Clone, Copy, Debug, PartialEq, Eq)]
pub enum Place {
    Inside,
    Start,
    Comment,
}

// Whether a byte is a blank.
pub fn is_blank(b: u8) -> bool
    ensures { result ≡ is_blank b }
{
    b == b' ' || b == b'\t' || b == b'\r' || b == b'\n'
}

// Whether a byte is part of a word.
pub fn is_plain(b: u8) -> bool
    ensures { result ≡ is_plain b }
{
    !is_blank(b) && b != b';'
}

// Where the byte after b stands, outside a comment.
pub fn place_after(b: u8) -> Place
    ensures { result ≡ place_after b }
{
    if b == b'\n' {
        Place::Start
    } else {
        Place::Inside
    }
}

// Where the byte after b stands.
pub fn next_place(place: Place, b: u8) -> Place
    ensures { result ≡ next_place place b }
{
    match place {
        Place::Start if b == b'*' => Place::Comment,
        Place::Comment if b != b'\n' => Place::Comment,
        Place::Comment => Place::Start,
        Place::Inside | Place::Start => place_after(b),
    }
}

// Whether a byte is no part of a comment.
pub fn is_kept(place: Place, b: u8) -> bool
    ensures { result ≡ is_kept place b }
{
    match place {
        Place::Inside => true,
        Place::Start => b != b'*',
        Place::Comment => false,
    }
}

// Whether a byte is kept and is no blank.
pub fn begins_token(place: Place, b: u8) -> bool
    ensures { result ≡ begins place b }
{
    !is_blank(b) && is_kept(place, b)
}
