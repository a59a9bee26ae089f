// What a word says: a number, a literal, a relation, `min:`.
ghost use Rattle.std.specs.Prelude.{◌≡◌};
ghost use Rattle.words.specs.Numbers.{digits, number, literal, is_min};
ghost use Rattle.words.specs.Answers.{RelationIs};

use decimal::read_numeral;
use instance::Kind;

// Digits after a sign that is known.
pub fn read_digits(word: &[u8], negative: bool) -> Option<i64>
    ensures { result ≡ digits negative word.now }
{
    let size = read_numeral(word)? as i64;
    Some(if negative { -size } else { size })
}

// A coefficient or a bound: an optional sign and 1 to 10 digits.
pub fn read_number(word: &[u8]) -> Option<i64>
    ensures { result ≡ number word.now }
{
    match word {
        [b'+', rest @ ..] => read_digits(rest, false),
        [b'-', rest @ ..] => read_digits(rest, true),
        [_, ..] => read_digits(word, false),
        [] => None,
    }
}

// A literal: `x` or `~x` and 1 to 10 digits; a negated one is negative.
pub fn read_literal(word: &[u8]) -> Option<i64>
    ensures { result ≡ literal word.now }
{
    match word {
        [b'x', rest @ ..] => read_digits(rest, false),
        [b'~', b'x', rest @ ..] => read_digits(rest, true),
        _ => None,
    }
}

// The kind of row that a word stands for: `>=`, `<=`, `=`, and none for any other word.
pub fn read_relation(word: &[u8]) -> Option<Kind>
    ensures { RelationIs word.now result }
{
    match word {
        b">=" => Some(Kind::AtLeast),
        b"<=" => Some(Kind::AtMost),
        b"=" => Some(Kind::Equal),
        _ => None,
    }
}

// Whether a word is `min:`.
pub fn is_min(word: &[u8]) -> bool
    ensures { result ≡ is_min word.now }
{
    word == b"min:".as_slice()
}
