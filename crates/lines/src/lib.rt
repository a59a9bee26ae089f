// The lines of a listing (document 01, 'The listing program'), each written at the beginning of a lent run of bytes.
//
// put_front(out, points, objectives, n, cut)                   the first line
// put_point(out, place, values, model)                         the line of a point
// put_refused(out, number, statement)                          the line of a refusal
//
// Each answers how long the line is. A run of MAX_LINE bytes has room for each. Read specs/Lines.antt.
#![tactic(auto)]

ghost use Rattle.std.specs.Prelude.{◌≡◌, ◌++◌, ◌∷◌, [], ◌+◌, ◌≤◌, length};
ghost use Rattle.decimal.specs.Bytes.{overwrite};
ghost use Rattle.decimal.specs.Decimal.{decimal, integer};
ghost use Rattle.lines.specs.Lines.{end_text, front_line, values_text, point_line, refused_line};

use decimal::{put_byte, put_bytes, put_decimal, put_integer};

// Bytes that each line fits in.
pub const MAX_LINE: usize = 256;

// Writes a word and a number.
fn put_word(out: &mut [u8], at: usize, word: &[u8], x: u64) -> usize
    requires { at + length (word.now ++ decimal x) ≤ length out.old }
    ensures left { out.new ≡ overwrite out.old at (word.now ++ decimal x) }
    ensures next { result ≡ at + length (word.now ++ decimal x) }
{
    let from = put_bytes(out, at, word);
    put_decimal(out, from, x)
}

// Writes the end of the first line.
fn put_end(out: &mut [u8], at: usize, cut: bool) -> usize
    requires { at + length (end_text cut) ≤ length out.old }
    ensures left { out.new ≡ overwrite out.old at (end_text cut) }
    ensures next { result ≡ at + length (end_text cut) }
{
    if cut {
        return put_bytes(out, at, b" cut\n");
    }
    put_byte(out, at, b'\n')
}

// Writes the first line of a listing.
// Rules out: another number's digits; ` cut` without refusal 11.
pub fn put_front(out: &mut [u8], points: u64, objectives: u64, n: u64, cut: bool) -> usize
    requires { 256 ≤ length out.old }
    ensures left { out.new ≡ overwrite out.old 0 (front_line points objectives n cut) }
    ensures next { result ≡ length (front_line points objectives n cut) }
    ensures small { result ≤ 256 }
{
    let a = put_word(out, 0, b"front ", points);
    let b = put_word(out, a, b" objectives ", objectives);
    let c = put_word(out, b, b" variables ", n);
    put_end(out, c, cut)
}

// Writes a value after a space.
fn put_value(out: &mut [u8], at: usize, v: i64) -> usize
    requires { at + length (32 ∷ integer v) ≤ length out.old }
    ensures left { out.new ≡ overwrite out.old at (32 ∷ integer v) }
    ensures next { result ≡ at + length (32 ∷ integer v) }
{
    let from = put_byte(out, at, b' ');
    put_integer(out, from, v)
}

// Writes values, each after a space.
fn put_values(out: &mut [u8], at: usize, values: &[i64]) -> usize
    requires { at + length (values_text values.now) ≤ length out.old }
    ensures left { out.new ≡ overwrite out.old at (values_text values.now) }
    ensures next { result ≡ at + length (values_text values.now) }
{
    let mut place = at;
    for &v in values {
        place = put_value(out, place, v);
    }
    place
}

// Writes the line of a point: its place, its used values, its witness.
// Rules out: another point's values; a value without its minus.
pub fn put_point(out: &mut [u8], place: u64, values: &[i64], model: u64) -> usize
    requires in_bounds { 256 ≤ length out.old }
    requires few { length values.now ≤ 4 }
    ensures left { out.new ≡ overwrite out.old 0 (point_line place values.now model) }
    ensures next { result ≡ length (point_line place values.now model) }
    ensures small { result ≤ 256 }
{
    let a = put_word(out, 0, b"point ", place);
    let b = put_bytes(out, a, b" values");
    let c = put_values(out, b, values);
    let d = put_word(out, c, b" model ", model);
    put_byte(out, d, b'\n')
}

// Writes the line of a refusal.
// Rules out: the statement's number in the refusal's place.
pub fn put_refused(out: &mut [u8], number: u64, statement: u64) -> usize
    requires { 256 ≤ length out.old }
    ensures left { out.new ≡ overwrite out.old 0 (refused_line number statement) }
    ensures next { result ≡ length (refused_line number statement) }
    ensures small { result ≤ 256 }
{
    let a = put_word(out, 0, b"refused ", number);
    let b = put_word(out, a, b" statement ", statement);
    put_byte(out, b, b'\n')
}
