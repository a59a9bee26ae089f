// Terms as text: each is sign, digits, space, literal, space (document 01, 'Written text').
ghost use Rattle.std.specs.Prelude.{◌≡◌, ◌+◌, ◌-◌, ◌*◌, ◌≤◌, length};
ghost use Rattle.decimal.specs.Bytes.{overwrite};
ghost use Rattle.instance.specs.Structs.{term_of};
ghost use Rattle.instance.specs.Meaning.{terms_at};
ghost use Rattle.writing.specs.Limits.{max_written};
ghost use Rattle.writing.specs.Writing.{literal_text, term_text, terms_text};

use instance::Term;

// The length of a literal: as that of the number, whose minus `~` stands for, and `x`.
fn literal_len(lit: i64) -> usize
    ensures { result ≡ length (literal_text lit) }
{
    1 + decimal::integer_len(lit)
}

// The length of a term.
fn term_len(t: Term) -> usize
    ensures { result ≡ length (term_text (term_of t)) }
{
    decimal::signed_len(i64::from(t.coef)) + literal_len(i64::from(t.lit)) + 2
}

// The length of the terms from `first` on, up to `end`.
pub fn terms_len(terms: &[i32], first: usize, end: usize) -> usize
    requires first_le_end { first ≤ end }
    requires end_in_bounds { end * 2 ≤ length terms.now }
    requires first_len_bound { length (terms_text (terms_at terms.now first (end - first))) ≤ max_written }
    ensures { result ≡ length (terms_text (terms_at terms.now first (end - first))) }
{
    let mut sum: usize = 0;
    for k in first..end {
        sum += term_len(Term::at(terms, k));
    }
    sum
}

// Writes a literal.
fn put_literal(out: &mut [u8], at: usize, lit: i64) -> usize
    requires { at + length (literal_text lit) ≤ length out.old }
    ensures left { out.new ≡ overwrite out.old at (literal_text lit) }
    ensures next { result ≡ at + length (literal_text lit) }
{
    let size = lit.unsigned_abs();
    if lit < 0 {
        let from = decimal::put_bytes(out, at, b"~x");
        return decimal::put_decimal(out, from, size);
    }
    let from = decimal::put_byte(out, at, b'x');
    decimal::put_decimal(out, from, size)
}

// Writes a term.
fn put_term(out: &mut [u8], at: usize, t: Term) -> usize
    requires { at + length (term_text (term_of t)) ≤ length out.old }
    ensures left { out.new ≡ overwrite out.old at (term_text (term_of t)) }
    ensures next { result ≡ at + length (term_text (term_of t)) }
{
    let coef = decimal::put_signed(out, at, i64::from(t.coef));
    let gap = decimal::put_byte(out, coef, b' ');
    let lit = put_literal(out, gap, i64::from(t.lit));
    decimal::put_byte(out, lit, b' ')
}

// Writes the terms from `first` on, up to `end`.
pub fn put_terms(out: &mut [u8], at: usize, terms: &[i32], first: usize, end: usize) -> usize
    requires first_le_end { first ≤ end }
    requires end_in_bounds { end * 2 ≤ length terms.now }
    requires first_in_bounds { at + length (terms_text (terms_at terms.now first (end - first))) ≤ length out.old }
    ensures left { out.new ≡ overwrite out.old at (terms_text (terms_at terms.now first (end - first))) }
    ensures next { result ≡ at + length (terms_text (terms_at terms.now first (end - first))) }
{
    let mut place = at;
    for k in first..end {
        place = put_term(out, place, Term::at(terms, k));
    }
    place
}
