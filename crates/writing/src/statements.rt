// Statements as text: an objective or a row (document 01, 'Written text').
ghost use Rattle.std.specs.Prelude.{◌≡◌, ◌+◌, ◌*◌, ◌≤◌, length};
ghost use Rattle.decimal.specs.Bytes.{overwrite};
ghost use Rattle.instance.specs.Kinds.{number_of};
ghost use Rattle.instance.specs.Structs.{entry_of};
ghost use Rattle.writing.specs.Limits.{max_written};
ghost use Rattle.writing.specs.Writing.{head_text, relation_text, bound_text, statement_text};

use crate::terms::{put_terms, terms_len};
use decimal::{integer_len, put_byte, put_bytes, put_integer};
use instance::{Entry, Kind};

// What stands before the terms: `min:` and a space, or nothing for a row.
fn head(kind: Kind) -> &'static [u8]
    ensures { result.now ≡ head_text (number_of kind) }
{
    match kind {
        Kind::Objective => b"min: ",
        Kind::AtLeast | Kind::AtMost | Kind::Equal | Kind::Other(_) => b"",
    }
}

// A row's relation.
fn relation(kind: Kind) -> &'static [u8]
    ensures { result.now ≡ relation_text (number_of kind) }
{
    match kind {
        Kind::AtLeast => b">=",
        Kind::AtMost => b"<=",
        Kind::Objective | Kind::Equal | Kind::Other(_) => b"=",
    }
}

// The length of what stands after the terms.
fn bound_len(kind: Kind, bound: i64) -> usize
    ensures { result ≡ length (bound_text (number_of kind) bound) }
{
    if matches!(kind, Kind::Objective) {
        return 0;
    }
    relation(kind).len() + integer_len(bound) + 2
}

// The length of a statement.
pub fn statement_len(terms: &[i32], e: Entry) -> usize
    requires count_in_bounds { (e.first + e.count) * 2 ≤ length terms.now }
    requires e_len_bound { length (statement_text (entry_of terms.now e)) ≤ max_written }
    ensures { result ≡ length (statement_text (entry_of terms.now e)) }
{
    let first = e.first;
    let end = first + e.count;
    head(e.kind).len() + terms_len(terms, first, end) + bound_len(e.kind, e.bound) + 2
}

// Writes what stands after the terms: nothing for an objective; relation, space, bound and space for a row.
fn put_bound(out: &mut [u8], at: usize, kind: Kind, bound: i64) -> usize
    requires { at + length (bound_text (number_of kind) bound) ≤ length out.old }
    ensures left { out.new ≡ overwrite out.old at (bound_text (number_of kind) bound) }
    ensures next { result ≡ at + length (bound_text (number_of kind) bound) }
{
    if matches!(kind, Kind::Objective) {
        return at;
    }
    let relation = put_bytes(out, at, relation(kind));
    let gap = put_byte(out, relation, b' ');
    let digits = put_integer(out, gap, bound);
    put_byte(out, digits, b' ')
}

// Writes a statement.
pub fn put_statement(out: &mut [u8], at: usize, terms: &[i32], e: Entry) -> usize
    requires count_in_bounds { (e.first + e.count) * 2 ≤ length terms.now }
    requires e_in_bounds { at + length (statement_text (entry_of terms.now e)) ≤ length out.old }
    ensures left { out.new ≡ overwrite out.old at (statement_text (entry_of terms.now e)) }
    ensures next { result ≡ at + length (statement_text (entry_of terms.now e)) }
{
    let first = e.first;
    let end = first + e.count;
    let head = put_bytes(out, at, head(e.kind));
    let sum = put_terms(out, head, terms, first, end);
    let bound = put_bound(out, sum, e.kind, e.bound);
    put_bytes(out, bound, b";\n")
}
