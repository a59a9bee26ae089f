// An instance as text (document 01, 'Instance text', 'Written text'; refusals 10 and 13).
//
// write_text(terms, rows, out)   writes the instance that lent tables are into lent bytes
// WriteError                     its refusals
//
// The length of the text is known before a byte is written, so a refusal leaves the output as found.
// Read specs/Writing.antt (the text), specs/Answers.antt (the contract), specs/Limits.antt (the longest text).
#![tactic(auto)]

mod terms; // terms.rt: a literal, a term, the terms of an entry
mod statements; // statements.rt: an objective or a row
mod errors; // errors.rt: why an instance is not written

ghost use Rattle.std.specs.Prelude.{◌≡◌, ◌≤◌, length};
ghost use Rattle.decimal.specs.Bytes.{overwrite};
ghost use Rattle.instance.specs.Tables.{IsInstance, entries_in};
ghost use Rattle.writing.specs.Answers.{text_of, WrittenAs};

use crate::statements::{put_statement, statement_len};
pub use errors::WriteError;
use instance::{Entry, Instance};

// The length of the text of the first n entries.
fn text_len(terms: &[i32], rows: &[i64], n: usize) -> usize
    requires instance { IsInstance terms.now rows.now }
    requires n_value { n ≡ entries_in rows.now }
    ensures { result ≡ length (text_of terms.now rows.now) }
{
    let mut sum: usize = 0;
    for k in 0..n {
        sum += statement_len(terms, Entry::at(rows, k));
    }
    sum
}

// Writes the statements of the first n entries.
fn put_text(out: &mut [u8], terms: &[i32], rows: &[i64], n: usize) -> usize
    requires instance { IsInstance terms.now rows.now }
    requires n_value { n ≡ entries_in rows.now }
    requires rows_in_bounds { length (text_of terms.now rows.now) ≤ length out.old }
    ensures left { out.new ≡ overwrite out.old 0 (text_of terms.now rows.now) }
    ensures next { result ≡ length (text_of terms.now rows.now) }
{
    let mut at: usize = 0;
    for k in 0..n {
        at = put_statement(out, at, terms, Entry::at(rows, k));
    }
    at
}

// Writes the instance that the tables are as text, from the beginning of `out`, and answers the bytes written.
// Refuses 10 where the tables are not an instance, then 13 where `out` is shorter than the text; `out` is then as found.
// Leaves the bytes of `out` after the text as found.
// Rules out: a text cut short; a plus before a bound; another number of bytes than were written.
pub fn write_text(terms: &[i32], rows: &[i64], out: &mut [u8]) -> Result<u64, WriteError>
    ensures { WrittenAs terms.now rows.now out.old out.new result }
{
    let sizes = Instance::of(terms, rows)?;
    let n = sizes.objectives + sizes.rows;
    if out.len() < text_len(terms, rows, n) {
        return Err(WriteError::ShortOutput);
    }
    let end = put_text(out, terms, rows, n);
    Ok(end as u64)
}
