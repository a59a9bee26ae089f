// A whole text: its statements in turn, and what is left in both tables.
ghost use Rattle.std.specs.Prelude.{◌≡◌, [], ◌≤◌, length};
ghost use Rattle.instance.specs.Limits.{term_room, row_room};
ghost use Rattle.instance.specs.Layout.{term_table, row_table};
ghost use Rattle.reading.specs.Limits.{max_text};
ghost use Rattle.reading.specs.Outcomes.{ReadIs};
ghost use Rattle.reading.specs.Answers.{read_answer, read_terms, read_rows};

use crate::cells::{clear_tables, store_entry};
use crate::errors::ReadError;
use crate::statements::read_statement;
use crate::verdicts::{Taken, check};
use instance::{Entry, Instance};
use words::Place;

// A text has at most so many bytes.
pub const MAX_TEXT: usize = 65_535;

// Statement by statement, each from the part of the text that begins just after the last semicolon.
fn read_statements(text: &[u8], terms: &mut [i32], rows: &mut [i64]) -> Result<u64, ReadError>
    requires text_len_bound { length text.now ≤ max_text }
    requires term_room_in_bounds { term_room ≤ length terms.old }
    requires row_room_in_bounds { row_room ≤ length rows.old }
    requires terms_value { terms.old ≡ term_table [] terms.old }
    requires rows_value { rows.old ≡ row_table [] rows.old }
    ensures { ReadIs text.now terms.old terms.new rows.old rows.new result }
{
    let mut rest = text;
    let mut place = Place::Start;
    let mut number: u64 = 1;
    let mut taken = Taken {
        objectives: 0,
        rows: 0,
        terms: 0,
        top: 0,
    };
    // Kept as a loop: how much of the text a statement takes is known once it is read.
    loop {
        let Ok(next) = read_statement(rest, place, terms, taken.terms) else {
            return Err(ReadError::Grammar(number));
        };
        let Some(s) = next else {
            break;
        };
        check(s, taken, number)?;
        let k = taken.objectives + taken.rows;
        let entry = Entry {
            kind: s.kind,
            first: taken.terms,
            count: s.count,
            bound: s.bound,
        };
        store_entry(rows, k, entry);
        taken = taken.with(s);
        rest = s.rest;
        place = Place::Inside;
        number += 1;
    }
    if taken.objectives == 0 {
        return Err(ReadError::NoObjective);
    }
    Ok(taken.top)
}

// Reads instance text into lent tables and answers n.
// Refuses 1 and 2, all as found; 3 to 8 with the number of the statement, then 9: the room of both tables is then zero.
// Leaves, on done, the entries and their terms, zeros to the end of each room; numbers beyond the rooms are never touched.
// Rules out: a table half filled on a refusal; a statement taken whose number is counted from 0; a text refused that document 01 takes.
pub fn read_text(text: &[u8], terms: &mut [i32], rows: &mut [i64]) -> Result<u64, ReadError>
    ensures answer { result ≡ read_answer text.now terms.old rows.old }
    ensures left_terms { terms.new ≡ read_terms text.now terms.old rows.old }
    ensures left_rows { rows.new ≡ read_rows text.now terms.old rows.old }
{
    if terms.len() < Instance::TERM_ROOM {
        return Err(ReadError::ShortTable);
    }
    if rows.len() < Instance::ROW_ROOM {
        return Err(ReadError::ShortTable);
    }
    if MAX_TEXT < text.len() {
        return Err(ReadError::LongText);
    }
    clear_tables(terms, rows);
    let answer = read_statements(text, terms, rows);
    if answer.is_err() {
        clear_tables(terms, rows);
    }
    answer
}
