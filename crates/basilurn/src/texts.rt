// Instance text: reading and writing.
ghost use Rattle.std.specs.Prelude.{◌≡◌};
ghost use Rattle.reading.specs.Answers.{read_number, read_value, read_answer, read_terms, read_rows};
ghost use Rattle.basilurn.specs.Words.{packed};
ghost use Rattle.basilurn.specs.Texts.{PackedWritten};

use crate::packing::pack;

// Reads instance text into lent tables: n, or the statement.
#[unsafe(no_mangle)]
pub extern "C" fn basilurn_read_text(text: &[u8], terms: &mut [i32], rows: &mut [i64]) -> u64
    ensures answer { result ≡ packed (read_number (read_answer text.now terms.old rows.old)) (read_value (read_answer text.now terms.old rows.old)) }
    ensures left_terms { terms.new ≡ read_terms text.now terms.old rows.old }
    ensures left_rows { rows.new ≡ read_rows text.now terms.old rows.old }
{
    pack(reading::read_text(text, terms, rows))
}

// Writes an instance as text: the bytes written.
#[unsafe(no_mangle)]
pub extern "C" fn basilurn_write_text(terms: &[i32], rows: &[i64], out: &mut [u8]) -> u64
    ensures { PackedWritten terms.now rows.now out.old out.new result }
{
    pack(writing::write_text(terms, rows, out))
}
