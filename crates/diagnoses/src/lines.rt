// The lines of a diagnosis.
ghost use Rattle.std.specs.Prelude.{◌≡◌, ◌≤◌, length};
ghost use Rattle.printing.proofs.Writers.{Wrote, HasRoom};
ghost use Rattle.diagnoses.specs.Diagnoses.{where_text, what_text, mark_under, source_text};

use crate::Diagnosis;
use crate::pieces::put_shown;
use places::Place;
use printing::Writer;

// The file, the line and the column.
pub(crate) fn put_where(out: &mut Writer, file: &[u8], line: usize, column: usize)
    requires file { length file.now ≤ 1024 }
    requires room { HasRoom 2048 out.old }
    ensures written { Wrote out.old (where_text file.now line column) out.new }
    ensures same_buffer { out.new.buffer.ghost_name ≡ out.old.buffer.ghost_name }
{
    out.put_bytes(file);
    out.put_word(words::COLON);
    out.put_number(line as u64);
    out.put_word(words::COLON);
    out.put_number(column as u64);
    out.put_bytes(b": ");
}

// The words of a question and its number.
pub(crate) fn put_what(out: &mut Writer, number: u8)
    requires { HasRoom 88 out.old }
    ensures written { Wrote out.old (what_text number) out.new }
    ensures same_buffer { out.new.buffer.ghost_name ≡ out.old.buffer.ghost_name }
{
    out.put_bytes(question_words::words(number));
    out.put_bytes(b" (");
    out.put_number(number as u64);
    out.put_bytes(b")\n");
}

// A mark under a column.
fn put_mark(out: &mut Writer, column: usize)
    requires room { HasRoom 201 out.old }
    requires column { 1 ≤ column }
    ensures written { Wrote out.old (mark_under column) out.new }
    ensures same_buffer { out.new.buffer.ghost_name ≡ out.old.buffer.ghost_name }
{
    if column <= Diagnosis::SHOWN {
        out.put_spaces(column - 1);
        out.put_bytes(b"^\n");
    }
}

// The text's line with a place, and the mark.
pub(crate) fn put_source(out: &mut Writer, text: &[u8], p: Place)
    requires room { HasRoom 402 out.old }
    requires column { 1 ≤ p.column }
    ensures written { Wrote out.old (source_text text.now p) out.new }
    ensures same_buffer { out.new.buffer.ghost_name ≡ out.old.buffer.ghost_name }
{
    put_shown(out, tokens::between(text, p.start, p.end));
    out.put_word(words::LINE_END);
    put_mark(out, p.column);
}
