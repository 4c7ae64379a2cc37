// What is said of a refused contract, written into a lent buffer.
#![tactic(auto)]

ghost use Rattle.std.specs.Prelude.{◌≡◌, ◌||◌, ◌≤◌, length, eqb};
ghost use Rattle.printing.proofs.Writers.{Wrote, HasRoom};
ghost use Rattle.diagnoses.specs.Diagnoses.{diagnosis, written, buffer_after};

use arguments::Asked;
use printing::Writer;
use questions::Question;

mod lines;
mod pieces;

// What is said of a refused contract.
#[derive(Clone, Copy)]
pub struct Diagnosis {}

impl Diagnosis {
    // The most bytes of a file's name, which is an argument, and the bytes that a buffer must have.
    pub const FILE: usize = Asked::ARGUMENT_BYTES;

    pub const ROOM: usize = 2048;
    // The most bytes that are shown of a line.
    pub const SHOWN: usize = 200;
}

// Whether a number is of a question of a text's or a table's length, which has no place in the text.
fn is_of_length(number: u8) -> bool
    ensures { result ≡ (eqb number 1 || eqb number 2) }
{
    matches!(
        Question::from_number(number),
        Some(Question::TextLength | Question::TableLength)
    )
}

// The diagnosis, where there is room for any.
fn put_diagnosis(out: &mut Writer, file: &[u8], text: &[u8], number: u8, place: usize)
    requires file { length file.now ≤ 1024 }
    requires room { HasRoom 2048 out.old }
    ensures written { Wrote out.old (diagnosis file.now text.now number place) out.new }
    ensures same_buffer { out.new.buffer.ghost_name ≡ out.old.buffer.ghost_name }
{
    let p = places::place_in(text, place);
    lines::put_where(out, file, p.line, p.column);
    lines::put_what(out, number);
    if !is_of_length(number) {
        lines::put_source(out, text, p);
    }
}

// The diagnosis of a text that the question with a number refused at a place; answers how many bytes it has.
// With a file name over 1,024 bytes or a buffer under 2,048 nothing is written.
// Kept: (a) a number, here and in what it calls, since any may be asked: one that no question has is printed without words. (d) The 0 of nothing written
// is how many bytes a caller prints, and no case of its own.
pub fn write(file: &[u8], text: &[u8], number: u8, place: usize, buffer: &mut [u8]) -> usize
    ensures value { result ≡ written file.now text.now number place (length buffer.old) }
    ensures buffer_after { buffer.new ≡ buffer_after file.now text.now number place buffer.old }
{
    if file.len() > Diagnosis::FILE || buffer.len() < Diagnosis::ROOM {
        return 0;
    }
    let mut out = Writer::new(buffer);
    put_diagnosis(&mut out, file, text, number, place);
    out.at
}
