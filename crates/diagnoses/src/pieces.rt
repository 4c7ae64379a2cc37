// The pieces of a diagnosis.
ghost use Rattle.std.specs.Prelude.{◌≡◌};
ghost use Rattle.printing.proofs.Writers.{Wrote, HasRoom};
ghost use Rattle.diagnoses.specs.Diagnoses.{shown, shown_line};

use crate::Diagnosis;
use printing::Writer;

// A byte as it is shown: the tokens' printable ones as they are.
// Kept: (d) one range of bytes, as `tokens` has it in a private function: to ask that one it would have to be public, with edits of its own.
#[tactic(auto, unfolding(crate::specs::Diagnoses::shown, tokens::specs::Classes::is_printable, tokens::specs::Classes::within, laws::specs::Choice::pick))]
fn show(b: u8) -> u8
    ensures { result ≡ shown b }
{
    match b {
        b' '..=b'~' => b,
        _ => b' ',
    }
}

// A line as it is shown.
// Kept: (c) the slice of its first bytes: by `take` the loop's facts have the bytes yielded and no index, which the proof goes by.
pub(crate) fn put_shown(out: &mut Writer, line: &[u8])
    requires { HasRoom 200 out.old }
    ensures written { Wrote out.old (shown_line line.now) out.new }
    ensures same_buffer { out.new.buffer.ghost_name ≡ out.old.buffer.ghost_name }
{
    let n = Diagnosis::SHOWN.min(line.len());
    for b in &line[..n] {
        out.put_byte(show(*b));
    }
}
