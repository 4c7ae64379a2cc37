// The functions of a contract, read at a cursor; told for every text, cursor and list of words.
#![tactic(auto)]

ghost use Rattle.std.specs.Prelude.{◌≡◌, length};
ghost use Rattle.entries.specs.Lending.{draft_in, SameLists};
ghost use Rattle.cursors.specs.Packed.{cursor_in, step_in, entered, step_after, draft_after};
ghost use Rattle.reading_laws.specs.Walk as walk;

use contract::Contract;
use entries::Lent;
use parts::Functions;

mod parts;

// The functions of a contract.
// Kept: (a) as `cursors::leave` says: one function over the public parsers would be public, and require that its closure may be called.
pub fn functions(text: &[u8], lent: &mut Lent, c: u64) -> u64
    ensures value { step_in text.now result ≡ step_after (entered text.now (walk.functions text.now (length text.now) (cursor_in text.now c) (draft_in lent.old))) }
    ensures lists { draft_in lent.new ≡ draft_after (draft_in lent.old) (entered text.now (walk.functions text.now (length text.now) (cursor_in text.now c) (draft_in lent.old))) }
    ensures same_lists { SameLists lent.old lent.new }
{
    // The test has a name, which a proof keeps where the edit `long_text_passes` asks another length.
    let long = Contract::TEXT < text.len();
    if long {
        return cursors::too_long(lent);
    }
    let r = Functions { text }.functions(lent, cursors::going(c));
    cursors::leave(lent, r)
}
