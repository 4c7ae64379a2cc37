// Lists of declared names, and the agreement's clauses, read at a cursor. Each is told for every text, cursor and list of words.
#![tactic(auto)]

ghost use Rattle.std.specs.Prelude.{◌≡◌, length};
ghost use Rattle.entries.specs.Lending.{draft_in, SameLists};
ghost use Rattle.cursors.specs.Packed.{cursor_in, step_in, entered, step_after, draft_after};
ghost use Rattle.reading_laws.specs.Walk as walk;

use contract::Contract;
use entries::Lent;
use lists::Lists;

mod lists;

// Declared names of a kind.
// Kept: (d) the three public parsers are alike but for the method: with a private function over a closure behind them each body has as many lines,
// since its closure asks that the text is short, and that function comes on top, with the walk as a ghost value and two `requires`.
pub fn names(text: &[u8], lent: &mut Lent, c: u64, kind: usize) -> u64
    ensures value { step_in text.now result ≡ step_after (entered text.now (walk.names text.now kind (cursor_in text.now c) (draft_in lent.old))) }
    ensures lists { draft_in lent.new ≡ draft_after (draft_in lent.old) (entered text.now (walk.names text.now kind (cursor_in text.now c) (draft_in lent.old))) }
    ensures same_lists { SameLists lent.old lent.new }
{
    if Contract::TEXT < text.len() {
        return cursors::too_long(lent);
    }
    let r = Lists { text }.names(lent, cursors::going(c), kind);
    cursors::leave(lent, r)
}

// A line of names that a word begins; omitted if empty.
// Kept: (d) as `names`.
pub fn line(text: &[u8], lent: &mut Lent, c: u64, word: u8, kind: usize) -> u64
    ensures value { step_in text.now result ≡ step_after (entered text.now (walk.line text.now word kind (cursor_in text.now c) (draft_in lent.old))) }
    ensures lists { draft_in lent.new ≡ draft_after (draft_in lent.old) (entered text.now (walk.line text.now word kind (cursor_in text.now c) (draft_in lent.old))) }
    ensures same_lists { SameLists lent.old lent.new }
{
    if Contract::TEXT < text.len() {
        return cursors::too_long(lent);
    }
    let r = Lists { text }.line(lent, cursors::going(c), word, kind);
    cursors::leave(lent, r)
}

// The clauses of the agreement.
// Kept: (d) as `names`.
pub fn clauses(text: &[u8], lent: &mut Lent, c: u64) -> u64
    ensures value { step_in text.now result ≡ step_after (entered text.now (walk.clauses text.now (length text.now) (cursor_in text.now c) (draft_in lent.old))) }
    ensures lists { draft_in lent.new ≡ draft_after (draft_in lent.old) (entered text.now (walk.clauses text.now (length text.now) (cursor_in text.now c) (draft_in lent.old))) }
    ensures same_lists { SameLists lent.old lent.new }
{
    if Contract::TEXT < text.len() {
        return cursors::too_long(lent);
    }
    let r = Lists { text }.clauses(lent, cursors::going(c));
    cursors::leave(lent, r)
}
