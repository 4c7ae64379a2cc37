// Expressions and conditions of a text, read at a cursor. Each is told for every text, cursor and list of words.
#![tactic(auto)]

ghost use Rattle.std.specs.Prelude.{◌≡◌};
ghost use Rattle.entries.specs.Lending.{draft_in, SameLists};
ghost use Rattle.cursors.specs.Packed.{cursor_in, step_in, entered, step_after, draft_after};
ghost use Rattle.expressions.specs.Private.{rank_number, chain_at};
ghost use Rattle.reading_laws.specs.Walk as walk;

use contract::Contract;
use entries::Lent;
use terms::{Rank, Scope};

mod operands;
mod terms;

// A chain of a rank, with so many levels left inside it. Inlined, since a reading of 4,096 nodes takes up to 3 % more instructions else.
// Kept: (a) the text, the levels and the handler apart, here and below: `Scope`, which has the three, knows that its text is short, and a public
// parser takes any.
#[inline(always)]
fn parse(rank: Rank, text: &[u8], lent: &mut Lent, c: u64, levels: usize, handler: bool) -> u64
    ensures value { step_in text.now result ≡ step_after (entered text.now (chain_at text.now handler levels (rank_number rank) (cursor_in text.now c) (draft_in lent.old))) }
    ensures lists { draft_in lent.new ≡ draft_after (draft_in lent.old) (entered text.now (chain_at text.now handler levels (rank_number rank) (cursor_in text.now c) (draft_in lent.old))) }
    ensures same_lists { SameLists lent.old lent.new }
{
    if Contract::TEXT < text.len() {
        return cursors::too_long(lent);
    }
    let scope = Scope {
        text,
        levels,
        handler,
    };
    let r = scope.chain(rank, lent, cursors::going(c));
    cursors::leave(lent, r)
}

// An expression, with so many levels left inside it.
#[tactic(auto, unfolding(reading_laws::specs::Walk::operand_at))]
pub fn expression(text: &[u8], lent: &mut Lent, c: u64, levels: usize, handler: bool) -> u64
    ensures value { step_in text.now result ≡ step_after (entered text.now (walk.expression text.now handler levels (cursor_in text.now c) (draft_in lent.old))) }
    ensures lists { draft_in lent.new ≡ draft_after (draft_in lent.old) (entered text.now (walk.expression text.now handler levels (cursor_in text.now c) (draft_in lent.old))) }
    ensures same_lists { SameLists lent.old lent.new }
{
    parse(Rank::Sum, text, lent, c, levels, handler)
}

// A condition, with so many levels left inside it.
#[tactic(auto, unfolding(reading_laws::specs::Walk::operand_at))]
pub fn condition(text: &[u8], lent: &mut Lent, c: u64, levels: usize, handler: bool) -> u64
    ensures value { step_in text.now result ≡ step_after (entered text.now (walk.condition text.now handler levels (cursor_in text.now c) (draft_in lent.old))) }
    ensures lists { draft_in lent.new ≡ draft_after (draft_in lent.old) (entered text.now (walk.condition text.now handler levels (cursor_in text.now c) (draft_in lent.old))) }
    ensures same_lists { SameLists lent.old lent.new }
{
    parse(Rank::Or, text, lent, c, levels, handler)
}
