// Bodies: statements, and events with their handlers.
ghost use Rattle.std.specs.Prelude.{◌≡◌, Bool, true, false, [], ◌≤◌, length};
ghost use Rattle.entries.specs.Lending.{SameLists};
ghost use Rattle.cursors.specs.Packed.{is_stop, cursor_in};
ghost use Rattle.cursors.specs.Following.{Follows};
ghost use Rattle.reading_laws.specs.Walk as walk;

use crate::blocks;
use crate::blocks::{Block, Statement};
use contract::{Contract, Node};
use entries::{Lent, Notes};

// One more event of the function at hand. Each has a node of its own, so that there are no more than nodes.
fn one_more(notes: &mut [u64])
    ensures { notes.new ≡ walk.one_more_event [] notes.old }
{
    let n = contract::word(notes, Notes::HERE);
    if n < Contract::NODES as u64 {
        items::set(notes, Notes::HERE, n + 1);
    }
}

// A text with bodies, short enough for cursors.
// Kept: (a) a text that is short, here and in `Body`, as in `Lists` of clauses.
#[derive(Clone, Copy)]
pub(crate) struct Bodies<'a> {
    pub(crate) text: &'a [u8],
    ghost short: { length text.now ≤ 16384 },
}

impl Bodies<'_> {
    // => @Q' after a handler: the event's node and row.
    fn event_end(
        &self,
        lent: &mut Lent,
        c: u64,
        i: usize,
        state: usize,
        before: usize,
        from: usize,
    ) -> u64
        requires { is_stop c ≡ false }
        ensures value { Follows self.now.text.now (walk.event_end self.now.text.now i state before from (cursor_in self.now.text.now c)) result lent.old lent.new }
        ensures same_lists { SameLists lent.old lent.new }
    {
        let mark = cursors::token(self.text, c, words::STATE_ARROW);
        if cursors::stops(mark) {
            return mark;
        }
        let name = cursors::state_at(self.text, mark);
        if cursors::stops(name) {
            return name;
        }
        let handler = lent.nodes_since(from);
        let last = cursors::mention_state(self.text, lent, name);
        let node = lent.nodes();
        lent.put(Node::EVENT, handler as u64, before);
        entries::event_row(lent.table, i, state, last, node);
        cursors::past(self.text, name)
    }

    // >> @Q { S } => @Q' after a guard at `place` whose first node is `before`.
    fn event(&self, lent: &mut Lent, c: u64, place: usize, before: usize) -> u64
        requires { is_stop c ≡ false }
        ensures value { Follows self.now.text.now (walk.event self.now.text.now place before (cursor_in self.now.text.now c)) result lent.old lent.new }
        ensures same_lists { SameLists lent.old lent.new }
    {
        let mark = cursors::token(self.text, c, words::EVENT_MARK);
        if cursors::stops(mark) {
            return mark;
        }
        let name = cursors::state_at(self.text, mark);
        if cursors::stops(name) {
            return name;
        }
        let i = lent.note(entries::EVENT) as usize;
        let from = lent.nodes();
        entries::count(lent.notes, entries::EVENT, place);
        let state = cursors::mention_state(self.text, lent, name);
        items::set(lent.notes, entries::STATEMENT, 0);
        let block = Block {
            text: self.text,
            levels: Contract::LEVELS,
            handler: true,
            from,
        };
        let after = block.braces(lent, cursors::past(self.text, name));
        if cursors::stops(after) {
            return after;
        }
        self.event_end(lent, after, i, state, before, from)
    }

    // { S W }
    pub(crate) fn body(&self, lent: &mut Lent, c: u64) -> u64
        requires { is_stop c ≡ false }
        ensures value { Follows self.now.text.now (walk.body self.now.text.now (cursor_in self.now.text.now c)) result lent.old lent.new }
        ensures same_lists { SameLists lent.old lent.new }
    {
        let from = lent.nodes();
        let opened = cursors::token(self.text, c, words::OPEN_BRACE);
        if cursors::stops(opened) {
            return opened;
        }
        items::set(lent.notes, entries::STATEMENT, 0);
        items::set(lent.notes, Notes::BODY, 0);
        items::set(lent.notes, Notes::HERE, 0);
        let body = Body {
            text: self.text,
            from,
        };
        let after = body.body_items(lent, opened);
        if cursors::stops(after) {
            return after;
        }
        cursors::token(self.text, after, words::CLOSE_BRACE)
    }
}

// A body: its first node.
#[derive(Clone, Copy)]
struct Body<'a> {
    text: &'a [u8],
    from: usize,
    ghost short: { length text.now ≤ 16384 },
}

impl Body<'_> {
    // A statement or an event, after its expression.
    fn body_rest(&self, lent: &mut Lent, c: u64, first: u64, before: usize) -> u64
        requires { (is_stop c ≡ false) × (is_stop first ≡ false) }
        ensures value { Follows self.now.text.now (walk.body_rest self.now.text.now self.now.from (cursor_in self.now.text.now first) before (cursor_in self.now.text.now c)) result lent.old lent.new }
        ensures same_lists { SameLists lent.old lent.new }
    {
        if cursors::kind_of(c) == words::EVENT_MARK {
            let bodies = Bodies { text: self.text };
            let after = bodies.event(lent, c, cursors::start_of(first), before);
            if cursors::stops(after) {
                return after;
            }
            one_more(lent.notes);
            return after;
        }
        if lent.note(Notes::HERE) != 0 {
            return cursors::unfit(self.text, c);
        }
        let statement = Statement {
            text: self.text,
            handler: false,
            first,
            from: self.from,
        };
        let after = statement.action(lent, c);
        if cursors::stops(after) {
            return after;
        }
        let written = lent.nodes_since(self.from) as u64;
        items::set(lent.notes, Notes::BODY, written);
        after
    }

    // A conditional of a body; none after an event.
    fn body_conditional(&self, lent: &mut Lent, c: u64) -> u64
        requires { is_stop c ≡ false }
        ensures value { Follows self.now.text.now (walk.body_conditional self.now.text.now self.now.from (cursor_in self.now.text.now c)) result lent.old lent.new }
        ensures same_lists { SameLists lent.old lent.new }
    {
        if lent.note(Notes::HERE) != 0 {
            return cursors::unfit(self.text, c);
        }
        let block = Block {
            text: self.text,
            levels: Contract::LEVELS,
            handler: false,
            from: self.from,
        };
        let after = block.conditional(lent, c);
        if cursors::stops(after) {
            return after;
        }
        let written = lent.nodes_since(self.from) as u64;
        items::set(lent.notes, Notes::BODY, written);
        after
    }

    // The next statement or event of a body.
    fn body_item(&self, lent: &mut Lent, c: u64) -> u64
        requires { is_stop c ≡ false }
        ensures value { Follows self.now.text.now (walk.body_item self.now.text.now self.now.from (cursor_in self.now.text.now c)) result lent.old lent.new }
        ensures same_lists { SameLists lent.old lent.new }
    {
        if cursors::kind_of(c) == words::OPEN_PAREN {
            return self.body_conditional(lent, c);
        }
        let before = lent.nodes();
        entries::count(lent.notes, entries::NODE, cursors::start_of(c));
        let after = expressions::expression(self.text, lent, c, Contract::LEVELS, false);
        if cursors::stops(after) {
            return after;
        }
        self.body_rest(lent, after, c, before)
    }

    // The statements and events of a body.
    // Kept: (c) and (d) a loop of its own, with as many turns as the text has bytes, as `statements`.
    fn body_items(&self, lent: &mut Lent, c: u64) -> u64
        requires { is_stop c ≡ false }
        ensures value { Follows self.now.text.now (walk.body_items self.now.text.now self.now.from (length self.now.text.now) (cursor_in self.now.text.now c)) result lent.old lent.new }
        ensures same_lists { SameLists lent.old lent.new }
    {
        let mut here = c;
        for _ in 0..self.text.len() {
            if !blocks::is_start(cursors::kind_of(here)) {
                return here;
            }
            let next = self.body_item(lent, here);
            if cursors::stops(next) {
                return next;
            }
            here = next;
        }
        here
    }
}
