// Statements: parsers of blocks and conditionals that call each other, with the levels falling.
ghost use Rattle.std.specs.Prelude.{◌≡◌, Bool, true, false, [], ◌-◌, ◌≤◌, length};
ghost use Rattle.entries.specs.Lending.{draft_in, SameLists};
ghost use Rattle.reading.specs.Grammar.{is_one_of, item_starts};
ghost use Rattle.cursors.specs.Packed.{is_stop, cursor_in};
ghost use Rattle.cursors.specs.Following.{Follows};
ghost use Rattle.reading_laws.specs.Walk as walk;

use contract::Node;
use entries::Lent;
use questions::Question;
use tokens::Token;

// A statement: its first token, its block's first node, and whether it is in a handler.
// Kept: (a) a text that is short, here and in `Block`, as in `Lists` of clauses.
#[derive(Clone, Copy)]
pub(crate) struct Statement<'a> {
    pub(crate) text: &'a [u8],
    pub(crate) handler: bool,
    pub(crate) first: u64,
    pub(crate) from: usize,
    ghost short: { length text.now ≤ 16384 },
    ghost goes: { is_stop first ≡ false },
}

impl Statement<'_> {
    // E -> t, at t.
    // Kept: (d) that c is no stop, here and below, as in `Lists::one` of clauses.
    fn sends(&self, lent: &mut Lent, c: u64) -> u64
        requires { is_stop c ≡ false }
        ensures value { Follows self.now.text.now (walk.sends self.now.text.now (cursor_in self.now.text.now self.now.first) self.now.from (cursor_in self.now.text.now c)) result lent.old lent.new }
        ensures same_lists { SameLists lent.old lent.new }
    {
        if cursors::kind_of(c) != Token::NAME {
            return cursors::unfit(self.text, c);
        }
        entries::count(
            lent.notes,
            entries::STATEMENT,
            cursors::start_of(self.first),
        );
        // Kept: (c) lent by a name of its own, here and below, as in `Lent::mention` of entries.
        let notes = &mut *lent.notes;
        let target = cursors::name_at(self.text, c).value_target(notes);
        lent.put_name(target, cursors::start_of(c));
        lent.put(Node::VALUE_MOVE, 0, self.from);
        cursors::past(self.text, c)
    }

    // E -o h, t, at t.
    fn moves(&self, lent: &mut Lent, source: u64, c: u64) -> u64
        requires { (is_stop source ≡ false) × (is_stop c ≡ false) }
        ensures value { Follows self.now.text.now (walk.moves self.now.text.now self.now.handler (cursor_in self.now.text.now self.now.first) self.now.from (cursor_in self.now.text.now source) (cursor_in self.now.text.now c)) result lent.old lent.new }
        ensures same_lists { SameLists lent.old lent.new }
    {
        if cursors::kind_of(c) != Token::NAME {
            return cursors::unfit(self.text, c);
        }
        entries::count(
            lent.notes,
            entries::STATEMENT,
            cursors::start_of(self.first),
        );
        let notes = &mut *lent.notes;
        let holder = cursors::name_at(self.text, source).holder(notes, self.handler);
        lent.put_name(holder, cursors::start_of(source));
        let notes = &mut *lent.notes;
        let target = cursors::name_at(self.text, c).asset_target(notes, self.handler);
        lent.put_name(target, cursors::start_of(c));
        lent.put(Node::ASSET_MOVE, 0, self.from);
        cursors::past(self.text, c)
    }

    // h -o t, at t.
    fn moves_all(&self, lent: &mut Lent, c: u64)
        requires { is_stop c ≡ false }
        ensures value { draft_in lent.new ≡ walk.moves_all self.now.text.now self.now.handler (cursor_in self.now.text.now self.now.first) self.now.from (cursor_in self.now.text.now c) (draft_in lent.old) }
        ensures same_lists { SameLists lent.old lent.new }
    {
        let before = lent.nodes();
        entries::count(
            lent.notes,
            entries::STATEMENT,
            cursors::start_of(self.first),
        );
        entries::count(lent.notes, entries::NODE, cursors::start_of(c));
        let notes = &mut *lent.notes;
        let holder = cursors::name_at(self.text, self.first).holder(notes, self.handler);
        let target = cursors::name_at(self.text, c).asset_target(notes, self.handler);
        entries::want(lent.notes, holder, cursors::start_of(self.first));
        entries::want(lent.notes, target, cursors::start_of(c));
        lent.put(target.kind, target.number, before);
        lent.put(Node::WHOLE_MOVE, 0, self.from);
    }

    // After `-o`.
    fn asset_move(&self, lent: &mut Lent, alone: bool, c: u64) -> u64
        requires { is_stop c ≡ false }
        ensures value { Follows self.now.text.now (walk.asset_move self.now.text.now self.now.handler (cursor_in self.now.text.now self.now.first) self.now.from alone (cursor_in self.now.text.now c)) result lent.old lent.new }
        ensures same_lists { SameLists lent.old lent.new }
    {
        if cursors::kind_of(c) != Token::NAME {
            return cursors::unfit(self.text, c);
        }
        let d = cursors::past(self.text, c);
        if cursors::kind_of(d) == words::COMMA {
            return self.moves(lent, c, cursors::past(self.text, d));
        }
        if alone {
            self.moves_all(lent, c);
            return d;
        }
        cursors::unfit(self.text, d)
    }

    // The rest of a statement after its expression.
    pub(crate) fn action(&self, lent: &mut Lent, c: u64) -> u64
        requires { is_stop c ≡ false }
        ensures value { Follows self.now.text.now (walk.action self.now.text.now self.now.handler (cursor_in self.now.text.now self.now.first) self.now.from (cursor_in self.now.text.now c)) result lent.old lent.new }
        ensures same_lists { SameLists lent.old lent.new }
    {
        match cursors::kind_of(c) {
            words::VALUE_ARROW => self.sends(lent, cursors::past(self.text, c)),
            words::ASSET_ARROW => {
                let alone = is_alone(self.first, c);
                self.asset_move(lent, alone, cursors::past(self.text, c))
            }
            _ => cursors::unfit(self.text, c),
        }
    }
}

// Whether an expression from `first` up to c is one name alone.
fn is_alone(first: u64, c: u64) -> bool
    ensures { result ≡ walk.is_alone [] (cursor_in [] first) (cursor_in [] c) }
{
    cursors::kind_of(first) == Token::NAME && cursors::at_of(c) == cursors::end_of(first)
}

// Whether a token may start a statement or an event.
pub(crate) fn is_start(kind: u8) -> bool
    ensures { result ≡ is_one_of item_starts kind }
{
    matches!(
        kind,
        words::OPEN_PAREN | Token::NAME | Token::NUMBER | Token::STRING | words::NOW
    )
}

// Where statements stand: how many levels are left, whether in a handler, and the first node of their block.
// Kept: (a) a text that is short, as in `Statement`.
#[derive(Clone, Copy)]
pub(crate) struct Block<'a> {
    pub(crate) text: &'a [u8],
    pub(crate) levels: usize,
    pub(crate) handler: bool,
    pub(crate) from: usize,
    ghost short: { length text.now ≤ 16384 },
}

impl Block<'_> {
    #[cycle(blocks)]
    fn statement(&self, lent: &mut Lent, c: u64) -> u64
        requires { is_stop c ≡ false }
        ensures value { Follows self.now.text.now (walk.statement self.now.text.now self.now.handler self.now.levels (walk.conditional self.now.text.now self.now.handler self.now.levels) self.now.from (cursor_in self.now.text.now c)) result lent.old lent.new }
        ensures same_lists { SameLists lent.old lent.new }
    {
        if cursors::kind_of(c) == words::OPEN_PAREN {
            return self.conditional(lent, c);
        }
        entries::count(lent.notes, entries::NODE, cursors::start_of(c));
        let after = expressions::expression(self.text, lent, c, self.levels, self.handler);
        if cursors::stops(after) {
            return after;
        }
        let statement = Statement {
            text: self.text,
            handler: self.handler,
            first: c,
            from: self.from,
        };
        statement.action(lent, after)
    }

    // The statements of a block.
    // Kept: (c) as many turns as the text has bytes, which the definition counts too: with a `while` over the kind, as in `Lists::list` of clauses, a
    // proof would first have to show that each statement ends further in the text, thus each expression: no law says so. (d) Over two closures, what
    // begins one and what reads it, the loop would be no shorter.
    #[cycle(blocks)]
    fn statements(&self, lent: &mut Lent, c: u64) -> u64
        requires { is_stop c ≡ false }
        ensures value { Follows self.now.text.now (walk.statements self.now.text.now self.now.handler self.now.levels (walk.conditional self.now.text.now self.now.handler self.now.levels) self.now.from (length self.now.text.now) (cursor_in self.now.text.now c)) result lent.old lent.new }
        ensures same_lists { SameLists lent.old lent.new }
    {
        let mut here = c;
        for _ in 0..self.text.len() {
            if !is_start(cursors::kind_of(here)) {
                return here;
            }
            let next = self.statement(lent, here);
            if cursors::stops(next) {
                return next;
            }
            here = next;
        }
        here
    }

    // { S }
    #[cycle(blocks)]
    pub(crate) fn braces(&self, lent: &mut Lent, c: u64) -> u64
        requires { is_stop c ≡ false }
        ensures value { Follows self.now.text.now (walk.braces self.now.text.now self.now.handler self.now.levels (walk.conditional self.now.text.now self.now.handler self.now.levels) (cursor_in self.now.text.now c)) result lent.old lent.new }
        ensures same_lists { SameLists lent.old lent.new }
    {
        let from = lent.nodes();
        let opened = cursors::token(self.text, c, words::OPEN_BRACE);
        if cursors::stops(opened) {
            return opened;
        }
        // Kept: (c) every field, here and in `conditional`: `..*self` is refused for a struct with a ghost field.
        let inside = Block {
            text: self.text,
            levels: self.levels,
            handler: self.handler,
            from,
        };
        let after = inside.statements(lent, opened);
        if cursors::stops(after) {
            return after;
        }
        cursors::token(self.text, after, words::CLOSE_BRACE)
    }

    // (B) { S }
    #[cycle(blocks)]
    pub(crate) fn conditional(&self, lent: &mut Lent, c: u64) -> u64
        requires { is_stop c ≡ false }
        ensures value { Follows self.now.text.now (walk.conditional self.now.text.now self.now.handler self.now.levels self.now.from (cursor_in self.now.text.now c)) result lent.old lent.new }
        ensures same_lists { SameLists lent.old lent.new }
    {
        let place = cursors::start_of(c);
        if self.levels == 0 {
            return cursors::stop(Question::Levels.number(), place);
        }
        let opened = cursors::token(self.text, c, words::OPEN_PAREN);
        if cursors::stops(opened) {
            return opened;
        }
        entries::count(lent.notes, entries::NODE, place);
        entries::count(lent.notes, entries::STATEMENT, place);
        let inner = expressions::condition(self.text, lent, opened, self.levels - 1, self.handler);
        let closed = cursors::close(self.text, inner);
        if cursors::stops(closed) {
            return closed;
        }
        let before = lent.nodes();
        let deeper = Block {
            text: self.text,
            levels: self.levels - 1,
            handler: self.handler,
            from: before,
        };
        let after = deeper.braces(lent, closed);
        if cursors::stops(after) {
            return after;
        }
        let block = lent.nodes_since(before) as u64;
        lent.put(Node::CONDITIONAL, block, self.from);
        after
    }
}
