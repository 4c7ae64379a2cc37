// Expressions and conditions: parsers that call each other, with the levels of parentheses falling.
ghost use Rattle.std.specs.Prelude.{◌≡◌, ◌≤◌, false, length};
ghost use Rattle.entries.specs.Lending.{draft_in, SameLists};
ghost use Rattle.cursors.specs.Packed.{is_stop, cursor_in};
ghost use Rattle.cursors.specs.Following.{Follows};
ghost use Rattle.expressions.specs.Private.{rank_number, chain_at, enclosed_at};
ghost use Rattle.reading_laws.specs.Walk as walk;

use crate::terms;
use crate::terms::{Rank, Scope};
use contract::Node;
use entries::Lent;
use questions::Question;

impl Scope<'_> {
    // Operators of a rank, each with an operand after it.
    // Kept: (c) as many turns as the text has bytes, which the definition counts too: of a `while` over the token's kind the check wants that the token
    // after each operand stands behind the operator, which no parser's contract says, and which need not hold after a made-up cursor.
    // Kept: (d) that c is no stop, here and below: with a type that says so crate clauses had 49 lines more, since a parser's answer is a cursor or a
    // stop in one number, and is wrapped again before the next parser takes it.
    #[cycle(operands)]
    fn rest(&self, rank: Rank, before: usize, lent: &mut Lent, c: u64) -> u64
        requires { is_stop c ≡ false }
        ensures value { Follows self.now.text.now (walk.row_from self.now.text.now (rank_number rank) (walk.operand_at self.now.text.now self.now.handler self.now.levels (rank_number rank)) before (length self.now.text.now) (cursor_in self.now.text.now c)) result lent.old lent.new }
        ensures same_lists { SameLists lent.old lent.new }
    {
        let mut here = c;
        for _ in 0..self.text.len() {
            let kind = cursors::kind_of(here);
            if !terms::is_operator(rank, kind) {
                return here;
            }
            entries::count(lent.notes, entries::NODE, cursors::start_of(here));
            let next = self.operand(rank, lent, cursors::past(self.text, here));
            if cursors::stops(next) {
                return next;
            }
            lent.put(terms::operator_node(kind), 0, before);
            here = next;
        }
        here
    }

    // An operand of a rank: a chain of the next rank, or what has no operator of these outside parentheses. Inlined, since a reading of 4,096 nodes
    // takes 7 % more instructions else.
    // Kept: (d) the four rules of the grammar that a rank's operands have; a closure for each would hide which rank has which.
    #[inline(always)]
    #[cycle(operands)]
    #[tactic(auto, unfolding(reading_laws::specs::Walk::operand_at))]
    fn operand(&self, rank: Rank, lent: &mut Lent, c: u64) -> u64
        requires { is_stop c ≡ false }
        ensures value { Follows self.now.text.now (walk.operand_at self.now.text.now self.now.handler self.now.levels (rank_number rank) (cursor_in self.now.text.now c)) result lent.old lent.new }
        ensures same_lists { SameLists lent.old lent.new }
    {
        match rank {
            Rank::Or => self.chain(Rank::And, lent, c),
            Rank::And => self.primary(lent, c),
            Rank::Sum => self.chain(Rank::Product, lent, c),
            Rank::Product => self.factor(lent, c),
        }
    }

    // Operands of a rank with its operators between them: an expression is a chain of sums, a condition one of `||`. The operator is tested before the
    // call, which tests it too: without that a reading of 4,096 nodes takes 8 % more instructions.
    #[cycle(operands)]
    pub(crate) fn chain(&self, rank: Rank, lent: &mut Lent, c: u64) -> u64
        requires { is_stop c ≡ false }
        ensures value { Follows self.now.text.now (chain_at self.now.text.now self.now.handler self.now.levels (rank_number rank) (cursor_in self.now.text.now c)) result lent.old lent.new }
        ensures same_lists { SameLists lent.old lent.new }
    {
        let before = lent.nodes();
        let first = self.operand(rank, lent, c);
        if cursors::stops(first) {
            return first;
        }
        if terms::is_operator(rank, cursors::kind_of(first)) {
            return self.rest(rank, before, lent, first);
        }
        first
    }

    // A chain in parentheses, one level further in. Inlined, since a reading of 4,096 nodes takes 1 to 3 % more instructions else.
    // Kept: (c) the struct of that level: `..*self` is refused for a struct with a ghost field.
    #[inline(always)]
    #[cycle(operands)]
    fn enclosed(&self, rank: Rank, lent: &mut Lent, c: u64) -> u64
        requires { is_stop c ≡ false }
        ensures value { Follows self.now.text.now (enclosed_at self.now.text.now self.now.handler self.now.levels (rank_number rank) (cursor_in self.now.text.now c)) result lent.old lent.new }
        ensures same_lists { SameLists lent.old lent.new }
    {
        if self.levels == 0 {
            return cursors::stop(Question::Levels.number(), cursors::start_of(c));
        }
        let deeper = Scope {
            text: self.text,
            levels: self.levels - 1,
            handler: self.handler,
        };
        let inner = deeper.chain(rank, lent, cursors::past(self.text, c));
        cursors::close(self.text, inner)
    }

    // An expression in parentheses, or a leaf.
    #[cycle(operands)]
    fn factor(&self, lent: &mut Lent, c: u64) -> u64
        requires { is_stop c ≡ false }
        ensures value { Follows self.now.text.now (walk.factor self.now.text.now self.now.handler (walk.inside_expression self.now.text.now self.now.handler self.now.levels) (cursor_in self.now.text.now c)) result lent.old lent.new }
        ensures same_lists { SameLists lent.old lent.new }
    {
        if cursors::kind_of(c) == words::OPEN_PAREN {
            return self.enclosed(Rank::Sum, lent, c);
        }
        self.leaf(lent, c)
    }

    // `~` in a row before a simple condition.
    #[cycle(operands)]
    fn primary(&self, lent: &mut Lent, c: u64) -> u64
        requires { is_stop c ≡ false }
        ensures value { Follows self.now.text.now (walk.primary self.now.text.now self.now.handler self.now.levels (walk.inside_condition self.now.text.now self.now.handler self.now.levels) (cursor_in self.now.text.now c)) result lent.old lent.new }
        ensures same_lists { SameLists lent.old lent.new }
    {
        let before = lent.nodes();
        let nots = self.count_nots(lent.notes, c);
        let after = self.simple(lent, nots.next);
        if cursors::stops(after) {
            return after;
        }
        terms::negate(lent, nots.many, before);
        after
    }

    // A condition in parentheses, true, false or a comparison.
    #[cycle(operands)]
    fn simple(&self, lent: &mut Lent, c: u64) -> u64
        requires { is_stop c ≡ false }
        ensures value { Follows self.now.text.now (walk.simple self.now.text.now self.now.handler self.now.levels (walk.inside_condition self.now.text.now self.now.handler self.now.levels) (cursor_in self.now.text.now c)) result lent.old lent.new }
        ensures same_lists { SameLists lent.old lent.new }
    {
        let truth = match cursors::kind_of(c) {
            words::OPEN_PAREN => return self.enclosed(Rank::Or, lent, c),
            words::TRUE => Node::TRUE,
            words::FALSE => Node::FALSE,
            _ => return self.comparison(lent, c),
        };
        lent.put_leaf(truth, 0, cursors::start_of(c));
        cursors::past(self.text, c)
    }

    // Two expressions with a comparison between them.
    #[cycle(operands)]
    fn comparison(&self, lent: &mut Lent, c: u64) -> u64
        requires { is_stop c ≡ false }
        ensures value { Follows self.now.text.now (walk.comparison self.now.text.now self.now.handler self.now.levels (cursor_in self.now.text.now c)) result lent.old lent.new }
        ensures same_lists { SameLists lent.old lent.new }
    {
        let before = lent.nodes();
        let first = self.chain(Rank::Sum, lent, c);
        if cursors::stops(first) {
            return first;
        }
        let kind = cursors::kind_of(first);
        if !terms::is_comparison(kind) {
            return cursors::unfit(self.text, first);
        }
        entries::count(lent.notes, entries::NODE, cursors::start_of(first));
        let second = self.chain(Rank::Sum, lent, cursors::past(self.text, first));
        if cursors::stops(second) {
            return second;
        }
        lent.put(terms::operator_node(kind), 0, before);
        second
    }
}
