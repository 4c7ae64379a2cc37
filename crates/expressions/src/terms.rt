// Leaves of expressions and conditions, and their operators.
ghost use Rattle.std.specs.Prelude.{◌≡◌, ◌≤◌, false, length};
ghost use Rattle.reading.specs.Grammar.{is_one_of, operators, comparisons};
ghost use Rattle.entries.specs.Lending.{draft_in, SameLists};
ghost use Rattle.cursors.specs.Packed.{is_stop, cursor_in};
ghost use Rattle.cursors.specs.Following.{Follows};
ghost use Rattle.expressions.specs.Private.{NotsAre, rank_number};
ghost use Rattle.reading_laws.specs.Walk as walk;

use contract::Node;
use entries::{Lent, NameAt};
use tokens::Token;

// The node of an operator or a comparison. Callers ask for no other token's; `>=` is the last, so that the match needs no arm for the others.
// Kept: (d) both sides are numbers of the documents, in another order each, so that a table of nodes by the token's number would say less.
#[tactic(auto, unfolding(reading_laws::specs::Walk::operator_node, laws::specs::Choice::pick))]
pub(crate) fn operator_node(kind: u8) -> u64
    ensures { result ≡ walk.operator_node kind }
{
    match kind {
        words::PLUS => Node::PLUS,
        words::MINUS => Node::MINUS,
        words::TIMES => Node::TIMES,
        words::OVER => Node::OVER,
        words::EQUAL => Node::EQUAL,
        words::UNEQUAL => Node::UNEQUAL,
        words::LESS => Node::LESS,
        words::AT_MOST => Node::AT_MOST,
        words::GREATER => Node::GREATER,
        words::AND => Node::AND,
        words::OR => Node::OR,
        _ => Node::AT_LEAST,
    }
}

// The ranks of operators, that which binds last before the others.
#[derive(Clone, Copy)]
pub(crate) enum Rank {
    Or,
    And,
    Sum,
    Product,
}

// Whether a token is an operator of a rank.
#[tactic(auto, unfolding(reading::specs::Grammar::is_one_of, laws::specs::Choice::pick))]
pub(crate) fn is_operator(rank: Rank, kind: u8) -> bool
    ensures { result ≡ is_one_of (operators (rank_number rank)) kind }
{
    match rank {
        Rank::Or => kind == words::OR,
        Rank::And => kind == words::AND,
        Rank::Sum => matches!(kind, words::PLUS | words::MINUS),
        Rank::Product => matches!(kind, words::TIMES | words::OVER),
    }
}

#[tactic(auto, unfolding(reading::specs::Grammar::is_one_of, laws::specs::Choice::pick))]
pub(crate) fn is_comparison(kind: u8) -> bool
    ensures { result ≡ is_one_of comparisons kind }
{
    matches!(
        kind,
        words::EQUAL
            | words::UNEQUAL
            | words::LESS
            | words::AT_MOST
            | words::GREATER
            | words::AT_LEAST
    )
}

// The nodes of `~`, so many.
pub(crate) fn negate(lent: &mut Lent, many: usize, before: usize)
    ensures value { draft_in lent.new ≡ walk.negations many before (draft_in lent.old) }
    ensures same_lists { SameLists lent.old lent.new }
{
    for _ in 0..many {
        lent.put(Node::NOT, 0, before);
    }
}

// `~` in a row: how many, and the cursor after them.
#[derive(Clone, Copy)]
pub(crate) struct Nots {
    pub(crate) many: usize,
    pub(crate) next: u64,
}

// What an expression stands in: a text short enough for cursors, how many levels of parentheses are left, and whether it is in a handler.
// Kept: (a) a text that is short, as in `Lists` of clauses.
#[derive(Clone, Copy)]
pub(crate) struct Scope<'a> {
    pub(crate) text: &'a [u8],
    pub(crate) levels: usize,
    pub(crate) handler: bool,
    ghost short: { length text.now ≤ 16384 },
}

impl Scope<'_> {
    // A string's node.
    fn string_leaf(&self, lent: &mut Lent, c: u64)
        requires { is_stop c ≡ false }
        ensures value { draft_in lent.new ≡ walk.string_leaf self.now.text.now (cursor_in self.now.text.now c) (draft_in lent.old) }
        ensures same_lists { SameLists lent.old lent.new }
    {
        let mut start = cursors::start_of(c);
        let mut end = cursors::end_of(c);
        if start < end {
            start += 1;
            end -= 1;
        }
        let place = cursors::start_of(c);
        entries::count(lent.notes, entries::NODE, place);
        let name = NameAt::of(self.text, start, end);
        let number = lent.mention(&name, entries::STRING, place);
        let before = lent.nodes();
        lent.put(Node::STRING, number as u64, before);
    }

    // A name, a number, a string or now.
    pub(crate) fn leaf(&self, lent: &mut Lent, c: u64) -> u64
        requires { is_stop c ≡ false }
        ensures value { Follows self.now.text.now (walk.leaf self.now.text.now self.now.handler (cursor_in self.now.text.now c)) result lent.old lent.new }
        ensures same_lists { SameLists lent.old lent.new }
    {
        match cursors::kind_of(c) {
            Token::NAME => {
                // Kept: (c) lent by a name of its own, as in `Lent::mention` of entries.
                let notes = &mut *lent.notes;
                let name = cursors::name_at(self.text, c).named(notes, self.handler);
                lent.put_name(name, cursors::start_of(c));
            }
            Token::NUMBER => lent.put_leaf(
                Node::CONSTANT,
                tokens::value_of(self.text, cursors::start_of(c)),
                cursors::start_of(c),
            ),
            Token::STRING => self.string_leaf(lent, c),
            words::NOW => lent.put_leaf(Node::NOW, 0, cursors::start_of(c)),
            _ => return cursors::unfit(self.text, c),
        }
        cursors::past(self.text, c)
    }

    // Kept: (a) as many turns as the text has bytes, which the definition counts too: a public parser takes any number for its cursor, and from one at
    // a `~` that ends at 0, in the text `~`, a `while` over the kind would count two where the definition counts one.
    pub(crate) fn count_nots(&self, notes: &mut [u64], c: u64) -> Nots
        requires { is_stop c ≡ false }
        ensures { NotsAre self.now.text.now (cursor_in self.now.text.now c) notes.old result notes.new }
    {
        let mut here = c;
        for many in 0..self.text.len() {
            if cursors::kind_of(here) != words::NOT {
                return Nots { many, next: here };
            }
            entries::count(notes, entries::NODE, cursors::start_of(here));
            here = cursors::past(self.text, here);
        }
        Nots {
            many: self.text.len(),
            next: here,
        }
    }
}
