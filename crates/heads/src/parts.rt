// Functions: heads, parameters, preconditions, and what is after a body.
ghost use Rattle.std.specs.Prelude.{◌≡◌, false, ◌≤◌, length};
ghost use Rattle.entries.specs.Lending.{SameLists};
ghost use Rattle.cursors.specs.Packed.{is_stop, cursor_in};
ghost use Rattle.cursors.specs.Following.{Follows};
ghost use Rattle.reading_laws.specs.Walk as walk;

use contract::Contract;
use entries::{Lent, Notes, Rest};

// A text with functions, short enough for cursors.
// Kept: (a) a text that is short, as in `Lists` of clauses.
#[derive(Clone, Copy)]
pub(crate) struct Functions<'a> {
    pub(crate) text: &'a [u8],
    ghost short: { length text.now ≤ 16384 },
}

impl Functions<'_> {
    // The names of a list of parameters, which may be empty, and its end.
    // Kept: (d) that c is no stop, here and below, as in `Lists::one` of clauses.
    fn parameter_names(&self, lent: &mut Lent, c: u64, closing: u8, kind: usize) -> u64
        requires { is_stop c ≡ false }
        ensures value { Follows self.now.text.now (walk.parameter_names self.now.text.now closing kind (cursor_in self.now.text.now c)) result lent.old lent.new }
        ensures same_lists { SameLists lent.old lent.new }
    {
        if cursors::kind_of(c) == closing {
            return cursors::past(self.text, c);
        }
        let after = clauses::names(self.text, lent, c, kind);
        if cursors::stops(after) {
            return after;
        }
        cursors::token(self.text, after, closing)
    }

    // Parameters of a kind; the list may be absent.
    fn parameters_in(&self, lent: &mut Lent, c: u64, opening: u8, closing: u8, kind: usize) -> u64
        requires { is_stop c ≡ false }
        ensures value { Follows self.now.text.now (walk.parameters_in self.now.text.now opening closing kind (cursor_in self.now.text.now c)) result lent.old lent.new }
        ensures same_lists { SameLists lent.old lent.new }
    {
        if cursors::kind_of(c) == opening {
            return self.parameter_names(lent, cursors::past(self.text, c), closing, kind);
        }
        c
    }

    fn precondition(&self, lent: &mut Lent, c: u64) -> u64
        requires { is_stop c ≡ false }
        ensures value { Follows self.now.text.now (walk.precondition self.now.text.now (cursor_in self.now.text.now c)) result lent.old lent.new }
        ensures same_lists { SameLists lent.old lent.new }
    {
        if cursors::kind_of(c) == words::OPEN_PAREN {
            let inner = expressions::condition(
                self.text,
                lent,
                cursors::past(self.text, c),
                Contract::LEVELS,
                false,
            );
            return cursors::close(self.text, inner);
        }
        c
    }

    // @Q A : f
    fn function_head(&self, lent: &mut Lent, c: u64) -> u64
        requires { is_stop c ≡ false }
        ensures value { Follows self.now.text.now (walk.function_head self.now.text.now (cursor_in self.now.text.now c)) result lent.old lent.new }
        ensures same_lists { SameLists lent.old lent.new }
    {
        let state_name = cursors::state_at(self.text, c);
        if cursors::stops(state_name) {
            return state_name;
        }
        let party = cursors::name_here(self.text, cursors::past(self.text, state_name));
        if cursors::stops(party) {
            return party;
        }
        let past = cursors::token(self.text, cursors::past(self.text, party), words::COLON);
        if cursors::stops(past) {
            return past;
        }
        let name = cursors::name_here(self.text, past);
        if cursors::stops(name) {
            return name;
        }
        let state = cursors::mention_state(self.text, lent, state_name);
        let number = cursors::name_at(self.text, party).use_party(lent.notes);
        let name_at = cursors::name_at(self.text, name);
        lent.head(&name_at, cursors::start_of(c), state, number);
        cursors::past(self.text, name)
    }

    // Parameters and precondition.
    fn function_parts(&self, lent: &mut Lent, c: u64) -> u64
        requires { is_stop c ≡ false }
        ensures value { Follows self.now.text.now (walk.function_parts self.now.text.now (cursor_in self.now.text.now c)) result lent.old lent.new }
        ensures same_lists { SameLists lent.old lent.new }
    {
        let after_values = self.parameters_in(
            lent,
            c,
            words::OPEN_PAREN,
            words::CLOSE_PAREN,
            entries::VALUE,
        );
        if cursors::stops(after_values) {
            return after_values;
        }
        let after_parameters = self.parameters_in(
            lent,
            after_values,
            words::OPEN_BRACKET,
            words::CLOSE_BRACKET,
            entries::PARAMETER,
        );
        if cursors::stops(after_parameters) {
            return after_parameters;
        }
        self.precondition(lent, after_parameters)
    }

    // The body of function i and what is after it; its first node and first event have these numbers.
    fn function_end(&self, lent: &mut Lent, c: u64, i: usize, first: usize, event: usize) -> u64
        requires { is_stop c ≡ false }
        ensures value { Follows self.now.text.now (walk.function_end self.now.text.now i first event (cursor_in self.now.text.now c)) result lent.old lent.new }
        ensures same_lists { SameLists lent.old lent.new }
    {
        let condition = lent.nodes_since(first);
        let after = bodies::body(self.text, lent, c);
        if cursors::stops(after) {
            return after;
        }
        let mark = cursors::token(self.text, after, words::STATE_ARROW);
        if cursors::stops(mark) {
            return mark;
        }
        let name = cursors::state_at(self.text, mark);
        if cursors::stops(name) {
            return name;
        }
        let many = lent.note(Notes::BODY) as usize;
        let events = lent.note(Notes::HERE) as usize;
        let last = cursors::mention_state(self.text, lent, name);
        let rest = Rest {
            last,
            first,
            precondition: condition,
            body: many,
            event,
            events,
        };
        lent.function_rest(i, rest);
        cursors::past(self.text, name)
    }

    fn function(&self, lent: &mut Lent, c: u64) -> u64
        requires { is_stop c ≡ false }
        ensures value { Follows self.now.text.now (walk.function self.now.text.now (cursor_in self.now.text.now c)) result lent.old lent.new }
        ensures same_lists { SameLists lent.old lent.new }
    {
        let i = lent.note(entries::FUNCTIONS) as usize;
        let first = lent.nodes();
        let event = lent.note(entries::EVENT) as usize;
        let after_head = self.function_head(lent, c);
        if cursors::stops(after_head) {
            return after_head;
        }
        let after_parts = self.function_parts(lent, after_head);
        if cursors::stops(after_parts) {
            return after_parts;
        }
        self.function_end(lent, after_parts, i, first, event)
    }

    // The functions of a contract.
    // Kept: (a) and (d) a loop of its own, with as many turns as the text has bytes, as `Lists::clauses` of clauses.
    pub(crate) fn functions(&self, lent: &mut Lent, c: u64) -> u64
        requires { is_stop c ≡ false }
        ensures value { Follows self.now.text.now (walk.functions self.now.text.now (length self.now.text.now) (cursor_in self.now.text.now c)) result lent.old lent.new }
        ensures same_lists { SameLists lent.old lent.new }
    {
        let mut here = c;
        for _ in 0..self.text.len() {
            if cursors::kind_of(here) != words::AT_SIGN {
                return here;
            }
            let next = self.function(lent, here);
            if cursors::stops(next) {
                return next;
            }
            here = next;
        }
        here
    }
}
