// Lists of declared names, and the agreement's clauses.
ghost use Rattle.std.specs.Prelude.{◌≡◌, ◌≤◌, false, length};
ghost use Rattle.entries.specs.Lending.{draft_in, SameLists};
ghost use Rattle.cursors.specs.Packed.{is_stop, cursor_in};
ghost use Rattle.cursors.specs.Following.{Follows};
ghost use Rattle.clauses.specs.Private.{entered, one_listed, list_of};
ghost use Rattle.reading_laws.specs.Walk as walk;

use contract::Verb;
use entries::{Lent, NameAt};
use tokens::Token;

// What the names of a list are: declared, of a kind, or the fields of the clause at hand.
// Kept: (d) an `Option<usize>` would hold as much, and its None would not say that the names are fields.
#[derive(Clone, Copy)]
pub(crate) enum Listed {
    Declared(usize),
    Fields,
}

impl Listed {
    // Enters such a name.
    fn enter(self, lent: &mut Lent, name: &NameAt)
        ensures value { draft_in lent.new ≡ entered name.now.text.now self name.now.start name.now.end (draft_in lent.old) }
        ensures same_lists { SameLists lent.old lent.new }
    {
        match self {
            Listed::Declared(kind) => lent.declare(name, kind),
            Listed::Fields => lent.clause_field(name),
        }
    }
}

// A text with lists of names, short enough for cursors.
// Kept: (a) such structs in the parsers' crates, eight in all: the public functions of crate cursors (`lex`, `past`, `token`, `unfit` and others) take any
// text, so that a `cursors::Text` which knows that it is short would ask more of their callers or stand beside them; and crate cursors alone could
// declare methods of it.
#[derive(Clone, Copy)]
pub(crate) struct Lists<'a> {
    pub(crate) text: &'a [u8],
    ghost short: { length text.now ≤ 16384 },
}

impl Lists<'_> {
    // One name of a list.
    // Kept: (d) that c is no stop, here and below: with a type that says so crate clauses had 49 lines more, since a parser's answer is a cursor or a
    // stop in one number, and is wrapped again before the next parser takes it.
    fn one(&self, lent: &mut Lent, c: u64, listed: Listed) -> u64
        requires { is_stop c ≡ false }
        ensures value { Follows self.now.text.now (one_listed self.now.text.now listed (cursor_in self.now.text.now c)) result lent.old lent.new }
        ensures same_lists { SameLists lent.old lent.new }
    {
        if cursors::kind_of(c) != Token::NAME {
            return cursors::unfit(self.text, c);
        }
        listed.enter(lent, &cursors::name_at(self.text, c));
        cursors::past(self.text, c)
    }

    // Names with commas between them.
    fn list(&self, lent: &mut Lent, c: u64, listed: Listed) -> u64
        requires { is_stop c ≡ false }
        ensures value { Follows self.now.text.now (list_of self.now.text.now listed (cursor_in self.now.text.now c)) result lent.old lent.new }
        ensures same_lists { SameLists lent.old lent.new }
    {
        let first = self.one(lent, c, listed);
        if cursors::stops(first) {
            return first;
        }
        let mut here = first;
        while cursors::kind_of(here) == words::COMMA {
            let next = self.one(lent, cursors::past(self.text, here), listed);
            if cursors::stops(next) {
                return next;
            }
            here = next;
        }
        here
    }

    // Declared names of a kind.
    pub(crate) fn names(&self, lent: &mut Lent, c: u64, kind: usize) -> u64
        requires { is_stop c ≡ false }
        ensures value { Follows self.now.text.now (walk.names self.now.text.now kind (cursor_in self.now.text.now c)) result lent.old lent.new }
        ensures same_lists { SameLists lent.old lent.new }
    {
        self.list(lent, c, Listed::Declared(kind))
    }

    // A line of names that a word begins; omitted if empty.
    pub(crate) fn line(&self, lent: &mut Lent, c: u64, word: u8, kind: usize) -> u64
        requires { is_stop c ≡ false }
        ensures value { Follows self.now.text.now (walk.line self.now.text.now word kind (cursor_in self.now.text.now c)) result lent.old lent.new }
        ensures same_lists { SameLists lent.old lent.new }
    {
        if cursors::kind_of(c) == word {
            return self.names(lent, cursors::past(self.text, c), kind);
        }
        c
    }

    // The fields of a clause.
    fn fields(&self, lent: &mut Lent, c: u64) -> u64
        requires { is_stop c ≡ false }
        ensures value { Follows self.now.text.now (walk.clause_fields self.now.text.now (cursor_in self.now.text.now c)) result lent.old lent.new }
        ensures same_lists { SameLists lent.old lent.new }
    {
        self.list(lent, c, Listed::Fields)
    }

    // A clause after its verb.
    fn clause_rest(&self, lent: &mut Lent, c: u64) -> u64
        requires { is_stop c ≡ false }
        ensures value { Follows self.now.text.now (walk.clause_rest self.now.text.now (cursor_in self.now.text.now c)) result lent.old lent.new }
        ensures same_lists { SameLists lent.old lent.new }
    {
        if cursors::kind_of(c) == words::UNDERSCORE {
            entries::clause_end(lent.notes);
            return cursors::past(self.text, c);
        }
        let after = self.fields(lent, c);
        if cursors::stops(after) {
            return after;
        }
        entries::clause_end(lent.notes);
        after
    }

    // A clause from its verb on.
    fn clause_from(&self, lent: &mut Lent, c: u64) -> u64
        requires { is_stop c ≡ false }
        ensures value { Follows self.now.text.now (walk.clause_from self.now.text.now (cursor_in self.now.text.now c)) result lent.old lent.new }
        ensures same_lists { SameLists lent.old lent.new }
    {
        let verb = match cursors::kind_of(c) {
            words::SET_ARROW => Verb::Set,
            words::OK_ARROW => Verb::Ok,
            _ => return cursors::unfit(self.text, c),
        };
        lent.clause_verb(verb as u64);
        self.clause_rest(lent, cursors::past(self.text, c))
    }

    fn clause(&self, lent: &mut Lent, c: u64) -> u64
        requires { is_stop c ≡ false }
        ensures value { Follows self.now.text.now (walk.clause self.now.text.now (cursor_in self.now.text.now c)) result lent.old lent.new }
        ensures same_lists { SameLists lent.old lent.new }
    {
        if cursors::kind_of(c) != Token::NAME {
            return cursors::unfit(self.text, c);
        }
        lent.clause_party(&cursors::name_at(self.text, c));
        self.clause_from(lent, cursors::past(self.text, c))
    }

    // The clauses of the agreement.
    // Kept: (a) as many turns as the text has bytes, which the definition counts too: a public parser takes any number for its cursor, and from one
    // at a name, in an empty text, a `while` over the kind would ask for a clause where the definition reads none. (d) A loop of a few lines over a
    // parser of its own: over two closures, what begins one and what reads it, it would be no shorter.
    pub(crate) fn clauses(&self, lent: &mut Lent, c: u64) -> u64
        requires { is_stop c ≡ false }
        ensures value { Follows self.now.text.now (walk.clauses self.now.text.now (length self.now.text.now) (cursor_in self.now.text.now c)) result lent.old lent.new }
        ensures same_lists { SameLists lent.old lent.new }
    {
        let mut here = c;
        for _ in 0..self.text.len() {
            if cursors::kind_of(here) != Token::NAME {
                return here;
            }
            let next = self.clause(lent, here);
            if cursors::stops(next) {
                return next;
            }
            here = next;
        }
        here
    }
}
