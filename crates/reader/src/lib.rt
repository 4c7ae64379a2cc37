// Reading a contract's text into a table.
#![tactic(auto)]

ghost use Rattle.std.specs.Prelude.{◌≡◌, false, ◌-◌, ◌≤◌, [], length, IfErr};
ghost use Rattle.contract.specs.Encode.{zeros};
ghost use Rattle.entries.specs.Draft.{note};
ghost use Rattle.entries.specs.Lending.{SameLists};
ghost use Rattle.cursors.specs.Packed.{is_stop, cursor_in, step_in};
ghost use Rattle.cursors.specs.Following.{Follows};
ghost use Rattle.reading_laws.specs.Walk as walk;
ghost use Rattle.reading_laws.specs.Walk.{draft};
ghost use Rattle.questions.specs.Numbers.{number_of};
ghost use Rattle.reading.specs.Reading.{refused, read_text, answer_of, table_of};

use agreement::Clauses;
use contract::{Contract, TableHead};
use entries::{Lent, Notes};
use questions::Question;
use reading::Refusal;
use tokens::Token;

mod agreement;

// The agreement's end: question 14.
// Kept: (d) no list with a place in it: `place` is one of the text, and the notes are those of any pass.
fn close(table: &[u64], notes: &mut [u64], place: usize)
    ensures { notes.new ≡ (walk.closed place (draft table.now notes.old)).notes }
{
    let excess = contract::word(notes, entries::EXCESS);
    let many = contract::word(notes, entries::CLAUSES) as usize;
    let parties = contract::word(notes, entries::PARTY) as usize;
    let clauses = Clauses { table, many };
    if excess == 0 && clauses.rules_kept(parties) {
        return;
    }
    entries::find(notes, Question::AgreementRules.number(), place);
}

// A pass over a text that is short enough for cursors.
// Kept: (a) a text that is short, as in `Lists` of clauses.
#[derive(Clone, Copy)]
struct Pass<'a> {
    text: &'a [u8],
    ghost short: { length text.now ≤ 16384 },
}

impl Pass<'_> {
    // legal_contract N {
    // Kept: (d) that c is no stop, here and below, as in `Lists::one` of clauses.
    fn opening(&self, lent: &mut Lent, c: u64) -> u64
        requires { is_stop c ≡ false }
        ensures value { Follows self.now.text.now (walk.opening self.now.text.now (cursor_in self.now.text.now c)) result lent.old lent.new }
        ensures same_lists { SameLists lent.old lent.new }
    {
        let after = cursors::token(self.text, c, words::LEGAL_CONTRACT);
        if cursors::stops(after) {
            return after;
        }
        let name = cursors::name_here(self.text, after);
        if cursors::stops(name) {
            return name;
        }
        entries::title(lent.table, &cursors::name_at(self.text, name));
        cursors::token(self.text, cursors::past(self.text, name), words::OPEN_BRACE)
    }

    // The lines of assets and fields.
    fn declarations(&self, lent: &mut Lent, c: u64) -> u64
        requires { is_stop c ≡ false }
        ensures value { Follows self.now.text.now (walk.declarations self.now.text.now (cursor_in self.now.text.now c)) result lent.old lent.new }
        ensures same_lists { SameLists lent.old lent.new }
    {
        let after = clauses::line(self.text, lent, c, words::ASSETS, entries::ASSET);
        if cursors::stops(after) {
            return after;
        }
        clauses::line(self.text, lent, after, words::FIELDS, entries::FIELD)
    }

    // => @Q after the agreement's closing brace.
    fn initial_state(&self, lent: &mut Lent, c: u64) -> u64
        requires { is_stop c ≡ false }
        ensures value { Follows self.now.text.now (walk.initial_state self.now.text.now (cursor_in self.now.text.now c)) result lent.old lent.new }
        ensures same_lists { SameLists lent.old lent.new }
    {
        let mark = cursors::token(self.text, c, words::STATE_ARROW);
        if cursors::stops(mark) {
            return mark;
        }
        let name = cursors::state_at(self.text, mark);
        if cursors::stops(name) {
            return name;
        }
        let state = cursors::mention_state(self.text, lent, name);
        items::set(lent.table, TableHead::INITIAL, state as u64);
        cursors::past(self.text, name)
    }

    // The clauses, and what is after them.
    fn agreement_rest(&self, lent: &mut Lent, c: u64) -> u64
        requires { is_stop c ≡ false }
        ensures value { Follows self.now.text.now (walk.agreement_rest self.now.text.now (cursor_in self.now.text.now c)) result lent.old lent.new }
        ensures same_lists { SameLists lent.old lent.new }
    {
        let after = clauses::clauses(self.text, lent, c);
        if cursors::stops(after) {
            return after;
        }
        let closed = cursors::token(self.text, after, words::CLOSE_BRACE);
        if cursors::stops(closed) {
            return closed;
        }
        // Kept: (c) lent by a name of its own, here and in `settle`: what a list holds after it was lent to be read through the struct has no name that
        // a proof can cite.
        let table = &mut *lent.table;
        close(table, lent.notes, cursors::start_of(after));
        self.initial_state(lent, closed)
    }

    fn agreement_of(&self, lent: &mut Lent, c: u64) -> u64
        requires { is_stop c ≡ false }
        ensures value { Follows self.now.text.now (walk.agreement self.now.text.now (cursor_in self.now.text.now c)) result lent.old lent.new }
        ensures same_lists { SameLists lent.old lent.new }
    {
        let word = cursors::token(self.text, c, words::AGREEMENT);
        if cursors::stops(word) {
            return word;
        }
        let opened = cursors::token(self.text, word, words::OPEN_PAREN);
        if cursors::stops(opened) {
            return opened;
        }
        let names = clauses::names(self.text, lent, opened, entries::PARTY);
        if cursors::stops(names) {
            return names;
        }
        let closed = cursors::token(self.text, names, words::CLOSE_PAREN);
        if cursors::stops(closed) {
            return closed;
        }
        let inside = cursors::token(self.text, closed, words::OPEN_BRACE);
        if cursors::stops(inside) {
            return inside;
        }
        self.agreement_rest(lent, inside)
    }

    // The closing brace, and nothing but the text's end after it.
    fn ending(&self, c: u64) -> u64
        requires { is_stop c ≡ false }
        ensures { step_in self.now.text.now result ≡ walk.ending_at self.now.text.now (cursor_in self.now.text.now c) }
    {
        let after = cursors::token(self.text, c, words::CLOSE_BRACE);
        if cursors::stops(after) {
            return after;
        }
        if cursors::kind_of(after) == cursors::TEXT_END {
            return after;
        }
        cursors::unfit(self.text, after)
    }

    // The whole text.
    fn contract_text(&self, lent: &mut Lent) -> u64
        ensures value { Follows self.now.text.now (walk.walk self.now.text.now) result lent.old lent.new }
        ensures same_lists { SameLists lent.old lent.new }
    {
        let opened = self.opening(lent, cursors::lex(self.text, 0));
        if cursors::stops(opened) {
            return opened;
        }
        let declared = self.declarations(lent, opened);
        if cursors::stops(declared) {
            return declared;
        }
        let agreed = self.agreement_of(lent, declared);
        if cursors::stops(agreed) {
            return agreed;
        }
        let after = heads::functions(self.text, lent, agreed);
        if cursors::stops(after) {
            return after;
        }
        self.ending(after)
    }
}

// The least finding, or accepted, and then the table's head.
// Kept: (a) the finding stands in the lent notes as a number, 0 for none (`entries::find`).
fn settle(lent: &mut Lent) -> Result<(), Refusal>
    ensures value { result ≡ walk.settled_answer lent.old.notes.now }
    ensures table_after { lent.new.table.now ≡ walk.settled_table lent.old.notes.now lent.old.table.now }
    ensures same_lists { SameLists lent.old lent.new }
{
    let question = lent.note(entries::QUESTION);
    if question != 0 {
        let place = lent.note(entries::PLACE) as usize;
        return Err(Refusal::by_number((question % 256) as u8, place));
    }
    let table = &mut *lent.table;
    let initial = contract::word(table, TableHead::INITIAL) as usize;
    lent.write_counts(initial);
    Ok(())
}

// The pass with notes of its own, all zeros. A stop has its question where a cursor has its token's kind.
fn pass_over(text: &[u8], table: &mut [u64]) -> Result<(), Refusal>
    requires { length text.now ≤ 16384 }
    ensures { walk.Ends (walk.walk text.now (draft table.old (zeros 606))) result table.new }
{
    let mut notes: [u64; Notes::LENGTH] = [0; Notes::LENGTH];
    let mut lent = Lent {
        table,
        notes: &mut notes,
    };
    let r = Pass { text }.contract_text(&mut lent);
    if cursors::stops(r) {
        return Err(Refusal::by_number(cursors::kind_of(r), cursors::start_of(r)));
    }
    settle(&mut lent)
}

// Reads a contract's text into a lent table; a refused one leaves zeros.
pub fn read(text: &[u8], table: &mut [u64]) -> Result<(), Refusal>
    ensures value { result ≡ answer_of (read_text text.now (length table.old)) }
    ensures table_after { table.new ≡ table_of (length table.old) (read_text text.now (length table.old)) }
    ensures refusal { IfErr result (λ e. read_text text.now (length table.old) ≡ refused (number_of e.question) e.place) }
{
    entries::clear(table);
    if Contract::TEXT < text.len() {
        return Err(Refusal {
            question: Question::TextLength,
            place: 0,
        });
    }
    if table.len() != Contract::TABLE {
        return Err(Refusal {
            question: Question::TableLength,
            place: 0,
        });
    }
    let answer = pass_over(text, table);
    if answer.is_err() {
        entries::clear(table);
    }
    answer
}
