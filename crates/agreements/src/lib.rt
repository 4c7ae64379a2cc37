// The agreement: the parties' clauses in the contract's order, with the fields' values, as parts of a session line.
#![tactic(auto)]

ghost use Rattle.std.specs.Prelude.{◌≡◌, ◌&&◌, [], ◌+◌, ◌*◌, ◌/◌, ◌≤◌, ◌<◌, length, get_or, take, drop, pos, eqb};
ghost use Rattle.laws.specs.Bytes.{same_bytes};
ghost use Rattle.numbers.specs.Numbers.{eq_z};
ghost use Rattle.tokens.specs.Tokens.{between};
ghost use Rattle.contract.specs.Table.{word_at, clause_word};
ghost use Rattle.contract.specs.Decode.{word_of, verb_of, clause_at, contract_of};
ghost use Rattle.contract.specs.Rows.{clause_row_of, said};
ghost use Rattle.state.specs.States.{with_integer};
ghost use Rattle.outcomes.specs.Outcomes.{answered};
ghost use Rattle.agreements.specs.Agreement.{parts_in, words_in, same_verb, same_fields, same_clause, same_clauses, set_fields, agreed_fields, fields_in, fields_of, agreed_on, agreed_in};
ghost use Rattle.agreements.specs.Private.{part_at, set_part, set_by, agreed_part, agreed_by, same_by};

use contract::{Clause, Verb};
use evaluation::FieldKind;
use items::get_or;
use lines::Agreement;
use outcomes::{Outcome, Rule};
use questions::Question;
use state::State;
use tables::Passed;

// Field x gets an integer.
fn set_integer(s: &mut State, x: usize, z: i64)
    ensures { s.new ≡ with_integer s.old x z }
{
    items::set(&mut s.kinds, x, FieldKind::INTEGER);
    items::set(&mut s.numbers, x, z);
}

// Whether field x has this integer.
#[tactic(auto, using(numbers::proofs::Whole::eq_bits))]
fn has_integer(s: &State, x: usize, z: i64) -> bool
    ensures { result ≡ (eqb (get_or s.now.kinds x 0) 1 && eq_z (get_or s.now.numbers x (pos 0)) z) }
{
    get_or(&s.kinds, x, 0) == FieldKind::INTEGER && get_or(&s.numbers, x, 0) == z
}

// A part of the line in the list of parts: at which of its words its party's name starts and ends and its verb and the count of its fields stand.
#[derive(Clone, Copy)]
struct Part {}

// Kept: (d) no kinds but places.
impl Part {
    const START: usize = 0;

    const END: usize = 1;

    const VERB: usize = 2;

    const FIELD_COUNT: usize = 3;
}

// The same of a field's name in the list of spans.
#[derive(Clone, Copy)]
struct Span {}

// Kept: (d) no kinds but places.
impl Span {
    const START: usize = 0;

    const END: usize = 1;
}

// What was heard, on a table that passes: the line, its parts, where its fields' names stand, and their values.
// Kept: (a) lists of numbers beside each other, since document 01 has the public step take them so, of any lengths, and question 23 judges whether
// they belong together.
#[derive(Clone, Copy)]
struct Heard<'a> {
    terms: Passed<'a>,
    line: &'a [u8],
    parts: &'a [usize],
    spans: &'a [usize],
    values: &'a [i64],
}

// Clause i of the table, and from which field on its own fields were heard.
#[derive(Clone, Copy)]
struct ClauseAt<'a> {
    heard: Heard<'a>,
    i: usize,
    at: usize,
    row: Clause,
    ghost read: { row ≡ clause_row_of heard.terms.table.now i },
    ghost room: { (i < word_at heard.terms.table.now 5) × (at < 1024) },
}

impl<'a> ClauseAt<'a> {
    fn of(heard: Heard<'a>, i: usize, at: usize) -> ClauseAt<'a>
        requires { (i < word_at heard.terms.table.now 5) × (at < 1024) }
        ensures same_heard { result.heard ≡ heard.entry }
        ensures same_i { result.i ≡ i }
        ensures same_at { result.at ≡ at }
    {
        ClauseAt {
            heard,
            i,
            at,
            row: contract::clause_at(heard.terms.table, i),
        }
    }
}

impl Heard<'_> {
    // Whether the name whose length stands at o is the part of the line from a up to, not including, e.
    fn named(&self, o: usize, a: usize, e: usize) -> bool
        ensures { result ≡ same_bytes (between self.now.line.now a e) (word_of self.now.terms.table.now o) }
    {
        table_names::same_name(self.terms.table, o, tokens::between(self.line, a, e))
    }
}

impl<'a> ClauseAt<'a> {
    // What it does with its fields.
    #[tactic(auto, using(crate::proofs::Clauses::row_verb))]
    fn verb(&self) -> Verb
        ensures { said result ≡ (clause_at self.now.heard.terms.table.now self.now.i).verb }
    {
        self.row.verb()
    }

    // Whether its field j is the one that the line names there.
    #[tactic(auto, using(crate::proofs::Clauses::placed, crate::proofs::Clauses::row_fields, crate::proofs::Clauses::field_name))]
    fn same_field(&self, j: usize) -> bool
        requires { j < self.now.row.fields }
        ensures { result ≡ same_bytes (between self.now.heard.line.now (get_or self.now.heard.spans.now ((self.now.at + j) * 2) 0) (get_or self.now.heard.spans.now ((self.now.at + j) * 2 + 1) 0)) (get_or (contract_of self.now.heard.terms.table.now).fields (clause_word self.now.heard.terms.table.now self.now.i (3 + j)) []) }
    {
        let spans = self.heard.spans;
        let from = (self.at + j) * Agreement::SPAN;
        let field = contract::clause_field(self.heard.terms.table, self.i, j);
        let o = contract::FIELDS + field * contract::NAME_WORDS;
        self.heard.named(
            o,
            get_or(spans, from + Span::START, 0),
            get_or(spans, from + Span::END, 0),
        )
    }

    // Whether its fields are those that the line names.
    fn same_fields(&self) -> bool
        ensures { result ≡ same_fields (contract_of self.now.heard.terms.table.now) (clause_at self.now.heard.terms.table.now self.now.i).fields (words_in self.now.heard.line.now (clause_word self.now.heard.terms.table.now self.now.i 2) (drop (self.now.at * 2) self.now.heard.spans.now)) }
    {
        (0..self.row.fields).all(|j| self.same_field(j))
    }

    // Word j of the part with its number.
    #[tactic(auto, using(crate::proofs::Clauses::placed))]
    fn part(&self, j: usize) -> usize
        requires { j < 4 }
        ensures { result ≡ get_or self.now.heard.parts.now (self.now.i * 4 + j) 0 }
    {
        get_or(self.heard.parts, self.i * Agreement::HEAD + j, 0)
    }

    // Whether the part with its number is of its party.
    #[tactic(auto, using(crate::proofs::Clauses::placed, crate::proofs::Clauses::row_party, crate::proofs::Clauses::row_party_few))]
    fn same_party(&self) -> bool
        ensures { result ≡ same_bytes (between self.now.heard.line.now (get_or self.now.heard.parts.now (self.now.i * 4) 0) (get_or self.now.heard.parts.now (self.now.i * 4 + 1) 0)) (get_or (contract_of self.now.heard.terms.table.now).parties (clause_at self.now.heard.terms.table.now self.now.i).party []) }
    {
        let o = contract::PARTIES + self.row.party * contract::NAME_WORDS;
        self.heard
            .named(o, self.part(Part::START), self.part(Part::END))
    }

    // Whether that part does the same with its fields.
    #[tactic(auto, using(crate::proofs::Agreements::verbs_are, crate::proofs::Clauses::placed))]
    fn same_verb(&self) -> bool
        ensures { result ≡ same_verb (clause_at self.now.heard.terms.table.now self.now.i).verb (verb_of (get_or self.now.heard.parts.now (self.now.i * 4 + 2) 0)) }
    {
        self.verb() == Verb::from(self.part(Part::VERB))
    }

    // Whether it is the part with its number.
    #[tactic(auto, using(crate::proofs::Clauses::placed, crate::proofs::Clauses::row_few))]
    fn same_clause(&self) -> bool
        requires { self.now.at ≤ length self.now.heard.values.now }
        ensures { result ≡ same_clause (contract_of self.now.heard.terms.table.now) (clause_at self.now.heard.terms.table.now self.now.i) (part_at self.now.heard.line.now self.now.heard.parts.now self.now.heard.spans.now self.now.heard.values.now self.now.i self.now.at) }
    {
        let n = self.row.fields;
        self.part(Part::FIELD_COUNT) == n
            && self.at + n <= self.heard.values.len()
            && self.same_verb()
            && self.same_party()
            && self.same_fields()
    }

    // The values that the line has for its fields.
    fn values(&self) -> &'a [i64]
        ensures { result.now ≡ take self.now.row.fields (drop self.now.at self.now.heard.values.now) }
    {
        let rest = self.heard.values.get(self.at..).unwrap_or(&[]);
        rest.get(..self.row.fields).unwrap_or(rest)
    }

    // Its fields get their values.
    fn set_fields(&self, s: &mut State)
        ensures { s.new ≡ set_fields s.old (clause_at self.now.heard.terms.table.now self.now.i).fields (drop self.now.at self.now.heard.values.now) }
    {
        let table = self.heard.terms.table;
        for (j, value) in self.values().iter().enumerate() {
            set_integer(s, contract::clause_field(table, self.i, j), *value);
        }
    }

    // The same, of a clause that says SET.
    fn set_clause(&self, s: &mut State)
        ensures { s.new ≡ set_part s.old (clause_at self.now.heard.terms.table.now self.now.i).fields (drop self.now.at self.now.heard.values.now) (clause_at self.now.heard.terms.table.now self.now.i).verb }
    {
        if self.verb() == Verb::Set {
            self.set_fields(s);
        }
    }

    // Whether its fields have their values.
    fn agreed_fields(&self, s: &State) -> bool
        ensures { result ≡ agreed_fields s.now (clause_at self.now.heard.terms.table.now self.now.i).fields (drop self.now.at self.now.heard.values.now) }
    {
        let table = self.heard.terms.table;
        self.values().iter().enumerate().all(|(j, value)| has_integer(
            s,
            contract::clause_field(table, self.i, j),
            *value,
        ))
    }

    // The same, of a clause that says OK.
    fn agreed_clause(&self, s: &State) -> bool
        ensures { result ≡ agreed_part s.now (clause_at self.now.heard.terms.table.now self.now.i).fields (drop self.now.at self.now.heard.values.now) (clause_at self.now.heard.terms.table.now self.now.i).verb }
    {
        match self.verb() {
            Verb::Set => true,
            Verb::Ok => self.agreed_fields(s),
        }
    }
}

impl Heard<'_> {
    // Whether the clauses are the parts, and nothing is left over.
    // Kept: (d) here, in `set_clauses` and in `agreed_clauses` the place of the next field goes on beside the index. An iterator of `ClauseAt` for the
    // three is a struct with the index and the place, and a `next` with its own contract, more than the three lines `at` takes of each; by `try_fold`
    // the place stands in an Option, to be opened again.
    fn same_clauses(&self) -> bool
        ensures { result ≡ same_clauses (contract_of self.now.terms.table.now) (contract_of self.now.terms.table.now).clauses (parts_in self.now.line.now (length self.now.parts.now / 4) self.now.parts.now self.now.spans.now self.now.values.now) }
    {
        let parts = self.parts;
        let spans = self.spans;
        let values = self.values;
        let count = contract::head(self.terms.table).clauses;
        if parts.len() / Agreement::HEAD != count {
            return false;
        }
        let mut at: usize = 0;
        for i in 0..count {
            let clause = ClauseAt::of(*self, i, at);
            if !clause.same_clause() {
                return false;
            }
            at += clause.row.fields;
        }
        parts.len() <= count * Agreement::HEAD
            && spans.len() <= at * Agreement::SPAN
            && values.len() <= at
    }

    // The clauses' fields get their values.
    #[tactic(auto, using(crate::proofs::Clauses::placed, crate::proofs::Clauses::row_few, crate::proofs::Clauses::clauses_first, crate::proofs::Agreements::set_by_more, crate::proofs::Agreements::set_by_all))]
    fn set_clauses(&self, s: &mut State)
        ensures { s.new ≡ set_by s.old (contract_of self.now.terms.table.now).clauses self.now.values.now }
    {
        let count = contract::head(self.terms.table).clauses;
        let mut at: usize = 0;
        for i in 0..count {
            let clause = ClauseAt::of(*self, i, at);
            clause.set_clause(s);
            at += clause.row.fields;
        }
    }

    // Whether the values agreed on are those set.
    #[tactic(auto, using(crate::proofs::Clauses::placed, crate::proofs::Clauses::row_few, crate::proofs::Clauses::clauses_first, crate::proofs::Agreements::agreed_by_more, crate::proofs::Agreements::agreed_by_not, crate::proofs::Agreements::agreed_by_all))]
    fn agreed_clauses(&self, s: &State) -> bool
        ensures { result ≡ agreed_by s.now (contract_of self.now.terms.table.now).clauses self.now.values.now }
    {
        let count = contract::head(self.terms.table).clauses;
        let mut at: usize = 0;
        for i in 0..count {
            let clause = ClauseAt::of(*self, i, at);
            if !clause.agreed_clause(s) {
                return false;
            }
            at += clause.row.fields;
        }
        true
    }

    // A bit for each field of clause i.
    // Kept: (d) here and in `fields_of` the mask grows from the last item back, as the definition is read; a `fold` is this loop with the mask as the
    // closure's argument, and no shorter.
    #[tactic(auto, using(crate::proofs::Clauses::placed, crate::proofs::Clauses::field_at, crate::proofs::Clauses::fields_count, crate::proofs::Clauses::row_count, crate::proofs::Agreements::fields_none, crate::proofs::Agreements::fields_before, crate::proofs::Agreements::fields_done))]
    fn fields_in(&self, i: usize) -> u64
        requires { i < word_at self.now.terms.table.now 5 }
        ensures { result ≡ fields_in (clause_at self.now.terms.table.now i).fields }
    {
        let mut mask: u64 = 0;
        for j in (0..contract::clause_at(self.terms.table, i).fields).rev() {
            mask |= 1 << contract::clause_field(self.terms.table, i, j);
        }
        mask
    }

    // A bit for each field that clauses of this verb name.
    #[tactic(auto, using(crate::proofs::Clauses::clauses_first, crate::proofs::Clauses::row_verb, crate::proofs::Agreements::clauses_none, crate::proofs::Agreements::clauses_before, crate::proofs::Agreements::clauses_skip, crate::proofs::Agreements::clauses_done))]
    fn fields_of(&self, verb: Verb) -> u64
        ensures { result ≡ fields_of (said verb) (contract_of self.now.terms.table.now).clauses }
    {
        let mut mask: u64 = 0;
        for i in (0..contract::head(self.terms.table).clauses).rev() {
            if verb == contract::clause_at(self.terms.table, i).verb() {
                mask |= self.fields_in(i);
            }
        }
        mask
    }

    // Whether the values set, which this state has, and the values agreed on are the same map.
    #[tactic(auto, using(crate::proofs::Agreements::masks_same, crate::proofs::Agreements::masks_other))]
    fn same_map(&self, s: &State) -> bool
        ensures { result ≡ same_by s.now (contract_of self.now.terms.table.now).clauses self.now.values.now }
    {
        self.fields_of(Verb::Set) == self.fields_of(Verb::Ok) && self.agreed_clauses(s)
    }

    // An agreement on a contract's state.
    fn agree_on_contract(&self, s: &mut State) -> Outcome
        ensures { answered result s.new ≡ agreed_on (contract_of self.now.terms.table.now) s.old (parts_in self.now.line.now (length self.now.parts.now / 4) self.now.parts.now self.now.spans.now self.now.values.now) }
    {
        if s.agreed {
            return Outcome::Refused(Question::NotAgreed);
        }
        if !self.same_clauses() {
            return Outcome::Refused(Question::SameClauses);
        }
        let mut set = *s;
        self.set_clauses(&mut set);
        if !self.same_map(&set) {
            return Outcome::Refused(Question::SameValues);
        }
        set.agreed = true;
        set.state = contract::head(self.terms.table).initial;
        *s = set;
        Outcome::Accepted(Rule::Agree)
    }
}

// An agreement on a table and a state: question 3, then 21, 23 and 24. A state that is refused stays as it is.
#[tactic(auto, unfolding(crate::specs::Agreement::agreed_in, laws::specs::Choice::pick))]
pub fn agree_on(
    table: &[u64],
    s: &mut State,
    line: &[u8],
    parts: &[usize],
    spans: &[usize],
    values: &[i64],
) -> Outcome
    ensures { answered result s.new ≡ agreed_in table.now s.old (parts_in line.now (length parts.now / 4) parts.now spans.now values.now) }
{
    let Some(terms) = Passed::of(table) else {
        return Outcome::Refused(Question::TableCheck);
    };
    let heard = Heard {
        terms,
        line,
        parts,
        spans,
        values,
    };
    heard.agree_on_contract(s)
}
