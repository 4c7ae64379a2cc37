// What one pass over a contract's text notes and writes: names, counts, the least finding, rows and nodes. Every function takes any lent
// words: a word past their end reads as 0, and is not written.
#![tactic(auto)]

ghost use Rattle.std.specs.Prelude.{◌≡◌, true, false, [], ◌∷◌, ◌+◌, ◌-◌, ◌*◌, ◌%◌, ◌≤◌, ◌<◌, length, set, take, drop, eqb, ltb, get_or, MatchOption};
ghost use Rattle.std.proofs.lemmas.List.Edits.{sets};
ghost use Rattle.laws.specs.Choice.{pick};
ghost use Rattle.laws.specs.Bytes.{same_bytes};
ghost use Rattle.tokens.specs.Tokens.{between};
ghost use Rattle.contract.specs.Encode.{zeros, packed, packed_row};
ghost use Rattle.questions.specs.Numbers.{number_of};
ghost use Rattle.entries.specs.Draft as draft;
ghost use Rattle.entries.specs.Private.{sought, IsFound, IsSection};
ghost use Rattle.entries.specs.Lending.{draft_in, SameLists};

use contract::{Clause, Contract, Event, Function, Node};
use questions::Question;

// Kinds of what is counted. The first seven are names.
// Kept: (a) numbers, since a public function takes any number as a kind and an enum would ask more of its callers; each is also the place
// of its count in the lent notes.
pub const PARTY: usize = 0;

pub const ASSET: usize = 1;

pub const FIELD: usize = 2;

// Parameters are those of the function at hand.
pub const VALUE: usize = 3;

pub const PARAMETER: usize = 4;

pub const STATE: usize = 5;

pub const STRING: usize = 6;

pub const EVENT: usize = 7;

// Statements are those of the body or handler at hand.
pub const STATEMENT: usize = 8;

pub const NODE: usize = 9;

// Further words of the notes.
pub const FUNCTIONS: usize = 10;

pub const CLAUSES: usize = 11;

pub const QUESTION: usize = 12;

pub const PLACE: usize = 13;

pub const WRITTEN: usize = 14;

// Kept: (a) places of words in the lent notes, of which a public function takes any, as of kinds.
pub const EXCESS: usize = 15;

// The notes: the words above, then a slot for each name, then two words more.
#[derive(Clone, Copy)]
pub struct Notes {}

impl Notes {
    // Where the slots start, and the words of one: a mark, where the name starts and where it ends.
    const SLOTS: usize = EXCESS + 1;

    const SLOT: usize = 3;
    // The first slots of each kind of names; those of functions are the last.
    const PARTIES: usize = 0;

    const ASSETS: usize = Notes::PARTIES + Contract::PARTIES;

    const FIELDS: usize = Notes::ASSETS + Contract::ASSETS;

    const VALUES: usize = Notes::FIELDS + Contract::FIELDS;

    const PARAMETERS: usize = Notes::VALUES + Function::VALUES;

    const STATES: usize = Notes::PARAMETERS + Function::PARAMETERS;

    const STRINGS: usize = Notes::STATES + Contract::STATES;

    const FUNCTIONS: usize = Notes::STRINGS + Contract::STRINGS;

    const NAMES: usize = Notes::FUNCTIONS + Contract::FUNCTIONS;
    // Nodes of the body at hand, and events of the function at hand.
    pub const BODY: usize = Notes::SLOTS + Notes::SLOT * Notes::NAMES;

    pub const HERE: usize = Notes::BODY + 1;
    // The words of the notes.
    pub const LENGTH: usize = Notes::HERE + 1;
}

// What a name stands for: the kind of its node and its number; kind 0 where it is unknown.
// Kept: (d) no `Option`, since these are the two words of a node, which is written for an unknown name too.
#[derive(Clone, Copy)]
pub struct Known {
    pub kind: u64,
    pub number: u64,
}

// The two lent lists that a pass writes.
// Kept: (d) that they are the same two lists after a call (`SameLists`) is a clause of each function that takes them by `&mut`, here and in the
// parsers: it relates the struct before the call and after it, which no field or invariant of one value can say.
#[derive(Drop)]
pub struct Lent<'a> {
    pub table: &'a mut [u64],
    pub notes: &'a mut [u64],
}

impl Lent<'_> {
    // Word i of the notes.
    pub fn note(&self, i: usize) -> u64
        ensures { result ≡ draft.note self.now.notes.now i }
    {
        contract::word(self.notes, i)
    }

    // Word i of the table.
    fn cell(&self, i: usize) -> u64
        ensures { result ≡ get_or self.now.table.now i 0 }
    {
        contract::word(self.table, i)
    }

    // As `nodes` and `nodes_since`.
    pub fn nodes(&self) -> usize
        ensures { result ≡ draft.note self.now.notes.now 14 }
    {
        nodes(self.notes)
    }

    pub fn nodes_since(&self, before: usize) -> usize
        ensures { result ≡ draft.note self.now.notes.now 14 - before }
    {
        nodes_since(self.notes, before)
    }
}

// How many nodes are written.
pub fn nodes(notes: &[u64]) -> usize
    ensures { result ≡ draft.note notes.now 14 }
{
    contract::word(notes, WRITTEN) as usize
}

// How many nodes are written from `before` on.
pub fn nodes_since(notes: &[u64], before: usize) -> usize
    ensures { result ≡ draft.note notes.now 14 - before }
{
    nodes(notes).saturating_sub(before)
}

// ---- Findings and counts.

// The least finding after one more: earliest place, then lowest number.
// Kept: (a) the question is a number, as the lent notes hold it, 0 where nothing is found: a public function takes any, and notes of a caller
// may hold any; (d) one test of `|` and `&`: with `||` it is three, each a case of its own.
#[tactic(auto, unfolding(crate::specs::Draft::found, laws::specs::Choice::pick))]
pub fn find(notes: &mut [u64], question: u8, place: usize)
    ensures { notes.new ≡ draft.found question place notes.old }
{
    let q = contract::word(notes, QUESTION);
    let o = contract::word(notes, PLACE) as usize;
    let first = q == 0;
    let sooner = place < o;
    let lower = (place == o) & ((question as u64) < q);
    if first | (sooner | lower) {
        items::set(notes, QUESTION, question as u64);
        items::set(notes, PLACE, place as u64);
    }
}

// A question at a place, where its answer is no.
#[tactic(auto, unfolding(laws::specs::Choice::pick))]
fn ask(notes: &mut [u64], yes: bool, question: Question, place: usize)
    ensures { notes.new ≡ pick yes notes.old (draft.found (number_of question) place notes.old) }
{
    if !yes {
        find(notes, question.number(), place);
    }
}

// The most of each kind.
// Kept: (d) a table of limits and one of slots: of the ten rows of one table three kinds would have no slot, since they are no names, and five no
// section.
const LIMITS: [usize; 10] = [
    Contract::PARTIES,
    Contract::ASSETS,
    Contract::FIELDS,
    Function::VALUES,
    Function::PARAMETERS,
    Contract::STATES,
    Contract::STRINGS,
    Contract::EVENTS,
    Function::STATEMENTS,
    Contract::NODES,
];

fn limit(kind: usize) -> usize
    ensures { result ≡ draft.limit kind }
{
    items::get_or(&LIMITS, kind, 0)
}

// One more of a kind, within its limit; else question 11.
// Kept: (a) the kind is the place of its count in the lent notes, a number, since a public function takes any.
#[tactic(auto, unfolding(crate::specs::Draft::counted, laws::specs::Choice::pick))]
pub fn count(notes: &mut [u64], kind: usize, place: usize)
    ensures { notes.new ≡ draft.counted kind place notes.old }
{
    let n = contract::word(notes, kind);
    if n < limit(kind) as u64 {
        items::set(notes, kind, n + 1);
    } else {
        find(notes, Question::Limits.number(), place);
    }
}

// Question 11 where there are as many of a kind as can be.
// Kept: (a) as `count`.
fn ask_limit(notes: &mut [u64], kind: usize, most: usize, place: usize)
    ensures { notes.new ≡ pick (ltb (draft.note notes.old kind) most) notes.old (draft.found 11 place notes.old) }
{
    let room = contract::word(notes, kind) < most as u64;
    ask(notes, room, Question::Limits, place);
}

// ---- Names.

// A number that equal words share.
fn mark(word: &[u8]) -> u64
    ensures value { result ≡ draft.mark_of word.now }
    ensures upper_bound { result < 16777216 }
{
    match word.last() {
        Some(last) => (word.len() % 65536) as u64 * 256 + *last as u64,
        None => 0,
    }
}

// A name of a text, from start up to end: its bytes and their mark. Any text has it at any two places.
#[derive(Clone, Copy)]
pub struct NameAt<'a> {
    pub text: &'a [u8],
    pub start: usize,
    pub end: usize,
    pub word: &'a [u8],
    mark: u64,
    ghost cut: { word.now ≡ between text.now start end },
    ghost marked: { (mark ≡ draft.mark_of word.now) × (mark < 16777216) },
}

impl<'a> NameAt<'a> {
    pub fn of(text: &'a [u8], start: usize, end: usize) -> NameAt<'a>
        ensures text { result.text.now ≡ text.now }
        ensures word { result.word.now ≡ between text.now start end }
        ensures start { result.start ≡ start }
        ensures end { result.end ≡ end }
    {
        let word = tokens::between(text, start, end);
        NameAt {
            text,
            start,
            end,
            word,
            mark: mark(word),
        }
    }
}

// Kept: (b) with `==` of slices a reading of the two texts of 4,096 nodes (nodes_4096_shape_0 and nodes_4096_shape_4 of trial_reading) takes 7.4 and
// 5.3 per cent more instructions (unproved builds that differ in this alone), since most names are short. The bar is 1.5 times a plain program's
// count, 942,780 and 1,009,398; docs/TIMES.md has what the proved program takes.
#[tactic(auto, using(crate::proofs::Finds::same_more, crate::proofs::Finds::same_other, crate::proofs::Finds::same_all, laws::proofs::Bytes::same_length))]
fn same_bytes(a: &[u8], b: &[u8]) -> bool
    ensures { result ≡ same_bytes a.now b.now }
{
    if a.len() != b.len() {
        return false;
    }
    for i in 0..a.len() {
        if a[i] != b[i] {
            return false;
        }
    }
    true
}

// A slot before which none has this mark: the first that has it, or `many`; the first of all in short notes.
// Kept: (d) the same loop as that of `find_from`, which has to be one; `many` where none has the mark, so that the range which `find_from` goes over
// from there is empty. With `find` here the two texts of `same_bytes` take 0.9 and 2.0 per cent more (unproved builds).
#[tactic(auto, using(crate::proofs::Finds::skip_none, crate::proofs::Finds::skip_one))]
fn find_mark(notes: &[u64], mark: u64, slot: usize, many: usize) -> usize
    requires { (slot ≤ 132) × (many ≤ 4096) }
    ensures { draft.Skips notes.now mark slot 0 many result }
{
    if notes.len() < Notes::SLOTS + Notes::SLOT * (slot + many) {
        return 0;
    }
    for i in 0..many {
        if notes[Notes::SLOTS + Notes::SLOT * (slot + i)] == mark {
            return i;
        }
    }
    many
}

// How many there are of a kind.
fn many_of(notes: &[u64], kind: usize) -> usize
    ensures value { result ≡ draft.known_count notes.now kind }
    ensures upper_bound { result ≤ 4096 }
{
    limit(kind).min(contract::word(notes, kind) as usize)
}

// The first slot of each kind of names.
const SLOTS: [usize; 7] = [
    Notes::PARTIES,
    Notes::ASSETS,
    Notes::FIELDS,
    Notes::VALUES,
    Notes::PARAMETERS,
    Notes::STATES,
    Notes::STRINGS,
];

fn slot_of(kind: usize) -> usize
    ensures value { result ≡ draft.slot_of kind }
    ensures upper_bound { result ≤ 132 }
{
    items::get_or(&SLOTS, kind, Notes::FUNCTIONS)
}

impl NameAt<'_> {
    // Whether a slot has this mark and its bytes.
    #[tactic(auto, unfolding(crate::specs::Draft::slot_is, laws::specs::Choice::pick))]
    fn is_in_slot(&self, notes: &[u64], slot: usize, mark: u64) -> bool
        requires { slot ≤ 5000 }
        ensures { result ≡ draft.slot_is self.now.text.now notes.now slot mark self.now.word.now }
    {
        let at = Notes::SLOTS + Notes::SLOT * slot;
        if contract::word(notes, at) != mark {
            return false;
        }
        let start = contract::word(notes, at + 1) as usize;
        let end = contract::word(notes, at + 2) as usize;
        same_bytes(tokens::between(self.text, start, end), self.word)
    }

    // The first of so many slots that has this mark and its bytes.
    // Inlined, as what looks a name up by it and `put_name`: else an answer goes through memory. A reading of the two texts of `same_bytes` takes
    // 15.6 and 13.1 per cent more instructions without the mark of `find_from`, 28.1 and 17.2 without that of `number`, 31.3 and 18.6 of `seek`,
    // 7.6 and 2.6 of `stored`, 0.7 and 3.1 of `holder`, 4.3 and 3.1 of `put_name`, 0.4 and 1.5 of `asset_target` (unproved builds).
    // Kept: (b) a `for` that returns: with `find` of the range these readings take 23.5 and 19.3 per cent more (unproved builds), which misses the bar.
    #[inline(always)]
    #[tactic(auto, using(crate::proofs::Finds::find_more, crate::proofs::Finds::find_hit, crate::proofs::Finds::find_end, crate::proofs::Finds::skip_to, crate::proofs::Finds::skip_most))]
    fn find_from(&self, notes: &[u64], mark: u64, slot: usize, many: usize) -> Option<usize>
        requires { (slot ≤ 132) × (many ≤ 4096) }
        ensures { IsFound result (draft.find_from self.now.text.now notes.now mark self.now.word.now slot 0 many) many }
    {
        for i in find_mark(notes, mark, slot, many)..many {
            if self.is_in_slot(notes, slot + i, mark) {
                return Some(i);
            }
        }
        None
    }

    // Its number among those of a kind, if it is among them.
    #[inline(always)]
    #[tactic(auto, unfolding(crate::specs::Draft::number_in, crate::specs::Draft::find_from))]
    fn number(&self, notes: &[u64], kind: usize) -> Option<usize>
        ensures { IsFound result (draft.number_in self.now.text.now notes.now kind self.now.word.now) (draft.known_count notes.now kind) }
    {
        let many = many_of(notes, kind);
        if many == 0 {
            return None;
        }
        self.find_from(notes, self.mark, slot_of(kind), many)
    }

    #[tactic(auto, unfolding(crate::specs::Draft::among_in))]
    fn is_among(&self, notes: &[u64], kind: usize) -> bool
        ensures { result ≡ draft.among_in self.now.text.now notes.now kind self.now.word.now }
    {
        self.number(notes, kind).is_some()
    }

    // Whether it is a party's, an asset's, a field's or a parameter's.
    fn is_declared(&self, notes: &[u64]) -> bool
        ensures { result ≡ draft.is_declared self.now.text.now notes.now self.now.word.now }
    {
        (PARTY..STATE).any(|kind| self.is_among(notes, kind))
    }

    // What it stands for among those of a kind.
    #[inline(always)]
    #[tactic(auto, unfolding(crate::specs::Draft::among_in, laws::specs::Choice::pick))]
    fn seek(&self, notes: &[u64], kind: usize, node: u64) -> Option<Known>
        ensures { result ≡ sought self.now.text.now notes.now kind node self.now.word.now }
    {
        let number = self.number(notes, kind)? as u64;
        Some(Known { kind: node, number })
    }
}

// A word's length and bytes at a row.
// Kept: (d) where a row goes: of a short table what is there of it is written, and there may be no slice from there on.
#[tactic(auto, using(crate::proofs::Rows::row_all, crate::proofs::Rows::stores_end))]
fn write_row(table: &mut [u64], at: usize, word: &[u8])
    requires { at ≤ 300000 }
    ensures { table.new ≡ draft.rowed table.old at word.now }
{
    items::set(table, at, word.len() as u64);
    for (i, byte) in word.iter().enumerate() {
        items::set(table, at + 1 + i, u64::from(*byte));
    }
}

// A mark and a name's place at a slot.
// Kept: (d) no list with its length: the notes are any lent words, and `slot` is the number of one slot of them.
#[tactic(auto, unfolding(crate::specs::Draft::slotted))]
fn write_slot(notes: &mut [u64], slot: usize, mark: u64, name: &NameAt)
    requires { slot ≤ 5000 }
    ensures { notes.new ≡ draft.slotted notes.old slot mark name.now.start name.now.end }
{
    let at = Notes::SLOTS + Notes::SLOT * slot;
    items::store_all(notes, at, &[mark, name.start as u64, name.end as u64]);
}

// Where the rows of a kind of names stand, if it has any.
fn section_of(kind: usize) -> Option<usize>
    ensures { MatchOption result (draft.section_of kind ≡ 0) (IsSection (draft.section_of kind)) }
{
    match kind {
        PARTY => Some(contract::PARTIES),
        ASSET => Some(contract::ASSETS),
        FIELD => Some(contract::FIELDS),
        STATE => Some(contract::STATES),
        STRING => Some(contract::STRINGS),
        _ => None,
    }
}

// How many words a row of a kind of names has.
// Kept: (d) one of two constants by a kind: a function of the two and a truth would be `if` under another name.
#[tactic(auto, unfolding(laws::specs::Choice::pick))]
fn width_of(kind: usize) -> usize
    ensures value { result ≡ draft.width_of kind }
    ensures upper_bound { result ≤ 65 }
{
    if kind == STRING {
        contract::STRING_WORDS
    } else {
        contract::NAME_WORDS
    }
}

// Eight bytes of a word from byte i on, the first lowest. A byte past its end is 0.
#[tactic(auto, using(crate::proofs::Packing::eight_packed))]
fn eight_bytes(word: &[u8], i: usize) -> u64
    requires { i ≤ 24 }
    ensures { result ≡ packed (take 8 (drop i word.now)) }
{
    let at = |k: usize| -> u8
        requires { i + k < 32 }
        ensures { result ≡ get_or word.entry.now (i + k) 0 }
    { tokens::byte_at(word, i + k) };
    u64::from_le_bytes([at(0), at(1), at(2), at(3), at(4), at(5), at(6), at(7)])
}

// A word's length and its first 32 bytes, eight in a word of the table.
// Kept: (d) where a row goes, as in `write_row`.
#[tactic(auto, using(crate::proofs::Packing::packed_written))]
fn write_packed(table: &mut [u64], at: usize, word: &[u8])
    requires { at ≤ 100000 }
    ensures { table.new ≡ sets table.old at (packed_row word.now) }
{
    let a = eight_bytes(word, 0);
    let b = eight_bytes(word, 8);
    let c = eight_bytes(word, 16);
    let d = eight_bytes(word, 24);
    items::store_all(table, at, &[word.len() as u64, a, b, c, d]);
}

// The first row of a kind of parameters among those of a function.
#[tactic(auto, unfolding(laws::specs::Choice::pick))]
fn first_row(kind: usize) -> usize
    ensures value { result ≡ pick (eqb kind 4) 8 0 }
    ensures upper_bound { result ≤ 8 }
{
    if kind == PARAMETER {
        Function::VALUES
    } else {
        0
    }
}

// Parameter i of a kind, of the last of so many functions.
// Kept: (d) no list with its length: `functions` is how many are counted, in a table of any length; the bound of i is that of a count, which the
// three that enter a name hand on.
#[tactic(auto, unfolding(crate::specs::Draft::parameter_put, laws::specs::Choice::pick))]
fn enter_parameter(table: &mut [u64], functions: usize, kind: usize, i: usize, word: &[u8])
    requires { i < 4096 }
    ensures { table.new ≡ draft.parameter_put functions kind i word.now table.old }
{
    let function = functions.saturating_sub(1);
    let first = first_row(kind);
    if function < Contract::FUNCTIONS {
        let row = Function::NAMES * function + first + i;
        write_packed(
            table,
            contract::PARAMETERS + contract::PACKED_WORDS * row,
            word,
        );
    }
}

// Row i of a kind, of a parameter for the last of so many functions.
// Kept: (d) no list with its length, as in `enter_parameter`.
#[tactic(auto, unfolding(laws::specs::Choice::pick))]
fn enter_row(table: &mut [u64], functions: usize, kind: usize, i: usize, word: &[u8])
    requires { i < 4096 }
    ensures { table.new ≡ pick (eqb (draft.section_of kind) 0) (draft.parameter_put functions kind i word.now table.old) (draft.rowed table.old (draft.section_of kind + draft.width_of kind * i) word.now) }
{
    match section_of(kind) {
        Some(section) => write_row(table, section + width_of(kind) * i, word),
        None => enter_parameter(table, functions, kind, i, word),
    }
}

impl Lent<'_> {
    // Name i of a kind.
    #[inline(always)]
    #[tactic(auto, unfolding(crate::specs::Draft::entered))]
    fn enter(&mut self, name: &NameAt, kind: usize, i: usize)
        requires { i < 4096 }
        ensures value { draft_in self.new ≡ draft.entered name.now.text.now kind i name.now.start name.now.end (draft_in self.old) }
        ensures same_lists { SameLists self.old self.new }
    {
        let functions = self.note(FUNCTIONS) as usize;
        enter_row(self.table, functions, kind, i, name.word);
        write_slot(self.notes, slot_of(kind) + i, name.mark, name);
        items::set(self.notes, kind, i as u64 + 1);
    }

    // One more name of a kind, within its limit; else question 11.
    #[tactic(auto, unfolding(laws::specs::Choice::pick))]
    fn enter_new(&mut self, name: &NameAt, kind: usize, place: usize)
        ensures value { draft_in self.new ≡ draft.entered_new name.now.text.now kind name.now.start name.now.end place (draft_in self.old) }
        ensures same_lists { SameLists self.old self.new }
    {
        let n = self.note(kind) as usize;
        if n < limit(kind) {
            self.enter(name, kind, n);
        } else {
            find(self.notes, Question::Limits.number(), place);
        }
    }
}

// Questions 11 and 12 of a declared name.
// Kept: (a) as `count`.
#[tactic(auto, unfolding(crate::specs::Draft::declared_in, laws::specs::Choice::pick))]
fn declare_notes(name: &NameAt, notes: &mut [u64], kind: usize)
    ensures { notes.new ≡ draft.declared_in name.now.text.now kind name.now.start name.now.end notes.old }
{
    let new = !name.is_declared(notes);
    ask_limit(notes, kind, limit(kind), name.start);
    ask(notes, new, Question::NameNew, name.start);
}

impl Lent<'_> {
    // A declared name.
    #[tactic(auto, unfolding(crate::specs::Draft::declare, laws::specs::Choice::pick))]
    pub fn declare(&mut self, name: &NameAt, kind: usize)
        ensures value { draft_in self.new ≡ draft.declare name.now.text.now kind name.now.start name.now.end (draft_in self.old) }
        ensures same_lists { SameLists self.old self.new }
    {
        let n = self.note(kind) as usize;
        declare_notes(name, self.notes, kind);
        if n < limit(kind) {
            self.enter(name, kind, n);
        }
    }

    // A state or a string, and its number: that of a new one is how many there were.
    #[tactic(auto, unfolding(crate::specs::Draft::mention, crate::specs::Draft::among_in, laws::specs::Choice::pick))]
    pub fn mention(&mut self, name: &NameAt, kind: usize, place: usize) -> usize
        ensures number { result ≡ draft.number_in name.now.text.now self.old.notes.now kind name.now.word.now }
        ensures value { draft_in self.new ≡ draft.mention name.now.text.now kind name.now.start name.now.end place (draft_in self.old) }
        ensures same_lists { SameLists self.old self.new }
    {
        // Kept: (c) lent by `&mut` only to be read: lent by `&`, what a list of the struct holds after it has no name that a proof can cite; (d) by two
        // methods over `&self`, as `note`, it is ten lines more.
        let notes = &mut *self.notes;
        if let Some(i) = name.number(notes, kind) {
            return i;
        }
        let many = many_of(notes, kind);
        self.enter_new(name, kind, place);
        many
    }
}

// ---- Used names.

fn unknown() -> Known
    ensures { result ≡ draft.unknown }
{
    Known { kind: 0, number: 0 }
}

impl NameAt<'_> {
    // An asset, or outside handlers an asset parameter.
    // Kept: (b) an `if let` that returns, here and below: with `or_else`, over a closure that seeks, a reading of the two texts of `same_bytes` takes 17.2
    // and 12.7 per cent more instructions (unproved builds).
    #[inline(always)]
    #[tactic(auto, unfolding(crate::specs::Draft::holder_in, crate::specs::Draft::seek, laws::specs::Choice::pick))]
    pub fn holder(&self, notes: &[u64], handler: bool) -> Known
        ensures { result ≡ draft.holder_in self.now.text.now notes.now handler self.now.word.now }
    {
        if let Some(asset) = self.seek(notes, ASSET, Node::ASSET) {
            return asset;
        }
        if handler {
            return unknown();
        }
        self.seek(notes, PARAMETER, Node::PARAMETER)
            .unwrap_or(unknown())
    }

    // An asset or a field.
    #[inline(always)]
    #[tactic(auto, unfolding(crate::specs::Draft::stored_in, crate::specs::Draft::seek, laws::specs::Choice::pick))]
    fn stored(&self, notes: &[u64]) -> Known
        ensures { result ≡ draft.stored_in self.now.text.now notes.now self.now.word.now }
    {
        if let Some(asset) = self.seek(notes, ASSET, Node::ASSET) {
            return asset;
        }
        self.seek(notes, FIELD, Node::FIELD).unwrap_or(unknown())
    }

    // What an expression names.
    #[tactic(auto, unfolding(crate::specs::Draft::name_in, crate::specs::Draft::seek, laws::specs::Choice::pick))]
    pub fn named(&self, notes: &[u64], handler: bool) -> Known
        ensures { result ≡ draft.name_in self.now.text.now notes.now handler self.now.word.now }
    {
        if handler {
            return self.stored(notes);
        }
        if let Some(value) = self.seek(notes, VALUE, Node::VALUE) {
            return value;
        }
        if let Some(parameter) = self.seek(notes, PARAMETER, Node::PARAMETER) {
            return parameter;
        }
        self.stored(notes)
    }

    // What `->` goes to.
    #[tactic(auto, unfolding(crate::specs::Draft::value_target, crate::specs::Draft::seek, laws::specs::Choice::pick))]
    pub fn value_target(&self, notes: &[u64]) -> Known
        ensures { result ≡ draft.value_target self.now.text.now notes.now self.now.word.now }
    {
        if let Some(target) = self.seek(notes, PARTY, Node::PARTY) {
            return target;
        }
        self.seek(notes, FIELD, Node::FIELD).unwrap_or(unknown())
    }

    // What `-o` goes to.
    #[inline(always)]
    #[tactic(auto, unfolding(crate::specs::Draft::asset_target, crate::specs::Draft::seek, laws::specs::Choice::pick))]
    pub fn asset_target(&self, notes: &[u64], handler: bool) -> Known
        ensures { result ≡ draft.asset_target self.now.text.now notes.now handler self.now.word.now }
    {
        if let Some(party) = self.seek(notes, PARTY, Node::PARTY) {
            return party;
        }
        self.holder(notes, handler)
    }
}

// Question 13 where a name is unknown.
#[tactic(auto, unfolding(crate::specs::Draft::wanted, laws::specs::Choice::pick))]
pub fn want(notes: &mut [u64], name: Known, place: usize)
    ensures { notes.new ≡ draft.wanted name place notes.old }
{
    ask(notes, name.kind != 0, Question::NameKind, place);
}

// ---- Nodes.

impl Lent<'_> {
    // One more node; its size counts the nodes from `before` on.
    #[tactic(auto, unfolding(crate::specs::Draft::put, laws::specs::Choice::pick))]
    pub fn put(&mut self, kind: u64, argument: u64, before: usize)
        ensures value { draft_in self.new ≡ draft.put kind argument before (draft_in self.old) }
        ensures same_lists { SameLists self.old self.new }
    {
        let n = self.nodes();
        if n < Contract::NODES {
            let at = contract::NODES + Node::WORDS * n;
            let size = n.saturating_sub(before) + 1;
            items::store_all(self.table, at, &[kind, argument, size as u64]);
            items::set(self.notes, WRITTEN, n as u64 + 1);
        }
    }

    // A name's node.
    #[inline(always)]
    #[tactic(auto, unfolding(crate::specs::Draft::put_name))]
    pub fn put_name(&mut self, name: Known, place: usize)
        ensures value { draft_in self.new ≡ draft.put_name name place (draft_in self.old) }
        ensures same_lists { SameLists self.old self.new }
    {
        let before = self.nodes();
        count(self.notes, NODE, place);
        want(self.notes, name, place);
        self.put(name.kind, name.number, before);
    }

    // A node without parts that is no name.
    #[inline(always)]
    #[tactic(auto, unfolding(crate::specs::Draft::put_leaf))]
    pub fn put_leaf(&mut self, kind: u64, argument: u64, place: usize)
        ensures value { draft_in self.new ≡ draft.put_leaf kind argument place (draft_in self.old) }
        ensures same_lists { SameLists self.old self.new }
    {
        let before = self.nodes();
        count(self.notes, NODE, place);
        self.put(kind, argument, before);
    }
}

// ---- Rows.

impl NameAt<'_> {
    // Its number among those of a kind; where it is not among them, how many they are, and question 13.
    // Kept: (a) as `count`.
    #[tactic(auto, unfolding(crate::specs::Draft::among_in, laws::specs::Choice::pick))]
    fn used(&self, notes: &mut [u64], kind: usize) -> usize
        ensures value { result ≡ draft.number_in self.now.text.now notes.old kind self.now.word.now }
        ensures notes_after { notes.new ≡ draft.name_used self.now.text.now kind self.now.start self.now.end notes.old }
    {
        let number = self.number(notes, kind);
        let many = many_of(notes, kind);
        ask(notes, number.is_some(), Question::NameKind, self.start);
        number.unwrap_or(many)
    }

    // The number of a party that a function names.
    #[tactic(auto, unfolding(crate::specs::Draft::party_used))]
    pub fn use_party(&self, notes: &mut [u64]) -> usize
        ensures value { result ≡ draft.number_in self.now.text.now notes.old 0 self.now.word.now }
        ensures notes_after { notes.new ≡ draft.party_used self.now.text.now self.now.start self.now.end notes.old }
    {
        self.used(notes, PARTY)
    }
}

impl Lent<'_> {
    // The party of the clause at hand.
    #[tactic(auto, unfolding(crate::specs::Draft::clause_party, laws::specs::Choice::pick))]
    pub fn clause_party(&mut self, name: &NameAt)
        ensures value { draft_in self.new ≡ draft.clause_party name.now.text.now name.now.start name.now.end (draft_in self.old) }
        ensures same_lists { SameLists self.old self.new }
    {
        let row = self.note(CLAUSES) as usize;
        let party = name.used(self.notes, PARTY);
        if row < Contract::CLAUSES {
            items::set(
                self.table,
                contract::CLAUSES + Clause::WORDS * row,
                party as u64,
            );
        }
    }

    // Its verb, as `clause_verb`.
    #[tactic(auto, unfolding(crate::specs::Draft::clause_verb, laws::specs::Choice::pick))]
    pub fn clause_verb(&mut self, verb: u64)
        ensures value { draft_in self.new ≡ draft.clause_verb verb (draft_in self.old) }
        ensures same_lists { SameLists self.old self.new }
    {
        // Kept: (c) lent by a name of its own, as in `mention`.
        let notes = &mut *self.notes;
        clause_verb(self.table, notes, verb);
    }

    // Field number `field` in the row at `at`, the j-th there.
    #[tactic(auto, unfolding(crate::specs::Draft::field_at, laws::specs::Choice::pick))]
    fn field_at(&mut self, at: usize, j: u64, field: usize)
        requires { at ≤ 300000 }
        ensures value { draft_in self.new ≡ draft.field_at at j field (draft_in self.old) }
        ensures same_lists { SameLists self.old self.new }
    {
        if j < Contract::FIELDS as u64 {
            items::set(self.table, at + Clause::FIELDS + j as usize, field as u64);
            items::set(self.table, at + Clause::FIELD_COUNT, j + 1);
        } else {
            items::set(self.notes, EXCESS, 1);
        }
    }

    // One more field of it.
    #[tactic(auto, unfolding(crate::specs::Draft::clause_field, laws::specs::Choice::pick))]
    pub fn clause_field(&mut self, name: &NameAt)
        ensures value { draft_in self.new ≡ draft.clause_field name.now.text.now name.now.start name.now.end (draft_in self.old) }
        ensures same_lists { SameLists self.old self.new }
    {
        let row = self.note(CLAUSES) as usize;
        let field = name.used(self.notes, FIELD);
        if row < Contract::CLAUSES {
            let at = contract::CLAUSES + Clause::WORDS * row;
            let j = self.cell(at + Clause::FIELD_COUNT);
            self.field_at(at, j, field);
        }
    }
}

// The verb of the clause at hand: 0 for SET, 1 for OK.
// Kept: (a) the number that the row holds: a public function takes any, and `Verb` would ask more of its callers.
#[tactic(auto, unfolding(crate::specs::Draft::clause_verb, laws::specs::Choice::pick))]
pub fn clause_verb(table: &mut [u64], notes: &[u64], verb: u64)
    ensures { table.exit.now ≡ (draft.clause_verb verb (record { table = table.entry.now; notes = notes.now })).table }
{
    let row = contract::word(notes, CLAUSES) as usize;
    if row < Contract::CLAUSES {
        items::set(
            table,
            contract::CLAUSES + Clause::WORDS * row + Clause::VERB,
            verb,
        );
    }
}

// The end of the clause at hand.
#[tactic(auto, unfolding(crate::specs::Draft::clause_end, laws::specs::Choice::pick))]
pub fn clause_end(notes: &mut [u64])
    ensures { notes.new ≡ draft.clause_end notes.old }
{
    let row = contract::word(notes, CLAUSES);
    if row < Contract::CLAUSES as u64 {
        items::set(notes, CLAUSES, row + 1);
    } else {
        items::set(notes, EXCESS, 1);
    }
}

// A function's head: its name, its place, its state's and its party's number.
#[derive(Clone, Copy)]
struct Head<'a> {
    name: NameAt<'a>,
    place: usize,
    state: usize,
    party: usize,
}

impl Head<'_> {
    fn mark(&self) -> u64
        ensures { result ≡ draft.head_mark self.now.state self.now.party self.now.name.word.now }
    {
        self.name.mark + 16777216 * (16 * (self.state % 256) as u64 + (self.party % 16) as u64)
    }

    // Whether a function has it.
    #[tactic(auto, unfolding(crate::specs::Draft::is_headed))]
    fn is_among(&self, notes: &[u64]) -> bool
        ensures { result ≡ draft.is_headed self.now.name.text.now notes.now self.now.state self.now.party self.now.name.word.now }
    {
        let many = Contract::FUNCTIONS.min(contract::word(notes, FUNCTIONS) as usize);
        self.name
            .find_from(notes, self.mark(), Notes::FUNCTIONS, many)
            .is_some()
    }

    // Questions 11 and 15.
    #[tactic(auto, unfolding(crate::specs::Draft::head_notes, laws::specs::Choice::pick))]
    fn ask(&self, notes: &mut [u64])
        ensures { notes.new ≡ draft.head_notes self.now.name.text.now self.now.place self.now.state self.now.party self.now.name.start self.now.name.end notes.old }
    {
        let new = !self.is_among(notes);
        ask_limit(notes, FUNCTIONS, Contract::FUNCTIONS, self.place);
        ask(notes, new, Question::FunctionNew, self.name.start);
    }
}

impl Lent<'_> {
    // Function i with its state, party and name.
    #[tactic(auto, unfolding(crate::specs::Draft::headed))]
    fn write_head(&mut self, head: &Head, i: usize)
        requires { i < 64 }
        ensures value { draft_in self.new ≡ draft.headed head.now.name.text.now i head.now.state head.now.party head.now.name.start head.now.name.end (draft_in self.old) }
        ensures same_lists { SameLists self.old self.new }
    {
        let at = contract::FUNCTIONS + Function::WORDS * i;
        items::store_all(self.table, at, &[head.state as u64, head.party as u64]);
        write_row(self.table, at + Function::NAME, head.name.word);
        write_slot(self.notes, Notes::FUNCTIONS + i, head.mark(), &head.name);
        items::set(self.notes, FUNCTIONS, i as u64 + 1);
    }

    // One more head, within the limit; questions 11 and 15.
    #[tactic(auto, unfolding(laws::specs::Choice::pick))]
    fn enter_head(&mut self, head: &Head)
        ensures value { draft_in self.new ≡ draft.head_entered head.now.name.text.now head.now.place head.now.state head.now.party head.now.name.start head.now.name.end (draft_in self.old) }
        ensures same_lists { SameLists self.old self.new }
    {
        let n = self.note(FUNCTIONS) as usize;
        head.ask(self.notes);
        if n < Contract::FUNCTIONS {
            self.write_head(head, n);
        }
    }

    // A function's head: its name, its place, its state's and its party's number.
    #[tactic(auto, unfolding(crate::specs::Draft::head))]
    pub fn head(&mut self, name: &NameAt, place: usize, state: usize, party: usize)
        ensures value { draft_in self.new ≡ draft.head name.now.text.now place state party name.now.start name.now.end (draft_in self.old) }
        ensures same_lists { SameLists self.old self.new }
    {
        let head = Head {
            name: *name,
            place,
            state,
            party,
        };
        self.enter_head(&head);
        items::set(self.notes, VALUE, 0);
        items::set(self.notes, PARAMETER, 0);
    }
}

// The rest of a function's row.
#[derive(Clone, Copy)]
pub struct Rest {
    pub last: usize,
    pub first: usize,
    pub precondition: usize,
    pub body: usize,
    pub event: usize,
    pub events: usize,
}

impl Lent<'_> {
    // The rest of function i's row, as `function_rest`.
    #[tactic(auto, unfolding(crate::specs::Draft::function_rest, laws::specs::Choice::pick))]
    pub fn function_rest(&mut self, i: usize, rest: Rest)
        ensures value { draft_in self.new ≡ draft.function_rest i rest.last rest.first rest.precondition rest.body rest.event rest.events (draft_in self.old) }
        ensures same_lists { SameLists self.old self.new }
    {
        // Kept: (c) lent by a name of its own, as in `mention`.
        let notes = &mut *self.notes;
        function_rest(self.table, notes, i, rest);
    }
}

// The rest of function i's row.
#[tactic(auto, unfolding(crate::specs::Draft::function_rest, laws::specs::Choice::pick))]
pub fn function_rest(table: &mut [u64], notes: &[u64], i: usize, rest: Rest)
    ensures { table.exit.now ≡ (draft.function_rest i rest.last rest.first rest.precondition rest.body rest.event rest.events (record { table = table.entry.now; notes = notes.now })).table }
{
    if i < Contract::FUNCTIONS {
        let at = contract::FUNCTIONS + Function::WORDS * i + Function::LAST;
        let values = contract::word(notes, VALUE);
        let parameters = contract::word(notes, PARAMETER);
        let row = [
            rest.last as u64,
            values,
            parameters,
            rest.first as u64,
            rest.precondition as u64,
            rest.body as u64,
            rest.event as u64,
            rest.events as u64,
        ];
        items::store_all(table, at, &row);
    }
}

// An event's row.
// Kept: (d) no list with its length: `i` is an event's number, in a table of any length.
#[tactic(auto, unfolding(crate::specs::Draft::event_row, laws::specs::Choice::pick))]
pub fn event_row(table: &mut [u64], i: usize, state: usize, last: usize, node: usize)
    ensures { table.new ≡ draft.event_row i state last node table.old }
{
    if i < Contract::EVENTS {
        let at = contract::EVENTS + Event::WORDS * i;
        items::store_all(table, at, &[state as u64, last as u64, node as u64]);
    }
}

// The contract's name.
#[tactic(auto, unfolding(crate::specs::Draft::title))]
pub fn title(table: &mut [u64], name: &NameAt)
    ensures { table.new ≡ draft.title name.now.text.now name.now.start name.now.end table.old }
{
    write_row(table, contract::NAME, name.word);
}

impl Lent<'_> {
    // How many there are of each, and the initial state, as `write_counts`.
    pub fn write_counts(&mut self, initial: usize)
        ensures value { draft_in self.new ≡ draft.with_table (draft_in self.old) (draft.counts initial self.old.notes.now self.old.table.now) }
        ensures same_lists { SameLists self.old self.new }
    {
        // Kept: (c) lent by a name of its own, as in `mention`.
        let notes = &mut *self.notes;
        write_counts(self.table, notes, initial);
    }
}

// How many there are of each, and the initial state.
#[tactic(auto, unfolding(crate::specs::Draft::counts))]
pub fn write_counts(table: &mut [u64], notes: &[u64], initial: usize)
    ensures { table.new ≡ draft.counts initial notes.now table.old }
{
    let counts = [
        contract::word(notes, PARTY),
        contract::word(notes, ASSET),
        contract::word(notes, FIELD),
        contract::word(notes, STATE),
        contract::word(notes, STRING),
        contract::word(notes, CLAUSES),
        contract::word(notes, FUNCTIONS),
        contract::word(notes, EVENT),
        contract::word(notes, WRITTEN),
        initial as u64,
    ];
    items::store_all(table, 0, &counts);
}

// How many words are cleared at once.
const CLEARED: usize = 128;

// A table of zeros.
// Kept: (b) in parts: with one `fill` of the whole table a reading of the two texts of `same_bytes` takes 19.0 and 18.3 per cent more instructions
// (unproved builds), since the C library's `memset` clears a long run by `rep stosb`, which callgrind counts byte by byte, and the bar is one of
// instructions; it takes no more time (docs/TIMES.md). (c) `chunks_mut`: once its borrow is over, nothing is known of what the slice holds.
#[tactic(auto, using(crate::proofs::Rows::clear_part, crate::proofs::Rows::clear_last), unfolding(contract::specs::Encode::zeros))]
pub fn clear(table: &mut [u64])
    ensures { table.new ≡ zeros (length table.old) }
{
    for start in (0..table.len()).step_by(CLEARED) {
        let end = table.len().min(start + CLEARED);
        table[start..end].fill(0);
    }
}
