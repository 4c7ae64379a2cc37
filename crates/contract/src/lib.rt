// The table of a contract: its limits, its rows and nodes, and their readers.
#![tactic(auto)]

ghost use Rattle.std.specs.Prelude.{◌≡◌, ◌+◌, ◌*◌, ◌≤◌, ◌<◌};
ghost use Rattle.contract.specs.Table.{word_at, clause_word, parameters_start};
ghost use Rattle.contract.specs.Decode.{packed_byte, verb_of, word_of};
ghost use Rattle.contract.specs.Rows.{head_of, function_row_of, event_row_of, clause_row_of, node_of, said};
ghost use Rattle.contract.specs.Private.{RowAt};

use tokens::Token;

// The limits of document 01 on a contract.
#[derive(Clone, Copy)]
pub struct Contract {}

// Kept: (d) no kinds but limits: each constant is a count, and no value of a type is one of them.
impl Contract {
    // The longest text, in bytes.
    pub const TEXT: usize = 16384;

    pub const PARTIES: usize = 8;

    pub const ASSETS: usize = 16;

    pub const FIELDS: usize = 32;

    pub const STATES: usize = 32;
    // Distinct strings.
    pub const STRINGS: usize = 32;
    // Each party has at most one SET and one OK.
    pub const CLAUSES: usize = 2 * Contract::PARTIES;

    pub const FUNCTIONS: usize = 64;

    pub const EVENTS: usize = 64;

    pub const NODES: usize = 4096;
    // Bytes of a name, and of a string without its quotes.
    pub const NAME: usize = Token::NAME_BYTES;

    pub const STRING: usize = Token::STRING_BYTES;
    // Levels of parentheses and conditionals.
    pub const LEVELS: usize = 16;
    // The greatest constant, amount and clock.
    pub const TOP: u64 = Token::TOP;
    // The words of a table.
    pub const TABLE: usize = PARAMETERS + Contract::FUNCTIONS * Function::NAMES * PACKED_WORDS;
}

// The head of a table: how many there are of each, and the initial state.
#[derive(Clone, Copy)]
pub struct TableHead {
    pub parties: usize,
    pub assets: usize,
    pub fields: usize,
    pub states: usize,
    pub strings: usize,
    pub clauses: usize,
    pub functions: usize,
    pub events: usize,
    pub nodes: usize,
    pub initial: usize,
}

// Kept: (d) no kinds but places: each constant says which of a head's words has which of the counts above.
impl TableHead {
    pub const PARTIES: usize = 0;

    pub const ASSETS: usize = 1;

    pub const FIELDS: usize = 2;

    pub const STATES: usize = 3;

    pub const STRINGS: usize = 4;

    pub const CLAUSES: usize = 5;

    pub const FUNCTIONS: usize = 6;

    pub const EVENTS: usize = 7;

    pub const NODES: usize = 8;

    pub const INITIAL: usize = 9;
    // The words of a head.
    pub const WORDS: usize = 10;
}

// A function's row. Its nodes start at `first`: those of the precondition, those of the body, its events.
#[derive(Clone, Copy)]
pub struct Function {
    pub state: usize,
    pub party: usize,
    pub last: usize,
    pub values: usize,
    pub parameters: usize,
    pub first: usize,
    pub precondition: usize,
    pub body: usize,
    pub event: usize,
    pub events: usize,
}

// Kept: (d) no kinds but limits, and places: at which of a row's words each of the counts above stands.
impl Function {
    pub const STATE: usize = 0;

    pub const PARTY: usize = 1;

    pub const LAST: usize = 2;

    pub const VALUE_COUNT: usize = 3;

    pub const PARAMETER_COUNT: usize = 4;

    pub const FIRST: usize = 5;

    pub const PRECONDITION: usize = 6;

    pub const BODY: usize = 7;

    pub const EVENT: usize = 8;

    pub const EVENT_COUNT: usize = 9;
    // Value parameters and asset parameters.
    pub const VALUES: usize = 8;

    pub const PARAMETERS: usize = 4;
    // Rows of the parameters that a function has.
    pub const NAMES: usize = Function::VALUES + Function::PARAMETERS;
    // Statements in a body or a handler, nested ones counted.
    pub const STATEMENTS: usize = 64;
    // At which of the words of a row its name stands, and the words of a row.
    pub const NAME: usize = 10;

    pub const WORDS: usize = Function::NAME + NAME_WORDS;
}

// An event's row: its states, and its node, which stands after its guard and its handler.
#[derive(Clone, Copy)]
pub struct Event {
    pub state: usize,
    pub last: usize,
    pub node: usize,
}

// Kept: (d) no kinds but places.
impl Event {
    // At which of the words of a row its states and its node stand, and the words of a row.
    pub const STATE: usize = 0;

    pub const LAST: usize = 1;

    pub const NODE: usize = 2;

    pub const WORDS: usize = 3;
}

// What a clause does with its fields: sets their values, or agrees on them; a variant's number is its word in a table. The tree of specs/ has a
// type of its own: a declared type that a file of specs/ passes on is not seen from other crates.
#[derive(Clone, Copy, PartialEq, Eq)]
pub enum Verb {
    Set = 0,
    Ok = 1,
}

// The verb that a word stands for; any that is no SET's stands for OK.
impl From<usize> for Verb {
    ghost from_gives = { λ word verb. said verb ≡ verb_of word };

    #[tactic(auto, unfolding(laws::specs::Choice::pick))]
    fn from(word: usize) -> Verb {
        if word == 0 { Verb::Set } else { Verb::Ok }
    }
}

// A clause's row: its party, the word of its verb, and how many fields it names.
#[derive(Clone, Copy)]
pub struct Clause {
    pub party: usize,
    pub verb: usize,
    pub fields: usize,
}

// Kept: (d) no kinds but places.
impl Clause {
    // At which of the words of a row its party, its verb, the count of its fields and these stand, and the words of a row.
    pub const PARTY: usize = 0;

    pub const VERB: usize = 1;

    pub const FIELD_COUNT: usize = 2;

    pub const FIELDS: usize = 3;

    pub const WORDS: usize = Clause::FIELDS + Contract::FIELDS;

    // What it does with its fields.
    pub fn verb(&self) -> Verb
        ensures { said result ≡ verb_of self.now.verb }
    {
        Verb::from(self.verb)
    }
}

// A node: its parts stand before it. Of an expression, a condition or an event its size counts the nodes of its whole, of a
// statement those of its block up to and with it.
#[derive(Clone, Copy)]
pub struct Node {
    pub kind: u64,
    pub argument: u64,
    pub size: usize,
}

// Kept: (a) kinds are numbers, since question 3 judges the kinds of a lent table: a node whose kind is none of these has to stay what it is until then,
// where of the two verbs any word stands for one, and question 3 judges the word.
impl Node {
    // Expressions.
    pub const CONSTANT: u64 = 1;

    pub const STRING: u64 = 2;

    pub const NOW: u64 = 3;

    pub const FIELD: u64 = 4;

    pub const ASSET: u64 = 5;

    pub const VALUE: u64 = 6;

    pub const PARAMETER: u64 = 7;

    pub const PLUS: u64 = 8;

    pub const MINUS: u64 = 9;

    pub const TIMES: u64 = 10;

    pub const OVER: u64 = 11;
    // Conditions.
    pub const TRUE: u64 = 12;

    pub const FALSE: u64 = 13;

    pub const EQUAL: u64 = 14;

    pub const UNEQUAL: u64 = 15;

    pub const LESS: u64 = 16;

    pub const AT_MOST: u64 = 17;

    pub const GREATER: u64 = 18;

    pub const AT_LEAST: u64 = 19;

    pub const NOT: u64 = 20;

    pub const AND: u64 = 21;

    pub const OR: u64 = 22;
    // A party, as the target of a statement.
    pub const PARTY: u64 = 23;
    // Statements: E -> t; E -o h, t; h -o t; (B) { S }.
    pub const VALUE_MOVE: u64 = 24;

    pub const ASSET_MOVE: u64 = 25;

    pub const WHOLE_MOVE: u64 = 26;

    pub const CONDITIONAL: u64 = 27;

    pub const EVENT: u64 = 28;
    // At which of the words of a row its kind, its argument and its size stand, and the words of a row.
    pub const KIND: usize = 0;

    pub const ARGUMENT: usize = 1;

    pub const SIZE: usize = 2;

    pub const WORDS: usize = 3;
}

// The words of a row of a name, and of a string: a length and the bytes.
pub const NAME_WORDS: usize = 1 + Contract::NAME;

pub const STRING_WORDS: usize = 1 + Contract::STRING;

// The words of a packed row: a length, and the bytes, eight in a word with the first lowest.
pub const PACKED_WORDS: usize = 1 + Contract::NAME / 8;

// Where the sections of a table start: rows of names, strings, clauses, functions, events, nodes and parameters.
pub const NAME: usize = TableHead::WORDS;

pub const PARTIES: usize = NAME + NAME_WORDS;

pub const ASSETS: usize = PARTIES + Contract::PARTIES * NAME_WORDS;

pub const FIELDS: usize = ASSETS + Contract::ASSETS * NAME_WORDS;

pub const STATES: usize = FIELDS + Contract::FIELDS * NAME_WORDS;

pub const STRINGS: usize = STATES + Contract::STATES * NAME_WORDS;

pub const CLAUSES: usize = STRINGS + Contract::STRINGS * STRING_WORDS;

pub const FUNCTIONS: usize = CLAUSES + Contract::CLAUSES * Clause::WORDS;

pub const EVENTS: usize = FUNCTIONS + Contract::FUNCTIONS * Function::WORDS;

pub const NODES: usize = EVENTS + Contract::EVENTS * Event::WORDS;

// Packed rows, for each function those of its value parameters and those of its asset parameters.
pub const PARAMETERS: usize = NODES + Contract::NODES * Node::WORDS;

// Word i of a table, and 0 past its end.
// Kept: (d) `items::get_or(.., 0)` by a name: the 0 would be written out at each of its nearly forty uses, where the definitions say `word_at`.
pub fn word(table: &[u64], i: usize) -> u64
    ensures { result ≡ word_at table.now i }
{
    items::get_or(table, i, 0)
}

// Word i of a table as a count or a place.
fn number(table: &[u64], i: usize) -> usize
    ensures { result ≡ word_at table.now i }
{
    word(table, i) as usize
}

// The bytes of the word whose length stands at o, as many of them as the table has.
pub fn bytes_at(table: &[u64], o: usize) -> &[u64]
    ensures { result.now ≡ word_of table.now o }
{
    let rest = table.get(o.saturating_add(1)..).unwrap_or(&[]);
    rest.get(..number(table, o)).unwrap_or(rest)
}

// Where row i of a section stands, or the table's end where the row is past it.
// Kept: (d) a place in both cases: past the table's end every word reads as 0, as the row that is not there is to read; an Option would make each
// reader say the row of zeros once more.
fn row(table: &[u64], start: usize, width: usize, i: usize) -> usize
    requires { (0 < width) × (width ≤ start) × (start ≤ 20819) }
    ensures { RowAt table.now start width i result }
{
    if table.len() / width <= i {
        return table.len();
    }
    start + i * width
}

pub fn head(table: &[u64]) -> TableHead
    ensures { result ≡ head_of table.now }
{
    TableHead {
        parties: number(table, TableHead::PARTIES),
        assets: number(table, TableHead::ASSETS),
        fields: number(table, TableHead::FIELDS),
        states: number(table, TableHead::STATES),
        strings: number(table, TableHead::STRINGS),
        clauses: number(table, TableHead::CLAUSES),
        functions: number(table, TableHead::FUNCTIONS),
        events: number(table, TableHead::EVENTS),
        nodes: number(table, TableHead::NODES),
        initial: number(table, TableHead::INITIAL),
    }
}

pub fn function_at(table: &[u64], i: usize) -> Function
    ensures { result ≡ function_row_of table.now i }
{
    let at = row(table, FUNCTIONS, Function::WORDS, i);
    Function {
        state: number(table, at + Function::STATE),
        party: number(table, at + Function::PARTY),
        last: number(table, at + Function::LAST),
        values: number(table, at + Function::VALUE_COUNT),
        parameters: number(table, at + Function::PARAMETER_COUNT),
        first: number(table, at + Function::FIRST),
        precondition: number(table, at + Function::PRECONDITION),
        body: number(table, at + Function::BODY),
        event: number(table, at + Function::EVENT),
        events: number(table, at + Function::EVENT_COUNT),
    }
}

// Kept: (d) here and in `clause_at` each field by its place in the row, as in `function_at`: one function for the three words of both would hand out
// a triple, whose parts have no names.
pub fn event_at(table: &[u64], i: usize) -> Event
    ensures { result ≡ event_row_of table.now i }
{
    let at = row(table, EVENTS, Event::WORDS, i);
    Event {
        state: number(table, at + Event::STATE),
        last: number(table, at + Event::LAST),
        node: number(table, at + Event::NODE),
    }
}

// Kept: (d) as `event_at`.
pub fn clause_at(table: &[u64], i: usize) -> Clause
    ensures { result ≡ clause_row_of table.now i }
{
    let at = row(table, CLAUSES, Clause::WORDS, i);
    Clause {
        party: number(table, at + Clause::PARTY),
        verb: number(table, at + Clause::VERB),
        fields: number(table, at + Clause::FIELD_COUNT),
    }
}

// Field j of clause i. A j past the table's end is told first, so that the sum below is no more than a number can be.
pub fn clause_field(table: &[u64], i: usize, j: usize) -> usize
    ensures { result ≡ clause_word table.now i (3 + j) }
{
    if table.len() <= j {
        return 0;
    }
    let at = row(table, CLAUSES, Clause::WORDS, i);
    number(table, at + (Clause::FIELDS + j))
}

// How many bytes row i of the parameters says that it has.
#[tactic(auto, using(crate::proofs::Rows::row_first))]
pub fn packed_length(table: &[u64], i: usize) -> u64
    ensures { result ≡ word_at table.now (parameters_start + i * 5) }
{
    word(table, row(table, PARAMETERS, PACKED_WORDS, i))
}

// Byte j of row i of the parameters.
pub fn packed_byte(table: &[u64], i: usize, j: usize) -> u8
    ensures { result ≡ packed_byte table.now (parameters_start + i * 5) j }
{
    let eight = word(table, row(table, PARAMETERS, PACKED_WORDS, i) + (1 + j / 8));
    eight.to_le_bytes()[j % 8]
}

pub fn node_at(table: &[u64], k: usize) -> Node
    ensures { result ≡ node_of table.now k }
{
    let at = row(table, NODES, Node::WORDS, k);
    Node {
        kind: word(table, at + Node::KIND),
        argument: word(table, at + Node::ARGUMENT),
        size: number(table, at + Node::SIZE),
    }
}
