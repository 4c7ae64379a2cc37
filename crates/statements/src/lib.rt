// Runs the statements of a block, which stand in a table with their parts before them.
#![tactic(auto)]

ghost use Rattle.std.specs.Prelude.{◌≡◌, ◌<◌, ◌≤◌, get_or, eqb, None, Some};
ghost use Rattle.std.specs.Result.{result_err};
ghost use Rattle.laws.specs.Choice.{pick};
ghost use Rattle.questions.specs.declared.Question.TheVariants as ask;
ghost use Rattle.contract.specs.Table.{argument_at, size_at};
ghost use Rattle.contract.specs.Decode.{holder_of, block_between, condition_at};
ghost use Rattle.evaluation.specs.Memory.{lent, place_of};
ghost use Rattle.evaluation.specs.Meaning.{truth_of};
ghost use Rattle.statements.specs.Running.{receiver, place, filled, stored, labelled, sent, moved, paid, performed, ran};
ghost use Rattle.statements.specs.Lending.{work_by, work_of, memory_by, groups_by, SameLists};
ghost use Rattle.statements.specs.Blocks.{end_before, action_at, statement_at};
ghost use Rattle.statements.specs.Private.{amount_in, left_of, value_given, amount_given, answer_at, branched, performed_at};

use contract::{Contract, Node};
use evaluation::{FieldKind, Holdings, Memory};
use numbers::Value;
use questions::Question;

// What a send leaves: kind (1 integer, 2 string, 3 asset), party, value, a string's being its number, and its source's group, 0 for a value sent.
#[derive(Clone, Copy, PartialEq, Eq)]
pub struct Label {
    pub kind: u64,
    pub party: usize,
    pub value: i64,
    pub group: usize,
}

// Kept: (a) a caller lends `Runner`, `outcomes::labels_of` and `step_reports::report` labels as one list of integers, four words each
// (docs/DECISIONS.md 54), and these promise what they do of its words: an array of labels would ask for another list. The kind is a number, since
// any four words are a label: an enum of kinds would have no variant for most words.
impl Label {
    pub const INTEGER: u64 = 1;

    pub const STRING: u64 = 2;

    pub const ASSET: u64 = 3;

    // The most labels of a step, the words of one, and the words of all.
    pub const MOST: usize = 64;

    pub const WORDS: usize = 4;

    pub const ROOM: usize = Label::MOST * Label::WORDS;
}

// What runs statements: the table, the lists that they read and write, how many labels they have sent, and what they only read.
// Where a question refuses, the lists hold what was reached by then: the caller drops them.
// Kept: (a) a library has no heap: the lists are copies of the state's columns, as `State` has them, and the labels are words of one lent array
// with room for all (docs/DECISIONS.md 54), so that a count says how many are sent.
#[derive(Drop)]
pub struct Runner<'a> {
    pub table: &'a [u64],
    pub kinds: &'a mut [u8; Contract::FIELDS],
    pub numbers: &'a mut [i64; Contract::FIELDS],
    pub texts: &'a mut [u8; Contract::FIELDS],
    pub holdings: &'a mut [u64; Holdings::MOST],
    pub labels: &'a mut [i64; Label::ROOM],
    pub count: usize,
    pub values: &'a [i64],
    pub clock: u64,
    // The groups of names by their numbers, and the number of the function's first asset parameter.
    pub groups: &'a [u16],
    pub first_parameter: usize,
}

// The number of the party that a node names; past the last one, of no contract that was read.
fn receiver_of(argument: u64) -> u8
    ensures { result ≡ receiver argument }
{
    argument.min(Contract::PARTIES as u64) as u8
}

// The place of the holder that a node names: the assets, then the asset parameters.
#[tactic(auto, unfolding(laws::specs::Choice::pick))]
fn place_of(node: Node) -> usize
    ensures { result ≡ place (holder_of node.kind node.argument) }
{
    let first = if node.kind == Node::ASSET {
        0
    } else {
        Contract::ASSETS as u64
    };
    node.argument
        .saturating_add(first)
        .min(Holdings::MOST as u64) as usize
}

// All that the holder that a node names holds.
fn held_amount(holdings: &[u64; Holdings::MOST], node: Node) -> u64
    ensures { result ≡ get_or holdings.now (place_of (holder_of node.kind node.argument)) 0 }
{
    items::get_or(holdings, place_of(node), 0)
}

// What place i holds once n is taken from it, unless a question refuses it.
fn left_of(holdings: &[u64; Holdings::MOST], i: usize, n: u64) -> Result<u64, Question>
    ensures { result ≡ left_of holdings.now i n }
{
    items::get_or(holdings, i, 0)
        .checked_sub(n)
        .ok_or(Question::AmountHeld)
}

// A value as an amount: an integer that is 0 or more.
fn amount(value: Value) -> Result<u64, Question>
    ensures { result ≡ amount_in value }
{
    let Value::Integer(z) = value else {
        return Err(Question::OperandKind);
    };
    u64::try_from(z).map_err(|_| Question::AmountSign)
}

// The size of node k.
fn size_at(table: &[u64], k: usize) -> usize
    ensures { result ≡ size_at table.now k }
{
    contract::node_at(table, k).size
}

// The argument of node k.
// Kept: (b) by `node.argument` in `end_before` and `perform`, which have the node, its argument is read for every kind of statement: a desk takes
// 1.0 per cent more instructions for a mixed session, which takes 2.05 times the plain desk's already, where 2.0 are wanted (docs/TIMES.md), and 4.1
// for one of calls that send 64 labels each (71,697,557 and 72,425,557, 17,764,648 and 18,500,669 in two builds without proof of one tree).
fn argument_at(table: &[u64], k: usize) -> usize
    ensures { result ≡ argument_at table.now k }
{
    contract::node_at(table, k).argument as usize
}

// Where the block before the statement at node k ends.
#[tactic(auto, unfolding(laws::specs::Choice::pick, crate::specs::Blocks::end_before))]
pub fn end_before(table: &[u64], k: usize) -> usize
    ensures { result ≡ end_before table.now k }
{
    let node = contract::node_at(table, k);
    match node.kind {
        Node::VALUE_MOVE => k
            .saturating_sub(1)
            .saturating_sub(size_at(table, k.saturating_sub(2))),
        Node::ASSET_MOVE => k
            .saturating_sub(2)
            .saturating_sub(size_at(table, k.saturating_sub(3))),
        Node::WHOLE_MOVE => k.saturating_sub(2),
        _ => {
            let first = k.saturating_sub(argument_at(table, k));
            first.saturating_sub(size_at(table, first.saturating_sub(1)))
        }
    }
}

// Whether a statement ends at node k.
#[tactic(auto, unfolding(laws::specs::Choice::pick, crate::specs::Blocks::statement_at))]
pub fn is_statement(table: &[u64], k: usize) -> bool
    ensures { result ≡ statement_at table.now k }
{
    let node = contract::node_at(table, k);
    matches!(node.kind, Node::VALUE_MOVE..=Node::CONDITIONAL)
}

// A block up to its first statement: nothing is done, and it is broken where that statement starts before it.
#[tactic(auto, unfolding(laws::specs::Choice::pick))]
fn begin(from: usize, end: usize) -> Result<(), Question>
    ensures { result_err result ≡ pick (eqb end from) None (Some ask.TableCheck) }
{
    let empty = end == from;
    if empty {
        Ok(())
    } else {
        Err(Question::TableCheck)
    }
}

// ---- What a statement writes.

impl Runner<'_> {
    // Field x holds what its kind says: an integer, or a string by its number.
    fn fill(&mut self, x: usize, kind: u8, number: i64, text: u8)
        ensures value { work_of self.new ≡ filled (work_of self.old) x kind number text }
        ensures same_lists { SameLists self.old self.new }
    {
        items::set(self.kinds, x, kind);
        items::set(self.numbers, x, number);
        items::set(self.texts, x, text);
    }

    // Field x gets a value.
    fn store(&mut self, x: usize, value: Value)
        ensures value { work_of self.new ≡ stored (work_of self.old) x value }
        ensures same_lists { SameLists self.old self.new }
    {
        match value {
            Value::Integer(z) => self.fill(x, FieldKind::INTEGER, z, 0),
            Value::Text(n) => self.fill(x, FieldKind::STRING, 0, n),
        }
    }

    // A label after those sent so far.
    fn add_label(&mut self, kind: u64, party: u8, value: i64, group: u16)
        requires { kind < 4 }
        ensures value { work_of self.new ≡ labelled (work_of self.old) kind party value group }
        ensures same_lists { SameLists self.old self.new }
    {
        let n = self.count;
        if n < Label::MOST {
            let at = n * Label::WORDS;
            let labels = &mut *self.labels;
            labels[at] = kind as i64;
            labels[at + 1] = party as i64;
            labels[at + 2] = value;
            labels[at + 3] = group as i64;
            self.count = n + 1;
        }
    }

    // A value is sent to a party.
    fn send(&mut self, party: u8, value: Value)
        ensures value { work_of self.new ≡ sent (work_of self.old) party value }
        ensures same_lists { SameLists self.old self.new }
    {
        match value {
            Value::Integer(z) => self.add_label(Label::INTEGER, party, z, 0),
            Value::Text(n) => self.add_label(Label::STRING, party, n as i64, 0),
        }
    }

    // n goes from place i to place j, unless a question refuses it.
    #[tactic(auto, unfolding(laws::specs::Choice::pick, crate::specs::Running::moved))]
    fn transfer(&mut self, i: usize, j: usize, n: u64) -> Result<(), Question>
        ensures value { work_by self.new (result_err result) ≡ moved (work_of self.old) i j n }
        ensures same_lists { SameLists self.old self.new }
    {
        let holdings = &mut *self.holdings;
        let left = left_of(holdings, i, n)?;
        if Holdings::MOST <= j {
            return Err(Question::TableCheck);
        }
        let itself = i == j;
        if itself {
            return Ok(());
        }
        let sum = holdings[j].saturating_add(n);
        if Contract::TOP < sum {
            return Err(Question::SumFits);
        }
        items::set(holdings, i, left);
        holdings[j] = sum;
        Ok(())
    }

    // The group of what place i holds.
    #[tactic(auto, using(crate::proofs::Groups::past_names), unfolding(laws::specs::Choice::pick))]
    fn group_of(&self, i: usize) -> u16
        ensures { result ≡ groups_by self.now i }
    {
        let name = if i < Contract::ASSETS {
            i
        } else {
            self.first_parameter.saturating_add(i - Contract::ASSETS)
        };
        items::get_or(self.groups, name, 0)
    }

    // n is paid from place i to a party, unless a question refuses it.
    #[tactic(auto, unfolding(laws::specs::Choice::pick, crate::specs::Running::paid))]
    fn pay(&mut self, i: usize, party: u8, n: u64) -> Result<(), Question>
        requires { n ≤ 9223372036854775807 }
        ensures value { work_by self.new (result_err result) ≡ paid (groups_by self.old) (work_of self.old) i party n }
        ensures same_lists { SameLists self.old self.new }
    {
        let holdings = &mut *self.holdings;
        let left = left_of(holdings, i, n)?;
        items::set(holdings, i, left);
        let group = self.group_of(i);
        self.add_label(Label::ASSET, party, n as i64, group);
        Ok(())
    }
}

// ---- What a statement does.

impl Runner<'_> {
    // E -> t at node k, with the answer of E: a party is sent the value, or a field gets it.
    fn give_value(&mut self, k: usize, answer: Result<Value, Question>) -> Result<(), Question>
        ensures value { work_by self.new (result_err result) ≡ value_given (work_of self.old) self.old.table.now k answer }
        ensures same_lists { SameLists self.old self.new }
    {
        // Kept: (a) document 01 opens an evaluation answer by let .. else.
        let Ok(value) = answer else {
            return Err(answer.unwrap_err());
        };
        let target = contract::node_at(self.table, k.saturating_sub(1));
        if target.kind == Node::PARTY {
            self.send(receiver_of(target.argument), value);
        } else {
            self.store(target.argument as usize, value);
        }
        Ok(())
    }

    // A move at node k, with the answer of its amount: it goes where the two nodes before node k say.
    fn give_amount(&mut self, k: usize, answer: Result<Value, Question>) -> Result<(), Question>
        ensures value { work_by self.new (result_err result) ≡ amount_given (groups_by self.old) (work_of self.old) self.old.table.now k answer }
        ensures same_lists { SameLists self.old self.new }
    {
        // Kept: (a) document 01 opens an evaluation answer by let .. else.
        let Ok(value) = answer else {
            return Err(answer.unwrap_err());
        };
        let n = amount(value)?;
        let source = contract::node_at(self.table, k.saturating_sub(2));
        let target = contract::node_at(self.table, k.saturating_sub(1));
        let i = place_of(source);
        if target.kind == Node::PARTY {
            return self.pay(i, receiver_of(target.argument), n);
        }
        self.transfer(i, place_of(target), n)
    }

    // What expressions and conditions are worked out in.
    pub fn memory(&self) -> Memory<'_>
        ensures value { lent result ≡ memory_by self.now }
        ensures same_table { result.table ≡ self.now.table }
    {
        Memory {
            table: self.table,
            kinds: &*self.kinds,
            numbers: &*self.numbers,
            texts: &*self.texts,
            holdings: &*self.holdings,
            values: self.values,
            clock: self.clock,
        }
    }

    // What the statement at node k, of a kind that is no conditional's, hands on: what its expression gives, or all that its source holds.
    #[tactic(auto, unfolding(laws::specs::Choice::pick, crate::specs::Private::answer_at, evaluation::specs::Meaning::value_of))]
    fn answer_of(&self, k: usize, kind: u64) -> Result<Value, Question>
        ensures { result ≡ answer_at (memory_by self.now) self.now.table.now k kind }
    {
        if kind == Node::VALUE_MOVE {
            return self.memory().value(k.saturating_sub(2));
        }
        if kind == Node::ASSET_MOVE {
            return self.memory().value(k.saturating_sub(3));
        }
        let source = contract::node_at(self.table, k.saturating_sub(2));
        numbers::natural(held_amount(self.holdings, source))
    }

    // The statement at node k, not a conditional.
    fn act(&mut self, k: usize) -> Result<(), Question>
        ensures value { work_by self.new (result_err result) ≡ performed (groups_by self.old) self.old.values.now self.old.clock (work_of self.old) (action_at self.old.table.now k) }
        ensures same_lists { SameLists self.old self.new }
    {
        let kind = contract::node_at(self.table, k).kind;
        let answer = self.answer_of(k, kind);
        if kind == Node::VALUE_MOVE {
            return self.give_value(k, answer);
        }
        self.give_amount(k, answer)
    }

    // The condition at node k.
    fn truth(&self, k: usize) -> Result<bool, Question>
        ensures { result ≡ truth_of (memory_by self.now) (condition_at self.now.table.now k) }
    {
        self.memory().truth(k)
    }

    // The conditional at node k whose block starts at node `first`: the block is run where the condition before it holds.
    #[cycle(run)]
    fn branch(&mut self, first: usize, k: usize) -> Result<(), Question>
        ensures value { work_by self.new (result_err result) ≡ branched (groups_by self.old) self.old.values.now self.old.clock (work_of self.old) self.old.table.now first k }
        ensures same_lists { SameLists self.old self.new }
    {
        let answer = self.truth(first.saturating_sub(1));
        // Kept: (a) document 01 opens an evaluation answer by let .. else.
        let Ok(holds) = answer else {
            return Err(answer.unwrap_err());
        };
        if holds {
            return self.run(first, k);
        }
        Ok(())
    }

    // The statement at node k.
    #[cycle(run)]
    fn perform(&mut self, k: usize) -> Result<(), Question>
        ensures value { work_by self.new (result_err result) ≡ performed_at (groups_by self.old) self.old.values.now self.old.clock (work_of self.old) self.old.table.now k }
        ensures same_lists { SameLists self.old self.new }
    {
        let node = contract::node_at(self.table, k);
        if node.kind != Node::CONDITIONAL {
            return self.act(k);
        }
        let first = k.saturating_sub(argument_at(self.table, k));
        self.branch(first, k)
    }

    // The block in the nodes from `from` up to, not including, `end`: the statement at its last node after the block before it.
    #[cycle(run)]
    pub fn run(&mut self, from: usize, end: usize) -> Result<(), Question>
        ensures value { work_by self.new (result_err result) ≡ ran (groups_by self.old) self.old.values.now self.old.clock (work_of self.old) (block_between self.old.table.now from end) }
        ensures same_lists { SameLists self.old self.new }
    {
        if end <= from {
            return begin(from, end);
        }
        let k = end - 1;
        if !is_statement(self.table, k) {
            return Err(Question::TableCheck);
        }
        let before = self.run(from, end_before(self.table, k));
        before?;
        self.perform(k)
    }
}
