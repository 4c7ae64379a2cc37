// Works out expressions and conditions by recursion on their parts, which stand before the whole in a table.
#![tactic(auto)]

ghost use Rattle.std.specs.Prelude.{◌≡◌, false, not, suc, ◌+◌, ◌<◌, ◌≤◌, eqb, leb, ltb, pos, get_or, Ok, Err};
ghost use Rattle.laws.specs.Choice.{pick};
ghost use Rattle.questions.specs.declared.Question.TheVariants as ask;
ghost use Rattle.numbers.specs.declared.Value.TheVariants.{Text};
ghost use Rattle.numbers.specs.Numbers.{in_range};
ghost use Rattle.contract.specs.Limits.{top, max_assets, max_strings};
ghost use Rattle.contract.specs.Tree.{field};
ghost use Rattle.contract.specs.Table.{plus_kind, over_kind, and_kind, kind_at, size_at};
ghost use Rattle.contract.specs.Decode.{operator_of, comparison_of, leaf_of, expression_at, condition_at};
ghost use Rattle.evaluation.specs.Memory.{lent};
ghost use Rattle.evaluation.specs.Meaning.{value_of, truth_of};
ghost use Rattle.evaluation.specs.Private.{left_from, compared_at, simple_at, negates_at, run_from, turned_by};

use contract::{Contract, Function, Node};
use items::get_or;
use numbers::{Comparison, Operator, Value};
use questions::Question;

// The amounts that expressions read: those of the assets, then those of the asset parameters.
// Kept: (a) a limit is an associated constant of the type that it limits (docs/CONTRIBUTING.md); the amounts are an array that is lent by itself, too
// (`holdings`, `statements`), so that this type stands for it and holds nothing else, as `Contract` for a table.
#[derive(Clone, Copy)]
pub struct Holdings {}

impl Holdings {
    pub const MOST: usize = Contract::ASSETS + Function::PARAMETERS;
}

// What a field holds, as a word of the state.
#[derive(Clone, Copy)]
pub struct FieldKind {}

// Kept: (a) question 4 judges the word, whatever it is, so that it is a number and no enum; the type holds its numbers alone, as `Holdings` its limit.
impl FieldKind {
    pub const NOTHING: u8 = 0;

    pub const INTEGER: u8 = 1;

    pub const STRING: u8 = 2;
}

// What expressions and conditions are worked out in, and the table that they stand in.
// Kept: (a) the three arrays of the fields' values are columns of the public `State`, lent as they stand there.
#[derive(Clone, Copy)]
pub struct Memory<'a> {
    pub table: &'a [u64],
    // Of each field its kind; its integer, and its string's number.
    pub kinds: &'a [u8; Contract::FIELDS],
    pub numbers: &'a [i64; Contract::FIELDS],
    pub texts: &'a [u8; Contract::FIELDS],
    // The amounts of the assets, then of the asset parameters.
    pub holdings: &'a [u64; Holdings::MOST],
    // The value parameters.
    pub values: &'a [i64],
    pub clock: u64,
}

// `~`s in a row: the node below them, and whether their number is odd.
// Kept: (d) no `Option`, since a run always has both: a node, and a truth about the `~`s above it.
#[derive(Clone, Copy)]
struct Run {
    end: usize,
    odd: bool,
}

// Kept: (d) no `From`, here and below, since a number and these enums are types of other crates, and the enums' own knows no nodes; no
// `TryFrom`, since each number has its answer.
#[tactic(auto, unfolding(laws::specs::Choice::pick))]
fn operator_of(kind: u64) -> Operator
    ensures { result ≡ operator_of kind }
{
    match kind {
        Node::PLUS => Operator::Plus,
        Node::MINUS => Operator::Minus,
        Node::TIMES => Operator::Times,
        _ => Operator::Over,
    }
}

// Kept: (d) as `operator_of`.
#[tactic(auto, unfolding(laws::specs::Choice::pick))]
fn comparison_of(kind: u64) -> Comparison
    ensures { result ≡ comparison_of kind }
{
    match kind {
        Node::EQUAL => Comparison::Equal,
        Node::UNEQUAL => Comparison::Unequal,
        Node::LESS => Comparison::Less,
        Node::AT_MOST => Comparison::AtMost,
        Node::GREATER => Comparison::Greater,
        _ => Comparison::AtLeast,
    }
}

// A constant, broken past the top.
#[tactic(auto, unfolding(laws::specs::Choice::pick))]
fn constant(n: u64) -> Result<Value, Question>
    ensures { result ≡ pick (leb n top) (in_range (pos n)) (Err ask.TableCheck) }
{
    if n <= Contract::TOP {
        return numbers::natural(n);
    }
    Err(Question::TableCheck)
}

// A string by its number, broken where a contract has no such number.
#[tactic(auto, unfolding(laws::specs::Choice::pick))]
fn string(n: u64) -> Result<Value, Question>
    ensures { result ≡ pick (ltb n max_strings) (Ok (Text n)) (Err ask.TableCheck) }
{
    if (n as usize) < Contract::STRINGS {
        return Ok(Value::Text(n as u8));
    }
    Err(Question::TableCheck)
}

// The amount of asset parameter i: they stand after the assets.
fn parameter_amount(holdings: &[u64; Holdings::MOST], i: usize) -> u64
    ensures { result ≡ get_or holdings.now (max_assets + i) 0 }
{
    get_or(&holdings[Contract::ASSETS..], i, 0)
}

// Whether a node of this size counts itself and parts of two sizes.
// Kept: (d) a part that is not there takes no nodes, so that its size is 0 and no option.
fn counts(size: usize, left: usize, right: usize) -> bool
    ensures { result ≡ eqb size (suc (left + right)) }
{
    right < size && size - right - 1 == left
}

// Where the left part of node k, of this size, ends; refused where the node doesn't count itself and two parts.
#[tactic(auto, unfolding(laws::specs::Choice::pick, contract::specs::Decode::counts_two, crate::specs::Private::left_from))]
fn left_of(table: &[u64], k: usize, size: usize) -> Result<usize, Question>
    requires { size ≡ size_at table.now k }
    ensures { result ≡ left_from table.now k }
{
    if k == 0 {
        return Err(Question::TableCheck);
    }
    let last = k - 1;
    let right = contract::node_at(table, last).size;
    let left = last.saturating_sub(right);
    if counts(size, contract::node_at(table, left).size, right) {
        return Ok(left);
    }
    Err(Question::TableCheck)
}

// ---- Expressions.

impl Memory<'_> {
    // The value of field i.
    #[tactic(auto, unfolding(laws::specs::Choice::pick, crate::specs::Meaning::field_value, crate::specs::Meaning::value_of))]
    fn field_value(&self, i: usize) -> Result<Value, Question>
        ensures { result ≡ value_of (lent self.now) (field i) }
    {
        let Memory {
            kinds,
            numbers,
            texts,
            ..
        } = *self;
        match get_or(kinds, i, 0) {
            FieldKind::NOTHING => Err(Question::FieldValue),
            FieldKind::INTEGER => Ok(Value::Integer(get_or(numbers, i, 0))),
            _ => Ok(Value::Text(get_or(texts, i, 0))),
        }
    }

    // An expression of no parts.
    #[tactic(auto, unfolding(laws::specs::Choice::pick, contract::specs::Decode::leaf_of, crate::specs::Meaning::value_of))]
    fn leaf(&self, kind: u64, n: u64) -> Result<Value, Question>
        ensures { result ≡ value_of (lent self.now) (leaf_of kind n) }
    {
        let holdings = self.holdings;
        let i = n as usize;
        match kind {
            Node::CONSTANT => constant(n),
            Node::STRING => string(n),
            Node::NOW => numbers::natural(self.clock),
            Node::FIELD => self.field_value(i),
            Node::VALUE => Ok(Value::Integer(get_or(self.values, i, 0))),
            Node::ASSET => numbers::natural(get_or(holdings, i, 0)),
            Node::PARAMETER => numbers::natural(parameter_amount(holdings, i)),
            _ => Err(Question::TableCheck),
        }
    }

    // The operation at node k, of this kind and size.
    // Kept: (b) beside `value`: in it a desk takes 1.1 per cent more instructions for a mixed session, inlined there 0.5, since each leaf pays for an
    // operation's room; handed the node in place of its kind and size, 0.4 (builds without proof of one tree).
    #[inline(never)]
    #[cycle(value)]
    fn operation(&self, k: usize, kind: u64, size: usize) -> Result<Value, Question>
        requires kind { kind ≡ kind_at self.now.table.now k }
        requires size { size ≡ size_at self.now.table.now k }
        requires at_least { plus_kind ≤ kind }
        requires at_most { kind ≤ over_kind }
        ensures { result ≡ value_of (lent self.now) (expression_at self.now.table.now k) }
    {
        let left = left_of(self.table, k, size)?;
        let last = k - 1;
        let first = self.value(left);
        // Kept: (a) document 01 opens an evaluation answer by let .. else (docs/DECISIONS.md, the forms that it names), which leaves with its
        // question where others use `?`.
        let Ok(a) = first else {
            return first;
        };
        let second = self.value(last);
        let Ok(b) = second else {
            return second;
        };
        numbers::apply(operator_of(kind), a, b)
    }

    // The expression at node k.
    #[cycle(value)]
    pub fn value(&self, k: usize) -> Result<Value, Question>
        ensures { result ≡ value_of (lent self.now) (expression_at self.now.table.now k) }
    {
        let node = contract::node_at(self.table, k);
        let kind = node.kind;
        if kind < Node::PLUS {
            return self.leaf(kind, node.argument);
        }
        if Node::OVER < kind {
            return Err(Question::TableCheck);
        }
        self.operation(k, kind, node.size)
    }
}

// ---- Conditions.

// Whether node k is `~` and counts itself and its part.
#[tactic(auto, unfolding(laws::specs::Choice::pick, contract::specs::Decode::counts_one, crate::specs::Private::negates_at))]
fn negates(table: &[u64], k: usize) -> bool
    requires { 0 < k }
    ensures { result ≡ negates_at table.now k }
{
    let node = contract::node_at(table, k);
    if node.kind != Node::NOT {
        return false;
    }
    counts(node.size, 0, contract::node_at(table, k - 1).size)
}

// The node below the `~`s that stand in a row at node k, each counting its part, and whether their number is odd.
fn run_at(table: &[u64], k: usize) -> Run
    ensures { result ≡ run_from table.now k false }
{
    let nots = (0..k).rev().take_while(|i| negates(table, i + 1)).count();
    Run {
        end: k - nots,
        odd: nots % 2 == 1,
    }
}

// A truth below a run of `~`s.
fn turned(odd: bool, t: Result<bool, Question>) -> Result<bool, Question>
    ensures { result ≡ turned_by odd t }
{
    // Kept: (a) document 01 opens an evaluation answer by let .. else.
    let Ok(holds) = t else {
        return t;
    };
    Ok(holds != odd)
}

// Whether the left side of `&&`, else of `||`, decides by its truth: false decides `&&`, true decides `||`.
#[tactic(auto, unfolding(laws::specs::Choice::pick))]
fn decides(kind: u64, holds: bool) -> bool
    ensures { result ≡ pick (eqb kind and_kind) (not holds) holds }
{
    if kind == Node::AND { !holds } else { holds }
}

impl Memory<'_> {
    // A comparison at node k.
    fn compared_at(&self, k: usize) -> Result<bool, Question>
        ensures { result ≡ compared_at (lent self.now) self.now.table.now k }
    {
        let node = contract::node_at(self.table, k);
        let left = left_of(self.table, k, node.size)?;
        let last = k - 1;
        let x = self.value(left);
        // Kept: (a) document 01 opens an evaluation answer by let .. else.
        let Ok(a) = x else {
            return Err(x.unwrap_err());
        };
        let y = self.value(last);
        let Ok(b) = y else {
            return Err(y.unwrap_err());
        };
        numbers::compare(comparison_of(node.kind), a, b)
    }

    // A condition without conditions in it, true, false or a comparison, at node k; any other is refused.
    #[tactic(auto, using(contract_laws::proofs::Levels::condition_step), unfolding(laws::specs::Choice::pick, crate::specs::Private::simple_at, crate::specs::Meaning::truth_of))]
    fn simple(&self, k: usize) -> Result<bool, Question>
        ensures { result ≡ simple_at (lent self.now) self.now.table.now k }
    {
        let node = contract::node_at(self.table, k);
        let kind = node.kind;
        match kind {
            Node::TRUE => Ok(true),
            Node::FALSE => Ok(false),
            Node::EQUAL..=Node::AT_LEAST => self.compared_at(k),
            _ => Err(Question::TableCheck),
        }
    }

    // The condition at node k. Runs of `~` are counted, so that only `&&` and `||` call on: the left side, and the right one where the left is
    // not refused and does not decide.
    pub fn truth(&self, k: usize) -> Result<bool, Question>
        ensures { result ≡ truth_of (lent self.now) (condition_at self.now.table.now k) }
    {
        let run = run_at(self.table, k);
        let end = run.end;
        let node = contract::node_at(self.table, end);
        let kind = node.kind;
        if kind < Node::AND {
            let whole = self.simple(end);
            return turned(run.odd, whole);
        }
        if Node::OR < kind {
            return Err(Question::TableCheck);
        }
        let left = left_of(self.table, end, node.size)?;
        let last = end - 1;
        let one = self.truth(left);
        // Kept: (a) document 01 opens an evaluation answer by let .. else.
        let Ok(a) = one else {
            return one;
        };
        if decides(kind, a) {
            return turned(run.odd, one);
        }
        let other = self.truth(last);
        turned(run.odd, other)
    }
}
