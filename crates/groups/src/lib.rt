// Groups of a contract's assets and asset parameters (document 02, F-7): which names the moves of its text join, by number.
#![tactic(auto)]

ghost use Rattle.std.specs.Prelude.{ℕ, ◌≡◌, ◌≤◌, ◌<◌, false, map, min, get_or, eqb};
ghost use Rattle.laws.specs.Choice.{pick};
ghost use Rattle.contract.specs.Table.{word_at};
ghost use Rattle.contract.specs.Decode.{each_from, holder_of, block_between, event_at, function_at, contract_of};
ghost use Rattle.statements.specs.Blocks.{action_at};
ghost use Rattle.groups.specs.Groups.{max_names, name_of, numbers_name, action_moves, block_moves, handler_moves, moves_in, moves, apart, merged, with_moves, groups};
ghost use Rattle.groups.specs.Private.{SameLists};

use contract::{Contract, Function, Node};
use tables::Passed;

// How many numbers of names there are.
#[derive(Clone, Copy)]
pub struct Names {}

impl Names {
    // 16 assets, and 4 asset parameters of each of 64 functions.
    pub const MOST: usize = Contract::ASSETS + Contract::FUNCTIONS * Function::PARAMETERS;
}

// For each number the first name of its group so far.
type Firsts = [u16; Names::MOST];

// ---- Two groups become one.

// Names with one first name get another.
fn relabel(firsts: &mut Firsts, from: u16, to: u16)
    ensures { firsts.new ≡ map (λ x. pick (eqb x from) to x) firsts.old }
{
    for first in firsts.iter_mut() {
        if *first == from {
            *first = to;
        }
    }
}

// Names with the greater of two first names get the lesser.
#[tactic(auto, using(crate::proofs::Loops::merged_alike), unfolding(crate::specs::Groups::merged))]
fn merge(firsts: &mut Firsts, a: u16, b: u16)
    ensures { firsts.new ≡ merged firsts.old a b }
{
    if a != b {
        relabel(firsts, a.max(b), a.min(b));
    }
}

// ---- The moves of a clause.

// The number of the name that a node names, where a function's first asset parameter has the number `start`; the number past the last for any
// greater one, which no contract that was read has.
#[tactic(auto, unfolding(laws::specs::Choice::pick))]
fn name_of(node: Node, start: usize) -> usize
    ensures { result ≡ min (name_of start (holder_of node.kind node.argument)) max_names }
{
    let first = if node.kind == Node::ASSET {
        0
    } else {
        start as u64
    };
    node.argument.saturating_add(first).min(Names::MOST as u64) as usize
}

// What goes over the statements of a function: the table, the first names so far, and the number of the function's first asset parameter.
#[derive(Drop)]
struct Walk<'a> {
    table: &'a [u64],
    firsts: &'a mut Firsts,
    first_parameter: usize,
}

impl Walk<'_> {
    // The first name of the group of the name that a node names.
    #[tactic(auto, using(crate::proofs::Loops::at_most))]
    fn first_of(&self, node: Node) -> u16
        ensures { result ≡ get_or self.now.firsts.now (name_of self.now.first_parameter (holder_of node.kind node.argument)) 0 }
    {
        items::get_or(&*self.firsts, name_of(node, self.first_parameter), 0)
    }

    // What the statement at node k, not a conditional, joins: nothing, if it is no move or its target is a party.
    fn act(&mut self, k: usize)
        ensures value { self.new.firsts.now ≡ with_moves self.old.firsts.now (action_moves self.old.first_parameter (action_at self.old.table.now k)) }
        ensures same_lists { SameLists self.old self.new }
    {
        if contract::node_at(self.table, k).kind == Node::VALUE_MOVE {
            return;
        }
        let target = contract::node_at(self.table, k.saturating_sub(1));
        if target.kind == Node::PARTY {
            return;
        }
        let source = contract::node_at(self.table, k.saturating_sub(2));
        let a = self.first_of(source);
        let b = self.first_of(target);
        merge(self.firsts, a, b);
    }

    // What the block in the nodes from `from` up to, not including, `end` joins.
    fn walk(&mut self, from: usize, end: usize)
        ensures value { self.new.firsts.now ≡ with_moves self.old.firsts.now (block_moves self.old.first_parameter (block_between self.old.table.now from end)) }
        ensures same_lists { SameLists self.old self.new }
    {
        if end <= from {
            return;
        }
        let k = end - 1;
        if !statements::is_statement(self.table, k) {
            return;
        }
        let node = contract::node_at(self.table, k);
        let before = statements::end_before(self.table, k);
        self.walk(from, before);
        if node.kind == Node::CONDITIONAL {
            let inner = k.saturating_sub(node.argument as usize);
            self.walk(inner, k);
        } else {
            self.act(k);
        }
    }

    // What the handler of the event in row i joins.
    #[tactic(auto, unfolding(contract::specs::Decode::event_at))]
    fn walk_handler(&mut self, i: usize)
        ensures value { self.new.firsts.now ≡ with_moves self.old.firsts.now (block_moves self.old.first_parameter (event_at self.old.table.now i).handler) }
        ensures same_lists { SameLists self.old self.new }
    {
        let node = contract::event_at(self.table, i).node;
        let nodes = contract::node_at(self.table, node).argument as usize;
        self.walk(node.saturating_sub(nodes), node);
    }

    // What the handlers of so many events join, from the one in row `event` on.
    fn walk_handlers(&mut self, event: usize, count: usize)
        ensures value { self.new.firsts.now ≡ with_moves self.old.firsts.now (handler_moves self.old.first_parameter (each_from event count (event_at self.old.table.now))) }
        ensures same_lists { SameLists self.old self.new }
    {
        for i in 0..count {
            self.walk_handler(event.saturating_add(i));
        }
    }
}

// What function n's body and handlers join.
fn walk_function(firsts: &mut Firsts, terms: &Passed, n: usize)
    requires { n < word_at terms.now.table.now 6 }
    ensures { firsts.new ≡ with_moves firsts.old (moves_in n (function_at terms.now.table.now n)) }
{
    let row = contract::function_at(terms.table, n);
    let mut walk = Walk {
        table: terms.table,
        firsts: &mut *firsts,
        first_parameter: Contract::ASSETS + n * Function::PARAMETERS,
    };
    let body = row.first + row.precondition;
    walk.walk(body, body + row.body);
    walk.walk_handlers(row.event, row.events);
}

// ---- The whole.

// Each name by itself.
fn apart() -> Firsts
    ensures { result ≡ apart }
{
    let mut firsts = [0u16; Names::MOST];
    for k in 0..Names::MOST {
        firsts[k] = k as u16;
    }
    firsts
}

// The first name of each name's group.
fn firsts_of(terms: &Passed) -> Firsts
    ensures { result ≡ with_moves apart (moves (contract_of terms.now.table.now)) }
{
    let mut firsts = apart();
    for n in 0..contract::head(terms.table).functions {
        walk_function(&mut firsts, terms, n);
    }
    firsts
}

// Whether a number is a name's.
#[tactic(auto, unfolding(crate::specs::Groups::numbers_name, laws::specs::Choice::pick))]
pub fn numbers_name(terms: &Passed, k: usize) -> bool
    ensures { result ≡ numbers_name (contract_of terms.now.table.now) k }
{
    let head = contract::head(terms.table);
    if k < Contract::ASSETS {
        return k < head.assets;
    }
    let place = k - Contract::ASSETS;
    let n = place / Function::PARAMETERS;
    n < head.functions
        && place % Function::PARAMETERS < contract::function_at(terms.table, n).parameters
}

// No number from here on is a name's.
fn end_of(terms: &Passed) -> usize
    ensures few { result ≤ max_names }
    ensures none { (k : ℕ) → result ≤ k → k < max_names → numbers_name (contract_of terms.now.table.now) k ≡ false }
{
    let functions = contract::head(terms.table).functions;
    Contract::ASSETS + functions.min(Contract::FUNCTIONS) * Function::PARAMETERS
}

// The number of each name's group, from 1 by the groups' first names; 0 for a number that is no name's. A first name stands at or before each
// name of its group.
pub fn groups_of(terms: &Passed) -> [u16; Names::MOST]
    ensures { result ≡ groups (contract_of terms.now.table.now) }
{
    let firsts = firsts_of(terms);
    let mut numbers = [0u16; Names::MOST];
    let mut count: u16 = 0;
    let end = end_of(terms);
    for k in 0..end {
        if numbers_name(terms, k) {
            let first = firsts[k] as usize;
            if first == k {
                count += 1;
                numbers[k] = count;
            } else {
                numbers[k] = items::get_or(&numbers, first, 0);
            }
        }
    }
    numbers
}
