// Functions and events of a table: each one's nodes and events follow those of the one before.
ghost use Rattle.std.specs.Prelude.{◌≡◌, true, ◌&&◌, ◌+◌, ◌*◌, ◌≤◌, ◌<◌, eqb};
ghost use Rattle.contract.specs.Table.{word_at, function_word, parameters_start};
ghost use Rattle.contract.specs.Rows.{function_row_of};
ghost use Rattle.tables.specs.Private.{event_passes, guarded_ok, sizes_ok, row_ok};
ghost use Rattle.contract.specs.Check.{scope_at, precondition_ok, body_ok, event_nodes_ok, event_ok, event_first, first_node, first_event, function_nodes_ok, function_ok, packed_ok, parameters_ok};
ghost use Rattle.laws.specs.Lists.{all_below};

use crate::Table;
use crate::names::{name_ok, packed_ok};
use crate::nodes::{Scope, Sort, block_ok, ends_whole};
use contract::{Contract, Function, Node, event_at, function_at, head, node_at};

impl Scope<'_> {
    // A precondition in the n nodes from `first` on: none, or a condition that counts them all.
    #[tactic(auto, unfolding(contract::specs::Check::precondition_ok))]
    fn precondition_ok(&self, first: usize, n: usize) -> bool
        requires { first + n ≤ 4096 }
        ensures { result ≡ precondition_ok self.now.table.now (scope_at self.now.table.now self.now.values self.now.parameters) first n }
    {
        n == 0 || ends_whole(self.table, Sort::Condition, first + n, n) && self.nodes_ok(first, n)
    }

    // The statements in the n nodes from `first` on.
    #[tactic(auto, unfolding(contract::specs::Check::body_ok))]
    fn body_ok(&self, first: usize, n: usize) -> bool
        requires { first + n ≤ 4096 }
        ensures { result ≡ body_ok self.now.table.now (scope_at self.now.table.now self.now.values self.now.parameters) first n }
    {
        block_ok(self.table, first + n, n) && self.nodes_ok(first, n)
    }

    // A guard in the nodes from `first` up to `start`, and a handler in the nodes after it, which names no parameters.
    #[tactic(auto, unfolding(crate::specs::Private::guarded_ok))]
    fn guarded_ok(&self, first: usize, start: usize, handler: usize) -> bool
        requires { (first < start) × (start + handler ≤ 4096) }
        ensures { result ≡ guarded_ok self.now.table.now (scope_at self.now.table.now self.now.values self.now.parameters) first start handler }
    {
        let table = self.table;
        let none = Scope {
            table,
            values: 0,
            parameters: 0,
        };
        ends_whole(table, Sort::Expression, start, start - first)
            && self.nodes_ok(first, start - first)
            && none.body_ok(start, handler)
    }

    // An event whose guard starts at node `first`; its own node k stands after its guard and its handler.
    #[tactic(auto, unfolding(contract::specs::Check::event_nodes_ok, crate::specs::Private::guarded_ok))]
    fn event_nodes_ok(&self, first: usize, k: usize) -> bool
        ensures { result ≡ event_nodes_ok self.now.table.now (scope_at self.now.table.now self.now.values self.now.parameters) first k }
    {
        let table = self.table;
        let event = node_at(table, k);
        let handler = event.argument as usize;
        k < head(table).nodes
            && event.kind == Node::EVENT
            && first <= k + 1
            && event.size == k + 1 - first
            && handler <= k
            && first < k - handler
            && self.guarded_ok(first, k - handler, handler)
    }

    #[tactic(auto, unfolding(contract::specs::Check::event_ok))]
    fn event_ok(&self, first: usize, i: usize) -> bool
        ensures { result ≡ event_ok self.now.table.now (scope_at self.now.table.now self.now.values self.now.parameters) first i }
    {
        let table = self.table;
        let event = event_at(table, i);
        let states = head(table).states;
        event.state < states && event.last < states && self.event_nodes_ok(first, event.node)
    }
}

// Whether a function's counts of nodes and events are within the limits.
fn sizes_ok(f: Function) -> bool
    ensures { result ≡ sizes_ok f }
{
    f.precondition <= Contract::NODES && f.body <= Contract::NODES && f.events <= Contract::EVENTS
}

// A function's states, party and counts of parameters.
fn row_ok(table: &Table, f: Function) -> bool
    ensures { result ≡ row_ok table.now f }
{
    let h = head(table);
    f.state < h.states
        && f.party < h.parties
        && f.last < h.states
        && f.values <= Function::VALUES
        && f.parameters <= Function::PARAMETERS
}

// Function i of a table, and its row.
#[derive(Clone, Copy)]
struct FunctionAt<'a> {
    table: &'a Table,
    i: usize,
    row: Function,
    ghost read: { row ≡ function_row_of table.now i },
    ghost room: { (i < 64) × (word_at table.now 8 ≤ 4096) },
}

impl<'a> FunctionAt<'a> {
    fn of(table: &'a Table, i: usize) -> FunctionAt<'a>
        requires { (i < 64) × (word_at table.now 8 ≤ 4096) }
        ensures same_table { result.table.now ≡ table.now }
        ensures same_i { result.i ≡ i }
    {
        FunctionAt {
            table,
            i,
            row: function_at(table, i),
        }
    }

    // What its nodes may name.
    fn scope(&self) -> Scope<'a>
        ensures same_table { result.table.now ≡ self.now.table.now }
        ensures same_values { result.values ≡ self.now.row.values }
        ensures same_parameters { result.parameters ≡ self.now.row.parameters }
    {
        Scope {
            table: self.table,
            values: self.row.values,
            parameters: self.row.parameters,
        }
    }
}

// Kept: (d) the bounds that the methods below require hold once a row's starts and sizes are tested, so they are no facts of the type.
impl FunctionAt<'_> {
    // The events, one after the other.
    // Kept: (d) here and in `functions_ok` the next place goes on beside the index, and what fails ends both: by `try_fold` the place stands in an
    // Option, to be opened again.
    #[tactic(auto, using(laws::proofs::Members::all_more, contract::proofs::Tests::all_stop, crate::proofs::Events::events_first_lem, crate::proofs::Events::event_same, crate::proofs::Events::event_next, crate::proofs::Events::event_node), unfolding(laws::specs::Lists::all_below))]
    fn events_ok(&self) -> bool
        requires { (self.now.row.first + self.now.row.precondition + self.now.row.body ≤ 4096) × (self.now.row.event ≤ 4096) × (self.now.row.events ≤ 64) }
        ensures { result ≡ all_below self.now.row.events (event_passes self.now.table.now self.now.i) }
    {
        let table = self.table;
        let f = self.row;
        let scope = self.scope();
        let mut first = f.first + f.precondition + f.body;
        for j in 0..f.events {
            if !scope.event_ok(first, f.event + j) {
                return false;
            }
            first = event_at(table, f.event + j).node + 1;
        }
        true
    }

    #[tactic(auto, unfolding(contract::specs::Check::function_nodes_ok))]
    fn nodes_ok(&self) -> bool
        requires { (self.now.row.first ≤ 4096) × (self.now.row.event ≤ 4096) }
        ensures { result ≡ function_nodes_ok self.now.table.now (scope_at self.now.table.now (function_word self.now.table.now self.now.i 3) (function_word self.now.table.now self.now.i 4)) self.now.i }
    {
        let f = self.row;
        if !sizes_ok(f) {
            return false;
        }
        let table = self.table;
        let scope = self.scope();
        let body = f.first + f.precondition;
        body + f.body <= head(table).nodes
            && scope.precondition_ok(f.first, f.precondition)
            && scope.body_ok(body, f.body)
            && self.events_ok()
    }

    // Whether it passes where its nodes are to start at `node` and its events at `event`.
    #[tactic(auto, unfolding(contract::specs::Check::function_ok))]
    fn is_ok(&self, node: usize, event: usize) -> bool
        requires bounds { (node ≤ 4096) × (event ≤ 4096) }
        requires starts { (node ≡ first_node self.now.table.now self.now.i) × (event ≡ first_event self.now.table.now self.now.i) }
        ensures { result ≡ function_ok self.now.table.now self.now.i }
    {
        let name = contract::FUNCTIONS + self.i * Function::WORDS + Function::NAME;
        row_ok(self.table, self.row)
            && name_ok(self.table, name)
            && self.row.first == node
            && self.row.event == event
            && self.nodes_ok()
    }

    // The node after its own.
    #[tactic(auto, using(crate::proofs::Events::events_first_lem, crate::proofs::Events::event_next))]
    fn end(&self) -> usize
        requires { (self.now.row.first + self.now.row.precondition + self.now.row.body ≤ 4096) × (self.now.row.event ≤ 4096) × (self.now.row.events ≤ 64) × (event_first self.now.table.now self.now.i self.now.row.events ≤ 4096) }
        ensures { result ≡ event_first self.now.table.now self.now.i self.now.row.events }
    {
        let f = self.row;
        if f.events == 0 {
            return f.first + f.precondition + f.body;
        }
        let table = self.table;
        event_at(table, f.event + (f.events - 1)).node + 1
    }
}

// The functions, their nodes and events in a row, and no more of either.
pub(crate) fn functions_ok(table: &Table) -> bool
    requires { (word_at table.now 6 ≤ 64) × (word_at table.now 8 ≤ 4096) }
    ensures { result ≡ (all_below (word_at table.now 6) (function_ok table.now) && (eqb (first_node table.now (word_at table.now 6)) (word_at table.now 8) && eqb (first_event table.now (word_at table.now 6)) (word_at table.now 7))) }
{
    let h = head(table);
    let mut node: usize = 0;
    let mut event: usize = 0;
    for i in 0..h.functions {
        let function = FunctionAt::of(table, i);
        if !function.is_ok(node, event) {
            return false;
        }
        node = function.end();
        event = function.row.event + function.row.events;
    }
    node == h.nodes && event == h.events
}

// The names in the n rows of the parameters from row `first` on.
fn packed_rows_ok(table: &Table, first: usize, n: usize) -> bool
    requires { (first ≤ 4096) × (n ≤ 64) }
    ensures { result ≡ all_below n (λ j. packed_ok table.now (parameters_start + (first + j) * 5)) }
{
    (0..n).all(|j| packed_ok(table, first + j))
}

// The names of function i's value parameters and asset parameters.
fn parameters_ok(table: &Table, i: usize) -> bool
    requires { (i < 64) × (function_ok table.now i ≡ true) }
    ensures { result ≡ parameters_ok table.now i }
{
    let f = function_at(table, i);
    let first = i * Function::NAMES;
    packed_rows_ok(table, first, f.values)
        && packed_rows_ok(table, first + Function::VALUES, f.parameters)
}

// The names of all functions' parameters.
pub(crate) fn all_parameters_ok(table: &Table) -> bool
    requires { (word_at table.now 6 ≤ 64) × (all_below (word_at table.now 6) (function_ok table.now) ≡ true) }
    ensures { result ≡ all_below (word_at table.now 6) (parameters_ok table.now) }
{
    (0..head(table).functions).all(|i| parameters_ok(table, i))
}
