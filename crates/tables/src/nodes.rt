// Nodes of a table: each names what is there, and stands after its parts and counts them.
ghost use Rattle.std.specs.Prelude.{◌≡◌, [], ◌∷◌, suc, ◌+◌, ◌≤◌, ◌<◌};
ghost use Rattle.laws.specs.Choice.{pick};
ghost use Rattle.contract.specs.Check.{is_sort, statement, expression, holder, asset_target, part_start, parts_start, whole_from, statement_from, block_ok, conditional_start, leaf_ok, whole_ok, is_leaf, node_ok, nodes_ok, scope_at};
ghost use Rattle.contract.specs.Rows.{node_of};
ghost use Rattle.contract.specs.Table.{word_at};
ghost use Rattle.tables.specs.Private.{sort_of, start_of, StartsBy, ends_whole, statements_before, statement_start};

use crate::Table;
use contract::{Contract, Function, Node, TableHead, node_at, word};

// What a part of a node may be.
#[derive(Clone, Copy)]
pub(crate) enum Sort {
    Expression,
    Condition,
    Statement,
    // The source of a move.
    Holder,
    // The target of a move.
    AssetTarget,
    // The target of a value.
    ValueTarget,
}

#[tactic(auto, unfolding(contract::specs::Check::is_sort, contract::specs::Check::ranges))]
pub(crate) fn is_sort(sort: Sort, kind: u64) -> bool
    ensures { result ≡ is_sort (sort_of sort) kind }
{
    match sort {
        Sort::Expression => matches!(kind, Node::CONSTANT..=Node::OVER),
        Sort::Condition => matches!(kind, Node::TRUE..=Node::OR),
        Sort::Statement => matches!(kind, Node::VALUE_MOVE..=Node::CONDITIONAL),
        Sort::Holder => matches!(kind, Node::ASSET | Node::PARAMETER),
        Sort::AssetTarget => matches!(kind, Node::PARTY | Node::ASSET | Node::PARAMETER),
        Sort::ValueTarget => matches!(kind, Node::PARTY | Node::FIELD),
    }
}

// Whether nodes of a kind have no parts.
#[tactic(auto, unfolding(contract::specs::Check::is_leaf, contract::specs::Check::ranges))]
fn is_leaf(kind: u64) -> bool
    ensures { result ≡ is_leaf kind }
{
    matches!(
        kind,
        Node::CONSTANT..=Node::PARAMETER | Node::TRUE | Node::FALSE | Node::PARTY
    )
}

// Whether the node before `end` is of this sort and counts n nodes.
pub(crate) fn ends_whole(table: &Table, sort: Sort, end: usize, n: usize) -> bool
    requires { 0 < end }
    ensures { result ≡ ends_whole table.now (sort_of sort) end n }
{
    let last = node_at(table, end - 1);
    is_sort(sort, last.kind) && last.size == n
}

// Whether there is a block in the n nodes before `end`: none, or its last statement counts them all.
#[tactic(auto, unfolding(contract::specs::Check::block_ok))]
pub(crate) fn block_ok(table: &Table, end: usize, n: usize) -> bool
    requires { n ≤ end }
    ensures { result ≡ block_ok table.now end n }
{
    n == 0 || ends_whole(table, Sort::Statement, end, n)
}

// So many value parameters and asset parameters, which nodes of a table may name.
#[derive(Clone, Copy)]
pub(crate) struct Scope<'a> {
    pub(crate) table: &'a Table,
    pub(crate) values: usize,
    pub(crate) parameters: usize,
    ghost room: { word_at table.now 8 ≤ 4096 },
}

impl Scope<'_> {
    // Whether a node without parts names something.
    #[tactic(auto, unfolding(contract::specs::Check::leaf_ok, contract::specs::Check::scope_at, laws::specs::Choice::pick))]
    fn leaf_ok(&self, kind: u64, n: u64) -> bool
        ensures { result ≡ leaf_ok (scope_at self.now.table.now self.now.values self.now.parameters) kind n }
    {
        let Scope {
            table,
            values,
            parameters,
        } = *self;
        match kind {
            Node::CONSTANT => n <= Contract::TOP,
            Node::STRING => n < word(table, TableHead::STRINGS),
            Node::FIELD => n < word(table, TableHead::FIELDS),
            Node::ASSET => n < word(table, TableHead::ASSETS),
            Node::VALUE => n < values as u64,
            Node::PARAMETER => n < parameters as u64,
            Node::PARTY => n < word(table, TableHead::PARTIES),
            _ => matches!(kind, Node::NOW | Node::TRUE | Node::FALSE),
        }
    }
}

// Node k of a table, whose parts stand in the nodes from `from` on.
#[derive(Clone, Copy)]
struct NodeAt<'a> {
    scope: Scope<'a>,
    from: usize,
    k: usize,
    node: Node,
    ghost read: { node ≡ node_of scope.table.now k },
    ghost room: { (from ≤ k) × (k < 4096) },
}

impl<'a> NodeAt<'a> {
    fn of(scope: Scope<'a>, from: usize, k: usize) -> NodeAt<'a>
        requires { (from ≤ k) × (k < 4096) }
        ensures same_scope { result.scope ≡ scope.entry }
        ensures same_from { result.from ≡ from }
        ensures same_k { result.k ≡ k }
    {
        let table = scope.table;
        NodeAt {
            scope,
            from,
            k,
            node: node_at(table, k),
        }
    }
}

impl NodeAt<'_> {
    // Where the part starts that ends before node `end`, if it is of this sort.
    #[tactic(auto, unfolding(contract::specs::Check::part_start, laws::specs::Choice::pick))]
    fn part_start(&self, sort: Sort, end: usize) -> Option<usize>
        ensures { start_of result ≡ part_start self.now.scope.table.now self.now.from (sort_of sort) end }
    {
        if end <= self.from {
            return None;
        }
        let table = self.scope.table;
        let last = node_at(table, end - 1);
        if is_sort(sort, last.kind) && last.size <= end - self.from {
            Some(end - last.size)
        } else {
            None
        }
    }

    // The same of two parts.
    #[tactic(auto, using(crate::proofs::Parts::parts_one, crate::proofs::Parts::parts_none, crate::proofs::Parts::parts_go))]
    fn pair_start(&self, last: Sort, first: Sort, end: usize) -> Option<usize>
        ensures { start_of result ≡ parts_start self.now.scope.table.now self.now.from (sort_of last ∷ sort_of first ∷ []) end }
    {
        let p = self.part_start(last, end)?;
        self.part_start(first, p)
    }

    // The parts of E -o h, t.
    #[tactic(auto, using(crate::proofs::Parts::parts_none, crate::proofs::Parts::parts_go))]
    fn move_start(&self, end: usize) -> Option<usize>
        ensures { start_of result ≡ parts_start self.now.scope.table.now self.now.from (asset_target ∷ holder ∷ expression ∷ []) end }
    {
        let p = self.part_start(Sort::AssetTarget, end)?;
        self.pair_start(Sort::Holder, Sort::Expression, p)
    }

    // Where the condition of a conditional starts, which stands before its block.
    #[tactic(auto, unfolding(contract::specs::Check::conditional_start, laws::specs::Choice::pick))]
    fn conditional_start(&self) -> Option<usize>
        ensures { start_of result ≡ conditional_start self.now.scope.table.now self.now.from self.now.k }
    {
        let n = self.node.argument as usize;
        if n <= self.k - self.from && block_ok(self.scope.table, self.k, n) {
            self.part_start(Sort::Condition, self.k - n)
        } else {
            None
        }
    }

    // Where a statement's own parts start.
    #[tactic(auto, unfolding(laws::specs::Choice::pick))]
    fn statement_start(&self) -> Option<usize>
        ensures { start_of result ≡ statement_start self.now.scope.table.now self.now.from self.now.k self.now.node.kind }
    {
        match self.node.kind {
            Node::VALUE_MOVE => self.pair_start(Sort::ValueTarget, Sort::Expression, self.k),
            Node::ASSET_MOVE => self.move_start(self.k),
            Node::WHOLE_MOVE => self.pair_start(Sort::AssetTarget, Sort::Holder, self.k),
            Node::CONDITIONAL => self.conditional_start(),
            _ => None,
        }
    }

    // Whether an expression or a condition counts its parts, which start there, and itself.
    // Kept: (d) here and in `counts_block`: `is_some_and` in one line wants a lemma and an answer on what its closure says, these lines none.
    fn counts(&self, start: Option<usize>) -> bool
        requires { StartsBy (start_of start) self.now.k }
        ensures { result ≡ whole_from self.now.scope.table.now self.now.k (start_of start) }
    {
        let Some(p) = start else {
            return false;
        };
        self.node.size == self.k + 1 - p
    }

    // Whether the statements of a block that end before node p count n nodes.
    fn statements_before(&self, p: usize, n: usize) -> bool
        ensures { result ≡ statements_before self.now.scope.table.now self.now.from p n }
    {
        self.from < p && ends_whole(self.scope.table, Sort::Statement, p, n)
    }

    // Whether a statement counts its own parts, which start there, itself, and the statements before it in its block.
    fn counts_block(&self, start: Option<usize>) -> bool
        requires { StartsBy (start_of start) self.now.k }
        ensures { result ≡ statement_from self.now.scope.table.now self.now.from self.now.k (start_of start) }
    {
        let Some(p) = start else {
            return false;
        };
        let size = self.node.size;
        let own = self.k + 1 - p;
        if size <= own {
            return size == own;
        }
        self.statements_before(p, size - own)
    }

    // Whether a node with parts counts them.
    #[tactic(auto, using(crate::proofs::Parts::parts_by, crate::proofs::Parts::parts_one, crate::proofs::Parts::statement_by, crate::proofs::Parts::statement_is), unfolding(contract::specs::Check::whole_ok, contract::specs::Check::ranges, laws::specs::Choice::pick))]
    fn whole_ok(&self) -> bool
        ensures { result ≡ whole_ok self.now.scope.table.now self.now.from self.now.k self.now.node.kind }
    {
        match self.node.kind {
            Node::PLUS..=Node::OVER | Node::EQUAL..=Node::AT_LEAST => {
                self.counts(self.pair_start(Sort::Expression, Sort::Expression, self.k))
            }
            Node::NOT => self.counts(self.part_start(Sort::Condition, self.k)),
            Node::AND | Node::OR => {
                self.counts(self.pair_start(Sort::Condition, Sort::Condition, self.k))
            }
            _ => self.counts_block(self.statement_start()),
        }
    }

    // One more than count where this is a statement.
    #[tactic(auto, unfolding(laws::specs::Choice::pick))]
    fn counted(&self, count: usize) -> usize
        requires { count < 4096 }
        ensures { result ≡ pick (is_sort statement self.now.node.kind) (suc count) count }
    {
        if is_sort(Sort::Statement, self.node.kind) {
            count + 1
        } else {
            count
        }
    }

    #[tactic(auto, unfolding(contract::specs::Check::node_ok, laws::specs::Choice::pick))]
    fn is_ok(&self) -> bool
        ensures { result ≡ node_ok self.now.scope.table.now (scope_at self.now.scope.table.now self.now.scope.values self.now.scope.parameters) self.now.from self.now.k }
    {
        let node = self.node;
        if is_leaf(node.kind) {
            self.scope.leaf_ok(node.kind, node.argument) && node.size == 1
        } else {
            self.whole_ok()
        }
    }
}

impl Scope<'_> {
    // The n nodes from `from` on, each with its parts among them, and not too many statements.
    // Kept: (d) two numbers here, in `precondition_ok` and `body_ok`, three in `guarded_ok`, with a line that bounds them: a struct with the bound as a
    // ghost field was tried, and took 33 lines more: the struct, where its nodes end, and four lines at each of the calls that make one.
    // Kept: (d) a count goes on beside the index, and a node that fails ends both: by `try_fold` the count stands in an Option, to be opened again.
    pub(crate) fn nodes_ok(&self, from: usize, n: usize) -> bool
        requires { from + n ≤ 4096 }
        ensures { result ≡ nodes_ok self.now.table.now (scope_at self.now.table.now self.now.values self.now.parameters) from n }
    {
        let mut count: usize = 0;
        for j in 0..n {
            let here = NodeAt::of(*self, from, from + j);
            if !here.is_ok() {
                return false;
            }
            count = here.counted(count);
        }
        count <= Function::STATEMENTS
    }
}
