// Expressions, conditions and statements, which stand in a table with their parts before them.
ghost use Rattle.std.specs.Prelude.{◌≤◌, IfSome};

use crate::listing::Listed;
use crate::pieces::{Listing, Parameters, Put, Section};
use contract::{Contract, Node};

// ---- expressions and conditions

// How tightly a kind of node binds: || least, then &&, ~, comparisons, + and -, * and /, and what has no parts most. The right part of an
// operator must bind more than the operator, since those of one rank go left to right: its least rank is the odd number from the operator's on.
// Of ~ in a row each may be the part of another.
// Kept: (d) this and the next two say how a node of each kind is printed. Kinds and words are numbers of the crates `contract` and `words`, so
// a `From` would be one from any number to a rank, a word or a section, and would not say which of them it is. Ranks are numbers, since the odd
// one after a rank says `more than this`, which no variant of an enum would.
fn rank_of(kind: u64) -> u8 {
    match kind {
        Node::OR => 2,
        Node::AND => 4,
        Node::NOT => 5,
        Node::EQUAL..=Node::AT_LEAST => 6,
        Node::PLUS | Node::MINUS => 8,
        Node::TIMES | Node::OVER => 10,
        _ => LEAF,
    }
}

const LEAF: u8 = 12;

// The fixed word of a kind.
// Kept: (d) the reason at `rank_of`.
fn word_of(kind: u64) -> u8 {
    match kind {
        Node::NOW => words::NOW,
        Node::PLUS => words::PLUS,
        Node::MINUS => words::MINUS,
        Node::TIMES => words::TIMES,
        Node::OVER => words::OVER,
        Node::TRUE => words::TRUE,
        Node::FALSE => words::FALSE,
        Node::EQUAL => words::EQUAL,
        Node::UNEQUAL => words::UNEQUAL,
        Node::LESS => words::LESS,
        Node::AT_MOST => words::AT_MOST,
        Node::GREATER => words::GREATER,
        Node::AT_LEAST => words::AT_LEAST,
        Node::AND => words::AND,
        Node::OR => words::OR,
        Node::VALUE_MOVE => words::VALUE_ARROW,
        _ => words::ASSET_ARROW,
    }
}

// The section of the names of a kind.
// Kept: (d) the reason at `rank_of`.
fn section_of(kind: u64) -> Section {
    match kind {
        Node::FIELD => Section::Fields,
        Node::ASSET => Section::Assets,
        _ => Section::Parties,
    }
}

// The depth of a handler's statements, and of those inside as many conditionals as there are levels.
const HANDLER: usize = 3;

const DEEPEST: usize = HANDLER + Contract::LEVELS;

impl Listing<'_> {
    // ---- nodes

    fn kind_at(&self, k: usize) -> u64 {
        contract::node_at(self.table, k).kind
    }

    // Where the nodes start of what ends before node `end`.
    fn start_of(&self, end: usize) -> usize
        ensures { result ≤ end }
    {
        let node = contract::node_at(self.table, end.saturating_sub(1));
        end.saturating_sub(node.size)
    }

    // Where the left part of node k, which has parts, ends: ~ has none.
    fn left_of(&self, k: usize) -> Option<usize>
        ensures { IfSome result (λ end. end ≤ k) }
    {
        match self.kind_at(k) {
            Node::NOT => None,
            _ => Some(self.start_of(k)),
        }
    }

    // Where the first part of the statement or event at node k ends: before its block or its handler, before its source and its target, or
    // before its target.
    fn first_of(&self, k: usize) -> usize
        ensures { result ≤ k }
    {
        let node = contract::node_at(self.table, k);
        match node.kind {
            Node::CONDITIONAL | Node::EVENT => k.saturating_sub(node.argument as usize),
            Node::ASSET_MOVE => k.saturating_sub(2),
            _ => k.saturating_sub(1),
        }
    }

    // ---- operators, marks and braces

    // The operator at node k.
    fn put_operator(&mut self, k: usize) -> Put {
        let kind = self.kind_at(k);
        if kind == Node::NOT {
            return self.put_word(words::NOT);
        }
        self.put_between(word_of(kind))
    }

    // A parenthesis, where it is needed.
    fn put_mark(&mut self, needed: bool, which: u8) -> Put {
        if needed {
            self.put_word(which)?;
        }
        Ok(())
    }

    // The brace that ends a block: on the same line if the block is empty.
    pub(crate) fn put_close(&mut self, empty: bool, depth: usize) -> Put {
        if empty {
            return self.put_apart(words::CLOSE_BRACE);
        }
        self.put_line(depth)?;
        self.put_word(words::CLOSE_BRACE)
    }

    // } => @Q
    pub(crate) fn put_end(&mut self, empty: bool, depth: usize, state: usize) -> Put {
        self.put_close(empty, depth)?;
        self.put_between(words::STATE_ARROW)?;
        self.put_state(state)
    }
}

impl Listed<'_, '_> {
    // Node k, which has no parts: a name, a constant, a string or a word.
    fn put_leaf(&mut self, k: usize) -> Put {
        let node = contract::node_at(self.out.table, k);
        let i = node.argument as usize;
        match node.kind {
            Node::CONSTANT => self.out.put_number(node.argument),
            Node::STRING => self.out.put_string(i),
            Node::VALUE => self.out.put_parameter(self.f, Parameters::Values, i),
            Node::PARAMETER => self.out.put_parameter(self.f, Parameters::Assets, i),
            Node::NOW | Node::TRUE | Node::FALSE => self.out.put_word(word_of(node.kind)),
            _ => self.out.put_name(section_of(node.kind), i),
        }
    }

    // The expression or condition that ends before node `end`, in parentheses if its rank is below the least.
    fn put_term(&mut self, end: usize, least: u8) -> Put {
        let Some(k) = end.checked_sub(1) else {
            return Ok(());
        };
        let rank = rank_of(self.out.kind_at(k));
        if rank == LEAF {
            return self.put_leaf(k);
        }
        self.out.put_mark(rank < least, words::OPEN_PAREN)?;
        if let Some(left) = self.out.left_of(k) {
            self.put_term(left, rank)?;
        }
        self.out.put_operator(k)?;
        self.put_term(k, rank | 1)?;
        self.out.put_mark(rank < least, words::CLOSE_PAREN)
    }

    // (B), B ending before node `end`.
    pub(crate) fn put_test(&mut self, end: usize) -> Put {
        self.out.put_word(words::OPEN_PAREN)?;
        self.put_term(end, 0)?;
        self.out.put_word(words::CLOSE_PAREN)
    }

    // ---- statements

    // The statement at node k, no conditional, whose first part ends before node `end`; the nodes from there up to k have no parts: a target, or
    // a source and a target.
    fn put_move(&mut self, end: usize, k: usize) -> Put {
        self.put_term(end, 0)?;
        self.out.put_operator(k)?;
        for (i, leaf) in (end..k).enumerate() {
            self.out.put_comma(i)?;
            self.put_leaf(leaf)?;
        }
        Ok(())
    }

    // The statements at the nodes from `first` up to, not including, `end`, each on a line. No text has one below DEEPEST.
    pub(crate) fn put_block(&mut self, first: usize, end: usize, depth: usize) -> Put {
        if end <= first {
            return Ok(());
        }
        let k = end - 1;
        let part = self.out.first_of(k);
        let before = self.out.start_of(part);
        self.put_block(first, before, depth)?;
        self.out.put_line(depth)?;
        if self.out.kind_at(k) == Node::CONDITIONAL {
            self.put_test(part)?;
            self.out.put_apart(words::OPEN_BRACE)?;
            self.put_block(part, k, depth % DEEPEST + 1)?;
            return self.out.put_close(part == k, depth);
        }
        self.put_move(part, k)
    }

    // ---- events

    // E >> @Q {, E ending before node `end`.
    fn put_guard(&mut self, end: usize, state: usize) -> Put {
        self.out.put_line(2)?;
        self.put_term(end, 0)?;
        self.out.put_between(words::EVENT_MARK)?;
        self.out.put_state(state)?;
        self.out.put_apart(words::OPEN_BRACE)
    }

    // Event i, one of its own.
    pub(crate) fn put_event(&mut self, i: usize) -> Put {
        let event = contract::event_at(self.out.table, i);
        let k = event.node;
        let handler = self.out.first_of(k);
        self.put_guard(handler, event.state)?;
        self.put_block(handler, k, HANDLER)?;
        self.out.put_end(handler == k, 2, event.last)
    }
}
