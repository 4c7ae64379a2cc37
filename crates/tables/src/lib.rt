// Question 3: whether a table is one that reading could have written, as docs/TABLE.md says.
#![tactic(auto)]

ghost use Rattle.std.specs.Prelude.{◌≡◌, ◌+◌, true, ◌&&◌, ltb};
ghost use Rattle.contract.specs.Table.{word_at, clause_word};
ghost use Rattle.contract.specs.Check.{head_ok, names_ok, clause_ok, clause_below, passes};
ghost use Rattle.laws.specs.Lists.{all_below};

use contract::{Contract, Verb, clause_at, clause_field, head};

// The words of a table.
type Table = [u64; Contract::TABLE];

mod functions;
mod names;
mod nodes;

#[tactic(auto, unfolding(contract::specs::Check::head_ok))]
fn head_ok(table: &Table) -> bool
    ensures { result ≡ head_ok table.now }
{
    let h = head(table);
    h.parties <= Contract::PARTIES
        && h.assets <= Contract::ASSETS
        && h.fields <= Contract::FIELDS
        && h.states <= Contract::STATES
        && h.strings <= Contract::STRINGS
        && h.clauses <= Contract::CLAUSES
        && h.functions <= Contract::FUNCTIONS
        && h.events <= Contract::EVENTS
        && h.nodes <= Contract::NODES
        && h.initial < h.states
}

fn clause_fields_ok(table: &Table, i: usize, n: usize) -> bool
    ensures { result ≡ all_below n (λ j. ltb (clause_word table.now i (3 + j)) (word_at table.now 2)) }
{
    let fields = head(table).fields;
    (0..n).all(|j| clause_field(table, i, j) < fields)
}

#[tactic(auto, unfolding(contract::specs::Check::clause_ok))]
fn clause_ok(table: &Table, i: usize) -> bool
    ensures { result ≡ clause_ok table.now i }
{
    let c = clause_at(table, i);
    c.party < head(table).parties
        && c.verb <= Verb::Ok as usize
        && c.fields <= Contract::FIELDS
        && clause_fields_ok(table, i, c.fields)
}

fn clauses_ok(table: &Table, count: usize) -> bool
    ensures { result ≡ all_below count (clause_ok table.now) }
{
    (0..count).all(|i| clause_ok(table, i))
}

// Whether some of the first n clauses is of a party.
fn has_clause(table: &Table, n: usize, party: usize) -> bool
    ensures { result ≡ clause_below table.now n party }
{
    (0..n).any(|i| clause_at(table, i).party == party)
}

// Whether each party has a clause.
fn parties_heard(table: &Table, parties: usize, clauses: usize) -> bool
    ensures { result ≡ all_below parties (clause_below table.now clauses) }
{
    (0..parties).all(|p| has_clause(table, clauses, p))
}

// The contract's name, and those of its parties, assets, fields and states; its strings.
#[tactic(auto, unfolding(contract::specs::Check::names_ok))]
fn words_ok(table: &Table) -> bool
    requires { head_ok table.now ≡ true }
    ensures { result ≡ names_ok table.now }
{
    let h = head(table);
    names::name_ok(table, contract::NAME)
        && names::names_ok(table, contract::PARTIES, h.parties)
        && names::names_ok(table, contract::ASSETS, h.assets)
        && names::names_ok(table, contract::FIELDS, h.fields)
        && names::names_ok(table, contract::STATES, h.states)
        && names::strings_ok(table, h.strings)
}

// The clauses, and that each party has one.
fn clauses_pass(table: &Table) -> bool
    ensures { result ≡ (all_below (word_at table.now 5) (clause_ok table.now) && all_below (word_at table.now 0) (clause_below table.now (word_at table.now 5))) }
{
    let h = head(table);
    clauses_ok(table, h.clauses) && parties_heard(table, h.parties, h.clauses)
}

// Whether a table of full length passes.
#[tactic(auto, using(crate::proofs::Checked::functions_most, crate::proofs::Checked::nodes_most, laws::proofs::Truths::both_left, crate::proofs::Checked::and_assoc), unfolding(contract::specs::Check::passes))]
fn whole_passes(table: &Table) -> bool
    ensures { result ≡ passes table.now }
{
    head_ok(table)
        && words_ok(table)
        && clauses_pass(table)
        && functions::functions_ok(table)
        && functions::all_parameters_ok(table)
}

// Question 3: whether a table passes the check of docs/TABLE.md.
#[tactic(auto, unfolding(contract::specs::Check::passes))]
pub fn table_passes(table: &[u64]) -> bool
    ensures { result ≡ passes table.now }
{
    table.as_array().is_some_and(whole_passes)
}

// A table that passes.
#[derive(Clone, Copy)]
pub struct Passed<'a> {
    pub table: &'a [u64],
    pub ghost whole: { passes table.now ≡ true },
}

impl<'a> Passed<'a> {
    ghost use Rattle.tables.specs.Passing.{passing, held};

    // The table, if it passes question 3.
    #[tactic(auto, unfolding(laws::specs::Choice::pick))]
    pub fn of(table: &'a [u64]) -> Option<Passed<'a>>
        ensures { held result ≡ passing table.now }
    {
        if table_passes(table) {
            Some(Passed { table })
        } else {
            None
        }
    }
}
