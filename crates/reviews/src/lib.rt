// What the terms of a contract say before any session: the fields that a clause sets and no clause agrees on, the names of fields, the groups
// of assets and asset parameters, and how these are named.
#![tactic(auto)]

ghost use Rattle.std.specs.Prelude.{◌≡◌, ◌<◌, length};
ghost use Rattle.std.proofs.lemmas.List.Edits.{sets};
ghost use Rattle.contract.specs.Table.{word_at};
ghost use Rattle.contract.specs.Decode.{clause_at, contract_of};
ghost use Rattle.contract.specs.Rows.{said};
ghost use Rattle.reviews.specs.Private.{says};
ghost use Rattle.reviews.specs.Reviews.{is_in, names, never_agreed, field_name};
ghost use Rattle.reviews.specs.Holders.{holder_name, group_numbers};

use contract::{Contract, Verb};
use groups::Names;
use printing::Writer;
use tables::Passed;

mod holders;

// The limits of a review.
#[derive(Clone, Copy)]
pub struct Review {}

impl Review {
    // The bytes of an asset or an asset parameter as it is named there: four names, and eight bytes around them.
    pub const HOLDER: usize = 4 * Contract::NAME + 8;
}

// Whether clause i names field x.
fn clause_names(terms: &Passed, i: usize, x: usize) -> bool
    requires { i < word_at terms.now.table.now 5 }
    ensures { result ≡ is_in x (clause_at terms.now.table.now i).fields }
{
    let count = contract::clause_at(terms.table, i).fields;
    (0..count).any(|j| x == contract::clause_field(terms.table, i, j))
}

// Whether clause i has this verb and names field x.
fn says(terms: &Passed, verb: Verb, i: usize, x: usize) -> bool
    requires { i < word_at terms.now.table.now 5 }
    ensures { result ≡ says (said verb) x (clause_at terms.now.table.now i) }
{
    verb == contract::clause_at(terms.table, i).verb() && clause_names(terms, i, x)
}

// Whether a clause of this verb names field x.
fn named(terms: &Passed, verb: Verb, x: usize) -> bool
    ensures { result ≡ names (said verb) x (contract_of terms.now.table.now).clauses }
{
    let count = contract::head(terms.table).clauses;
    (0..count).any(|i| says(terms, verb, i, x))
}

// Whether a clause sets field x and no clause agrees on it; false for a table that does not pass.
#[tactic(auto, using(crate::proofs::Laws::never_told, crate::proofs::Laws::never_set, crate::proofs::Laws::never_refused), unfolding(laws::specs::Choice::pick))]
pub fn never_agreed(table: &[u64], x: usize) -> bool
    ensures { result ≡ never_agreed table.now x }
{
    let Some(terms) = Passed::of(table) else {
        return false;
    };
    named(&terms, Verb::Set, x) && !named(&terms, Verb::Ok, x)
}

// The name of field x comes to the front of the buffer; answers how many bytes it has. There is none for a table that does not pass, or
// past the last field.
// Kept: (d) the number is the name's length, and no bytes are the name of no field, as the definition has it: an Option would say that twice;
// (d) where the row of a name stands is worked out here, in `holders`, and wherever agreements, machine, tables, results, pages and trial_listing
// read one, each with a number below a count, so that nothing overflows: a function of `contract` for any number would have to say what it answers past the
// greatest place.
pub fn field_name(table: &[u64], x: usize, buffer: &mut [u8; Contract::NAME]) -> usize
    ensures value { result ≡ length (field_name table.now x) }
    ensures buffer_after { buffer.new ≡ sets buffer.old 0 (field_name table.now x) }
{
    if !tables::table_passes(table) || contract::head(table).fields <= x {
        return 0;
    }
    let mut out = Writer::new(buffer);
    out.put_name(table, contract::FIELDS + x * contract::NAME_WORDS);
    out.at
}

// The groups of the contract in a table; zeros for one that does not pass.
#[tactic(auto, unfolding(laws::specs::Choice::pick, crate::specs::Holders::group_numbers, laws::specs::Lists::repeated))]
pub fn group_numbers(table: &[u64]) -> [u16; Names::MOST]
    ensures { result ≡ group_numbers table.now }
{
    let Some(terms) = Passed::of(table) else {
        return [0; Names::MOST];
    };
    groups::groups_of(&terms)
}

// The asset or asset parameter with number k comes to the front of the buffer, as `--review` names it; answers how many bytes that has. There
// is none for a table that does not pass, or for a number that is no name's.
pub fn holder_name(table: &[u64], k: usize, buffer: &mut [u8; Review::HOLDER]) -> usize
    ensures value { result ≡ length (holder_name table.now k) }
    ensures buffer_after { buffer.new ≡ sets buffer.old 0 (holder_name table.now k) }
{
    let Some(terms) = Passed::of(table) else {
        return 0;
    };
    if !groups::numbers_name(&terms, k) {
        return 0;
    }
    let mut out = Writer::new(buffer);
    holders::put_holder(&mut out, &terms, k);
    out.at
}
