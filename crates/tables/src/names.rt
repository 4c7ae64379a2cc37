// Names and strings of a table: their bytes, and rows of them.
ghost use Rattle.std.specs.Prelude.{◌≡◌, ◌+◌, ◌*◌, ◌≤◌};
ghost use Rattle.tokens.specs.Classes.{is_letter, is_name_byte, is_string_byte};
ghost use Rattle.contract.specs.Table.{word_at, parameters_start};
ghost use Rattle.contract.specs.Decode.{packed_byte};
ghost use Rattle.contract.specs.Check.{name_ok, string_ok, packed_ok};
ghost use Rattle.laws.specs.Lists.{all_below};

use crate::Table;
use contract::{Contract, bytes_at, packed_byte, packed_length, word};

// The longest name, and the longest string.
const NAME: u64 = Contract::NAME as u64;

const STRING: u64 = Contract::STRING as u64;

// The first and the last lowercase letter: most bytes of names are, so that they are asked first.
const LOWER_A: u64 = b'a' as u64;

const LOWER_Z: u64 = b'z' as u64;

// Kept: (d) here and below one line over a byte's test: one function for the three would take the test as a closure, and with it clauses on where that
// may be called, on what it answers, and that a word above 255 fails it.
#[tactic(auto, unfolding(tokens::specs::Classes::is_letter, tokens::specs::Classes::within, laws::specs::Choice::pick))]
fn is_letter(w: u64) -> bool
    ensures { result ≡ is_letter w }
{
    u8::try_from(w).is_ok_and(tokens::is_letter)
}

#[tactic(auto, unfolding(tokens::specs::Classes::is_name_byte, tokens::specs::Classes::is_letter, tokens::specs::Classes::is_digit, tokens::specs::Classes::within, laws::specs::Choice::pick))]
fn is_name_byte(w: u64) -> bool
    ensures { result ≡ is_name_byte w }
{
    matches!(w, LOWER_A..=LOWER_Z) || u8::try_from(w).is_ok_and(tokens::is_name_byte)
}

#[tactic(auto, unfolding(tokens::specs::Classes::is_string_byte, tokens::specs::Classes::is_printable, tokens::specs::Classes::within, laws::specs::Choice::pick))]
fn is_string_byte(w: u64) -> bool
    ensures { result ≡ is_string_byte w }
{
    u8::try_from(w).is_ok_and(tokens::is_string_byte)
}

// A name of 1 to 32 bytes, its length at o.
#[tactic(auto, unfolding(contract::specs::Check::name_ok, contract::specs::Check::ranges))]
pub(crate) fn name_ok(table: &Table, o: usize) -> bool
    requires { o + 33 ≤ 24659 }
    ensures { result ≡ name_ok table.now o }
{
    let [first, others @ ..] = bytes_at(table, o) else {
        return false;
    };
    word(table, o) <= NAME && is_letter(*first) && others.iter().all(|w| is_name_byte(*w))
}

// A name of 1 to 32 bytes in row i of the parameters.
// Kept: (d) the tests of `name_ok`, of bytes that stand eight in a word: a packed name is no slice, and one function for both would take its bytes as
// an iterator, and with it clauses on what that gives.
#[tactic(auto, using(crate::proofs::Packed::packed_is), unfolding(contract::specs::Check::ranges))]
pub(crate) fn packed_ok(table: &Table, i: usize) -> bool
    ensures { result ≡ packed_ok table.now (parameters_start + i * 5) }
{
    let n = packed_length(table, i);
    matches!(n, 1..=NAME)
        && tokens::is_letter(packed_byte(table, i, 0))
        && (1..n as usize).all(|j| tokens::is_name_byte(packed_byte(table, i, j)))
}

// A string of up to 64 bytes, its length at o.
#[tactic(auto, unfolding(contract::specs::Check::string_ok))]
fn string_ok(table: &Table, o: usize) -> bool
    requires { o + 65 ≤ 24659 }
    ensures { result ≡ string_ok table.now o }
{
    word(table, o) <= STRING && bytes_at(table, o).iter().all(|w| is_string_byte(*w))
}

// The names of a section of count rows.
pub(crate) fn names_ok(table: &Table, start: usize, count: usize) -> bool
    requires { (start ≤ 2947) × (count ≤ 32) }
    ensures { result ≡ all_below count (λ i. name_ok table.now (start + i * 33)) }
{
    (0..count).all(|i| name_ok(table, start + i * contract::NAME_WORDS))
}

// Kept: (d) one chain as `names_ok`: one function for both would take the row's test as a closure, and with it a clause on what that answers.
pub(crate) fn strings_ok(table: &Table, count: usize) -> bool
    requires { count ≤ 32 }
    ensures { result ≡ all_below count (λ i. string_ok table.now (2947 + i * 65)) }
{
    (0..count).all(|i| string_ok(table, contract::STRINGS + i * contract::STRING_WORDS))
}
