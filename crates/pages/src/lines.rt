// The lines of a page.
ghost use Rattle.std.specs.Prelude.{◌≡◌, true, ◌||◌, [], ◌++◌, ◌+◌, ◌-◌, ◌≤◌, ◌<◌, length, get_or, eqb};
ghost use Rattle.laws.specs.Bytes.{bytes};
ghost use Rattle.words.specs.Words.{spelled, line_end};
ghost use Rattle.contract.specs.Decode.{contract_of};
ghost use Rattle.printing.specs.Decimal.{decimal};
ghost use Rattle.printing.proofs.Writers.{Wrote, HasRoom};
ghost use Rattle.results.specs.Lines.{rule_name};
ghost use Rattle.pages.specs.Entries.{is_payout};
ghost use Rattle.pages.specs.Page.{right, left, line_of, blank_line, foot};
ghost use Rattle.pages.specs.Private.{entry_of, step_text, payee_text};

use crate::Sheet;
use crate::payouts::Entry;
use printing::Writer;
use results::Report;
use tables::Passed;

// A number at the right of 19 bytes.
#[inline(always)]
fn put_right(out: &mut Writer, n: u64)
    requires { HasRoom (length (right 19 (decimal n))) out.old }
    ensures written { Wrote out.old (right 19 (decimal n)) out.new }
    ensures same_buffer { out.new.buffer.ghost_name ≡ out.old.buffer.ghost_name }
{
    out.put_spaces(Sheet::AMOUNT.saturating_sub(printing::digit_count(n)));
    out.put_number(n);
}

// A fixed word at the left of 11 bytes.
fn put_column(out: &mut Writer, which: u8)
    requires { HasRoom (length (left 11 (spelled which))) out.old }
    ensures written { Wrote out.old (left 11 (spelled which)) out.new }
    ensures same_buffer { out.new.buffer.ghost_name ≡ out.old.buffer.ghost_name }
{
    out.put_word(which);
    out.put_spaces(Sheet::RULE.saturating_sub(words::word_length(which)));
}

// The name of a call's or a firing's rule at the left of 11 bytes.
// Kept: (b) by two numbers that are fixed here, so that the bytes and the length of a word stand in the instructions that store it (docs/DECISIONS.md,
// 90): by the number that `results::rule_word` gives a page of 60 payouts takes 8 to 10 per cent more instructions.
fn put_rule(out: &mut Writer, rule: u64)
    requires rule { (eqb rule 1 || eqb rule 2) ≡ true }
    requires room { HasRoom (length (left 11 (rule_name rule))) out.old }
    ensures written { Wrote out.old (left 11 (rule_name rule)) out.new }
    ensures same_buffer { out.new.buffer.ghost_name ≡ out.old.buffer.ghost_name }
{
    if rule == Report::CALL as u64 {
        put_column(out, words::FUNCTION);
    } else {
        put_column(out, words::EVENT_MATCH);
    }
}

// A party's name at the left of 32 bytes.
fn put_party(out: &mut Writer, terms: &Passed, party: usize)
    requires party { party < length (contract_of terms.now.table.now).parties }
    requires room { HasRoom (length (left 32 (get_or (contract_of terms.now.table.now).parties party []))) out.old }
    ensures written { Wrote out.old (left 32 (get_or (contract_of terms.now.table.now).parties party [])) out.new }
    ensures same_buffer { out.new.buffer.ghost_name ≡ out.old.buffer.ghost_name }
{
    let start = out.at;
    out.put_name(
        terms.table,
        contract::PARTIES + party * contract::NAME_WORDS,
    );
    let width = out.at - start;
    out.put_spaces(Sheet::PARTY.saturating_sub(width));
}

// Clock and rule, each with a space after it.
fn put_step(out: &mut Writer, clock: u64, rule: u64)
    requires rule { (eqb rule 1 || eqb rule 2) ≡ true }
    requires room { HasRoom (length (step_text clock rule)) out.old }
    ensures written { Wrote out.old (step_text clock rule) out.new }
    ensures same_buffer { out.new.buffer.ghost_name ≡ out.old.buffer.ghost_name }
{
    put_right(out, clock);
    out.put_word(words::SPACE);
    put_rule(out, rule);
    out.put_word(words::SPACE);
}

// Party, a space, the amount and LF.
fn put_payee(out: &mut Writer, terms: &Passed, party: usize, amount: u64)
    requires party { party < length (contract_of terms.now.table.now).parties }
    requires room { HasRoom (length (payee_text (contract_of terms.now.table.now) party amount)) out.old }
    ensures written { Wrote out.old (payee_text (contract_of terms.now.table.now) party amount) out.new }
    ensures same_buffer { out.new.buffer.ghost_name ≡ out.old.buffer.ghost_name }
{
    put_party(out, terms, party);
    out.put_word(words::SPACE);
    put_right(out, amount);
    out.put_word(words::LINE_END);
}

impl Entry {
    // Its line.
    pub(crate) fn put_line(self, out: &mut Writer, terms: &Passed)
        requires payout { is_payout (contract_of terms.now.table.now) (entry_of self) ≡ true }
        requires room { HasRoom (length (line_of (contract_of terms.now.table.now) (entry_of self))) out.old }
        ensures written { Wrote out.old (line_of (contract_of terms.now.table.now) (entry_of self)) out.new }
        ensures same_buffer { out.new.buffer.ghost_name ≡ out.old.buffer.ghost_name }
    {
        put_step(out, self.clock, self.rule);
        let amount = self.value.unsigned_abs();
        put_payee(out, terms, self.party as usize, amount);
    }
}

// A line without a payout.
pub(crate) fn put_blank(out: &mut Writer)
    requires { HasRoom 85 out.old }
    ensures written { Wrote out.old blank_line out.new }
    ensures same_buffer { out.new.buffer.ghost_name ≡ out.old.buffer.ghost_name }
{
    out.put_spaces(Sheet::LINE);
    out.put_word(words::LINE_END);
}

// How many payouts there are on the page.
pub(crate) fn put_foot(out: &mut Writer, n: usize)
    requires { (n < 100) × (HasRoom 85 out.old) }
    ensures written { Wrote out.old (foot n) out.new }
    ensures same_buffer { out.new.buffer.ghost_name ≡ out.old.buffer.ghost_name }
{
    out.put_spaces(Sheet::FOOT);
    out.put_byte(b'0' + (n / 10) as u8);
    out.put_byte(b'0' + (n % 10) as u8);
    out.put_word(words::LINE_END);
}
