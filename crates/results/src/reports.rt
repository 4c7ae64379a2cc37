// Which numbers a report may hold, and the line of a report that is in range.
ghost use Rattle.std.specs.Prelude.{◌≡◌, ◌++◌};
ghost use Rattle.laws.specs.Bytes.{bytes};
ghost use Rattle.words.specs.Words.{spelled, event_match, line_end};
ghost use Rattle.contract.specs.Decode.{contract_of};
ghost use Rattle.contract.specs.Check.{ranges};
ghost use Rattle.printing.specs.Pieces.{put, place_after};
ghost use Rattle.printing.proofs.Writers.{Wrote, HasRoom};
ghost use Rattle.results.specs.Lines.{value_ok, refusal, text_refusal, report_ok, rule_name, value_text, arrow, refused_text, line_of};
ghost use Rattle.results.specs.Private.{Ready, ReadyValue, PutLine, WroteLine};
ghost use Rattle.results.specs.declared.Report.TheVariants.{Ruled, Sent, Held};

use crate::Report;
use contract::{Contract, TableHead};
use printing::Writer;
use tables::Passed;

// Whether a number is one of those from `lo` to `hi`.
#[tactic(auto, unfolding(contract::specs::Check::ranges))]
fn is_within(lo: u8, n: u8, hi: u8) -> bool
    ensures { result ≡ ranges lo n hi }
{
    (lo <= n) & (n <= hi)
}

// The kinds of a label.
#[tactic(auto, unfolding(contract::specs::Check::ranges))]
fn is_kind(n: u8) -> bool
    ensures { result ≡ ranges 1 n 3 }
{
    matches!(n, Report::INTEGER..=Report::ASSET)
}

// The numbers of the questions that refuse a step or a session line.
// Kept: (d) ranges of the documents' numbers, here, below and of a failed firing, as the definitions have them: by name they are lists of 26,
// 13 and 7 questions, and a report's number would be looked up among all 43 first. (b) Of a refusal each test is asked, whatever the one before it
// says: by one `matches!` question 51 takes 22 instructions for 9.
fn is_refusal(n: u8) -> bool
    ensures { result ≡ refusal n }
{
    (n == 3)
        | ((n == 4)
            | (is_within(20, n, 37) | (is_within(39, n, 41) | (is_within(50, n, 51) | (n == 62)))))
}

// The numbers of those that refuse a text.
#[tactic(auto, unfolding(crate::specs::Lines::text_refusal, contract::specs::Check::ranges))]
pub(crate) fn is_text_refusal(n: u8) -> bool
    ensures { result ≡ text_refusal n }
{
    matches!(n, 1 | 2 | 5..=15)
}

// The numbers of those that a firing can fail at.
#[tactic(auto, unfolding(contract::specs::Check::ranges))]
fn is_failure(n: u8) -> bool
    ensures { result ≡ ranges 30 n 36 }
{
    matches!(n, 30..=36)
}

// Whether a label of a kind may have a value.
// Kept: (d) no conversion: a test for each kind.
fn value_ok(table: &[u64], kind: u8, value: i64) -> bool
    ensures { result ≡ value_ok (contract_of table.now) kind value }
{
    match kind {
        Report::INTEGER => true,
        _ if value < 0 => false,
        Report::STRING => value.unsigned_abs() < contract::word(table, TableHead::STRINGS),
        _ => true,
    }
}

// Question 53.
pub(crate) fn report_ok(table: &[u64], report: Report) -> bool
    ensures { result ≡ report_ok (contract_of table.now) report }
{
    match report {
        Report::Ruled(rule, state, clock) => {
            rule <= Report::TICK
                && (state as u64) < contract::word(table, TableHead::STATES)
                && clock <= Contract::TOP
        }
        Report::Sent(kind, party, value, _) => {
            is_kind(kind)
                && (party as u64) < contract::word(table, TableHead::PARTIES)
                && value_ok(table, kind, value)
        }
        Report::Held(asset, amount) => {
            (asset as u64) < contract::word(table, TableHead::ASSETS) && amount <= Contract::TOP
        }
        Report::Refused(n) => is_refusal(n),
        Report::Failed(n) => is_failure(n),
    }
}

// `refused` and a number. Inlined, as `put_refusal`: a session of 10,000 refused calls takes 37,446,310 instructions of the
// proved desk, and 37,589,793 where neither is.
// Kept: (a) the number as the report has it, here and below: question 53 or its caller's test has passed it, and any is printed.
#[inline(always)]
pub(crate) fn put_refused(out: &mut Writer, n: u8)
    requires { HasRoom 28 out.old }
    ensures written { Wrote out.old (refused_text n) out.new }
    ensures same_buffer { out.new.buffer.ghost_name ≡ out.old.buffer.ghost_name }
{
    out.put_word(words::REFUSED);
    out.put_word(words::SPACE);
    out.put_number(n as u64);
}

// The word that a rule is called by.
// Kept: (d) a rule and a word are numbers both, as the public report and the table of words have them, so there is no type to convert from
// or to: the match is the list of the four rules' words.
#[tactic(auto, unfolding(crate::specs::Lines::rule_name, laws::specs::Choice::pick))]
pub fn rule_word(rule: u8) -> u8
    ensures { spelled result ≡ rule_name rule }
{
    match rule {
        Report::AGREEMENT => words::AGREE,
        Report::CALL => words::FUNCTION,
        Report::FIRING => words::EVENT_MATCH,
        _ => words::TICK,
    }
}

// The name of a rule.
// Kept: (b) each rule's word by its own number, here and of an arrow, and not by what `rule_word` gives: the bytes are then known where they are
// put. By the number alone a copy of any length is called: 29 instructions more a label, of 175.
#[tactic(auto, unfolding(crate::specs::Lines::rule_name, laws::specs::Choice::pick))]
fn put_rule_name(out: &mut Writer, rule: u8)
    ensures place { out.new.at ≡ place_after out.old.buffer.now out.old.at (rule_name rule) }
    ensures bytes { out.new.buffer.now ≡ put out.old.buffer.now out.old.at (rule_name rule) }
    ensures same_buffer { out.new.buffer.ghost_name ≡ out.old.buffer.ghost_name }
{
    match rule {
        Report::AGREEMENT => out.put_word(words::AGREE),
        Report::CALL => out.put_word(words::FUNCTION),
        Report::FIRING => out.put_word(words::EVENT_MATCH),
        _ => out.put_word(words::TICK),
    }
}

// The name of a rule in its brackets, and a space.
fn put_rule(out: &mut Writer, rule: u8)
    requires { HasRoom 14 out.old }
    ensures written { Wrote out.old (bytes "[" ++ (rule_name rule ++ bytes "] ")) out.new }
    ensures same_buffer { out.new.buffer.ghost_name ≡ out.old.buffer.ghost_name }
{
    out.put_word(words::OPEN_BRACKET);
    put_rule_name(out, rule);
    out.put_word(words::CLOSE_BRACKET);
    out.put_word(words::SPACE);
}

// Kept: (c) the writer and the terms beside each other, here and below: with both in a struct (tried, with these as its methods) each contract has one
// clause more, and where the writer is made `search` finds no proof that the buffer is again what that writer, a field of a local, has in it.
fn put_ruled(out: &mut Writer, terms: &Passed, rule: u8, state: usize, clock: u64)
    requires { Ready terms.now.table.now (Ruled rule state clock) out.old.buffer.now out.old.at }
    ensures written { WroteLine out.old (line_of (contract_of terms.now.table.now) (Ruled rule state clock)) out.new }
    ensures same_buffer { out.new.buffer.ghost_name ≡ out.old.buffer.ghost_name }
{
    put_rule(out, rule);
    out.put_name(terms.table, contract::STATES + state * contract::NAME_WORDS);
    out.put_word(words::COMMA);
    out.put_word(words::SPACE);
    out.put_number(clock);
    out.put_word(words::LINE_END);
}

// A label's value.
fn put_value(out: &mut Writer, terms: &Passed, kind: u8, value: i64)
    requires { ReadyValue terms.now.table.now kind value out.old.buffer.now out.old.at }
    ensures written { Wrote out.old (value_text (contract_of terms.now.table.now) kind value) out.new }
    ensures same_buffer { out.new.buffer.ghost_name ≡ out.old.buffer.ghost_name }
{
    if kind == Report::STRING {
        let row = contract::STRINGS + (value.unsigned_abs() as usize) * contract::STRING_WORDS;
        out.put_word(words::QUOTE);
        out.put_name(terms.table, row);
        out.put_word(words::QUOTE);
    } else {
        out.put_integer(value);
    }
}

// A label's arrow.
// Kept: (d) the arrow's two words are two numbers of the table of words: no type has these two values, and the if says both.
#[tactic(auto, unfolding(crate::specs::Lines::arrow, laws::specs::Choice::pick))]
fn put_mark(out: &mut Writer, kind: u8)
    ensures place { out.new.at ≡ place_after out.old.buffer.now out.old.at (arrow kind) }
    ensures bytes { out.new.buffer.now ≡ put out.old.buffer.now out.old.at (arrow kind) }
    ensures same_buffer { out.new.buffer.ghost_name ≡ out.old.buffer.ghost_name }
{
    if kind == Report::ASSET {
        out.put_word(words::ASSET_ARROW);
    } else {
        out.put_word(words::VALUE_ARROW);
    }
}

// The arrow of a label, between spaces.
fn put_arrow(out: &mut Writer, kind: u8)
    requires { HasRoom 4 out.old }
    ensures written { Wrote out.old (bytes " " ++ (arrow kind ++ bytes " ")) out.new }
    ensures same_buffer { out.new.buffer.ghost_name ≡ out.old.buffer.ghost_name }
{
    out.put_word(words::SPACE);
    put_mark(out, kind);
    out.put_word(words::SPACE);
}

fn put_sent(out: &mut Writer, terms: &Passed, kind: u8, party: usize, value: i64)
    requires { Ready terms.now.table.now (Sent kind party value 0) out.old.buffer.now out.old.at }
    ensures written { WroteLine out.old (line_of (contract_of terms.now.table.now) (Sent kind party value 0)) out.new }
    ensures same_buffer { out.new.buffer.ghost_name ≡ out.old.buffer.ghost_name }
{
    put_value(out, terms, kind, value);
    put_arrow(out, kind);
    out.put_name(
        terms.table,
        contract::PARTIES + party * contract::NAME_WORDS,
    );
    out.put_word(words::LINE_END);
}

fn put_held(out: &mut Writer, terms: &Passed, asset: usize, amount: u64)
    requires { Ready terms.now.table.now (Held asset amount) out.old.buffer.now out.old.at }
    ensures written { WroteLine out.old (line_of (contract_of terms.now.table.now) (Held asset amount)) out.new }
    ensures same_buffer { out.new.buffer.ghost_name ≡ out.old.buffer.ghost_name }
{
    out.put_name(terms.table, contract::ASSETS + asset * contract::NAME_WORDS);
    out.put_word(words::SPACE);
    out.put_word(words::EQUALS);
    out.put_word(words::SPACE);
    out.put_number(amount);
    out.put_word(words::LINE_END);
}

#[inline(always)]
fn put_refusal(out: &mut Writer, n: u8)
    requires { HasRoom 128 out.old }
    ensures written { WroteLine out.old (refused_text n ++ spelled line_end) out.new }
    ensures same_buffer { out.new.buffer.ghost_name ≡ out.old.buffer.ghost_name }
{
    put_refused(out, n);
    out.put_word(words::LINE_END);
}

fn put_failed(out: &mut Writer, n: u8)
    requires { HasRoom 128 out.old }
    ensures written { WroteLine out.old (bytes "[" ++ (spelled event_match ++ (bytes "] " ++ (refused_text n ++ spelled line_end)))) out.new }
    ensures same_buffer { out.new.buffer.ghost_name ≡ out.old.buffer.ghost_name }
{
    put_rule(out, Report::FIRING);
    put_refused(out, n);
    out.put_word(words::LINE_END);
}

// The line of a report.
fn put_line(out: &mut Writer, terms: &Passed, report: Report)
    requires { Ready terms.now.table.now report out.old.buffer.now out.old.at }
    ensures written { WroteLine out.old (line_of (contract_of terms.now.table.now) report) out.new }
    ensures same_buffer { out.new.buffer.ghost_name ≡ out.old.buffer.ghost_name }
{
    match report {
        Report::Ruled(rule, state, clock) => put_ruled(out, terms, rule, state, clock),
        Report::Sent(kind, party, value, _) => put_sent(out, terms, kind, party, value),
        Report::Held(asset, amount) => put_held(out, terms, asset, amount),
        Report::Refused(n) => put_refusal(out, n),
        Report::Failed(n) => put_failed(out, n),
    }
}

// The same from a buffer's start on; how many bytes it has.
pub(crate) fn write_line(terms: &Passed, report: Report, buffer: &mut [u8]) -> usize
    requires { Ready terms.now.table.now report buffer.old 0 }
    ensures { PutLine buffer.old 0 (line_of (contract_of terms.now.table.now) report) result buffer.new }
{
    let mut out = Writer::new(buffer);
    put_line(&mut out, terms, report);
    out.at
}
