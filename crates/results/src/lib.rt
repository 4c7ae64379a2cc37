// The lines that the desk prints, written into a lent buffer.
#![tactic(auto)]

ghost use Rattle.std.specs.Prelude.{◌≡◌, ◌-◌, length};
ghost use Rattle.contract.specs.Decode.{contract_of};
ghost use Rattle.results.specs.Coded.{coded, integer_of, report_of, reports_from};
ghost use Rattle.results.specs.Results.{written, text_written, buffer_after, text_buffer_after, batch, batch_after};

use many::Coded;
use printing::Writer;
use questions::Question;
use tables::Passed;

mod many;
mod reports;

pub use many::report_at;
pub use reports::rule_word;

// A line that the desk prints.
// Kept: (a) the numbers of a lent buffer give it (`write_batch`), and question 53 judges each, so that a wrong one has to be sayable.
#[derive(Clone, Copy)]
pub enum Report {
    // A rule, and the state's number and the clock after it.
    Ruled(u8, usize, u64),
    // A label: its kind, its party, its value and its source's group, which is not printed.
    Sent(u8, usize, i64, u64),
    // An asset and its amount.
    Held(usize, u64),
    // The number of the question that refused.
    Refused(u8),
    // The number of the question that a failed firing met.
    Failed(u8),
}

// Kept: (a) rules and kinds of labels are numbers here and in what stands on it, as those of a report: question 53 judges them.
impl Report {
    // The rules of a line: an agreement, a call, a firing, a tick or a jump.
    pub const AGREEMENT: u8 = 0;

    pub const CALL: u8 = 1;

    pub const FIRING: u8 = 2;

    pub const TICK: u8 = 3;

    // The kinds of a label, the same numbers as `statements::Label` has them: no crate is below both that knows of labels.
    pub const INTEGER: u8 = 1;

    pub const STRING: u8 = 2;

    pub const ASSET: u8 = 3;

    // What a report is, as the first of its numbers says.
    pub const RULED: u64 = 1;

    pub const SENT: u64 = 2;

    pub const HELD: u64 = 3;

    pub const REFUSED: u64 = 4;

    pub const FAILED: u64 = 5;

    // The bytes that a buffer must have for a line.
    pub const ROOM: usize = 128;
    // The numbers of a coded report, beside its integer.
    pub const WORDS: usize = 4;

    // Its numbers, by which many are handed on at once: the first tells which it is, and those that it does not need are 0.
    #[inline(always)]
    pub fn numbers(self) -> [u64; Report::WORDS]
        ensures { result ≡ coded self }
    {
        match self {
            Report::Ruled(rule, state, clock) => [Report::RULED, rule as u64, state as u64, clock],
            Report::Sent(kind, party, _, group) => {
                [Report::SENT, kind as u64, party as u64, group]
            }
            Report::Held(asset, amount) => [Report::HELD, asset as u64, amount, 0],
            Report::Refused(number) => [Report::REFUSED, number as u64, 0, 0],
            Report::Failed(number) => [Report::FAILED, number as u64, 0, 0],
        }
    }

    // Its integer: a label's value, else 0.
    // Kept: (d) no From, here and of the four numbers: a report is neither alone, and those that it does not need are left out.
    #[inline(always)]
    pub fn integer(self) -> i64
        ensures { result ≡ integer_of self }
    {
        match self {
            Report::Sent(_, _, value, _) => value,
            _ => 0,
        }
    }

    // The report of four numbers and an integer; none where the first tells none, or the second is more than a byte.
    // Kept: (b) a test and a cast: by `u8::try_from` a line, whose report is read twice, takes 3 to 5 instructions more, of 95 to 160 (a refusal's one less).
    #[tactic(auto, unfolding(crate::specs::Coded::report_from, laws::specs::Choice::pick))]
    pub fn from_numbers(numbers: [u64; Report::WORDS], integer: i64) -> Option<Report>
        ensures { result ≡ report_of numbers integer }
    {
        let [which, a, b, c] = numbers;
        if a > u8::MAX as u64 {
            return None;
        }
        let first = a as u8;
        match which {
            Report::RULED => Some(Report::Ruled(first, b as usize, c)),
            Report::SENT => Some(Report::Sent(first, b as usize, integer, c)),
            Report::HELD => Some(Report::Held(first as usize, b)),
            Report::REFUSED => Some(Report::Refused(first)),
            Report::FAILED => Some(Report::Failed(first)),
            _ => None,
        }
    }
}

// What came of many lines: how many were written, and how many bytes they have.
#[derive(Clone, Copy)]
pub struct Batch {
    pub many: usize,
    pub used: usize,
}

// The line of a report on the contract in a table: how many bytes it has. A refusal leaves the buffer as it was.
pub fn write(table: &[u64], report: Report, buffer: &mut [u8]) -> Result<usize, Question>
    ensures value { result ≡ written table.now report (length buffer.old) }
    ensures buffer_after { buffer.new ≡ buffer_after table.now report buffer.old }
{
    if buffer.len() < Report::ROOM {
        return Err(Question::ResultRoom);
    }
    let Some(terms) = Passed::of(table) else {
        return Err(Question::TableCheck);
    };
    if !reports::report_ok(table, report) {
        return Err(Question::ResultKinds);
    }
    Ok(reports::write_line(&terms, report, buffer))
}

// The line of a refused text, by the question's number and the place.
// Kept: (a) a number, since any may be asked and question 53 judges it; a narrower type would ask more of callers.
pub fn write_text_refusal(number: u8, place: usize, buffer: &mut [u8]) -> Result<usize, Question>
    ensures value { result ≡ text_written number place (length buffer.old) }
    ensures buffer_after { buffer.new ≡ text_buffer_after number place buffer.old }
{
    if buffer.len() < Report::ROOM {
        return Err(Question::ResultRoom);
    }
    if !reports::is_text_refusal(number) {
        return Err(Question::ResultKinds);
    }
    let mut out = Writer::new(buffer);
    reports::put_refused(&mut out, number);
    out.put_word(words::SPACE);
    out.put_number(place as u64);
    out.put_word(words::LINE_END);
    Ok(out.at)
}

// Kept: (a) result lines go here from `play` as numbers, any numbers, and question 53 judges what they name (docs/DECISIONS.md, 53).
// The lines of the reports numbered from `from` up to, not including, `to`: of as many as surely fit, 128 bytes to each. Question 53 is
// asked of all of these before the first is written; which one it refuses is not told (`write` of each tells it).
pub fn write_batch(
    table: &[u64],
    numbers: &[u64],
    integers: &[i64],
    from: usize,
    to: usize,
    buffer: &mut [u8],
) -> Result<Batch, Question>
    ensures value { result ≡ batch table.now (reports_from numbers.now integers.now from (to - from)) (length buffer.old) }
    ensures buffer_after { buffer.new ≡ batch_after (contract_of table.now) (reports_from numbers.now integers.now from (to - from)) result buffer.old }
{
    if buffer.len() < Report::ROOM {
        return Err(Question::ResultRoom);
    }
    let Some(terms) = Passed::of(table) else {
        return Err(Question::TableCheck);
    };
    let reports = Coded {
        terms,
        numbers,
        integers,
        from,
        to,
    };
    reports.write_lines(buffer)
}
