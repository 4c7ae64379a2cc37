// Many reports in a row, as numbers, and their lines one after the other.
ghost use Rattle.std.specs.Prelude.{◌≡◌, ◌+◌, ◌-◌, ◌/◌, min, length};
ghost use Rattle.laws.specs.Lists.{every};
ghost use Rattle.contract.specs.Decode.{contract_of};
ghost use Rattle.printing.specs.Pieces.{Put};
ghost use Rattle.results.specs.Coded.{report_at};
ghost use Rattle.results.specs.Lines.{told_ok};
ghost use Rattle.results.specs.Results.{batch_of, lines_of, batch_after};
ghost use Rattle.results.specs.Private.{AllReady, reports_in};

use crate::reports::{report_ok, write_line};
use crate::{Batch, Report};
use questions::Question;
use tables::Passed;

// Kept: (a) any numbers, as `write_batch` is lent them (docs/DECISIONS.md, 53).
// Report i of those in a row; none where the numbers tell none, and past those that stand there whole.
#[tactic(auto, unfolding(crate::specs::Coded::report_at, laws::specs::Choice::pick))]
pub fn report_at(numbers: &[u64], integers: &[i64], i: usize) -> Option<Report>
    ensures { result ≡ report_at numbers.now integers.now i }
{
    let (reports, _) = numbers.as_chunks::<{ Report::WORDS }>();
    Report::from_numbers(*reports.get(i)?, *integers.get(i)?)
}

// The number after the last of the reports from `from` up to, not including, `to` whose lines surely fit into so many bytes.
fn last_of(from: usize, to: usize, size: usize) -> usize
    ensures { result ≡ from + min (size / 128) (to - from) }
{
    from + to.saturating_sub(from).min(size / Report::ROOM)
}

// Reports in a row on the contract in a table that passes: those numbered from `from` up to, not including, `to`.
#[derive(Clone, Copy)]
pub(crate) struct Coded<'a> {
    pub(crate) terms: Passed<'a>,
    pub(crate) numbers: &'a [u64],
    pub(crate) integers: &'a [i64],
    pub(crate) from: usize,
    pub(crate) to: usize,
}

impl Coded<'_> {
    // Question 53 of report i; none does not pass.
    #[tactic(auto, unfolding(crate::specs::Lines::told_ok))]
    fn is_ok(&self, i: usize) -> bool
        ensures { result ≡ told_ok (contract_of self.now.terms.table.now) (report_at self.now.numbers.now self.now.integers.now i) }
    {
        report_at(self.numbers, self.integers, i).is_some_and(|report| report_ok(
            self.terms.table,
            report,
        ))
    }

    // The same of each: the lengths first, since none past those that stand there whole passes.
    fn all_ok(&self) -> bool
        ensures { result ≡ every (told_ok (contract_of self.now.terms.table.now)) (reports_in self.now) }
    {
        let whole = (self.numbers.len() / Report::WORDS).min(self.integers.len());
        if self.from.max(whole) < self.to {
            return false;
        }
        (self.from..self.to).all(|i| self.is_ok(i))
    }

    // Their lines, one after the other; the place after them.
    // Kept: (b) each by a writer over the 128 bytes that are lent for it: what room it has is then known from its first piece on. With what `reports`
    // and `printing` keep for speed, a refusal takes 90 instructions, and a label 146; by one writer and without these 140 and 191.
    fn put_lines(&self, buffer: &mut [u8]) -> usize
        requires { AllReady self.now (length buffer.old) }
        ensures { Put buffer.old 0 (lines_of (contract_of self.now.terms.table.now) (reports_in self.now)) result buffer.new }
    {
        let mut used = 0;
        for i in self.from..self.to {
            if let Some(report) = report_at(self.numbers, self.integers, i) {
                let end = used + Report::ROOM;
                used += write_line(&self.terms, report, &mut buffer[used..end]);
            }
        }
        used
    }

    // The lines of as many of them as surely fit, or none if question 53 refuses one of these.
    pub(crate) fn write_lines(&self, buffer: &mut [u8]) -> Result<Batch, Question>
        ensures value { result ≡ batch_of (contract_of self.now.terms.table.now) (reports_in self.now) (length buffer.old) }
        ensures buffer_after { buffer.new ≡ batch_after (contract_of self.now.terms.table.now) (reports_in self.now) result buffer.old }
    {
        let end = last_of(self.from, self.to, buffer.len());
        let first = Coded { to: end, ..*self };
        if !first.all_ok() {
            return Err(Question::ResultKinds);
        }
        Ok(Batch {
            many: end - self.from,
            used: first.put_lines(buffer),
        })
    }
}
