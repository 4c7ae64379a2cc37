// Settlement pages (document 02, F-1), written into a lent buffer, and the payouts among result lines gathered for them.
#![tactic(auto)]

ghost use Rattle.std.specs.Prelude.{◌≡◌, length};
ghost use Rattle.std.specs.Option.{option_map_or};
ghost use Rattle.results.specs.Coded.{report_at};
ghost use Rattle.results.specs.declared.Report.TheVariants.{Sent};
ghost use Rattle.pages.specs.Entries.{entries_of};
ghost use Rattle.pages.specs.Answers.{paged, buffer_after};
ghost use Rattle.pages.specs.Gathering.{gathered, numbers_after, values_after};

use contract::Contract;
use payouts::Entries;
use questions::Question;
use results::Report;
use tables::Passed;

mod lines;
mod payouts;
mod sheets;

// The limits of a page.
#[derive(Clone, Copy)]
pub struct Sheet {}

impl Sheet {
    // Its bytes, its lines for payouts, and the numbers of an entry: kind, party, rule, clock and group.
    // Kept: (d) these are sizes of a page and of its columns, and no kinds of anything.
    pub const BYTES: usize = (Sheet::LINES + 1) * (Sheet::LINE + 1);

    pub const LINES: usize = 60;

    pub const NUMBERS: usize = 5;

    // The widths of its columns: a clock or an amount, a rule's name, a party's name.
    const AMOUNT: usize = 19;

    const RULE: usize = 11;

    const PARTY: usize = Contract::NAME;

    // The bytes of a line before its LF, and the spaces before the foot's two digits.
    const LINE: usize = Sheet::AMOUNT + 1 + Sheet::RULE + 1 + Sheet::PARTY + 1 + Sheet::AMOUNT;

    const FOOT: usize = Sheet::LINE - 2;
}

// What is gathered of a session: the rule and the clock of its last accepted step, and how many payouts wait for their page.
// Kept: (a) the rule by its number, as a line has it and an entry that question 61 judges; before the first step 0, by which nothing is sent.
#[derive(Clone, Copy, Default)]
pub struct Gathered {
    pub rule: u64,
    pub clock: u64,
    pub count: usize,
}

impl Gathered {
    // Before the first step.
    pub fn nothing() -> Gathered
        ensures { result ≡ record { rule = 0; clock = 0; count = 0 } }
    {
        Gathered::default()
    }

    // Result line i of those in a row, by their numbers and integers: the last accepted step's rule and clock are kept, and a payout joins the
    // lent entries and values after those that are counted, where the page has room.
    // Kept: (a) lists of numbers, here and in `note`: result lines are handed on so (docs/DECISIONS.md, 53), and the entries go to `page`, where
    // question 61 judges any (63).
    pub fn gather(
        self,
        numbers: &[u64],
        integers: &[i64],
        i: usize,
        entries: &mut [u64],
        values: &mut [i64],
    ) -> Gathered
        ensures value { result ≡ option_map_or (gathered self) (report_at numbers.now integers.now i) self }
        ensures entries_after { entries.new ≡ option_map_or (λ r. numbers_after self r entries.old) (report_at numbers.now integers.now i) entries.old }
        ensures values_after { values.new ≡ option_map_or (λ r. values_after self r values.old) (report_at numbers.now integers.now i) values.old }
    {
        let Some(report) = results::report_at(numbers, integers, i) else {
            return self;
        };
        match report {
            Report::Ruled(rule, _, clock) => Gathered {
                rule: rule as u64,
                clock,
                ..self
            },
            Report::Sent(kind, party, value, group) => {
                self.note(kind, party, value, group, entries, values)
            }
            Report::Held(_, _) | Report::Refused(_) | Report::Failed(_) => self,
        }
    }

    // A label: a payout joins the others, where the page has room.
    fn note(
        self,
        kind: u8,
        party: usize,
        value: i64,
        group: u64,
        entries: &mut [u64],
        values: &mut [i64],
    ) -> Gathered
        ensures value { result ≡ gathered self (Sent kind party value group) }
        ensures entries_after { entries.new ≡ numbers_after self (Sent kind party value group) entries.old }
        ensures values_after { values.new ≡ values_after self (Sent kind party value group) values.old }
    {
        if kind != Report::ASSET || Sheet::LINES <= self.count {
            return self;
        }
        let entry = [
            Report::ASSET as u64,
            party as u64,
            self.rule,
            self.clock,
            group,
        ];
        items::store_all(entries, Sheet::NUMBERS * self.count, &entry);
        items::set(values, self.count, value);
        Gathered {
            count: self.count + 1,
            ..self
        }
    }
}

// Page `number` of the entries given, five numbers and a value each, on the contract in a table. A refusal leaves the buffer as it was.
// Kept: (a) the entries come as two lists of numbers, any numbers, and question 61 judges what they say (docs/DECISIONS.md, 63).
pub fn page(
    table: &[u64],
    numbers: &[u64],
    values: &[i64],
    number: usize,
    buffer: &mut [u8],
) -> Result<(), Question>
    ensures value { result ≡ paged table.now (entries_of numbers.now values.now) (length buffer.old) }
    ensures buffer_after { buffer.new ≡ buffer_after table.now (entries_of numbers.now values.now) number buffer.old }
{
    if buffer.len() < Sheet::BYTES {
        return Err(Question::PageRoom);
    }
    let Some(terms) = Passed::of(table) else {
        return Err(Question::TableCheck);
    };
    let entries = Entries {
        terms,
        numbers,
        values,
    };
    if !entries.all_payouts() {
        return Err(Question::PageEntries);
    }
    entries.write_sheet(number, buffer);
    Ok(())
}
