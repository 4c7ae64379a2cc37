// Whether entries are payouts (question 61).
ghost use Rattle.std.specs.Prelude.{◌≡◌, ◌+◌, ◌*◌, ◌<◌, ◌≤◌, length};
ghost use Rattle.laws.specs.Lists.{every};
ghost use Rattle.contract.specs.Decode.{contract_of};
ghost use Rattle.pages.specs.Entries.{is_payout, entry_at, entries_of};
ghost use Rattle.pages.specs.Private.{entry_of};

use crate::Sheet;
use contract::{Contract, TableHead};
use results::Report;
use tables::Passed;

// An entry: a label's kind, party, value and group, with the rule and the clock that sent it. Rules are numbered as in result lines.
#[derive(Clone, Copy)]
pub(crate) struct Entry {
    pub(crate) kind: u64,
    pub(crate) party: u64,
    pub(crate) rule: u64,
    pub(crate) clock: u64,
    pub(crate) value: i64,
    pub(crate) group: u64,
}

impl Entry {
    // Question 61.
    fn is_payout(self, table: &[u64]) -> bool
        ensures { result ≡ is_payout (contract_of table.now) (entry_of self) }
    {
        // Kept: (c) with `&&` the row's answer stays open at its last two tests: twelve paths lead there, each has to give the definition's six
        // tests, and the search gives up. Each test here is one comparison, and the word is read in any case.
        (self.kind == Report::ASSET as u64)
            & (((self.rule == Report::CALL as u64) | (self.rule == Report::FIRING as u64))
                & ((self.party < contract::word(table, TableHead::PARTIES))
                    & ((self.clock <= Contract::TOP) & (0 <= self.value))))
    }
}

// The entries given, on the contract in a table: five numbers and a value each.
// Kept: (a) the two lists as they are lent to `page` (docs/DECISIONS.md, 63).
#[derive(Clone, Copy)]
pub(crate) struct Entries<'a> {
    pub(crate) terms: Passed<'a>,
    pub(crate) numbers: &'a [u64],
    pub(crate) values: &'a [i64],
}

impl Entries<'_> {
    // Entry i, which stands there whole.
    pub(crate) fn entry(&self, i: usize) -> Entry
        requires { (5 * i + 5 ≤ length self.now.numbers.now) × (i < length self.now.values.now) }
        ensures { entry_of result ≡ entry_at self.now.numbers.now self.now.values.now i }
    {
        let at = Sheet::NUMBERS * i;
        Entry {
            kind: self.numbers[at],
            party: self.numbers[at + 1],
            rule: self.numbers[at + 2],
            clock: self.numbers[at + 3],
            value: self.values[i],
            group: self.numbers[at + 4],
        }
    }

    // Question 61 of entry i; none that does not stand there whole passes.
    fn entry_passes(&self, i: usize) -> bool
        ensures { result ≡ is_payout (contract_of self.now.terms.table.now) (entry_at self.now.numbers.now self.now.values.now i) }
    {
        if self.numbers.len() / Sheet::NUMBERS <= i || self.values.len() <= i {
            return false;
        }
        self.entry(i).is_payout(self.terms.table)
    }

    // Question 61 of all, also of one that is begun at the end: the lengths first, since no entry that does not stand there whole passes.
    // Kept: (b) their number by the quotient that `entry_passes` asks for, so that it is asked for once: by the product an entry takes 18 instructions
    // in place of 16.
    pub(crate) fn all_payouts(&self) -> bool
        ensures { result ≡ every (is_payout (contract_of self.now.terms.table.now)) (entries_of self.now.numbers.now self.now.values.now) }
    {
        let count = self.values.len();
        if self.numbers.len() / Sheet::NUMBERS != count {
            return false;
        }
        if self.numbers.len() % Sheet::NUMBERS != 0 {
            return false;
        }
        (0..count).all(|i| self.entry_passes(i))
    }
}
