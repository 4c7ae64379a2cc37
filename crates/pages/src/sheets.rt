// The lines of a page one after the other, and the page.
ghost use Rattle.std.specs.Prelude.{◌≡◌, true, ◌++◌, ◌+◌, ◌-◌, ◌*◌, ◌≤◌, min, length, drop};
ghost use Rattle.laws.specs.Lists.{every};
ghost use Rattle.contract.specs.Decode.{contract_of, each_from};
ghost use Rattle.contract.specs.Encode.{joined};
ghost use Rattle.printing.proofs.Writers.{Wrote, HasRoom};
ghost use Rattle.pages.specs.Entries.{is_payout, entry_at, entries_of};
ghost use Rattle.pages.specs.Page.{line_of, blank_lines, page_of};
ghost use Rattle.pages.specs.Answers.{page_bytes};

use crate::Sheet;
use crate::lines::{put_blank, put_foot};
use crate::payouts::Entries;
use printing::Writer;

// The number of a page's first entry, of so many.
fn first_of(number: usize, count: usize) -> usize
    ensures { result ≡ min (60 * number) count }
{
    Sheet::LINES.saturating_mul(number).min(count)
}

// The number after its last one.
// Kept: (d) one line, as `desk_lines::past` with 60, which stands above this crate.
fn end_of(first: usize, count: usize) -> usize
    ensures { result ≡ min (first + 60) count }
{
    first.saturating_add(Sheet::LINES).min(count)
}

// So many lines without a payout.
// Kept: (c) `i`, by which the invariant says how many stand there: with `_` the count has no name in it.
fn put_blanks(out: &mut Writer, n: usize)
    requires { HasRoom (85 * n) out.old }
    ensures written { Wrote out.old (blank_lines n) out.new }
    ensures same_buffer { out.new.buffer.ghost_name ≡ out.old.buffer.ghost_name }
{
    for i in 0..n {
        put_blank(out);
    }
}

impl Entries<'_> {
    // The lines of the entries numbered from `from` up to, not including, `to`.
    fn put_lines(&self, out: &mut Writer, from: usize, to: usize)
        requires payouts { every (is_payout (contract_of self.now.terms.table.now)) (entries_of self.now.numbers.now self.now.values.now) ≡ true }
        requires to_in_bounds { (to ≤ length self.now.values.now) × (HasRoom (85 * (to - from)) out.old) }
        ensures written { Wrote out.old (joined (line_of (contract_of self.now.terms.table.now)) (each_from from (to - from) (entry_at self.now.numbers.now self.now.values.now))) out.new }
        ensures same_buffer { out.new.buffer.ghost_name ≡ out.old.buffer.ghost_name }
    {
        for i in from..to {
            self.entry(i).put_line(out, &self.terms);
        }
    }

    // A page by its number: the lines of its entries, blank lines, the foot.
    pub(crate) fn write_sheet(&self, number: usize, buffer: &mut [u8])
        requires payouts { every (is_payout (contract_of self.now.terms.table.now)) (entries_of self.now.numbers.now self.now.values.now) ≡ true }
        requires room { page_bytes ≤ length buffer.old }
        ensures { buffer.new ≡ page_of (contract_of self.now.terms.table.now) (entries_of self.now.numbers.now self.now.values.now) number ++ drop page_bytes buffer.old }
    {
        let first = first_of(number, self.values.len());
        let end = end_of(first, self.values.len());
        let mut out = Writer::new(buffer);
        self.put_lines(&mut out, first, end);
        put_blanks(&mut out, Sheet::LINES - (end - first));
        put_foot(&mut out, end - first);
    }
}
