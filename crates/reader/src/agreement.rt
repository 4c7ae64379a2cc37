// The agreement's three rules, question 14, tested by masks over the clause rows of a table.
ghost use Rattle.std.specs.Prelude.{◌≡◌, min};
ghost use Rattle.laws.specs.Lists.{every, all_below};
ghost use Rattle.contract.specs.Rows.{said};
ghost use Rattle.reading.specs.Rules.{is_set};
ghost use Rattle.reading_laws.specs.Masks.{row_of, rows_of, holds, with, with_all, field_mask, party_mask, part_of, agrees_by_mask, kept_by_masks};

use contract::Verb;

// A party's number is at most 8 and a field's at most 32: an unknown name has the number of how many are known. So a mask
// needs 33 bits, and a u64 has bits to spare. The last one says that a number was put in twice.
const TWICE: usize = 63;

// As a party's number: none.
// Kept: (a) no `Option`: any table may be asked, also one with a party of this number, and the rules' definition takes it for none then too.
const NOBODY: usize = 63;

// The bit of a number, the last one of those that are too large.
fn place(n: usize) -> usize
    ensures { result ≡ min n 63 }
{
    n.min(TWICE)
}

fn holds(mask: u64, n: usize) -> bool
    ensures { result ≡ holds mask n }
{
    (mask >> place(n)) & 1 == 1
}

fn with(mask: u64, n: usize) -> u64
    ensures { result ≡ with mask n }
{
    if holds(mask, n) {
        return mask | (1 << TWICE);
    }
    mask | (1 << place(n))
}

// Whether each number in a mask, none of them twice, is in another mask.
fn part_of(mask: u64, other: u64) -> bool
    ensures { result ≡ part_of mask other }
{
    !holds(mask, TWICE) && mask & other == mask
}

// Whether each of the first n numbers is in a mask.
fn holds_all(mask: u64, n: usize) -> bool
    ensures { result ≡ all_below n (holds mask) }
{
    (0..n).all(|a| holds(mask, a))
}

// The clauses of a table, so many of its rows.
#[derive(Clone, Copy)]
pub(crate) struct Clauses<'a> {
    pub(crate) table: &'a [u64],
    pub(crate) many: usize,
}

impl Clauses<'_> {
    // A mask with the fields of clause i, the last one first, here and below, as the definitions go.
    fn with_fields(&self, i: usize, start: u64) -> u64
        ensures { result ≡ with_all start (row_of self.now.table.now i).fields }
    {
        (0..contract::clause_at(self.table, i).fields).rev().fold(
            start,
            |mask, j| with(mask, contract::clause_field(self.table, i, j)),
        )
    }

    // The fields that parties other than this one set.
    fn fields_set(&self, party: usize) -> u64
        ensures { result ≡ field_mask party (rows_of self.now.table.now self.now.many) }
    {
        (0..self.many)
            .rev()
            .filter(|i| contract::clause_at(self.table, *i).verb() == Verb::Set)
            .filter(|i| contract::clause_at(self.table, *i).party != party)
            .fold(0, |mask, i| self.with_fields(i, mask))
    }

    // The parties of the clauses with a verb.
    fn parties_of(&self, verb: Verb) -> u64
        ensures { result ≡ party_mask (is_set (said verb)) (rows_of self.now.table.now self.now.many) }
    {
        (0..self.many)
            .rev()
            .map(|i| contract::clause_at(self.table, i))
            .filter(|c| c.verb() == verb)
            .fold(0, |mask, c| with(mask, c.party))
    }

    // Whether a party agrees only on fields set by another, each once.
    fn agrees(&self, i: usize) -> bool
        ensures { result ≡ agrees_by_mask (rows_of self.now.table.now self.now.many) (row_of self.now.table.now i) }
    {
        let c = contract::clause_at(self.table, i);
        c.verb() == Verb::Set || part_of(self.with_fields(i, 0), self.fields_set(c.party))
    }

    fn all_agree(&self) -> bool
        ensures { result ≡ every (agrees_by_mask (rows_of self.now.table.now self.now.many)) (rows_of self.now.table.now self.now.many) }
    {
        (0..self.many).all(|i| self.agrees(i))
    }

    // A field is set at most once; a party agrees only on fields set by another, each once; each party has a clause, at most one
    // SET and one OK.
    // Kept: (c) `&` of truths: with `&&` there are two goals, and the second joins the four ways to a false answer, each of which an answer takes apart.
    pub(crate) fn rules_kept(&self, parties: usize) -> bool
        ensures { result ≡ kept_by_masks parties (rows_of self.now.table.now self.now.many) }
    {
        let set = self.parties_of(Verb::Set);
        let ok = self.parties_of(Verb::Ok);
        !holds(self.fields_set(NOBODY), TWICE)
            & (self.all_agree()
                & (holds_all(set | ok, parties) & (!holds(set, TWICE) & !holds(ok, TWICE))))
    }
}
