// What comes of a step as result lines, handed on as four numbers and an integer each.
#![tactic(auto)]

ghost use Rattle.std.specs.Prelude.{ℕ, ◌≡◌, ◌+◌, ◌*◌, ◌≤◌, ◌<◌, min, [], ◌∷◌, length, get_or, pos, nat_abs};
ghost use Rattle.std.proofs.lemmas.List.Edits.{sets};
ghost use Rattle.laws.specs.Choice.{pick};
ghost use Rattle.results.specs.Coded.{coded_all, integers_of};
ghost use Rattle.questions.specs.Numbers.{number_of};
ghost use Rattle.step_reports.specs.Reports.{rule_number, report_by, sent, reports_by, room_in, has_room};
ghost use Rattle.step_reports.specs.Private.{HasRoom, SameLists, Told};

use outcomes::{Outcome, Rule, Stepped};
use questions::Question;
use results::Report;
use statements::Label;

// The lent lists that result lines are told in, and how many lines stand in them.
// Kept: (a) result lines are handed on as numbers (docs/DECISIONS.md, 53), here and below.
#[derive(Drop)]
struct Teller<'a> {
    numbers: &'a mut [u64],
    integers: &'a mut [i64],
    many: usize,
}

// A rule's number in a result line: `outcomes::Rule` has its rules in the order of `Report::AGREEMENT` to `Report::TICK`, which the clause says.
fn rule_number(rule: Rule) -> u8
    ensures { result ≡ rule_number rule }
{
    rule as u8
}

// What a refusal and a failed firing may be told by: any number of a byte, or a question of the documents.
pub trait Numbered {
    // The number in a result line.
    ghost number: { Self → ℕ };

    fn number(self) -> u8
        ensures { result ≡ number self };
}

impl Numbered for u8 {
    ghost number = { λ n. n };

    fn number(self) -> u8 {
        self
    }
}

impl Numbered for Question {
    ghost number = { number_of };

    fn number(self) -> u8 {
        Question::number(self)
    }
}

// What came of a step: its outcome, the state's number and the clock after it, and the words of the labels, of which the first so many were sent.
// Kept: (a) the words and a count, as `machine` has them of a step: any count may stand here, and no more are told than there are.
#[derive(Clone, Copy)]
pub struct Done<'a, Q = Question> {
    pub outcome: Outcome<Q>,
    pub state: usize,
    pub clock: u64,
    pub labels: &'a [i64; Label::ROOM],
    pub count: usize,
}

impl<Q: Numbered + Copy + Drop> Done<'_, Q> {
    // Its first result line.
    // Kept: (d) no conversion between two types: this is the first line alone, without the labels.
    fn first(self) -> Report
        ensures { result ≡ report_by Q.number self.entry.outcome self.entry.state self.entry.clock }
    {
        match self.outcome {
            Outcome::Accepted(rule) => Report::Ruled(rule_number(rule), self.state, self.clock),
            Outcome::Failed(q) => Report::Failed(q.number()),
            Outcome::Refused(q) => Report::Refused(q.number()),
        }
    }

    // How many labels are told: no more than there are.
    fn labels_told(&self) -> usize
        ensures { result ≡ min self.now.count 64 }
    {
        self.count.min(Label::MOST)
    }
}

// Word i of the labels, without its sign.
fn word(labels: &[i64; Label::ROOM], i: usize) -> u64
    requires { i < 256 }
    ensures { result ≡ nat_abs (get_or labels.now i (pos 0)) }
{
    labels[i].unsigned_abs()
}

impl Teller<'_> {
    // One more line: its four numbers and its integer.
    fn tell(&mut self, words: [u64; Report::WORDS], value: i64)
        requires { HasRoom self.old 1 }
        ensures numbers_after { self.new.numbers.now ≡ sets self.old.numbers.now (4 * self.old.many) words }
        ensures integers_after { self.new.integers.now ≡ sets self.old.integers.now self.old.many (value ∷ []) }
        ensures many { self.new.many ≡ self.old.many + 1 }
        ensures same_lists { SameLists self.old self.new }
    {
        let at = Report::WORDS * self.many;
        self.numbers[at..at + Report::WORDS].copy_from_slice(&words);
        self.integers[self.many] = value;
        self.many += 1;
    }

    // The first labels of these words, whose kinds may be any numbers here.
    // Kept: (d) the words of label i by their places, as the definition (`label_at`) has them: in fours they would be places in a list of lists,
    // which a proof takes back to these, and the count would still be needed beside them.
    fn tell_labels(&mut self, labels: &[i64; Label::ROOM], count: usize)
        requires { (count ≤ 64) × HasRoom self.old count }
        ensures told { Told self.old.numbers.now self.old.integers.now self.old.many (sent count labels.now) self.new.numbers.now self.new.integers.now }
        ensures many { self.new.many ≡ self.old.many + count }
        ensures same_lists { SameLists self.old self.new }
    {
        for i in 0..count {
            let at = Label::WORDS * i;
            let kind = word(labels, at);
            let party = word(labels, at + 1);
            let group = word(labels, at + 3);
            self.tell([Report::SENT, kind, party, group], labels[at + 2]);
        }
    }
}

// How many result lines there is room for.
// Kept: (a) two lent lists, here and below, as `results::write_batch` reads them (docs/DECISIONS.md, 53).
pub fn room_in(numbers: &[u64], integers: &[i64]) -> usize
    ensures { result ≡ room_in (length numbers.now) (length integers.now) }
{
    (numbers.len() / Report::WORDS).min(integers.len())
}

// Whether the result lines of any step fit from line n on.
// Kept: (a) as `room_in`.
fn fits_from(numbers: &[u64], integers: &[i64], n: usize) -> bool
    ensures { result ≡ has_room numbers.now integers.now n }
{
    let room = room_in(numbers, integers);
    Stepped::REPORTS <= room && n <= room - Stepped::REPORTS
}

// The result lines of a step, from line n on, and the line after them; nothing where those of any step don't fit.
// Kept: (a) as `room_in`, and n any number: the caller's lists may hold lines already.
pub fn report<Q: Numbered + Copy + Drop>(
    numbers: &mut [u64],
    integers: &mut [i64],
    n: usize,
    done: Done<Q>,
) -> usize
    ensures value { result ≡ pick (has_room numbers.old integers.old n) (n + 1 + min done.entry.count 64) n }
    ensures numbers_after { numbers.new ≡ pick (has_room numbers.old integers.old n) (sets numbers.old (4 * n) (coded_all (reports_by Q.number done.entry))) numbers.old }
    ensures integers_after { integers.new ≡ pick (has_room numbers.old integers.old n) (sets integers.old n (integers_of (reports_by Q.number done.entry))) integers.old }
{
    if !fits_from(numbers, integers, n) {
        return n;
    }
    let mut teller = Teller {
        numbers,
        integers,
        many: n,
    };
    let labels = done.labels;
    let many = done.labels_told();
    let first = done.first();
    teller.tell(first.numbers(), first.integer());
    teller.tell_labels(labels, many);
    teller.many
}
