// What comes of a step: its outcome, the state after it, and the labels sent.
#![tactic(auto)]

ghost use Rattle.std.specs.Prelude.{◌≡◌};
ghost use Rattle.statements.specs.Running.{labels_from};
ghost use Rattle.outcomes.specs.Outcomes.{no_labels, answered, refused};

use questions::Question;
use state::State;
use statements::Label;

// The published rules, as they are printed: AGREE, FUNCTION, EVENT MATCH, TICK; a jump answers as TICK.
#[derive(Clone, Copy, PartialEq, Eq)]
pub enum Rule {
    Agree,
    Call,
    EventMatch,
    Tick,
}

// What came of a step: accepted by a rule, a failed firing with its question, or refused with the question.
// By a question where nothing else is named, as the machine's; a caller's own may be by any number.
// Kept: (d) no Result: three cases, and a failed firing is a step that was taken.
#[derive(Clone, Copy, PartialEq, Eq)]
pub enum Outcome<Q = Question> {
    Accepted(Rule),
    Failed(Q),
    Refused(Q),
}

// Kept: (a) document 01 has the core fill an array of labels by value, and a refused step hand its state back: array and count, and one struct.
#[derive(Clone, Copy)]
pub struct Stepped<Q = Question> {
    pub outcome: Outcome<Q>,
    pub state: State,
    pub labels: [Label; Label::MOST],
    pub count: usize,
}

impl Stepped {
    // The most result lines of a step: what came of it, and its labels.
    pub const REPORTS: usize = 1 + Label::MOST;
}

// As many blank labels as a step may have.
#[tactic(auto, unfolding(laws::specs::Lists::repeated))]
pub fn blank_labels() -> [Label; Label::MOST]
    ensures { result ≡ no_labels }
{
    [Label {
        kind: 0,
        party: 0,
        value: 0,
        group: 0,
    }; Label::MOST]
}

// An answer without labels.
// Kept: (d) `outcomes::answer(..)` and `outcomes::refuse(..)` say where they are called what a step does; as `Stepped::answered(..)` and
// `Stepped::refused(..)` these would be as long, and so would the contracts.
pub fn answer<Q>(outcome: Outcome<Q>, s: State) -> Stepped<Q>
    ensures { result ≡ answered outcome s }
{
    Stepped {
        outcome,
        state: s,
        labels: blank_labels(),
        count: 0,
    }
}

// A refused step hands back the state it was given.
pub fn refuse<Q>(s: State, q: Q) -> Stepped<Q>
    ensures { result ≡ refused s q }
{
    answer(Outcome::Refused(q), s)
}

// The labels of these words. A kind and a party's number are whole numbers, put among the integers of one list.
// Kept: (c) by `array::from_fn` it was proved, with a check so near its limit of steps that nothing can be built on the crate.
pub fn labels_of(words: &[i64; Label::ROOM]) -> [Label; Label::MOST]
    ensures { result ≡ labels_from words.now }
{
    let mut out = blank_labels();
    for i in 0..Label::MOST {
        let at = Label::WORDS * i;
        out[i] = Label {
            kind: words[at].unsigned_abs(),
            party: words[at + 1].unsigned_abs() as usize,
            value: words[at + 2],
            group: words[at + 3].unsigned_abs() as usize,
        };
    }
    out
}
