// Reading defined: the syntax tree, the grammar, the rules, and what reading a text answers.
#![tactic(auto)]

ghost use Rattle.std.specs.Prelude.{◌≡◌};
ghost use Rattle.reading.specs.Reading.{refusal};

use questions::Question;

// What refuses a text: a question, and the byte's place.
#[derive(Clone, Copy, PartialEq, Eq)]
pub struct Refusal {
    pub question: Question,
    pub place: usize,
}

impl Refusal {
    // By a question's number. One that no question has counts as the grammar's; no text is refused by one.
    #[tactic(auto, unfolding(crate::specs::Reading::asked))]
    pub fn by_number(number: u8, place: usize) -> Refusal
        ensures { result ≡ refusal number place }
    {
        let question = Question::from_number(number).unwrap_or(Question::Grammar);
        Refusal { question, place }
    }
}
