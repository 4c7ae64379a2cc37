//! What came of a step, in words.
ghost use Rattle.std.specs.Prelude.{◌≡◌, Some};
ghost use Rattle.trial_states.specs.Said.{said, rule_said};

use outcomes::{Outcome, Rule};
use std::fmt;

/// What came of a step, as it is printed: the rule, or `failed` or `refused` and the question.
#[derive(Clone, Copy)]
pub struct Said(pub Outcome);

fn rule_said(rule: Rule) -> &'static str
    ensures { result.now ≡ rule_said rule }
{
    match rule {
        Rule::Agree => "agree",
        Rule::Call => "call",
        Rule::EventMatch => "event match",
        Rule::Tick => "tick",
    }
}

impl fmt::Display for Said {
    ghost output = { λ x. Some (said x.0) };

    fn fmt<W: fmt::Write>(&self, f: &mut fmt::Formatter<W>) -> fmt::Result {
        match self.0 {
            Outcome::Accepted(rule) => f.write_str(rule_said(rule)),
            Outcome::Failed(question) => write!(f, "failed {}", question.number()),
            Outcome::Refused(question) => write!(f, "refused {}", question.number()),
        }
    }
}
