// A session: due events are fired, lines are taken, and the result lines of it are handed on as numbers.
ghost use Rattle.std.specs.Prelude.{◌≡◌, ◌+◌, ◌-◌, ◌*◌, ◌≤◌, ◌<◌, ◌^◌, length, take, drop, IfSome, Ok, None};
ghost use Rattle.contract.specs.Decode.{contract_of};
ghost use Rattle.state.specs.States.{due_in};
ghost use Rattle.statements.specs.Running.{labels_from};
ghost use Rattle.lines.specs.Lines.{asked};
ghost use Rattle.lines.specs.Answers.{request_of, numbers_of};
ghost use Rattle.lines.specs.declared.Request.TheVariants as request;
ghost use Rattle.outcomes.specs.Outcomes.{no_labels, answered};
ghost use Rattle.machine.specs.Private.{stepped_in, taken, due_of, turn_of, said_of, place_after, EndsWithin, PlayedIs};
ghost use Rattle.step_reports.specs.Reports.{room_in};
ghost use Rattle.machine.specs.Sessions.{heard, end_of_line, turn_at, session};

use crate::{Next, Played, Reply, Whole};
use lines::{Call, Line, Request};
use outcomes::{Outcome, Stepped};
use questions::Question;
use state::State;
use statements::Label;
use step_reports::Done;

// ---- A turn.

// The place of the LF that ends the line from `at` on, or the end.
fn line_end(input: &[u8], at: usize) -> usize
    ensures { result ≡ end_of_line input.now at }
{
    let rest = input.get(at..).unwrap_or(&[]);
    let many = rest.iter().position(|b| *b == b'\n').unwrap_or(rest.len());
    at + many
}

// What is taken up next: a due event, else a line; none if nothing is due and no line is whole.
fn next(table: &[u64], s: &State, input: &[u8], at: usize) -> Option<Next>
    ensures turn { turn_at (contract_of table.now) input.now s.now at ≡ turn_of input.now at result }
    ensures within { IfSome result (λ n. EndsWithin (length input.now) n) }
    ensures due { IfSome result (λ n. due_in (contract_of table.now) s.now ≡ due_of n) }
{
    if let Some(k) = s.first_due(table) {
        return Some(Next::Event(k));
    }
    let end = line_end(input, at);
    if end < input.len() {
        return Some(Next::Line(end));
    }
    None
}

impl Whole<'_> {
    // A line that calls, as it was read, with its integers. Nothing is due when a line is taken, here and below.
    // Kept: (d) that nothing is due is required, here and below: it holds of the state as it is lent, and the step changes that state, so no field
    // of a struct could keep it.
    fn take_call(
        &self,
        s: &mut State,
        line: &[u8],
        call: Call,
        numbers: &[i64; Line::NUMBERS],
        labels: &mut [i64; Label::ROOM],
    ) -> Reply
        requires at_rest { due_in (contract_of self.now.terms.table.now) s.old ≡ None }
        requires no_labels { labels_from labels.old ≡ no_labels }
        requires call { Ok (request.Call call) ≡ request_of (asked line.now) }
        requires numbers { take (length (numbers_of (asked line.now))) numbers.now ≡ numbers_of (asked line.now) }
        ensures { stepped_in result s.new labels.new ≡ taken (contract_of self.now.terms.table.now) s.old line.now }
    {
        let caller = tokens::between(line, call.party.start, call.party.end);
        let function = tokens::between(line, call.function.start, call.function.end);
        let end = call.values + call.assets;
        let values = &numbers[..call.values];
        let assets = &numbers[call.values..end];
        crate::call_reply(self.call_on(s, None, caller, function, values, assets, labels))
    }

    // A line that agrees, on a state that is not agreed yet.
    fn take_agreement(&self, s: &mut State, line: &[u8]) -> Outcome
        requires { Ok request.Agreement ≡ request_of (asked line.now) }
        ensures { answered result s.new ≡ taken (contract_of self.now.terms.table.now) s.old line.now }
    {
        if s.agreed {
            return Outcome::Refused(Question::NotAgreed);
        }
        let Some(a) = lines::agreement_of(line) else {
            return Outcome::Refused(Question::LineForm);
        };
        agreements::agree_on(self.terms.table, s, line, a.heads(), a.spans(), a.values())
    }

    // What a line asks for, as it was read, with its integers.
    fn take_request(
        &self,
        s: &mut State,
        line: &[u8],
        request: Request,
        numbers: &[i64; Line::NUMBERS],
        labels: &mut [i64; Label::ROOM],
    ) -> Reply
        requires at_rest { due_in (contract_of self.now.terms.table.now) s.old ≡ None }
        requires no_labels { labels_from labels.old ≡ no_labels }
        requires request { Ok request ≡ request_of (asked line.now) }
        requires numbers { take (length (numbers_of (asked line.now))) numbers.now ≡ numbers_of (asked line.now) }
        ensures { stepped_in result s.new labels.new ≡ taken (contract_of self.now.terms.table.now) s.old line.now }
    {
        let table = self.terms.table;
        match request {
            Request::Tick => crate::silent(crate::passage(crate::tick_on(s, None))),
            Request::Jump(to) => crate::silent(crate::passage(crate::jump_on(table, s, None, to))),
            Request::Call(call) => self.take_call(s, line, call, numbers, labels),
            Request::Agreement => crate::silent(self.take_agreement(s, line)),
        }
    }

    // What a line, the bytes before its LF, does; a call's integers are stored into the lent list.
    fn take_line(
        &self,
        s: &mut State,
        line: &[u8],
        numbers: &mut [i64; Line::NUMBERS],
        labels: &mut [i64; Label::ROOM],
    ) -> Reply
        requires at_rest { due_in (contract_of self.now.terms.table.now) s.old ≡ None }
        requires no_labels { labels_from labels.old ≡ no_labels }
        ensures { stepped_in result s.new labels.new ≡ taken (contract_of self.now.terms.table.now) s.old line.now }
    {
        match lines::read(line, numbers) {
            Err(q) => crate::silent(Outcome::Refused(q)),
            Ok(request) => self.take_request(s, line, request, numbers, labels),
        }
    }

    // It is fired or taken.
    fn take_up(
        &self,
        s: &mut State,
        input: &[u8],
        at: usize,
        next: Next,
        numbers: &mut [i64; Line::NUMBERS],
        labels: &mut [i64; Label::ROOM],
    ) -> Reply
        requires due { due_in (contract_of self.now.terms.table.now) s.old ≡ due_of next }
        requires no_labels { labels_from labels.old ≡ no_labels }
        ensures { stepped_in result s.new labels.new ≡ heard (contract_of self.now.terms.table.now) s.old (said_of input.now at next) }
    {
        match next {
            Next::Event(k) => self.fire_on(s, Some(k), labels),
            Next::Line(end) => {
                self.take_line(s, tokens::between(input, at, end), numbers, labels)
            }
        }
    }
}

// Where the next line starts after it.
fn place_after(at: usize, next: Next) -> usize
    requires { EndsWithin (2 ^ 63) next }
    ensures { result ≡ place_after at next }
{
    match next {
        Next::Event(_) => at,
        Next::Line(end) => end + 1,
    }
}

// ---- A session.

// No labels, after a step that sent so many, which are the first.
// Kept: (b) the words of those sent alone: with all words cleared, three a label then, a desk took 59,359,719 instructions for a mixed session,
// where it took 58,171,884 with these alone (two builds without proof of one tree).
fn clear_sent(labels: &mut [i64; Label::ROOM], count: usize)
    requires { drop count (labels_from labels.old) ≡ drop count no_labels }
    ensures { labels_from labels.new ≡ no_labels }
{
    let sent = count.min(Label::MOST);
    labels[..Label::WORDS * sent].fill(0);
}

// How many labels there is room for after what came of a step.
// Kept: (a) the two lent lists of `play`.
pub(crate) fn label_room(numbers: &[u64], integers: &[i64]) -> usize
    ensures { result ≡ room_in (length numbers.now) (length integers.now) - 1 }
{
    step_reports::room_in(numbers, integers).saturating_sub(1)
}

impl Whole<'_> {
    // A session on a state within its ranges.
    // Kept: (a) the two lent lists of `play`.
    pub(crate) fn play_on(
        &self,
        s: State,
        input: &[u8],
        numbers: &mut [u64],
        integers: &mut [i64],
    ) -> Played
        ensures { PlayedIs (session (contract_of self.now.terms.table.now) input.now (room_in (length numbers.old) (length integers.old)) s) result numbers.old integers.old numbers.new integers.new }
    {
        // The integers of a line that calls.
        // Kept: (b) made here, once: with a list made at each line, which `lines::read` cleared once more, a desk took 64,424,505 instructions for
        // a mixed session, where it takes 59,359,719 (two builds without proof of one tree).
        let mut line_numbers = [0i64; Line::NUMBERS];
        let mut labels = [0i64; Label::ROOM];
        let room = step_reports::room_in(numbers, integers);
        let mut state = s;
        let mut at: usize = 0;
        let mut n: usize = 0;
        // Kept: (d) each turn takes as many of the lent places as its step has reports, so that no range or iterator counts the turns; they go on
        // while there is room for the reports of any step.
        while Stepped::REPORTS <= room - n {
            let Some(taken) = next(self.terms.table, &state, input, at) else {
                break;
            };
            let r = self.take_up(&mut state, input, at, taken, &mut line_numbers, &mut labels);
            at = place_after(at, taken);
            n = step_reports::report(
                numbers,
                integers,
                n,
                Done {
                    outcome: r.outcome,
                    state: state.state,
                    clock: state.clock,
                    labels: &labels,
                    count: r.count,
                },
            );
            clear_sent(&mut labels, r.count);
        }
        Played {
            state,
            used: at,
            many: n,
        }
    }
}
