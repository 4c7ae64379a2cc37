// The five steps of the machine. Each answers with the state, what came of it, and the labels sent.
#![tactic(auto)]

ghost use Rattle.std.specs.Prelude.{ℕ, true, List, ◌≡◌, ◌+◌, ◌/◌, ◌<◌, length, None, Some, Ok};
ghost use Rattle.std.proofs.lemmas.List.Edits.{sets};
ghost use Rattle.contract.specs.Table.{word_at};
ghost use Rattle.contract.specs.Rows.{event_row_of, function_row_of};
ghost use Rattle.contract.specs.Decode.{block_between, precondition_at, event_at, function_at, contract_of};
ghost use Rattle.evaluation.specs.Memory.{lent, memory_of};
ghost use Rattle.evaluation.specs.Meaning.{value_of};
ghost use Rattle.state.specs.States.{live, event_of, due_in};
ghost use Rattle.statements.specs.declared.Label.{Label};
ghost use Rattle.statements.specs.Running.{group_at, labels_from, work_from};
ghost use Rattle.outcomes.specs.Outcomes.{no_labels, answered};
ghost use Rattle.machine.specs.Steps.{place_groups, answers_to, precondition_holds, schedule, finished, by_precondition, invoked, fire_by_due, step, called, fired, ticked, jumped};
ghost use Rattle.results.specs.Coded.{coded_all, integers_of};
ghost use Rattle.step_reports.specs.Reports.{room_in};
ghost use Rattle.machine.specs.Sessions.{played, reports_of};
ghost use Rattle.agreements.specs.Agreement.{parts_in, agreed_on};
ghost use Rattle.machine.specs.Private.{admission, admitted, not_before, at_rest, passage, silent, reply_of, stepped_in, ended_call, ticked_with, naming, in_state, arguments, FoundIn, HandlerOf, groups_in, ran_on, handled_by, scheduled_state, left_by, concluded};

use contract::{Contract, Event, Function};
use evaluation::{Holdings, Memory};
use numbers::Value;
use outcomes::{Outcome, Rule, Stepped};
use questions::Question;
use state::{Pending, State};
use statements::{Label, Runner};
use tables::Passed;

mod turns;

// What came of a session: the state after it, how many bytes were taken, and how many result lines there are. `many` 0 means that nothing is
// due and no line is whole.
#[derive(Clone, Copy)]
pub struct Played {
    pub state: State,
    pub used: usize,
    pub many: usize,
}

// What came of a step, and how many labels it sent; they stand in a lent array of words.
#[derive(Clone, Copy)]
struct Reply {
    outcome: Outcome,
    count: usize,
}

// What is taken up next: the event that is due, by its place among the pending ones, or a line, by the place of its LF.
// Kept: (d) both variants are something that is taken up, and that nothing is stands as `None` around it: no second `Option`.
#[derive(Clone, Copy)]
enum Next {
    Event(usize),
    Line(usize),
}

// Where a handler's block stands, and the state after it.
// Kept: (d) of an event that is not there `handler_of` makes an empty block, and state 0 after it, as the definition does; no step gets there, since
// question 4 refuses a state with such an event. An `Option` would be opened in `handle`, with an answer for a case that never comes.
#[derive(Clone, Copy)]
struct Handler {
    from: usize,
    end: usize,
    last: usize,
    // The number of the first asset parameter of its function.
    first_parameter: usize,
}

// A table that passes, and the groups of its contract.
#[derive(Clone, Copy)]
struct Whole<'a> {
    terms: Passed<'a>,
    groups: &'a [u16],
    ghost numbered: { groups.now ≡ groups_in terms.table.now },
}

// Function n of a table that passes, which is called, and its row.
#[derive(Clone, Copy)]
struct Called<'a> {
    whole: Whole<'a>,
    n: usize,
    row: Function,
    ghost read: { row ≡ function_row_of whole.terms.table.now n },
    ghost inside: { n < word_at whole.terms.table.now 6 },
}

// ---- Answers.

// No labels.
// Kept: (d) ten functions, from `take_up` and `call_on` down to `run_handler` and `perform`, ask that the lent labels are blank, which holds at the
// start of a step alone. A struct of the list with that fact would be made anew at each turn, and by `call` and `fire`, and be taken apart by
// the two that fill the list; what the list holds after would be a clause of each function as it is now.
fn clear(labels: &mut [i64; Label::ROOM])
    ensures { labels_from labels.new ≡ no_labels }
{
    *labels = [0i64; Label::ROOM];
}

// What came of a call, by how many labels it sent.
fn call_reply(r: Result<usize, Question>) -> Reply
    ensures { result ≡ reply_of r }
{
    match r {
        Ok(count) => Reply {
            outcome: Outcome::Accepted(Rule::Call),
            count,
        },
        Err(question) => silent(Outcome::Refused(question)),
    }
}

// What came of a step that sends nothing.
fn silent(outcome: Outcome) -> Reply
    ensures { result ≡ silent outcome }
{
    Reply { outcome, count: 0 }
}

// An answer with its state and its labels.
fn with_labels(r: Reply, s: State, labels: &[i64; Label::ROOM]) -> Stepped
    ensures { result ≡ stepped_in r s labels.now }
{
    Stepped {
        outcome: r.outcome,
        state: s,
        labels: outcomes::labels_of(labels),
        count: r.count,
    }
}

// ---- Tick and jump.

// The first two questions of a tick, a jump and a call, by the event that is due: is the contract agreed, and is there none?
#[tactic(auto, unfolding(crate::specs::Private::at_rest, laws::specs::Choice::pick))]
fn at_rest(s: &State, due: Option<usize>) -> Result<(), Question>
    ensures { result ≡ at_rest s.now due }
{
    if !s.agreed {
        return Err(Question::Agreed);
    }
    if due.is_some() {
        return Err(Question::NothingDue);
    }
    Ok(())
}

// A tick on a state, by the event that is due: it goes by that alone, so it has no table.
fn tick_on(s: &mut State, due: Option<usize>) -> Result<(), Question>
    ensures { answered (passage result) s.new ≡ ticked_with s.old due }
{
    at_rest(s, due)?;
    let clock = s.clock;
    if State::TOP <= clock {
        return Err(Question::ClockBelowTop);
    }
    s.pass(clock + 1);
    Ok(())
}

// A jump on a contract's state, by the event that is due: its cost goes by the pending events, however far it goes.
fn jump_on(table: &[u64], s: &mut State, due: Option<usize>, to: i64) -> Result<(), Question>
    requires { due ≡ due_in (contract_of table.now) s.old }
    ensures { answered (passage result) s.new ≡ jumped (contract_of table.now) s.old to }
{
    at_rest(s, due)?;
    let Some(time) = not_before(s.clock, to) else {
        return Err(Question::TimeNotPast);
    };
    let stop = s.next_stop(table, time);
    s.pass(stop);
    Ok(())
}

// What came of a tick or a jump.
// Kept: (d) no conversion between two types: which rule was used is said here.
fn passage(r: Result<(), Question>) -> Outcome
    ensures { result ≡ passage r }
{
    match r {
        Ok(()) => Outcome::Accepted(Rule::Tick),
        Err(question) => Outcome::Refused(question),
    }
}

// ---- Firing.

// Event j of those from `first` on. A row past the table's end holds zeros, and no table is so long that the greatest place is in it.
// Kept: (d) `Pending::row` looks for a pending event, which has its time; this is asked for the guard that gives the time.
fn event_row(table: &[u64], first: usize, j: usize) -> Event
    ensures { result ≡ event_row_of table.now (first + j) }
{
    contract::event_at(table, first.saturating_add(j))
}

// The handler of a pending event; of none where the contract has no such event.
fn handler_of(table: &[u64], p: Pending) -> Handler
    ensures { HandlerOf table.now (event_of (contract_of table.now) p) p.function result }
{
    let first_parameter = Contract::ASSETS + p.function as usize * Function::PARAMETERS;
    let found = p.row(table);
    let Some(e) = found else {
        return Handler {
            from: 0,
            end: 0,
            last: 0,
            first_parameter,
        };
    };
    let node = contract::node_at(table, e.node);
    Handler {
        from: e.node.saturating_sub(node.argument as usize),
        end: e.node,
        last: e.last,
        first_parameter,
    }
}

impl Whole<'_> {
    // A handler runs with no value parameters and no asset parameters, on the state without its event.
    // Kept: (d) `perform` too makes a runner of copies; but its holdings are lent to it, and what comes last is `finish`, which may refuse. One
    // function would take a closure of what comes last, and say in a clause what that does.
    fn run_handler(&self, s: &mut State, h: Handler, labels: &mut [i64; Label::ROOM]) -> Reply
        requires { labels_from labels.old ≡ no_labels }
        ensures { stepped_in result s.new labels.new ≡ handled_by s.old h.last (ran_on (group_at self.now.groups.now h.first_parameter) s.old (block_between self.now.terms.table.now h.from h.end)) }
    {
        let none = [0i64; 0];
        let mut kinds = s.kinds;
        let mut numbers = s.numbers;
        let mut texts = s.texts;
        let mut holdings = holdings::holdings_of(&s.assets, &none);
        let mut runner = Runner {
            table: self.terms.table,
            kinds: &mut kinds,
            numbers: &mut numbers,
            texts: &mut texts,
            holdings: &mut holdings,
            labels: &mut *labels,
            count: 0,
            values: &none,
            clock: s.clock,
            groups: self.groups,
            first_parameter: h.first_parameter,
        };
        let ran = runner.run(h.from, h.end);
        let count = runner.count;
        if let Err(question) = ran {
            clear(labels);
            return silent(Outcome::Failed(question));
        }
        holdings::reach(s, &runner.memory(), h.last);
        Reply {
            outcome: Outcome::Accepted(Rule::EventMatch),
            count,
        }
    }

    // The event at place k is fired.
    fn handle(&self, s: &mut State, k: usize, labels: &mut [i64; Label::ROOM]) -> Reply
        requires k_in_bounds { k < length (live s.old) }
        requires no_labels { labels_from labels.old ≡ no_labels }
        ensures { stepped_in result s.new labels.new ≡ fire_by_due (contract_of self.now.terms.table.now) s.old (Some k) }
    {
        let p = s.live()[k];
        let h = handler_of(self.terms.table, p);
        s.remove(k);
        self.run_handler(s, h, labels)
    }

    // A firing on a contract's state, by the event that is due.
    fn fire_on(&self, s: &mut State, due: Option<usize>, labels: &mut [i64; Label::ROOM]) -> Reply
        requires due { due ≡ due_in (contract_of self.now.terms.table.now) s.old }
        requires no_labels { labels_from labels.old ≡ no_labels }
        ensures { stepped_in result s.new labels.new ≡ fired (contract_of self.now.terms.table.now) s.old }
    {
        if !s.agreed {
            return silent(Outcome::Refused(Question::Agreed));
        }
        let Some(k) = due else {
            return silent(Outcome::Refused(Question::SomethingDue));
        };
        self.handle(s, k, labels)
    }
}

// ---- Call: the function that is called.

impl Whole<'_> {
    // Whether function i is called by this name, by this party, in this state.
    // Kept: (d) here, in `find_function` and in `call_on` caller and function go side by side as the public `call` has them: a struct of both would be
    // made twice, there and in `take_call`, to be taken apart here.
    fn answers_to(&self, i: usize, state: usize, caller: &[u8], function: &[u8]) -> bool
        requires { i < word_at self.now.terms.table.now 6 }
        ensures { result ≡ answers_to (contract_of self.now.terms.table.now) (in_state state) (naming caller.now function.now) (function_at self.now.terms.table.now i) }
    {
        let table = self.terms.table;
        let row = contract::function_at(table, i);
        row.state == state
            && table_names::same_name(
                table,
                contract::PARTIES + row.party * contract::NAME_WORDS,
                caller,
            )
            && table_names::same_name(
                table,
                contract::FUNCTIONS + i * Function::WORDS + Function::NAME,
                function,
            )
    }

    // The first function that is called.
    fn find_function(&self, state: usize, caller: &[u8], function: &[u8]) -> Option<usize>
        ensures { FoundIn self.now.terms.table.now state (naming caller.now function.now) result }
    {
        let count = contract::head(self.terms.table).functions;
        (0..count).find(|i| self.answers_to(*i, state, caller, function))
    }
}

// ---- Call: its arguments, its body, its events.

// A time, if it is not before the clock.
#[tactic(auto, unfolding(crate::specs::Private::not_before, laws::specs::Choice::pick))]
fn not_before(clock: u64, z: i64) -> Option<u64>
    ensures { result ≡ not_before clock z }
{
    u64::try_from(z).ok().filter(|time| clock <= *time)
}

// The precondition in the n nodes from `first` on; an omitted one is true.
fn precondition(memory: &Memory, first: usize, n: usize) -> Result<bool, Question>
    requires { first + n < 4097 }
    ensures { result ≡ precondition_holds (lent memory.now) (precondition_at memory.now.table.now first n) }
{
    if n == 0 {
        return Ok(true);
    }
    memory.truth(first + n - 1)
}

// The time guard of event j of those from `first` on.
fn guard(memory: &Memory, first: usize, j: usize) -> Result<Value, Question>
    ensures { result ≡ value_of (lent memory.now) (event_at memory.now.table.now (first + j)).guard }
{
    let e = event_row(memory.table, first, j);
    let node = contract::node_at(memory.table, e.node);
    let k = e
        .node
        .saturating_sub(node.argument as usize)
        .saturating_sub(1);
    memory.value(k)
}

impl Called<'_> {
    // Its events join those that are pending, if there is room for so many more; where a question refuses, the state that is left is free.
    fn schedule(&self, s: &mut State, memory: &Memory) -> Result<(), Question>
        ensures { left_by result s.new ≡ scheduled_state s.old (schedule (memory_of memory.now.kinds.now memory.now.numbers.now memory.now.texts.now memory.now.holdings.now memory.now.values.now s.old.clock) s.old.clock self.now.n 0 (function_at self.now.whole.terms.table.now self.now.n).events) }
    {
        let row = self.row;
        // The caller's memory has this table and clock too; so no clause has to say it.
        let memory = Memory {
            table: self.whole.terms.table,
            clock: s.clock,
            ..*memory
        };
        let room = State::PENDING - s.live().len();
        s.clear_rest();
        let mut joined: usize = 0;
        for j in 0..row.events {
            let answer = guard(&memory, row.event, j);
            // Kept: (a) document 01 opens an evaluation answer by let .. else.
            let Ok(value) = answer else {
                return Err(answer.unwrap_err());
            };
            let Value::Integer(z) = value else {
                return Err(Question::OperandKind);
            };
            if let Some(time) = not_before(memory.clock, z) {
                s.join(Pending {
                    function: self.n as u8,
                    event: j as u8,
                    time,
                });
                joined += 1;
            }
        }
        let full = room < joined;
        if full {
            return Err(Question::PendingRoom);
        }
        Ok(())
    }

    // Its events are scheduled, and the call ends.
    // Kept: (b) a state is copied only where an event may be refused: with a copy of it for each call, changed and copied back, a desk took
    // 68,052,865 instructions for a mixed session, where it takes 64,424,505 (two builds without proof of one tree).
    fn conclude(&self, s: &mut State, memory: &Memory) -> Result<(), Question>
        ensures { (n : ℕ) → (ls : List Label) → ended_call result s.new ls n ≡ concluded s.old self.now.n (function_at self.now.whole.terms.table.now self.now.n) memory.now.values.now (work_from memory.now.kinds.now memory.now.numbers.now memory.now.texts.now memory.now.holdings.now ls n None) }
    {
        let row = self.row;
        let no_events = row.events == 0;
        if no_events {
            s.clear_rest();
        } else {
            let before = *s;
            if let Err(question) = self.schedule(s, memory) {
                *s = before;
                return Err(question);
            }
        }
        holdings::reach(s, memory, row.last);
        Ok(())
    }

    // The body has run, and no question refused.
    fn finish(&self, s: &mut State, memory: &Memory) -> Result<(), Question>
        ensures { (n : ℕ) → (ls : List Label) → ended_call result s.new ls n ≡ finished s.old self.now.n (function_at self.now.whole.terms.table.now self.now.n) memory.now.values.now (work_from memory.now.kinds.now memory.now.numbers.now memory.now.texts.now memory.now.holdings.now ls n None) }
    {
        if holdings::parameters_empty(memory.holdings) {
            self.conclude(s, memory)
        } else {
            Err(Question::ParametersEmpty)
        }
    }

    // Its body runs, and the call ends.
    fn perform(
        &self,
        s: &mut State,
        holdings: &mut [u64; Holdings::MOST],
        values: &[i64],
        labels: &mut [i64; Label::ROOM],
    ) -> Result<usize, Question>
        requires { labels_from labels.old ≡ no_labels }
        ensures { stepped_in (reply_of result) s.new labels.new ≡ by_precondition (place_groups (contract_of self.now.whole.terms.table.now) self.now.n) s.old self.now.n (function_at self.now.whole.terms.table.now self.now.n) values.now (work_from s.old.kinds s.old.numbers s.old.texts holdings.old no_labels 0 None) (Ok true) }
    {
        let row = self.row;
        let mut kinds = s.kinds;
        let mut numbers = s.numbers;
        let mut texts = s.texts;
        let from = row.first + row.precondition;
        let mut runner = Runner {
            table: self.whole.terms.table,
            kinds: &mut kinds,
            numbers: &mut numbers,
            texts: &mut texts,
            holdings: &mut *holdings,
            labels: &mut *labels,
            count: 0,
            values,
            clock: s.clock,
            groups: self.whole.groups,
            first_parameter: Contract::ASSETS + self.n * Function::PARAMETERS,
        };
        let ran = runner.run(from, from + row.body);
        let count = runner.count;
        if let Err(question) = ran {
            clear(labels);
            return Err(question);
        }
        if let Err(question) = self.finish(s, &runner.memory()) {
            clear(labels);
            return Err(question);
        }
        Ok(count)
    }

    // It is called with these arguments.
    fn invoke(
        &self,
        s: &mut State,
        values: &[i64],
        assets: &[i64],
        labels: &mut [i64; Label::ROOM],
    ) -> Result<usize, Question>
        requires { labels_from labels.old ≡ no_labels }
        ensures { stepped_in (reply_of result) s.new labels.new ≡ invoked (place_groups (contract_of self.now.whole.terms.table.now) self.now.n) s.old (arguments values.now assets.now) self.now.n (function_at self.now.whole.terms.table.now self.now.n) }
    {
        let row = self.row;
        if values.len() != row.values || assets.len() != row.parameters {
            return Err(Question::ArgumentCount);
        }
        if !holdings::none_negative(assets) {
            return Err(Question::AssetArguments);
        }
        let mut holdings = holdings::holdings_of(&s.assets, assets);
        let memory = Memory {
            table: self.whole.terms.table,
            kinds: &s.kinds,
            numbers: &s.numbers,
            texts: &s.texts,
            holdings: &holdings,
            values,
            clock: s.clock,
        };
        let truth = precondition(&memory, row.first, row.precondition);
        // Kept: (a) document 01 opens an evaluation answer by let .. else.
        let Ok(holds) = truth else {
            return Err(truth.unwrap_err());
        };
        if !holds {
            return Err(Question::Precondition);
        }
        self.perform(s, &mut holdings, values, labels)
    }
}

impl Whole<'_> {
    // A call on a contract's state, by the event that is due.
    fn call_on(
        &self,
        s: &mut State,
        due: Option<usize>,
        caller: &[u8],
        function: &[u8],
        values: &[i64],
        assets: &[i64],
        labels: &mut [i64; Label::ROOM],
    ) -> Result<usize, Question>
        requires due { due ≡ due_in (contract_of self.now.terms.table.now) s.old }
        requires no_labels { labels_from labels.old ≡ no_labels }
        ensures { stepped_in (reply_of result) s.new labels.new ≡ called (contract_of self.now.terms.table.now) s.old (record { caller = caller.now; function = function.now; values = values.now; assets = assets.now }) }
    {
        let table = self.terms.table;
        at_rest(s, due)?;
        let found = self.find_function(s.state, caller, function);
        let Some(n) = found else {
            return Err(Question::FunctionKnown);
        };
        let row = contract::function_at(table, n);
        let called = Called {
            whole: *self,
            n,
            row,
        };
        called.invoke(s, values, assets, labels)
    }
}

// ---- The steps.

// The table, or the first question of every step that is answered by no.
// Kept: (d) each public step, here and below, begins with a call of this: one function around the five would take a closure, with a function
// of the contract beside it in its contract, in place of three lines.
#[tactic(auto, unfolding(crate::specs::Private::admission, laws::specs::Choice::pick))]
fn admit<'a>(table: &'a [u64], s: &State, room: usize) -> Result<Passed<'a>, Question>
    ensures { admitted result ≡ admission table.now room s.now }
{
    let Some(terms) = Passed::of(table) else {
        return Err(Question::TableCheck);
    };
    if !s.in_range(table) {
        return Err(Question::StateRanges);
    }
    let short = room < Label::MOST;
    if short {
        return Err(Question::LabelRoom);
    }
    Ok(terms)
}

// Agreement: the parties' clauses, with the fields' values.
// Kept: (a) the public steps take table, state and room, a line with its parts, spans and values, or a call's names, values and assets, each
// by itself, as document 01 has them: a struct of them would ask more of callers.
pub fn agree(
    table: &[u64],
    s: State,
    room: usize,
    line: &[u8],
    parts: &[usize],
    spans: &[usize],
    values: &[i64],
) -> Stepped
    ensures { result ≡ step table.now room s (λ c. agreed_on c s (parts_in line.now (length parts.now / 4) parts.now spans.now values.now)) }
{
    if let Err(q) = admit(table, &s, room) {
        return outcomes::refuse(s, q);
    }
    let mut next = s;
    let outcome = agreements::agree_on(table, &mut next, line, parts, spans, values);
    outcomes::answer(outcome, next)
}

// A call by a party, with its values and assets.
pub fn call(
    table: &[u64],
    s: State,
    room: usize,
    caller: &[u8],
    function: &[u8],
    values: &[i64],
    assets: &[i64],
) -> Stepped
    ensures { result ≡ step table.now room s (λ c. called c s (record { caller = caller.now; function = function.now; values = values.now; assets = assets.now })) }
{
    let terms = match admit(table, &s, room) {
        Ok(terms) => terms,
        Err(q) => return outcomes::refuse(s, q),
    };
    let groups = groups::groups_of(&terms);
    let whole = Whole {
        terms,
        groups: &groups,
    };
    let due = s.first_due(table);
    let mut next = s;
    let mut labels = [0i64; Label::ROOM];
    let r = whole.call_on(
        &mut next,
        due,
        caller,
        function,
        values,
        assets,
        &mut labels,
    );
    with_labels(call_reply(r), next, &labels)
}

// The first due event is fired.
pub fn fire(table: &[u64], s: State, room: usize) -> Stepped
    ensures { result ≡ step table.now room s (λ c. fired c s) }
{
    let terms = match admit(table, &s, room) {
        Ok(terms) => terms,
        Err(q) => return outcomes::refuse(s, q),
    };
    let groups = groups::groups_of(&terms);
    let whole = Whole {
        terms,
        groups: &groups,
    };
    let due = s.first_due(table);
    let mut next = s;
    let mut labels = [0i64; Label::ROOM];
    let r = whole.fire_on(&mut next, due, &mut labels);
    with_labels(r, next, &labels)
}

// The clock rises by 1.
pub fn tick(table: &[u64], s: State, room: usize) -> Stepped
    ensures { result ≡ step table.now room s (λ c. ticked c s) }
{
    if let Err(q) = admit(table, &s, room) {
        return outcomes::refuse(s, q);
    }
    let due = s.first_due(table);
    let mut next = s;
    let r = tick_on(&mut next, due);
    outcomes::answer(passage(r), next)
}

// The clock rises until an event is due, and to `to` at most.
pub fn jump(table: &[u64], s: State, room: usize, to: i64) -> Stepped
    ensures { result ≡ step table.now room s (λ c. jumped c s to) }
{
    if let Err(q) = admit(table, &s, room) {
        return outcomes::refuse(s, q);
    }
    let due = s.first_due(table);
    let mut next = s;
    let r = jump_on(table, &mut next, due, to);
    outcomes::answer(passage(r), next)
}

// Whenever an event is due it is fired, else the next whole line of these bytes is taken, while there is room for the result lines of any
// step; they are handed on as four numbers and an integer each. Called again with the rest of the bytes and the state that it gave, it goes
// on; it is done when `many` is 0.
// Kept: (a) the numbers and the integers are the two lent lists of the interface, and question 53 judges what they name when they are
// written: a list of reports would be a narrower type.
pub fn play(
    table: &[u64],
    s: State,
    input: &[u8],
    numbers: &mut [u64],
    integers: &mut [i64],
) -> Result<Played, Question>
    ensures value { result ≡ played table.now s input.now (room_in (length numbers.old) (length integers.old)) }
    ensures numbers_after { numbers.new ≡ sets numbers.old 0 (coded_all (reports_of table.now s input.now (room_in (length numbers.old) (length integers.old)))) }
    ensures integers_after { integers.new ≡ sets integers.old 0 (integers_of (reports_of table.now s input.now (room_in (length numbers.old) (length integers.old)))) }
{
    let room = turns::label_room(numbers, integers);
    let terms = admit(table, &s, room)?;
    let groups = groups::groups_of(&terms);
    let whole = Whole {
        terms,
        groups: &groups,
    };
    Ok(whole.play_on(s, input, numbers, integers))
}
