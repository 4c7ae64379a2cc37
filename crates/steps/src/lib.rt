// The machine's steps with the labels in a lent slice of entries: first to last, and entries after them keep what they held.
#![tactic(auto)]

ghost use Rattle.std.specs.Prelude.{◌≡◌, length};
ghost use Rattle.machine.specs.Steps.{step, fired, ticked, jumped};
ghost use Rattle.steps.specs.Left.{count_of, left_of, slots_of, agree_of, call_of};

use outcomes::{Outcome, Stepped};
use state::State;
use statements::Label;

// What a step leaves beside its labels: what came of it, the state, and how many labels there are.
#[derive(Clone, Copy)]
pub struct Left {
    pub outcome: Outcome,
    pub state: State,
    pub count: usize,
}

// How many entries are written: none into a slice of fewer entries than a step may have labels, and no more than these.
fn count(slots: usize, n: usize) -> usize
    ensures { result ≡ count_of slots n }
{
    let short = slots < Label::MOST;
    if short { 0 } else { n.min(Label::MOST) }
}

// The first labels of a step go over the first entries, where there are entries for all that a step may have; the rest is left.
fn hand(r: Stepped, labels: &mut [Label]) -> Left
    ensures { (result ≡ left_of r) × (labels.new ≡ slots_of labels.old r) }
{
    let m = count(labels.len(), r.count);
    labels[..m].copy_from_slice(&r.labels[..m]);
    Left {
        outcome: r.outcome,
        state: r.state,
        count: r.count,
    }
}

// Agreement: the parties' clauses, with the fields' values.
// Kept: (a) each public step, here and below, takes what document 01 gives it by itself: a struct of a line with its parts, or of a call's
// names and arguments, would ask more of callers. (d) Each is a call of the machine and `hand`: a closure around the call is no shorter.
pub fn agree(
    table: &[u64],
    s: State,
    line: &[u8],
    parts: &[usize],
    spans: &[usize],
    values: &[i64],
    labels: &mut [Label],
) -> Left
    ensures { (result ≡ left_of (agree_of table.now (length labels.old) s line.now parts.now spans.now values.now)) × (labels.new ≡ slots_of labels.old (agree_of table.now (length labels.old) s line.now parts.now spans.now values.now)) }
{
    let r = machine::agree(table, s, labels.len(), line, parts, spans, values);
    hand(r, labels)
}

// A call by a party, with its values and assets.
pub fn call(
    table: &[u64],
    s: State,
    caller: &[u8],
    function: &[u8],
    values: &[i64],
    assets: &[i64],
    labels: &mut [Label],
) -> Left
    ensures { (result ≡ left_of (call_of table.now (length labels.old) s caller.now function.now values.now assets.now)) × (labels.new ≡ slots_of labels.old (call_of table.now (length labels.old) s caller.now function.now values.now assets.now)) }
{
    let r = machine::call(table, s, labels.len(), caller, function, values, assets);
    hand(r, labels)
}

// The first due event is fired.
pub fn fire(table: &[u64], s: State, labels: &mut [Label]) -> Left
    ensures { (result ≡ left_of (step table.now (length labels.old) s (λ c. fired c s))) × (labels.new ≡ slots_of labels.old (step table.now (length labels.old) s (λ c. fired c s))) }
{
    let r = machine::fire(table, s, labels.len());
    hand(r, labels)
}

// The clock rises by 1.
pub fn tick(table: &[u64], s: State, labels: &mut [Label]) -> Left
    ensures { (result ≡ left_of (step table.now (length labels.old) s (λ c. ticked c s))) × (labels.new ≡ slots_of labels.old (step table.now (length labels.old) s (λ c. ticked c s))) }
{
    let r = machine::tick(table, s, labels.len());
    hand(r, labels)
}

// The clock rises until an event is due, and to `to` at most.
pub fn jump(table: &[u64], s: State, to: i64, labels: &mut [Label]) -> Left
    ensures { (result ≡ left_of (step table.now (length labels.old) s (λ c. jumped c s to))) × (labels.new ≡ slots_of labels.old (step table.now (length labels.old) s (λ c. jumped c s to))) }
{
    let r = machine::jump(table, s, labels.len(), to);
    hand(r, labels)
}
