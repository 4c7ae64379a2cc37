// The state of a contract: the public steps take one and give one, and below them it is lent.
#![tactic(auto)]

ghost use Rattle.std.specs.Prelude.{◌≡◌, true, ◌&&◌, ◌+◌, ◌-◌, ◌≤◌, eqb, leb, ltb, length};
ghost use Rattle.laws.specs.Choice.{pick};
ghost use Rattle.contract.specs.Limits.{top, max_fields, max_assets};
ghost use Rattle.laws.specs.Lists.{all_below};
ghost use Rattle.contract.specs.Decode.{contract_of};
ghost use Rattle.state.specs.States.{fresh_at, event_of, row_of, field_ok, field_slot_ok, asset_slot_ok, max_pending, pending_ok, is_blank, pending_slot_ok, state_ok, stands_before, due_in, live, with_pending, removed, joined_by, passed_times, times_until_due};
ghost use Rattle.state.specs.Private.{not_dropped, comes_due, due_at, takes_over};

use contract::{Contract, Event};
use evaluation::FieldKind;

// A pending event: its function, which of that function's events it is, and its time.
#[derive(Clone, Copy, PartialEq, Eq)]
pub struct Pending {
    pub function: u8,
    pub event: u8,
    pub time: u64,
}

// A slot that is not in use.
const BLANK: Pending = Pending {
    function: 0,
    event: 0,
    time: 0,
};

// Kept: (a) a state goes by value in fixed memory without heap: arrays by column in the narrowest types (docs/DECISIONS.md 20), and how many slots
// are in use. Its fields are public: callers fill them, and the definitions of agreements, steps, history and the published rules name them, so
// that a struct of the three columns, some twenty lines less in machine, holdings and statements, would be another state for all of these.
// Callers hand in any such struct and question 4 judges it, so that `agreed` and the counts are no `Option` and no type that says less.
#[derive(Clone, Copy)]
pub struct State {
    // Whether the state name is not none, and its number; 0 where it is none.
    pub agreed: bool,
    pub state: usize,
    // Of each field its kind; its integer; its string's number.
    pub kinds: [u8; Contract::FIELDS],
    pub numbers: [i64; Contract::FIELDS],
    pub texts: [u8; Contract::FIELDS],
    pub assets: [u64; Contract::ASSETS],
    pub clock: u64,
    // How many events are pending, and the events, oldest first.
    pub pending: usize,
    pub events: [Pending; State::PENDING],
}

impl State {
    // Pending events.
    pub const PENDING: usize = 64;
    // The greatest clock value and amount.
    pub const TOP: u64 = Contract::TOP;

    // The fresh state at a clock.
    #[tactic(auto, unfolding(crate::specs::States::fresh_at, laws::specs::Lists::repeated))]
    pub fn fresh(clock: u64) -> State
        ensures { result ≡ fresh_at clock }
    {
        State {
            agreed: false,
            state: 0,
            kinds: [0; Contract::FIELDS],
            numbers: [0; Contract::FIELDS],
            texts: [0; Contract::FIELDS],
            assets: [0; Contract::ASSETS],
            clock,
            pending: 0,
            events: [BLANK; State::PENDING],
        }
    }

    // The pending events, oldest first.
    pub fn live(&self) -> &[Pending]
        ensures value { result.now ≡ live self.now }
        ensures at_most { length result.now ≤ max_pending }
    {
        &self.events[..self.pending.min(State::PENDING)]
    }
}

// ---- A pending event.

impl Pending {
    // Its row; none where the contract has no such event. A row past the table's end holds zeros, and no table is so long that the greatest place is
    // in it.
    #[tactic(auto, using(crate::proofs::Rows::row_at_most), unfolding(crate::specs::States::row_of, laws::specs::Choice::pick))]
    pub fn row(self, table: &[u64]) -> Option<Event>
        ensures { result ≡ row_of table.now self }
    {
        let function = self.function as usize;
        let event = self.event as usize;
        if contract::head(table).functions <= function {
            return None;
        }
        let row = contract::function_at(table, function);
        if row.events <= event {
            return None;
        }
        Some(contract::event_at(table, row.event.saturating_add(event)))
    }

    // Its state; 0 where the contract has no such event.
    // Kept: (a) `first_due` and `next_stop` are public, of any state, and by their definition an event that is not there has state 0 (`no_event`):
    // with `is_some_and` none such would be due in state 0, where the definition says that it is.
    fn state(self, table: &[u64]) -> usize
        ensures { result ≡ (event_of (contract_of table.now) self).state }
    {
        self.row(table).map_or(0, |e| e.state)
    }

    // Whether it is of the contract, and its time not before the clock.
    #[tactic(auto, using(crate::proofs::Rows::timely, crate::proofs::Rows::untimely), unfolding(crate::specs::States::pending_ok))]
    fn is_ok(self, table: &[u64], clock: u64) -> bool
        ensures { result ≡ pending_ok (contract_of table.now) clock self }
    {
        clock <= self.time && self.time <= State::TOP && self.row(table).is_some()
    }

    // Whether its slot is as it should be, in use or not.
    #[tactic(auto, unfolding(laws::specs::Choice::pick, crate::specs::States::is_blank))]
    fn slot_ok(self, table: &[u64], has: bool, clock: u64) -> bool
        ensures { result ≡ pick has (pending_ok (contract_of table.now) clock self) (is_blank self) }
    {
        if has {
            self.is_ok(table, clock)
        } else {
            self == BLANK
        }
    }

    // Whether it stands before another in the contract's text.
    #[tactic(auto, unfolding(crate::specs::States::stands_before, laws::specs::Choice::pick))]
    fn stands_before(self, q: Pending) -> bool
        ensures { result ≡ stands_before self q }
    {
        (self.function, self.event) < (q.function, q.event)
    }

    // Whether it takes the place of what was found so far: of nothing, or of an event that it stands before.
    fn takes_over(self, found: Option<(usize, Pending)>) -> bool
        ensures { result ≡ takes_over found self }
    {
        found.is_none_or(|(_, first)| self.stands_before(first))
    }

    // Whether it is due at a clock and in a state.
    #[tactic(auto, unfolding(crate::specs::Private::due_at))]
    fn due_at(self, table: &[u64], clock: u64, state: usize) -> bool
        ensures { result ≡ due_at (contract_of table.now) clock state self }
    {
        self.time == clock && self.state(table) == state
    }

    // Its time where it comes due in this state, from `from` on and before `stop`; else `stop`.
    #[tactic(auto, unfolding(crate::specs::Private::comes_due, laws::specs::Choice::pick))]
    fn sooner(self, table: &[u64], state: usize, from: u64, stop: u64) -> u64
        ensures { result ≡ pick (comes_due (contract_of table.now) state from stop self) self.time stop }
    {
        let comes = from <= self.time && self.time < stop && self.state(table) == state;
        if comes { self.time } else { stop }
    }

    // Whether it is not dropped while the clock rises from one value to another.
    #[tactic(auto, unfolding(crate::specs::Private::not_dropped))]
    fn stays(self, from: u64, to: u64) -> bool
        ensures { result ≡ not_dropped from to self.time }
    {
        self.time < from || to <= self.time
    }
}

// ---- Question 4.

// A field's value: nothing, an integer, or a string of the contract.
#[tactic(auto, unfolding(crate::specs::States::field_ok, laws::specs::Choice::pick))]
fn field_ok(strings: usize, kind: u8, number: i64, text: u8) -> bool
    ensures { result ≡ field_ok strings kind number text }
{
    match kind {
        FieldKind::NOTHING => number == 0 && text == 0,
        FieldKind::INTEGER => text == 0,
        FieldKind::STRING => number == 0 && (text as usize) < strings,
        _ => false,
    }
}

// The value of a field that the contract has, or of a slot beyond its fields.
#[tactic(auto, unfolding(laws::specs::Choice::pick))]
fn field_slot_ok(strings: usize, has: bool, kind: u8, number: i64, text: u8) -> bool
    ensures { result ≡ (field_ok strings kind number text && pick has true (eqb kind 0)) }
{
    field_ok(strings, kind, number, text) && (has || kind == FieldKind::NOTHING)
}

// The amount of an asset that the contract has, or of a slot beyond its assets.
#[tactic(auto, unfolding(laws::specs::Choice::pick))]
fn asset_slot_ok(has: bool, amount: u64) -> bool
    ensures { result ≡ pick has (leb amount top) (eqb amount 0) }
{
    if has {
        amount <= State::TOP
    } else {
        amount == 0
    }
}

impl State {
    // Kept: (d) a range over the slots, here and for the assets and the events below: a slot is tested by its number, and a field stands in three
    // lists.
    fn fields_ok(&self, strings: usize, used: usize) -> bool
        ensures { result ≡ all_below max_fields (field_slot_ok strings used self.now) }
    {
        (0..Contract::FIELDS).all(|i| field_slot_ok(
            strings,
            i < used,
            self.kinds[i],
            self.numbers[i],
            self.texts[i],
        ))
    }

    fn assets_ok(&self, used: usize) -> bool
        ensures { result ≡ all_below max_assets (asset_slot_ok used self.now) }
    {
        (0..Contract::ASSETS).all(|i| asset_slot_ok(i < used, self.assets[i]))
    }

    fn events_ok(&self, table: &[u64]) -> bool
        ensures { result ≡ all_below max_pending (pending_slot_ok (contract_of table.now) self.now) }
    {
        (0..State::PENDING).all(|i| self.events[i].slot_ok(table, i < self.pending, self.clock))
    }

    // Its number; unagreed, 0 and nothing pending.
    #[tactic(auto, unfolding(laws::specs::Choice::pick))]
    fn name_ok(&self, states: usize) -> bool
        ensures { result ≡ pick self.now.agreed (ltb self.now.state states) (eqb self.now.state 0 && eqb self.now.pending 0) }
    {
        if self.agreed {
            self.state < states
        } else {
            self.state == 0 && self.pending == 0
        }
    }

    // How many of n slots it may use: an unagreed one uses none.
    #[tactic(auto, unfolding(laws::specs::Choice::pick))]
    fn used(&self, n: usize) -> usize
        ensures { result ≡ pick self.now.agreed n 0 }
    {
        if self.agreed { n } else { 0 }
    }

    // Question 4: whether it is within its ranges and, unagreed, fresh.
    pub fn in_range(&self, table: &[u64]) -> bool
        ensures { result ≡ state_ok (contract_of table.now) self.now }
    {
        let c = contract::head(table);
        let few = self.pending <= State::PENDING;
        self.clock <= State::TOP
            && self.name_ok(c.states)
            && few
            && self.fields_ok(c.strings, self.used(c.fields))
            && self.assets_ok(self.used(c.assets))
            && self.events_ok(table)
    }
}

// ---- Due, and time passes.

impl State {
    // The place of the due event that stands first in the contract's text; of several that are the same event, the oldest's.
    // Kept: (c) tried by `filter` and `min_by_key` on the event's place in the text: which of two with one key is taken the library's contract tells
    // by the turns that it makes alone, so that the check found no proof, and one by hand would be this loop's.
    pub fn first_due(&self, table: &[u64]) -> Option<usize>
        ensures { result ≡ due_in (contract_of table.now) self.now }
    {
        let live = self.live();
        let mut found: Option<(usize, Pending)> = None;
        for (i, p) in live.iter().enumerate() {
            if p.due_at(table, self.clock, self.state) && p.takes_over(found) {
                found = Some((i, *p));
            }
        }
        found.map(|(i, _)| i)
    }

    // The first clock value, from its own on, at which an event is due, and `to` if none is due before it; its own where `to` is before that.
    pub fn next_stop(&self, table: &[u64], to: u64) -> u64
        ensures { result ≡ self.now.clock + times_until_due (contract_of table.now) (to - self.now.clock) self.now }
    {
        if to < self.clock {
            return self.clock;
        }
        self.live().iter().fold(to, |stop, p| p.sooner(table, self.state, self.clock, stop))
    }

    // Time passes until the clock is `to`; a state at or past it stays as it is.
    // Kept: (a) the events that stay move to the front by their places, since a library has no heap for a `Vec` and its `retain`. (b) They move within
    // the state: by an array of slots that is then copied into it a desk takes 0.6 per cent more instructions for a mixed session, and 13.2 for one of
    // ticks alone (two builds without proof of one tree).
    pub fn pass(&mut self, to: u64)
        ensures { self.new ≡ passed_times (to - self.old.clock) self.old }
    {
        let clock = self.clock;
        if to <= clock {
            return;
        }
        let n = self.live().len();
        let mut count = 0;
        for i in 0..n {
            let p = self.events[i];
            if p.stays(clock, to) {
                self.events[count] = p;
                count += 1;
            }
        }
        self.clock = to;
        self.pending = count;
        self.clear_rest();
    }
}

// ---- The pending events change.

impl State {
    // The slots after the last pending event become blank.
    pub fn clear_rest(&mut self)
        ensures value { self.new ≡ with_pending self.old (live self.old) }
        ensures few { self.new.pending ≤ max_pending }
    {
        let n = self.live().len();
        self.events[n..].fill(BLANK);
        self.pending = n;
    }

    // The pending event at place i is taken out; the slots after the last one become blank.
    pub fn remove(&mut self, i: usize)
        ensures { self.new ≡ removed self.old i }
    {
        let n = self.live().len();
        if i < n {
            self.events.copy_within(i + 1..n, i);
            self.pending = n - 1;
        }
        self.clear_rest();
    }

    // One more pending event, as the youngest, if there is room.
    #[tactic(auto, unfolding(crate::specs::States::joined_by, laws::specs::Choice::pick))]
    pub fn join(&mut self, p: Pending)
        ensures { self.new ≡ joined_by self.old p }
    {
        if self.pending < State::PENDING {
            self.events[self.pending] = p;
            self.pending += 1;
        }
    }
}
