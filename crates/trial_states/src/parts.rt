//! A part of a state, read from a case and set.
ghost use Rattle.std.specs.Prelude.{◌≡◌, ◌%◌};
ghost use Rattle.trial_states.specs.Parts.{head_of, field_of, asset_of, event_of};
ghost use Rattle.trial_states.specs.Parts.{four_naturals, head_in, field_in, asset_in, event_in};

use state::{Pending, State};
use std::str::FromStr;
use trial_text::{leading_number, number_at};

/// A part of a state that a case sets, in range or not.
#[derive(Clone, Copy)]
pub enum Part {
    /// The state's own numbers; `pending` is how many events are.
    // Kept: (d) `agreed` as `State` has it: question 4 judges it with the state and the pending events.
    Head {
        agreed: bool,
        state: usize,
        clock: u64,
        pending: usize,
    },
    /// The kind, the integer and the string of the field at a place.
    Field {
        at: usize,
        kind: u8,
        number: i64,
        text: u8,
    },
    /// What the asset at a place holds.
    Asset {
        at: usize,
        amount: u64,
    },
    /// The pending event at a place.
    Event {
        at: usize,
        event: Pending,
    },
}

/// A text that names no part.
#[derive(Clone, Copy)]
pub struct NoPart;

// A part of each kind, by the numbers of a text's words after the first.
fn head_of(s: &str) -> Part
    ensures { result ≡ head_of s.now }
{
    Part::Head {
        agreed: number_at::<u64>(s, 1) != 0,
        state: number_at(s, 2),
        clock: number_at(s, 3),
        pending: number_at(s, 4),
    }
}

fn field_of(s: &str) -> Part
    ensures { result ≡ field_of s.now }
{
    Part::Field {
        at: number_at(s, 1),
        kind: number_at(s, 2),
        number: number_at(s, 3),
        text: number_at(s, 4),
    }
}

fn asset_of(s: &str) -> Part
    ensures { result ≡ asset_of s.now }
{
    Part::Asset {
        at: number_at(s, 1),
        amount: number_at(s, 2),
    }
}

fn event_of(s: &str) -> Part
    ensures { result ≡ event_of s.now }
{
    Part::Event {
        at: number_at(s, 1),
        event: Pending {
            function: number_at(s, 2),
            event: number_at(s, 3),
            time: number_at(s, 4),
        },
    }
}

impl FromStr for Part {
    ghost use Rattle.std.specs.Result.{result_ok};
    ghost use Rattle.trial_states.specs.Parts.{part_of};

    type Err = NoPart;

    ghost from_str_gives = { λ text r. result_ok r ≡ part_of text };

    fn from_str(s: &str) -> Result<Part, NoPart> {
        match s.as_bytes().first() {
            Some(b'h') => Ok(head_of(s)),
            Some(b'v') => Ok(field_of(s)),
            Some(b'a') => Ok(asset_of(s)),
            Some(b'e') => Ok(event_of(s)),
            _ => Err(NoPart),
        }
    }
}

// ---- of any bytes

// The first four numbers.
fn four_numbers(text: &[u8]) -> [u64; 4]
    ensures { result ≡ four_naturals text.now }
{
    let (first, text) = leading_number(text);
    let (second, text) = leading_number(text);
    let (third, text) = leading_number(text);
    let (fourth, _) = leading_number(text);
    [first, second, third, fourth]
}

// The lowest eight bits of a number.
fn low_byte(n: u64) -> u8
    ensures { result ≡ n % 256 }
{
    (n % 256) as u8
}

// A part of each kind, by these numbers.
fn head_in(text: &[u8]) -> Part
    ensures { result ≡ head_in text.now }
{
    let [agreed, state, clock, pending] = four_numbers(text);
    Part::Head {
        agreed: agreed != 0,
        state: state as usize,
        clock,
        pending: pending as usize,
    }
}

fn field_in(text: &[u8]) -> Part
    ensures { result ≡ field_in text.now }
{
    let [at, kind, number, text] = four_numbers(text);
    Part::Field {
        at: at as usize,
        kind: low_byte(kind),
        number: 0i64.saturating_add_unsigned(number),
        text: low_byte(text),
    }
}

fn asset_in(text: &[u8]) -> Part
    ensures { result ≡ asset_in text.now }
{
    let [at, amount, ..] = four_numbers(text);
    Part::Asset {
        at: at as usize,
        amount,
    }
}

fn event_in(text: &[u8]) -> Part
    ensures { result ≡ event_in text.now }
{
    let [at, function, event, time] = four_numbers(text);
    Part::Event {
        at: at as usize,
        event: Pending {
            function: low_byte(function),
            event: low_byte(event),
            time,
        },
    }
}

impl Part {
    ghost use Rattle.trial_states.specs.Parts.{part_in, with_part, with_named, with_read};

    /// The part that any bytes name by their first letter; the byte behind that is passed over, and numbers stand behind it.
    pub fn of(text: &[u8]) -> Option<Part>
        ensures { result ≡ part_in text.now }
    {
        match text {
            [b'h', _, numbers @ ..] => Some(head_in(numbers)),
            [b'v', _, numbers @ ..] => Some(field_in(numbers)),
            [b'a', _, numbers @ ..] => Some(asset_in(numbers)),
            [b'e', _, numbers @ ..] => Some(event_in(numbers)),
            _ => None,
        }
    }

    /// The state with this part. A place past the slots changes nothing.
    pub fn put(self, s: State) -> State
        ensures { result ≡ with_part self s }
    {
        let mut next = s;
        match self {
            Part::Head {
                agreed,
                state,
                clock,
                pending,
            } => {
                next.agreed = agreed;
                next.state = state;
                next.clock = clock;
                next.pending = pending;
            }
            Part::Field {
                at,
                kind,
                number,
                text,
            } => {
                items::set(&mut next.kinds, at, kind);
                items::set(&mut next.numbers, at, number);
                items::set(&mut next.texts, at, text);
            }
            Part::Asset { at, amount } => items::set(&mut next.assets, at, amount),
            Part::Event { at, event } => items::set(&mut next.events, at, event),
        }
        next
    }

    /// The state with the part that a text names. A text that names none changes nothing.
    pub fn put_named(text: &str, s: State) -> State
        ensures { result ≡ with_named text.now s }
    {
        match text.parse::<Part>() {
            Ok(part) => part.put(s),
            Err(NoPart) => s,
        }
    }

    /// The state with the part that any bytes name, as `of` reads them. Bytes that name none change nothing.
    pub fn put_read(text: &[u8], s: State) -> State
        ensures { result ≡ with_read text.now s }
    {
        match Part::of(text) {
            Some(part) => part.put(s),
            None => s,
        }
    }
}

#[cfg(test)]
mod tests {
    use super::*;

    #[test]
    fn texts_name_parts(rt: HostRuntime) {
        let mut s = State::fresh(7);
        for text in ["head 1 2 30 4", "v 3 2 -1250 5", "a 1 600", "e 2 1 0 44"] {
            s = Part::put_named(text, s);
        }
        assert!(rt; s.agreed && s.state == 2 && s.clock == 30 && s.pending == 4);
        assert!(rt; s.kinds[3] == 2 && s.numbers[3] == -1250 && s.texts[3] == 5);
        assert_eq!(rt; s.assets[1], 600);
        assert!(rt;
            s.events[2]
                == Pending {
                    function: 1,
                    event: 0,
                    time: 44
                }
        );
        assert_eq!(rt; Part::put_named("x 1 2", s).assets[1], 600);
    }

    #[test]
    fn texts_are_parsed(rt: HostRuntime) {
        assert!(rt;
            matches!(
                "a 1 600".parse::<Part>(),
                Ok(Part::Asset { at: 1, amount: 600 })
            )
        );
        assert!(rt; matches!("x 1 600".parse::<Part>(), Err(NoPart)));
        assert!(rt; matches!("".parse::<Part>(), Err(NoPart)));
    }
}
