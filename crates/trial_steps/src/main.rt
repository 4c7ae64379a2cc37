// Firings and jumps with the labels in a lent slice. Lines of standard input, numbers with one space between them:
//   w AT V V ..          words of the table from AT on
//   f CLOCK              the fresh state at a clock
//   s h AGREED STATE CLOCK PENDING, s v PLACE KIND NUMBER TEXT, s a PLACE AMOUNT, s e PLACE FUNCTION EVENT TIME
//                        the state's own numbers, a field, an asset, an event are set
//   e SLOTS              firing with a slice of up to 100 entries, entry i of kind 9, party i, value 1000 and group 9
//   j SLOTS T            jump to clock T with such a slice; a minus stands straight before T's digits
//   e SLOTS 1, j SLOTS T 1
//                        the next line has the state that it left, which is printed: clock, state, the pending events' times, oldest first
//   # ..                 print the line
// A step prints its line, what came of it, how many labels there are, and how many entries the slice kept; and then each entry
// that it did not keep: its place, kind, party, value, group. Without that last 1 the next line has the state from before it. Lines with a semicolon are contracts' texts.
// Expected results: to be read against document 01 (question 20, the labels' order; entries past them are kept); who worked them out, and how, is not recorded here.
// Those of jumps, of due events in the order of the text and of groups were worked out from document 02, F-3, F-4 and F-7, before they were run.
#![tactic(auto)]

use contract::Contract;
use state::State;
use statements::Label;
use std::io::Read;
use std::{array, io};
use steps::Left;
use trial_states::{Part, Said};
use trial_text::{integer, leading_number, store_leading_line};

// The bytes of standard input that are read.
const INPUT: u64 = 65536;

// The entries that there are to lend.
const ENTRIES: usize = 100;

// What the lines so far set up.
#[derive(Drop)]
struct Trial {
    table: Vec<u64>,
    state: State,
}

// ---- entries

// Entry i before a step.
fn mark(i: usize) -> Label {
    Label {
        kind: 9,
        party: i,
        value: 1000,
        group: 9,
    }
}

fn print_left(rt: &impl Print, left: &Left, labels: &[Label]) -> io::Result<()> {
    let kept = labels
        .iter()
        .enumerate()
        .filter(|(i, label)| **label == mark(*i))
        .count();
    println!(rt;
        ": {}, labels {}, kept {kept}",
        Said(left.outcome),
        left.count
    )?;
    for (i, label) in labels.iter().enumerate() {
        if *label != mark(i) {
            println!(rt;
                "  {i}: {} {} {} {}",
                label.kind, label.party, label.value, label.group
            )?;
        }
    }
    Ok(())
}

// A step with so many entries lent, if there are so many; the state that it leaves.
fn lend<F: FnOnce(&mut [Label]) -> Left>(
    rt: &impl Print,
    slots: usize,
    step: F,
) -> io::Result<Option<State>>
    requires { F.IsAlwaysCallable step }
{
    let mut labels: [Label; ENTRIES] = array::from_fn(mark);
    let Some(part) = labels.get_mut(..slots) else {
        println!(rt; ": ?")?;
        return Ok(None);
    };
    let left = step(part);
    print_left(rt, &left, part)?;
    Ok(Some(left.state))
}

// ---- lines

fn print_state(rt: &impl Print, s: &State) -> io::Result<()> {
    print!(rt; "  clock {}, state {}, times", s.clock, s.state)?;
    for event in s.events.iter().take(s.pending) {
        print!(rt; " {}", event.time)?;
    }
    println!(rt)
}

impl Trial {
    fn fire(&self, rt: &impl Print, slots: usize) -> io::Result<Option<State>> {
        lend(
            rt,
            slots,
            |labels| steps::fire(&self.table, self.state, labels),
        )
    }

    fn jump(&self, rt: &impl Print, slots: usize, to: i64) -> io::Result<Option<State>> {
        lend(
            rt,
            slots,
            |labels| steps::jump(&self.table, self.state, to, labels),
        )
    }

    // Takes the state that a step left, if the number after it says that it is handed on.
    fn go_on(&mut self, rt: &impl Print, after: Option<State>, text: &[u8]) -> io::Result<()> {
        if let Some(state) = after
            && leading_number(text).0 != 0
        {
            print_state(rt, &state)?;
            self.state = state;
        }
        Ok(())
    }

    // A line: its letter, and a text from its third byte on.
    fn take(&mut self, rt: &impl Print, line: &[u8]) -> io::Result<()> {
        let [kind, rest @ ..] = line else {
            return Ok(());
        };
        let text = rest.get(1..).unwrap_or(&[]);
        match kind {
            b'#' => {
                rt.write_all(line)?;
                println!(rt)?;
            }
            b'w' => store_leading_line(&mut self.table, text),
            b'f' => self.state = State::fresh(leading_number(text).0),
            b's' => self.state = Part::put_read(text, self.state),
            b'e' => {
                rt.write_all(line)?;
                let (slots, text) = leading_number(text);
                let after = self.fire(rt, slots as usize)?;
                self.go_on(rt, after, text)?;
            }
            b'j' => {
                rt.write_all(line)?;
                let (slots, text) = leading_number(text);
                let (to, text) = integer(text);
                let after = self.jump(rt, slots as usize, to)?;
                self.go_on(rt, after, text)?;
            }
            _ => {}
        }
        Ok(())
    }
}

fn main(rt: HostRuntime) -> io::Result<()> {
    let mut text = Vec::new(rt.alloc());
    rt.reader().take(INPUT).read_to_end(&mut text)?;
    let mut trial = Trial {
        table: vec![in rt.alloc(); 0; Contract::TABLE]?,
        state: State::fresh(0),
    };
    for line in text.split_inclusive(|b| *b == b'\n') {
        // What can't be printed is left out.
        let _ = trial.take(&rt, line.strip_suffix(b"\n").unwrap_or(line));
    }
    Ok(())
}
