// Steps of the machine on tables by their words. Lines of standard input, numbers with one space between them:
//   w AT V V ..          words from AT on
//   r AT STEP N V ADD    N words, each STEP after the one before and ADD greater
//   l N                  how many words the table has
//   k                    keep the table as it is now
//   b                    take the kept table again
//   f CLOCK              the fresh state at a clock
//   s h AGREED STATE CLOCK PENDING, s v PLACE KIND NUMBER TEXT, s a PLACE AMOUNT, s e PLACE FUNCTION EVENT TIME
//                        the state's own numbers, a field, an asset, an event are set, in range or not
//   a ROOM @PARTY VERB FIELDS :FIELD VALUE ?FIELD ..     agreement: parties with verb (0 SET, 1 OK) and number of fields, and
//                        then the fields, each with or without a value
//   c ROOM PARTY FUNCTION V V .. /A A ..                 call, with values and assets
//   e ROOM               firing
//   t ROOM               tick
//   j ROOM T             jump to clock T
//   p NAME               question 3: print the name and whether the table passes
//   # ..                 print the line
// A step prints its line and what came of it, the state's number or -, clock, number of pending events | assets | fields (_ nothing,
// "N string N, ? else), and a line a label: kind, party, value, group. Other lines are left out; those with a semicolon are contracts' texts.
// Expected results: worked steps on contracts whose texts stand beside their words in `stdin`, to be read against the documents (who worked
// them out, and how, is not recorded here; those of jumps, of a right side of && without a value, and of groups, were worked out from document
// 02, F-3, F-5 and F-7, before they were run); and for question 3 whether a table passes, as its name in `stdin` says.
#![tactic(auto)]

use contract::Contract;
use evaluation::FieldKind;
use outcomes::Stepped;
use state::State;
use std::alloc::{AllocError, Global};
use std::io::Read;
use std::{io, iter};
use trial_states::{Part, Said};
use trial_text::{integer, leading_number, leading_word, store_leading_line};

// The bytes of standard input that are read.
const INPUT: u64 = 65536;

// One word more than a table has.
const WORDS: usize = Contract::TABLE + 1;

// The most numbers that a list of a line has, and the most parties and fields of an agreement.
const MOST: usize = 64;

// What the lines so far set up: a table of so many of these words, the words that are kept, and a state.
// Kept: (d) how many words the table has is set beside them: a line may make it shorter and a later one longer, with the words still there.
#[derive(Drop)]
struct Trial {
    all: Vec<u64>,
    words: usize,
    kept: Vec<u64>,
    state: State,
}

// ---- the table and the state

// Numbers that rise by the last number of a text, at places so far apart; a place past the end is left out.
fn repeat(numbers: &mut [u64], text: &[u8]) {
    let (at, text) = leading_number(text);
    let (step, text) = leading_number(text);
    let (times, text) = leading_number(text);
    let (first, text) = leading_number(text);
    let (add, _) = leading_number(text);
    let places = iter::successors(Some(at), |place: &u64| Some(place.wrapping_add(step)));
    let values = iter::successors(Some(first), |value: &u64| Some(value.wrapping_add(add)));
    for (place, value) in places.zip(values).take(times as usize) {
        if let Some(number) = numbers.get_mut(place as usize) {
            *number = value;
        }
    }
}

// ---- agreements and calls

// An agreement as the machine takes it: four numbers a party, two a field, one a value.
// Kept: (a) three lists, since the machine takes them so, and a case may give numbers that are no whole party, field or value.
#[derive(Drop)]
struct Parts {
    parts: Vec<usize>,
    spans: Vec<usize>,
    values: Vec<i64>,
}

// One more in a list, if there is room.
fn keep<T: Drop>(list: &mut Vec<T>, item: T) -> Result<(), AllocError> {
    if list.len() < MOST {
        list.push(item)?;
    }
    Ok(())
}

impl Parts {
    fn none(alloc: Global) -> Parts {
        Parts {
            parts: Vec::new(alloc),
            spans: Vec::new(alloc),
            values: Vec::new(alloc),
        }
    }

    // A party's name from its first byte up to, not including, its end, and then its verb and how many fields it has. Answers what stands
    // behind them.
    fn add_party<'a>(
        &mut self,
        start: usize,
        end: usize,
        text: &'a [u8],
    ) -> Result<&'a [u8], AllocError> {
        let (verb, text) = leading_number(text);
        let (fields, text) = leading_number(text);
        for part in [start, end, verb as usize, fields as usize] {
            keep(&mut self.parts, part)?;
        }
        Ok(text)
    }

    fn add_field(&mut self, start: usize, end: usize) -> Result<(), AllocError> {
        keep(&mut self.spans, start)?;
        keep(&mut self.spans, end)
    }

    // What a mark of the line opens, whose name starts at a place, and the text from there on. Answers what stands behind it.
    fn add<'a>(&mut self, mark: u8, start: usize, text: &'a [u8]) -> Result<&'a [u8], AllocError> {
        let (name, text) = leading_word(text);
        let end = start.saturating_add(name.len());
        match mark {
            b'@' => self.add_party(start, end, text),
            b':' => {
                self.add_field(start, end)?;
                let (value, text) = integer(text);
                keep(&mut self.values, value)?;
                Ok(text)
            }
            _ => {
                self.add_field(start, end)?;
                Ok(text)
            }
        }
    }
}

// The parts that a line names in the text at its end.
fn parts_of(alloc: Global, line: &[u8], text: &[u8]) -> Result<Parts, AllocError> {
    let mut p = Parts::none(alloc);
    let mut more = text;
    for _ in 0..MOST {
        let [mark, name @ ..] = more else {
            break;
        };
        more = p.add(*mark, line.len().saturating_sub(name.len()), name)?;
    }
    Ok(p)
}

// The integers of a text up to a slash, and what stands behind it.
fn integers(alloc: Global, text: &[u8]) -> Result<(Vec<i64>, &[u8]), AllocError> {
    let mut list = Vec::new(alloc);
    let mut more = text;
    for _ in 0..MOST {
        match more {
            [] => break,
            [b'/', behind @ ..] => return Ok((list, behind)),
            _ => {
                let (value, behind) = integer(more);
                list.push(value)?;
                more = behind;
            }
        }
    }
    Ok((list, more))
}

// ---- printing

// A line as it is.
fn print_line(rt: &impl Print, line: &[u8]) -> io::Result<()> {
    rt.write_all(line)?;
    println!(rt)
}

fn print_field(rt: &impl Print, kind: u8, number: i64, text: u8) -> io::Result<()> {
    match kind {
        FieldKind::NOTHING => print!(rt; " _"),
        FieldKind::INTEGER => print!(rt; " {number}"),
        FieldKind::STRING => print!(rt; " \"{text}"),
        _ => print!(rt; " ?"),
    }
}

fn print_fields(rt: &impl Print, s: &State, many: usize) -> io::Result<()> {
    let fields = s.kinds.iter().zip(&s.numbers).zip(&s.texts);
    for ((kind, number), text) in fields.take(many) {
        print_field(rt, *kind, *number, *text)?;
    }
    println!(rt)
}

fn print_assets(rt: &impl Print, s: &State, many: usize) -> io::Result<()> {
    for amount in s.assets.iter().take(many) {
        print!(rt; " {amount}")?;
    }
    Ok(())
}

fn print_state(rt: &impl Print, table: &[u64], s: &State) -> io::Result<()> {
    if s.agreed {
        print!(rt; " {}", s.state)?;
    } else {
        print!(rt; " -")?;
    }
    print!(rt; " {} {} |", s.clock, s.pending)?;
    let c = contract::head(table);
    print_assets(rt, s, c.assets)?;
    print!(rt; " |")?;
    print_fields(rt, s, c.fields)
}

fn print_labels(rt: &impl Print, r: &Stepped) -> io::Result<()> {
    for label in r.labels.iter().take(r.count) {
        println!(rt;
            "  {} {} {} {}",
            label.kind, label.party, label.value, label.group
        )?;
    }
    Ok(())
}

fn print_step(rt: &impl Print, line: &[u8], table: &[u64], r: &Stepped) -> io::Result<()> {
    rt.write_all(line)?;
    print!(rt; ": {}", Said(r.outcome))?;
    print_state(rt, table, &r.state)?;
    print_labels(rt, r)
}

// ---- lines

impl Trial {
    fn table(&self) -> &[u64] {
        self.all.as_slice().get(..self.words).unwrap_or(&[])
    }

    fn agree(
        &self,
        alloc: Global,
        room: usize,
        line: &[u8],
        text: &[u8],
    ) -> Result<Stepped, AllocError> {
        let p = parts_of(alloc, line, text)?;
        Ok(machine::agree(
            self.table(),
            self.state,
            room,
            line,
            &p.parts,
            &p.spans,
            &p.values,
        ))
    }

    // The caller, the function and the values, and the assets behind a slash.
    fn call(&self, alloc: Global, room: usize, text: &[u8]) -> Result<Stepped, AllocError> {
        let (caller, text) = leading_word(text);
        let (function, text) = leading_word(text);
        let (values, text) = integers(alloc, text)?;
        let (assets, _) = integers(alloc, text)?;
        Ok(machine::call(
            self.table(),
            self.state,
            room,
            caller,
            function,
            &values,
            &assets,
        ))
    }

    // The step that a line asks for by its letter, its room and the text after it; none where its letter is no step's.
    fn step(
        &self,
        alloc: Global,
        kind: u8,
        text: &[u8],
        line: &[u8],
    ) -> Result<Option<Stepped>, AllocError> {
        let (room, text) = leading_number(text);
        let room = room as usize;
        Ok(Some(match kind {
            b'a' => self.agree(alloc, room, line, text)?,
            b'c' => self.call(alloc, room, text)?,
            b'e' => machine::fire(self.table(), self.state, room),
            b'j' => machine::jump(self.table(), self.state, room, integer(text).0),
            b't' => machine::tick(self.table(), self.state, room),
            _ => return Ok(None),
        }))
    }

    // What a line says of the table.
    fn set_table(&mut self, kind: u8, text: &[u8]) -> Result<(), AllocError> {
        match kind {
            b'w' => store_leading_line(&mut self.all, text),
            b'r' => repeat(&mut self.all, text),
            b'l' => self.words = leading_number(text).0 as usize,
            b'k' => self.kept = self.all.clone()?,
            b'b' => self.all = self.kept.clone()?,
            _ => {}
        }
        Ok(())
    }

    // What a line says of the state.
    fn set_state(&mut self, kind: u8, text: &[u8]) {
        match kind {
            b'f' => self.state = State::fresh(leading_number(text).0),
            b's' => self.state = Part::put_read(text, self.state),
            _ => {}
        }
    }

    // Whether the table passes, after its name.
    fn ask(&self, rt: &impl Print, name: &[u8]) -> io::Result<()> {
        rt.write_all(name)?;
        if tables::table_passes(self.table()) {
            println!(rt; ": passes")
        } else {
            println!(rt; ": refused")
        }
    }

    // A step, a part of the state, or what is only printed. What can't be printed is left out.
    fn take_step(
        &mut self,
        rt: &(impl Print + AllocGlobal),
        kind: u8,
        text: &[u8],
        line: &[u8],
    ) -> Result<(), AllocError> {
        if let Some(stepped) = self.step(rt.alloc(), kind, text, line)? {
            let _ = print_step(rt, line, self.table(), &stepped);
            self.state = stepped.state;
            return Ok(());
        }
        let _ = match kind {
            b'#' => print_line(rt, line),
            b'p' if 2 <= line.len() => self.ask(rt, text),
            _ => Ok(()),
        };
        self.set_state(kind, text);
        Ok(())
    }

    // A line: its letter, and a text from its third byte on. With more words than there are, the table is no slice of them, and only lines of
    // the table are taken.
    fn take(&mut self, rt: &(impl Print + AllocGlobal), line: &[u8]) -> Result<(), AllocError> {
        let [kind, rest @ ..] = line else {
            return Ok(());
        };
        let text = rest.get(1..).unwrap_or(&[]);
        self.set_table(*kind, text)?;
        if self.words <= WORDS {
            self.take_step(rt, *kind, text, line)?;
        }
        Ok(())
    }
}

fn main(rt: HostRuntime) -> io::Result<()> {
    let mut text = Vec::new(rt.alloc());
    rt.reader().take(INPUT).read_to_end(&mut text)?;
    let mut trial = Trial {
        all: vec![in rt.alloc(); 0; WORDS]?,
        words: Contract::TABLE,
        kept: vec![in rt.alloc(); 0; WORDS]?,
        state: State::fresh(0),
    };
    for line in text.split_inclusive(|b| *b == b'\n') {
        trial.take(&rt, line.strip_suffix(b"\n").unwrap_or(line))?;
    }
    Ok(())
}
