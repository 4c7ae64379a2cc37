// Result lines. Lines of standard input, numbers with one space between them:
//   w AT V V ..          words of the table from AT on
//   b SIZE               the buffer has so many bytes, at most 200, each a dot before a line is written
//   r RULE STATE CLOCK   a rule, and the state and the clock after it
//   s KIND PARTY VALUE GROUP, m KIND PARTY N GROUP
//                        a label, one of the value -1 - N; of group 0 where none is given
//   h ASSET AMOUNT       an asset's amount
//   q NUMBER             a refusal
//   f NUMBER             a failed firing
//   t NUMBER PLACE       the refusal of a text
//   l MANY N N ..        so many reports as numbers, four each, at once; their integers are 3, -1250, 0 and 7, and the buffer has at most 640 bytes
//   # ..                 print the line
// A report prints its line, then how many bytes were written, those bytes, and whether the others are still dots; or the number
// that refused, and whether all are. Reports at once also print how many were written.
// Expected results: the lines that document 01 lists and others of each kind, with the answers of questions 52, 3 and 53; who worked them out, and how, is not recorded here.
// Those of the refusals 60 to 63, and of groups, were worked out from document 02, F-3 and F-7, before they were run.
#![tactic(auto)]

use contract::Contract;
use questions::Question;
use results::{Batch, Report};
use std::io;
use std::io::Read;
use trial_text::{leading_number, rest_word, store_leading, store_leading_line};

// The bytes of standard input that are read.
const INPUT: u64 = 65536;

// The most bytes of the buffer for one report, and the reports at once that there are numbers and a buffer for.
const ROOM: usize = 200;

const MANY: usize = 5;

// What the lines so far set up.
#[derive(Drop)]
struct Trial {
    table: Vec<u64>,
    size: usize,
}

// The number of a byte; the greatest where it does not fit.
fn byte(n: u64) -> u8 {
    u8::try_from(n).unwrap_or(u8::MAX)
}

// A line as it is.
fn print_line(rt: &impl Print, line: &[u8]) -> io::Result<()> {
    rt.write_all(line)?;
    println!(rt)
}

// ---- what came of a report

fn show(rt: &impl Print, answer: Result<usize, Question>, buffer: &[u8]) -> io::Result<()> {
    match answer {
        Ok(n) => {
            print!(rt; "{n} bytes: ")?;
            rt.write_all(buffer.get(..n).unwrap_or(buffer))?;
            println!(rt; "{}", rest_word(buffer, n))
        }
        Err(question) => {
            println!(rt; "no: {}", question.number())?;
            println!(rt; "{}", rest_word(buffer, 0))
        }
    }
}

fn show_batch(rt: &impl Print, answer: Result<Batch, Question>, buffer: &[u8]) -> io::Result<()> {
    if let Ok(batch) = answer {
        print!(rt; "{} of them, ", batch.many)?;
    }
    show(rt, answer.map(|batch| batch.used), buffer)
}

// ---- what the lines say

impl Trial {
    // Lends the buffer, which has at most so many bytes, and shows what `write` answers and left there.
    // Kept: (a) trial_pages lends a buffer in the same way: one function for both would be public in `trial_text`, and require that its
    // closures may be called.
    fn ask<T, W: FnOnce(&mut [u8]) -> T, S: FnOnce(T, &[u8]) -> io::Result<()>>(
        &self,
        most: usize,
        write: W,
        show: S,
    ) -> io::Result<()>
        requires write { W.IsAlwaysCallable write }
        requires show { S.IsAlwaysCallable show }
    {
        let mut bytes = [b'.'; MANY * Report::ROOM];
        let Some(buffer) = bytes.get_mut(..most) else {
            return Ok(());
        };
        let Some(part) = buffer.get_mut(..self.size) else {
            return Ok(());
        };
        let answer = write(part);
        show(answer, buffer)
    }

    fn write(&self, rt: &impl Print, report: Report) -> io::Result<()> {
        self.ask(
            ROOM,
            |part| results::write(&self.table, report, part),
            |answer, buffer| show(rt, answer, buffer),
        )
    }

    fn write_refusal(&self, rt: &impl Print, question: u8, place: usize) -> io::Result<()> {
        self.ask(
            ROOM,
            |part| results::write_text_refusal(question, place, part),
            |answer, buffer| show(rt, answer, buffer),
        )
    }

    fn write_batch(&self, rt: &impl Print, text: &[u8]) -> io::Result<()> {
        let (many, reports) = leading_number(text);
        let many = many as usize;
        let mut numbers = [0u64; MANY * Report::WORDS];
        store_leading(&mut numbers, 0, reports);
        self.ask(
            MANY * Report::ROOM,
            |part| results::write_batch(&self.table, &numbers, &[3, -1250, 0, 7], 0, many, part),
            |answer, buffer| show_batch(rt, answer, buffer),
        )
    }

    // A report of up to four numbers, or many at once.
    fn report(&self, rt: &impl Print, kind: u8, text: &[u8]) -> io::Result<()> {
        let (first, more) = leading_number(text);
        let (second, more) = leading_number(more);
        match kind {
            b'q' => self.write(rt, Report::Refused(byte(first))),
            b'f' => self.write(rt, Report::Failed(byte(first))),
            b'h' => self.write(rt, Report::Held(first as usize, second)),
            b't' => self.write_refusal(rt, byte(first), second as usize),
            b'l' => self.write_batch(rt, text),
            _ => self.report_of_more(rt, kind, byte(first), second as usize, more),
        }
    }

    fn report_of_more(
        &self,
        rt: &impl Print,
        kind: u8,
        first: u8,
        second: usize,
        text: &[u8],
    ) -> io::Result<()> {
        let (third, more) = leading_number(text);
        let (group, _) = leading_number(more);
        match kind {
            b'r' => self.write(rt, Report::Ruled(first, second, third)),
            b's' => {
                let value = 0i64.saturating_add_unsigned(third);
                self.write(rt, Report::Sent(first, second, value, group))
            }
            b'm' => {
                let value = (-1i64).saturating_sub_unsigned(third);
                self.write(rt, Report::Sent(first, second, value, group))
            }
            _ => Ok(()),
        }
    }

    // A line: its letter, and a text from its third byte on. What can't be printed is left out.
    fn take(&mut self, rt: &impl Print, line: &[u8]) {
        let [kind, rest @ ..] = line else {
            return;
        };
        let text = rest.get(1..).unwrap_or(&[]);
        if *kind == b'w' {
            store_leading_line(&mut self.table, text);
            return;
        }
        let _ = print_line(rt, line);
        if *kind == b'b' {
            self.size = leading_number(text).0 as usize;
        }
        let _ = self.report(rt, *kind, text);
    }
}

fn main(rt: HostRuntime) -> io::Result<()> {
    let mut text = Vec::new(rt.alloc());
    rt.reader().take(INPUT).read_to_end(&mut text)?;
    let mut trial = Trial {
        table: vec![in rt.alloc(); 0; Contract::TABLE]?,
        size: Report::ROOM,
    };
    for line in text.split_inclusive(|b| *b == b'\n') {
        trial.take(&rt, line.strip_suffix(b"\n").unwrap_or(line));
    }
    Ok(())
}
