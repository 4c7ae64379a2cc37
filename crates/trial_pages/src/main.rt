// Settlement pages. Lines of standard input, numbers with one space between them:
//   t                  the table is that of terms.stipula; before, it is all zeros
//   b SIZE             the buffer has so many bytes, at most 5,200, each a dot before a page is asked for
//   e MANY             so many entries are given, at most 130; what they are stands before `make_entry`
//   k I K V            number K of entry I is V
//   v I V              the value of entry I is V
//   m I N              the value of entry I is -1 - N
//   n NUMBERS VALUES   so many numbers and values are given
//   s                  nothing is gathered yet
//   g N N N N V        a result line, by its four numbers and its integer, is gathered; the payouts gathered are the entries given
//   p NUMBER           a page is asked for
//   # ..               nothing
// Each line is printed. A gathered one is followed by how many payouts there are; a page by `accepted` and its bytes, or `refused` and the
// number, then by whether the other bytes of the buffer, or all of them, are still dots.
// Expected results: worked out from document 02 by scripts/expected-pages, which shares no code with it.
#![tactic(auto)]

use contract::Contract;
use pages::{Gathered, Sheet};
use questions::Question;
use results::Report;
use std::io;
use std::io::Read;
use std::rt::Files;
use trial_text::{leading_number, rest_word, store_leading};

// The bytes of standard input that are read.
const INPUT: u64 = 65536;

// The entries that there is room for, and the bytes that there are for a buffer.
const ENTRIES: usize = 130;

const ROOM: usize = 5200;

// What the lines so far set up: the table, the buffer's bytes, the entries and their values, how many numbers and how many values are given,
// and what is gathered.
// Kept: (d) the counts are what a case gives, also more than there is, and not how many the arrays hold; (a) entries and values are the two
// lists that `Gathered::gather` and `pages::page` are lent.
#[derive(Drop)]
struct Trial {
    table: Vec<u64>,
    size: usize,
    entries: [[u64; Sheet::NUMBERS]; ENTRIES],
    values: [i64; ENTRIES],
    numbers_given: usize,
    values_given: usize,
    gathered: Gathered,
}

// ---- entries

// A digit so many times, and the greatest number where there is no room.
fn repeated(digit: u64, times: u64) -> u64 {
    (0..times).fold(0, |v: u64, _| v.saturating_mul(10).saturating_add(digit))
}

// Entry i: a payout to party i mod 3 by rule 1 + i mod 2; its clock is the digit i mod 7, i mod 17 + 1 times, its amount the digit i mod 10,
// i mod 19 + 1 times; the fifth number is i.
fn make_entry(i: u64) -> [u64; Sheet::NUMBERS] {
    [
        Report::ASSET as u64,
        i % 3,
        Report::CALL as u64 + i % 2,
        repeated(i % 7, i % 17 + 1),
        i,
    ]
}

fn make_value(i: u64) -> i64 {
    i64::try_from(repeated(i % 10, i % 19 + 1)).unwrap_or(i64::MAX)
}

// ---- pages

// A line as it is.
fn print_line(rt: &impl Print, line: &[u8]) -> io::Result<()> {
    rt.write_all(line)?;
    println!(rt)
}

fn show(rt: &impl Print, answer: Result<(), Question>, buffer: &[u8]) -> io::Result<()> {
    match answer {
        Ok(()) => {
            println!(rt; "accepted")?;
            rt.write_all(tokens::between(buffer, 0, Sheet::BYTES))?;
            println!(rt; "{}", rest_word(buffer, Sheet::BYTES))
        }
        Err(question) => {
            println!(rt; "refused {}", question.number())?;
            println!(rt; "{}", rest_word(buffer, 0))
        }
    }
}

// ---- what the lines say

impl Trial {
    // The terms of a file that can't be read are an empty text.
    fn read_terms(&mut self, rt: &impl Files) {
        let mut text = [0; Contract::TEXT + 1];
        let size = streams::load(rt, b"terms.stipula", &mut text).unwrap_or(0);
        let _ = reader::read(&text[..size], &mut self.table);
    }

    // The first entries are given.
    fn give(&mut self, count: usize) {
        if count <= ENTRIES {
            self.numbers_given = Sheet::NUMBERS * count;
            self.values_given = count;
        }
    }

    fn make_entries(&mut self, many: usize) {
        let places = self.entries.iter_mut().zip(&mut self.values);
        for ((entry, value), i) in places.take(many).zip(0..) {
            *entry = make_entry(i);
            *value = make_value(i);
        }
        self.give(many);
    }

    fn change_number(&mut self, entry: usize, k: usize, v: u64) {
        if let Some(number) = self.entries.get_mut(entry).and_then(|e| e.get_mut(k)) {
            *number = v;
        }
    }

    fn change_value(&mut self, entry: usize, v: i64) {
        if let Some(value) = self.values.get_mut(entry) {
            *value = v;
        }
    }

    // A result line, by its four numbers and its integer. As many payouts as there is room for are not given.
    fn gather(&mut self, rt: &impl Print, text: &[u8]) -> io::Result<()> {
        let mut report = [0; Report::WORDS + 1];
        store_leading(&mut report, 0, text);
        let integers = [0i64.saturating_add_unsigned(report[Report::WORDS])];
        self.gathered = self.gathered.gather(
            &report,
            &integers,
            0,
            self.entries.as_flattened_mut(),
            &mut self.values,
        );
        let count = self.gathered.count;
        if count < ENTRIES {
            self.give(count);
        }
        println!(rt; "{count}")
    }

    // Kept: (a) trial_results lends a buffer in the same way: one function for both would be public in `trial_text`, and require that its
    // closure may be called.
    fn ask(&self, rt: &impl Print, page: usize) -> io::Result<()> {
        let numbers = self.entries.as_flattened();
        let numbers = numbers.get(..self.numbers_given).unwrap_or(numbers);
        let values = self.values.get(..self.values_given).unwrap_or(&self.values);
        let mut buffer = [b'.'; ROOM];
        let Some(part) = buffer.get_mut(..self.size) else {
            return Ok(());
        };
        let answer = pages::page(&self.table, numbers, values, page, part);
        show(rt, answer, &buffer)
    }

    // A line with up to three numbers.
    fn take_numbers(&mut self, rt: &impl Print, kind: u8, text: &[u8]) -> io::Result<()> {
        let (first, text) = leading_number(text);
        let (second, text) = leading_number(text);
        let (third, _) = leading_number(text);
        let place = first as usize;
        match kind {
            b'b' => self.size = place,
            b'e' => self.make_entries(place),
            b'k' => self.change_number(place, second as usize, third),
            b'v' => self.change_value(place, 0i64.saturating_add_unsigned(second)),
            b'm' => self.change_value(place, (-1i64).saturating_sub_unsigned(second)),
            b'n' => {
                self.numbers_given = place;
                self.values_given = second as usize;
            }
            b'p' => self.ask(rt, place)?,
            _ => {}
        }
        Ok(())
    }

    // A line: its letter, and a text from its third byte on. What can't be printed is left out.
    fn take(&mut self, rt: &(impl Files + Print), line: &[u8]) {
        let _ = print_line(rt, line);
        let [kind, rest @ ..] = line else {
            return;
        };
        let text = rest.get(1..).unwrap_or(&[]);
        let _ = match kind {
            b't' => {
                self.read_terms(rt);
                Ok(())
            }
            b's' => {
                self.gathered = Gathered::nothing();
                Ok(())
            }
            b'g' => self.gather(rt, text),
            _ => self.take_numbers(rt, *kind, text),
        };
    }
}

fn main(rt: HostRuntime) -> io::Result<()> {
    let mut text = Vec::new(rt.alloc());
    rt.reader().take(INPUT).read_to_end(&mut text)?;
    let mut trial = Trial {
        table: vec![in rt.alloc(); 0; Contract::TABLE]?,
        size: ROOM,
        entries: [[0; Sheet::NUMBERS]; ENTRIES],
        values: [0; ENTRIES],
        numbers_given: 0,
        values_given: 0,
        gathered: Gathered::nothing(),
    };
    for line in text.split_inclusive(|b| *b == b'\n') {
        trial.take(&rt, line.strip_suffix(b"\n").unwrap_or(line));
    }
    Ok(())
}
