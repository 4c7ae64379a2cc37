// What a reader of times runs: `bench read FILE N` reads a contract's text N times, `bench play FILE SESSION N` plays a session N times, both
// from memory. It prints a checksum alone, of the answers and the table, or of the numbers that the sessions tell, without the integers.
#![tactic(auto)]

use contract::Contract;
use reading::Refusal;
use results::Report;
use state::State;
use std::alloc::AllocError;
use std::io;
use std::rt::{Env, Files};
use tokens::Digits;

// The bytes of a session, of a file's name and of the first argument; the result lines that are told at once.
const SESSION: usize = 262144;

const NAME: usize = 1024;

const WORD: usize = 8;

const LINES: usize = 1024;

// A checksum with one number more.
fn mix(sum: u64, number: u64) -> u64 {
    sum.rotate_left(7).wrapping_add(number)
}

fn mix_answer(sum: u64, answer: Result<(), Refusal>) -> u64 {
    match answer {
        Ok(()) => mix(sum, 0),
        Err(r) => mix(mix(sum, r.question.number() as u64), r.place as u64),
    }
}

// The checksum of so many readings of a text, and of the table at the end.
fn read_often(text: &[u8], table: &mut [u64], times: u64) -> u64 {
    let mut answers = 0;
    for _ in 0..times {
        answers = mix_answer(answers, reader::read(text, table));
    }
    table.iter().fold(answers, |sum, word| mix(sum, *word))
}

// The numbers and the integers that a session tells at once.
// Kept: (a) the two lists that `machine::play` is lent; how many result lines they have is its answer.
#[derive(Drop)]
struct Told {
    numbers: [u64; LINES * Report::WORDS],
    integers: [i64; LINES],
}

impl Told {
    // The checksum with the numbers that a session tells; its integers are left out.
    fn play(&mut self, table: &[u64], input: &[u8], before: u64) -> u64 {
        let mut state = State::fresh(0);
        let mut sum = before;
        let mut rest = input;
        // Until a turn tells nothing: a loop has to be shown to end, and a range does.
        for _ in 0..u64::MAX {
            let played = machine::play(table, state, rest, &mut self.numbers, &mut self.integers);
            let Ok(p) = played else {
                break;
            };
            if p.many == 0 {
                break;
            }
            let (reports, _) = self.numbers.as_chunks::<{ Report::WORDS }>();
            sum = reports
                .iter()
                .take(p.many)
                .flatten()
                .fold(sum, |s, number| mix(s, *number));
            state = p.state;
            rest = rest.get(p.used..).unwrap_or(&[]);
        }
        sum
    }
}

// The checksum of what so many sessions tell.
fn play_often(table: &[u64], input: &[u8], times: u64) -> u64 {
    let mut told = Told {
        numbers: [0; LINES * Report::WORDS],
        integers: [0; LINES],
    };
    (0..times).fold(0, |sum, _| told.play(table, input, sum))
}

// Argument i; none where there is no such one, or no room for it.
fn argument<'a>(rt: &impl Env, i: usize, buffer: &'a mut [u8]) -> &'a [u8] {
    match rt.arg(i, buffer) {
        Ok(size) => &buffer[..size],
        Err(_) => &[],
    }
}

// The number that argument i begins with.
fn number(rt: &impl Env, i: usize) -> u64 {
    let mut digits = [0; Digits::MOST];
    tokens::value_of(argument(rt, i, &mut digits), 0)
}

// The bytes of the file that argument i names; a file that can't be read has none.
fn load<'a>(rt: &(impl Env + Files), i: usize, bytes: &'a mut [u8]) -> &'a [u8] {
    let mut name = [0; NAME];
    let size = streams::load(rt, argument(rt, i, &mut name), bytes).unwrap_or(0);
    tokens::between(bytes, 0, size)
}

// Reads the text, so many times; then plays the session, so many times.
fn work(rt: &(impl Env + Files + AllocGlobal), reads: u64, plays: u64) -> Result<u64, AllocError> {
    let mut table = [0; Contract::TABLE];
    let mut text = [0; Contract::TEXT + 1];
    let answers = read_often(load(rt, 2, &mut text), &mut table, reads);
    if plays == 0 {
        return Ok(answers);
    }
    let mut session = vec![in rt.alloc(); 0; SESSION]?;
    Ok(play_often(&table, load(rt, 3, &mut session), plays))
}

// Both kinds of work read by one call, so that their counts compare.
fn main(rt: HostRuntime) -> io::Result<()> {
    let mut word = [0; WORD];
    let _ = rt.arg(1, &mut word);
    let sum = if word[0] == b'r' {
        work(&rt, number(&rt, 3), 0)?
    } else {
        work(&rt, 1, number(&rt, 4))?
    };
    println!(rt; "{sum}")
}
