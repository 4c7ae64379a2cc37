// Plays the session of each folder that standard input names, one a line, and prints the name and what the desk prints. What
// stands under "a session" plays it as the desk does, without its options and without what it says of failures. Expected results: what the
// published vectors expect of each session once requests up to F-7 have landed, byte for byte; of the examples, what the customer's plain
// desk prints.
#![tactic(auto)]

use contract::Contract;
use reading::Refusal;
use results::Report;
use state::State;
use std::alloc::{AllocError, Global};
use std::io;
use std::io::Read;
use std::rt::Files;

// The bytes of a session that are read at once, and the result lines that are told at once.
const BLOCK: usize = 65536;

const LINES: usize = 1024;

// The bytes of the folders' names that are read, and of a path; what has no room in a path is left out.
const NAMES: u64 = 8192;

const PATH: usize = 128;

// What can't be printed is left out.
fn print(rt: &impl Print, bytes: &[u8]) {
    let _ = rt.write_all(bytes);
}

// ---- a session

// Kept: (a) no crate can call into the desk, which is a program. A library for both would have a public function that reads, plays and prints a
// whole session, and a library's function says here what comes of all that it is given; of this one that can't be said, since std's contract of
// `write_all` leaves out which bytes were written before an error. So it has the desk's block of bytes with two places, as `desk_lines` takes it.

// A session as it is played: its state, the bytes of its file that are read and not yet taken, and room for result lines.
#[derive(Drop)]
struct Session<'a> {
    table: &'a [u64],
    state: State,
    bytes: Vec<u8>,
    at: usize,
    size: usize,
    numbers: Vec<u64>,
    integers: Vec<i64>,
    out: Vec<u8>,
}

impl<'a> Session<'a> {
    fn new(alloc: Global, table: &'a [u64]) -> Result<Self, AllocError> {
        Ok(Session {
            table,
            state: State::fresh(0),
            bytes: vec![in alloc; 0; BLOCK]?,
            at: 0,
            size: 0,
            numbers: vec![in alloc; 0; LINES * Report::WORDS]?,
            integers: vec![in alloc; 0; LINES]?,
            out: vec![in alloc; 0; LINES * Report::ROOM]?,
        })
    }

    // Prints the first of the result lines that are given as numbers. There are 128 bytes for each, and no line is longer.
    fn print_lines(&mut self, rt: &impl Print, many: usize) {
        let batch = results::write_batch(
            self.table,
            &self.numbers,
            &self.integers,
            0,
            many,
            &mut self.out,
        );
        let used = batch.map_or(0, |lines| lines.used);
        print(rt, tokens::between(&self.out, 0, used));
    }

    // What is left of the last line comes to the front, and bytes of the file after it; at the file's end, and where it can't be read, that
    // line ends. The last byte stays free.
    fn read_more(&mut self, file: &mut impl Read) {
        let kept = desk_lines::bring(&mut self.bytes, self.at, self.size);
        let last = self.bytes.len().saturating_sub(1);
        let n = match self.bytes.as_mut_slice().get_mut(kept..last) {
            Some(room) => streams::get(file, room).unwrap_or(0),
            None => 0,
        };
        self.at = 0;
        self.size = if n == 0 {
            desk_lines::close(&mut self.bytes, kept)
        } else {
            desk_lines::past(kept, n, last)
        };
    }

    // Takes lines of the bytes that are read, and fires events that are due. Answers whether there is more to do with these bytes, or the
    // session is over.
    fn turn(&mut self, rt: &impl Print, file: &mut impl Read) -> bool {
        let input = tokens::between(&self.bytes, self.at, self.size);
        let Ok(played) = machine::play(
            self.table,
            self.state,
            input,
            &mut self.numbers,
            &mut self.integers,
        ) else {
            return false;
        };
        self.print_lines(rt, played.many);
        self.state = played.state;
        self.at = desk_lines::past(self.at, played.used, self.size);
        if played.many != 0 {
            return true;
        }
        self.read_more(file);
        self.size != 0
    }

    // The session in a file, then what each asset holds.
    fn run(&mut self, rt: &impl Print, file: &mut impl Read) {
        // A file may have no end, and a loop has to be shown to end: so many turns as 64 bits count.
        for _ in 0..u64::MAX {
            if !self.turn(rt, file) {
                break;
            }
        }
        let assets = desk_lines::held(self.table, self.state, &mut self.numbers);
        self.print_lines(rt, assets);
    }
}

// A refused text.
fn refuse(rt: &impl Print, refusal: Refusal) {
    let number = refusal.question.number();
    let mut out = [0u8; Report::ROOM];
    if let Ok(n) = results::write_text_refusal(number, refusal.place, &mut out) {
        print(rt, tokens::between(&out, 0, n));
    }
}

// The contract's text, then the session in a file.
fn begin(
    rt: &(impl Print + AllocGlobal),
    text: &[u8],
    file: &mut impl Read,
) -> Result<(), AllocError> {
    let mut table = [0; Contract::TABLE];
    match reader::read(text, &mut table) {
        Err(refusal) => refuse(rt, refusal),
        Ok(()) => Session::new(rt.alloc(), &table)?.run(rt, file),
    }
    Ok(())
}

// ---- the trial

// The path of a file in a folder.
fn path_of(alloc: Global, folder: &[u8], file: &[u8]) -> Result<Vec<u8>, AllocError> {
    let mut path = Vec::new(alloc);
    path.extend_from_slice(folder)?;
    path.extend_from_slice(file)?;
    path.truncate(PATH);
    Ok(path)
}

// The folder's `terms.stipula` and its `session`; a file that can't be read has no byte.
fn play(rt: &(impl Files + Print + AllocGlobal), folder: &[u8]) -> Result<(), AllocError> {
    let terms = path_of(rt.alloc(), folder, b"/terms.stipula")?;
    let session = path_of(rt.alloc(), folder, b"/session")?;
    let mut text = [0; Contract::TEXT + 1];
    let size = streams::load(rt, &terms, &mut text).unwrap_or(0);
    let session = streams::open(rt, &session);
    print(rt, b"== ");
    print(rt, folder);
    print(rt, b"\n");
    match session {
        Ok(mut file) => begin(rt, &text[..size], &mut file),
        Err(_) => begin(rt, &text[..size], &mut io::empty()),
    }
}

fn main(rt: HostRuntime) -> io::Result<()> {
    let mut folders = Vec::new(rt.alloc());
    rt.reader().take(NAMES).read_to_end(&mut folders)?;
    for line in folders.split_inclusive(|b| *b == b'\n') {
        play(&rt, line.strip_suffix(b"\n").unwrap_or(line))?;
    }
    Ok(())
}
