// The sale desk: reads a contract, then a session from standard input, and prints what comes of each line, of the events that are due after
// it, and at the end what each asset holds. Its arguments name the contract's file and choose what else is printed, and a file for the
// settlement pages of the session's payouts.
#![tactic(auto)]

use arguments::{Asked, Fault};
use contract::Contract;
use diagnoses::Diagnosis;
use groups::Names;
use pages::{Gathered, Sheet};
use printing::Writer;
use reading::Refusal;
use results::Report;
use reviews::Review;
use state::State;
use std::io;
use std::io::Write;
use std::ops::Range;
use std::rt::{Env, Files};
use streams::Errors;

// The bytes of a session that are read at once, and the result lines that are told at once.
const BLOCK: usize = 65536;

const LINES: usize = 1024;

// ---- what is printed and said

// What ended the desk before its end, which is said already.
#[derive(Clone, Copy)]
struct Said;

// Writes on standard error, where nothing can be said of a failure.
fn say(rt: &impl Errors, bytes: &[u8]) {
    let _ = rt.write_error(bytes);
}

// Says of a file or a stream that it can't be read or written.
fn fail(rt: &impl Errors, name: &[u8], done: &[u8]) -> Said {
    for part in [b"desk: ", name, b" can't be ", done] {
        say(rt, part);
    }
    say(rt, words::spelling(words::LINE_END));
    Said
}

// Writes on standard output.
fn print(rt: &(impl Print + Errors), bytes: &[u8]) -> Result<(), Said> {
    rt.write_all(bytes)
        .map_err(|_| fail(rt, b"standard output", b"written"))
}

// Prints the words of a question on a line of their own.
fn explain(rt: &(impl Print + Errors), question: u8) -> Result<(), Said> {
    print(rt, b"  ")?;
    print(rt, question_words::words(question))?;
    print(rt, words::spelling(words::LINE_END))
}

// ---- result lines

// Result lines of the contract in a table, as numbers, four and an integer each, and the bytes that they print as: 128 for each, and no line is
// longer.
// Kept: (a) the lists that `machine::play` and `results::write_batch` are lent; what the desk holds is fixed, however long a session is.
#[derive(Drop)]
struct Reports<'a> {
    table: &'a [u64],
    numbers: [u64; LINES * Report::WORDS],
    integers: [i64; LINES],
    out: [u8; LINES * Report::ROOM],
}

impl Reports<'_> {
    // Prints some of them.
    fn print(&mut self, rt: &(impl Print + Errors), lines: Range<usize>) -> Result<(), Said> {
        let batch = results::write_batch(
            self.table,
            &self.numbers,
            &self.integers,
            lines.start,
            lines.end,
            &mut self.out,
        );
        // A batch that is refused prints nothing: the machine's own reports pass question 53, and there is room for each line.
        let used = batch.map_or(0, |lines| lines.used);
        print(rt, tokens::between(&self.out, 0, used))
    }

    // Prints the first ones one by one, and after each that has a question its words.
    fn explain(&mut self, rt: &(impl Print + Errors), many: usize) -> Result<(), Said> {
        for i in 0..many {
            self.print(rt, i..i + 1)?;
            if let Some(question) = desk_lines::question_of(&self.numbers, i) {
                explain(rt, question)?;
            }
        }
        Ok(())
    }
}

// ---- settlement pages

// The settlement pages of a session on the contract in a table: their file and its name, what is gathered for the next page, the page's bytes,
// and whether a page is written.
// Kept: (a) the lists that `Gathered::gather` and `pages::page` are lent, as many entries as one page has. (d) `begun` is no more than that truth.
#[derive(Drop)]
struct Settlement<'a, W> {
    table: &'a [u64],
    name: &'a [u8],
    file: W,
    gathered: Gathered,
    entries: [u64; Sheet::LINES * Sheet::NUMBERS],
    values: [i64; Sheet::LINES],
    page: [u8; Sheet::BYTES],
    begun: bool,
}

impl<W: Write> Settlement<'_, W> {
    // Writes the page of what is gathered; then nothing is.
    fn write_page(&mut self, rt: &impl Errors) -> Result<(), Said> {
        let count = self.gathered.count.min(Sheet::LINES);
        let numbers = &self.entries[..Sheet::NUMBERS * count];
        let values = &self.values[..count];
        let made = pages::page(self.table, numbers, values, 0, &mut self.page);
        if made.is_err() || self.file.write_all(&self.page).is_err() {
            return Err(fail(rt, self.name, b"written"));
        }
        self.gathered.count = 0;
        self.begun = true;
        Ok(())
    }

    // The first result lines, one by one; a page that one fills is written.
    fn settle(&mut self, rt: &impl Errors, reports: &Reports, many: usize) -> Result<(), Said> {
        for i in 0..many {
            self.gathered = self.gathered.gather(
                &reports.numbers,
                &reports.integers,
                i,
                &mut self.entries,
                &mut self.values,
            );
            if Sheet::LINES <= self.gathered.count {
                self.write_page(rt)?;
            }
        }
        Ok(())
    }

    // The last page, if it has a payout or is the only one.
    fn close(&mut self, rt: &impl Errors) -> Result<(), Said> {
        if 0 < self.gathered.count || !self.begun {
            self.write_page(rt)?;
        }
        let flushed = self.file.flush();
        flushed.map_err(|_| fail(rt, self.name, b"written"))
    }
}

// Takes the numbers of standard streams that are closed, so that OUT gets none of them. `/.` is `/`, which alone would spell a word.
// Kept: (c) an array of three: that it has room in memory is not proved of files of any type; (a) a Vec of them, since memory could end here.
fn hold_streams<R: Files>(
    rt: &R,
) -> (
    io::Result<R::File>,
    io::Result<R::File>,
    io::Result<R::File>,
) {
    (
        streams::open(rt, b"/."),
        streams::open(rt, b"/."),
        streams::open(rt, b"/."),
    )
}

// Makes or empties OUT; what is said where it can't be written does not go into it.
fn open_pages<'a, R: Files + Errors>(
    rt: &R,
    table: &'a [u64],
    name: &'a [u8],
) -> Result<Settlement<'a, R::File>, Said> {
    let held = hold_streams(rt);
    let made = streams::create(rt, name);
    drop(held);
    Ok(Settlement {
        table,
        name,
        file: made.map_err(|_| fail(rt, name, b"written"))?,
        gathered: Gathered::nothing(),
        entries: [0; Sheet::LINES * Sheet::NUMBERS],
        values: [0; Sheet::LINES],
        page: [0; Sheet::BYTES],
        begun: false,
    })
}

// ---- a session, line by line

// The bytes of a session that are read and not yet taken: those from `at` up to `size`. The last byte stays free.
// Kept: (d) a line may begin in one block and end in the next, so what is left of it moves to the front and the rest is read after it; a
// `BufReader` is such an array and two places too, and has no place for the end that a last line may lack; (a) what the desk holds is bounded,
// however long a line is, so no line is read into a String.
#[derive(Drop)]
struct Session {
    bytes: [u8; BLOCK],
    at: usize,
    size: usize,
}

impl Session {
    // What is left of the last line comes to the front, and bytes of standard input after it; at its end that line ends. Answers whether there
    // are any bytes then.
    fn read_more(&mut self, rt: &(impl Input + Errors)) -> Result<bool, Said> {
        let kept = desk_lines::bring(&mut self.bytes, self.at, self.size);
        self.at = 0;
        self.size = 0;
        if BLOCK <= kept {
            return Ok(false);
        }
        let last = BLOCK - 1;
        match streams::get(&mut rt.reader(), &mut self.bytes[kept..last]) {
            Ok(0) => self.size = desk_lines::close(&mut self.bytes, kept),
            Ok(n) => self.size = desk_lines::past(kept, n, last),
            Err(_) => return Err(fail(rt, b"the session", b"read")),
        }
        Ok(self.size != 0)
    }
}

// Takes each line of standard input and fires the events that are due, as many at once as there is room for; the result lines go where they
// are asked for.
fn take_session<W: Write>(
    rt: &(impl Input + Print + Errors),
    explained: bool,
    pages: &mut Option<Settlement<W>>,
    session: &mut Session,
    reports: &mut Reports,
) -> Result<State, Said> {
    let mut state = State::fresh(0);
    // Until there is no line more: standard input may have no end, and a loop has to be shown to end.
    for _ in 0..u64::MAX {
        let input = tokens::between(&session.bytes, session.at, session.size);
        let Ok(p) = machine::play(
            reports.table,
            state,
            input,
            &mut reports.numbers,
            &mut reports.integers,
        ) else {
            break;
        };
        state = p.state;
        session.at = desk_lines::past(session.at, p.used, session.size);
        if explained {
            reports.explain(rt, p.many)?;
        } else {
            reports.print(rt, 0..p.many)?;
        }
        if let Some(pages) = pages {
            pages.settle(rt, reports, p.many)?;
        }
        if p.many == 0 {
            let more = session.read_more(rt)?;
            if !more {
                break;
            }
        }
    }
    Ok(state)
}

// A session on the contract in a table, then its last page, then what each asset holds.
fn play<W: Write>(
    rt: &(impl Input + Print + Errors),
    table: &[u64],
    explained: bool,
    mut pages: Option<Settlement<W>>,
) -> Result<(), Said>
where
    W: Drop,
{
    let mut session = Session {
        bytes: [0; BLOCK],
        at: 0,
        size: 0,
    };
    let mut reports = Reports {
        table,
        numbers: [0; LINES * Report::WORDS],
        integers: [0; LINES],
        out: [0; LINES * Report::ROOM],
    };
    let state = take_session(rt, explained, &mut pages, &mut session, &mut reports)?;
    if let Some(pages) = &mut pages {
        pages.close(rt)?;
    }
    let assets = desk_lines::held(table, state, &mut reports.numbers);
    reports.print(rt, 0..assets)
}

// A session, with its pages where they are asked for.
fn run<R: Env + Files + Input + Print + Errors>(
    rt: &R,
    table: &[u64],
    asked: Asked,
) -> Result<(), Said> {
    let Some(place) = asked.pages else {
        return play(rt, table, asked.explain, None::<Settlement<R::File>>);
    };
    let mut name = [0u8; Asked::ARGUMENT_BYTES + 1];
    let name = streams::argument(rt, place, &mut name).unwrap_or(&[]);
    let pages = open_pages(rt, table, name)?;
    play(rt, table, asked.explain, Some(pages))
}

// ---- a contract

// A refused text: the question and the place, then where that is.
fn refuse(
    rt: &(impl Print + Errors),
    name: &[u8],
    text: &[u8],
    refusal: Refusal,
) -> Result<(), Said> {
    let number = refusal.question.number();
    let place = refusal.place;
    let mut line = [0u8; Report::ROOM];
    let written = results::write_text_refusal(number, place, &mut line);
    let printed = match written {
        Ok(n) => print(rt, tokens::between(&line, 0, n)),
        Err(_) => Ok(()),
    };
    let mut out = [0u8; Diagnosis::ROOM];
    let n = diagnoses::write(name, text, number, place, &mut out);
    say(rt, tokens::between(&out, 0, n));
    printed
}

// Prints a group of assets and asset parameters on a line: its number, and then its names.
fn review_group(
    rt: &(impl Print + Errors),
    table: &[u64],
    numbers: &[u16; Names::MOST],
    group: u16,
) -> Result<(), Said> {
    let mut line = [0u8; Report::ROOM];
    let mut out = Writer::new(&mut line);
    out.put_bytes(b"// group ");
    out.put_number(group as u64);
    let n = out.at;
    print(rt, tokens::between(&line, 0, n))?;
    let mut separator = words::COLON;
    for (k, &number) in numbers.iter().enumerate() {
        if number == group {
            let mut name = [0u8; Review::HOLDER];
            let n = reviews::holder_name(table, k, &mut name);
            print(rt, words::spelling(separator))?;
            print(rt, words::spelling(words::SPACE))?;
            print(rt, tokens::between(&name, 0, n))?;
            separator = words::COMMA;
        }
    }
    print(rt, words::spelling(words::LINE_END))
}

// The groups of assets and asset parameters, a line each.
// Kept: (d) the desk says what can't be written; trial_reviews hands the error on.
fn review_groups(rt: &(impl Print + Errors), table: &[u64]) -> Result<(), Said> {
    let numbers = reviews::group_numbers(table);
    let count = numbers.iter().copied().max().unwrap_or(0);
    for group in 1..=count {
        review_group(rt, table, &numbers, group)?;
    }
    Ok(())
}

// What the terms say before any session: a line for each field that a clause sets and no clause agrees on, and the groups.
fn review(rt: &(impl Print + Errors), table: &[u64]) -> Result<(), Said> {
    for x in 0..Contract::FIELDS {
        if reviews::never_agreed(table, x) {
            let mut name = [0u8; Contract::NAME];
            let n = reviews::field_name(table, x, &mut name);
            print(rt, b"// never agreed: ")?;
            print(rt, tokens::between(&name, 0, n))?;
            print(rt, words::spelling(words::LINE_END))?;
        }
    }
    review_groups(rt, table)
}

// The contract's text, then what is asked.
fn begin(
    rt: &(impl Env + Files + Input + Print + Errors),
    asked: Asked,
    name: &[u8],
    text: &[u8],
) -> Result<(), Said> {
    let mut table = [0u64; Contract::TABLE];
    match reader::read(text, &mut table) {
        Err(refusal) => refuse(rt, name, text, refusal),
        Ok(()) if asked.review => review(rt, &table),
        Ok(()) => run(rt, &table, asked),
    }
}

// The contract's text from the file with a name. There is room for one byte more than a text may have, so that a longer one is refused.
fn start(
    rt: &(impl Env + Files + Input + Print + Errors),
    asked: Asked,
    name: &[u8],
) -> Result<(), Said> {
    let mut text = [0u8; Contract::TEXT + 1];
    match streams::load(rt, name, &mut text) {
        Ok(n) => begin(rt, asked, name, &text[..n]),
        Err(_) => Err(fail(rt, name, b"read")),
    }
}

// ---- arguments

// What the arguments ask for. There is room for one byte more than an argument may have, so that a longer one is told.
fn ask(rt: &impl Env) -> Result<Asked, Fault> {
    let mut buffer = [0u8; Asked::ARGUMENT_BYTES + 1];
    let mut asked = Asked::nothing();
    for i in 1..usize::MAX {
        let Some(argument) = streams::argument(rt, i, &mut buffer) else {
            break;
        };
        asked = asked.hear(i, argument)?;
    }
    asked.finish()
}

fn help(rt: &(impl Print + Errors)) -> Result<(), Said> {
    print(
        rt,
        b"\
            desk                    the contract in terms.stipula, a session on standard input\n\
            desk [OPTION].. [FILE]  the contract in FILE\n\
            \x20 --explain             after each refusal its words\n\
            \x20 --pages OUT           the settlement pages of the session's payouts, in the file OUT\n\
            \x20 --review              a report on the terms, without a session\n\
            \x20 --help                this\n",
    )
}

// Does what is asked.
fn answer(rt: &(impl Env + Files + Input + Print + Errors), asked: Asked) -> Result<(), Said> {
    if asked.help {
        return help(rt);
    }
    let Some(place) = asked.file else {
        return start(rt, asked, b"terms.stipula");
    };
    let mut name = [0u8; Asked::ARGUMENT_BYTES + 1];
    let name = streams::argument(rt, place, &mut name).unwrap_or(&[]);
    start(rt, asked, name)
}

fn main(rt: HostRuntime) {
    match ask(&rt) {
        Ok(asked) => {
            let _ = answer(&rt, asked);
        }
        Err(fault) => {
            let _ = eprintln!(rt; "desk: {fault}\ndesk: try desk --help");
        }
    }
}
