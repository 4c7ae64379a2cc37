// Does what the desk does before a session, for each folder that standard input names, one a line: what the arguments in its file `args` ask
// for, one argument a line, and what comes of the contract. Prints the folder's name, then `usage`, `help`, what the desk says of a FILE that
// can't be read or of a refused contract, its report on the terms, or `accepted`, and where its pages would go. At the end, each question
// with its words.
// Expected results: the published vectors' (requests/F-00 and F-01), standard output before standard error; the words of the desk's page.
// Cases whose names start with `own_` are not among the vectors: the desk's page says what comes of them.
#![tactic(auto)]

use arguments::{Asked, Fault};
use contract::Contract;
use diagnoses::Diagnosis;
use reading::Refusal;
use results::Report;
use std::alloc::{AllocError, Global};
use std::io;
use std::io::Read;
use std::rt::Files;

// The bytes of the folders' names that are read, of a file `args`, of its path and of a contract's path; what has no room is left out.
const NAMES: u64 = 8192;

const ARGUMENTS: usize = 16384;

const PATH: usize = 128;

const CONTRACT_PATH: usize = 1280;

// A line without its end.
fn line_of(line: &[u8]) -> &[u8] {
    line.strip_suffix(b"\n").unwrap_or(line)
}

// What arguments ask for, one a line.
fn ask(lines: &[u8]) -> Result<Asked, Fault> {
    let mut asked = Asked::nothing();
    for (line, n) in lines.split_inclusive(|b| *b == b'\n').zip(1..usize::MAX) {
        asked = asked.hear(n, line_of(line))?;
    }
    asked.finish()
}

// The argument with a number, the first with 1.
fn argument(lines: &[u8], n: Option<usize>) -> Option<&[u8]> {
    let line = lines
        .split_inclusive(|b| *b == b'\n')
        .nth(n?.checked_sub(1)?)?;
    Some(line_of(line))
}

// A refused text, as the desk tells it.
// Kept: (a) this and the next are the desk's. No crate can call into a program, and a library for both would have public functions that print,
// of which no equation can be given; what is printed are bytes of `results`, `diagnoses` and `reviews`, which both call.
fn refuse(rt: &impl Print, name: &[u8], text: &[u8], refusal: Refusal) -> io::Result<()> {
    let number = refusal.question.number();
    let place = refusal.place;
    let mut line = [0u8; Report::ROOM];
    let written = results::write_text_refusal(number, place, &mut line);
    if let Ok(n) = written {
        rt.write_all(tokens::between(&line, 0, n))?;
    }
    let mut out = [0u8; Diagnosis::ROOM];
    let n = diagnoses::write(name, text, number, place, &mut out);
    rt.write_all(tokens::between(&out, 0, n))
}

// What the terms say before any session.
// Kept: (a) the reason at `refuse`; (d) a line of `reviews` would be a definition, a public function with its two clauses, their proof and two
// edits, in place of the words and the line end that are printed here and in the desk.
fn review(rt: &impl Print, table: &[u64]) -> io::Result<()> {
    for x in 0..Contract::FIELDS {
        if reviews::never_agreed(table, x) {
            let mut name = [0u8; Contract::NAME];
            let n = reviews::field_name(table, x, &mut name);
            print!(rt; "// never agreed: ")?;
            rt.write_all(tokens::between(&name, 0, n))?;
            println!(rt)?;
        }
    }
    Ok(())
}

// Bytes, and a line end.
fn print_line(rt: &impl Print, bytes: &[u8]) -> io::Result<()> {
    rt.write_all(bytes)?;
    println!(rt)
}

// Where pages go, where they are asked for.
fn accept(rt: &impl Print, out: &[u8]) -> io::Result<()> {
    println!(rt; "accepted")?;
    if out.is_empty() {
        return Ok(());
    }
    print!(rt; "pages in ")?;
    print_line(rt, out)
}

// What is asked of the text of a contract.
fn begin(rt: &impl Print, asked: Asked, out: &[u8], name: &[u8], text: &[u8]) -> io::Result<()> {
    let mut table = [0u64; Contract::TABLE];
    match reader::read(text, &mut table) {
        Err(refusal) => refuse(rt, name, text, refusal),
        Ok(()) if asked.review => review(rt, &table),
        Ok(()) => accept(rt, out),
    }
}

// The path of a file in a folder, no longer than so many bytes.
fn path_of(alloc: Global, folder: &[u8], file: &[u8], most: usize) -> Result<Vec<u8>, AllocError> {
    let mut path = Vec::new(alloc);
    path.extend_from_slice(folder)?;
    path.extend_from_slice(b"/")?;
    path.extend_from_slice(file)?;
    path.truncate(most);
    Ok(path)
}

// What is asked of the contract in a folder. There is room for one byte more than a text may have, so that a longer one is refused. What
// can't be printed is left out.
fn start(
    rt: &(impl AllocGlobal + Files + Print),
    asked: Asked,
    folder: &[u8],
    lines: &[u8],
) -> Result<(), AllocError> {
    let name = argument(lines, asked.file).unwrap_or(b"terms.stipula");
    let out = argument(lines, asked.pages).unwrap_or(&[]);
    let path = path_of(rt.alloc(), folder, name, CONTRACT_PATH)?;
    let mut text = [0; Contract::TEXT + 1];
    let _ = match streams::load(rt, &path, &mut text) {
        Ok(size) => begin(rt, asked, out, name, tokens::between(&text, 0, size)),
        Err(_) => print_unread(rt, name),
    };
    Ok(())
}

fn print_unread(rt: &impl Print, name: &[u8]) -> io::Result<()> {
    print!(rt; "desk: ")?;
    rt.write_all(name)?;
    println!(rt; " can't be read")
}

// What the arguments in a folder ask for; a file of them that can't be read has none.
fn show(rt: &(impl AllocGlobal + Files + Print), folder: &[u8]) -> Result<(), AllocError> {
    let path = path_of(rt.alloc(), folder, b"args", PATH)?;
    let mut lines = vec![in rt.alloc(); 0; ARGUMENTS]?;
    let size = streams::load(rt, &path, &mut lines).unwrap_or(0);
    let lines = tokens::between(&lines, 0, size);
    let _ = print_folder(rt, folder);
    match ask(lines) {
        Ok(asked) if asked.help => {
            let _ = println!(rt; "help");
        }
        Ok(asked) => start(rt, asked, folder, lines)?,
        Err(_) => {
            let _ = println!(rt; "usage");
        }
    }
    Ok(())
}

fn print_folder(rt: &impl Print, folder: &[u8]) -> io::Result<()> {
    print!(rt; "== ")?;
    print_line(rt, folder)
}

// A question that has words.
fn show_words(rt: &impl Print, question: u8) -> io::Result<()> {
    let words = question_words::words(question);
    if words.is_empty() {
        return Ok(());
    }
    print!(rt; "{question} ")?;
    rt.write_all(words)?;
    println!(rt)
}

fn show_all_words(rt: &impl Print) {
    for question in 0..=u8::MAX {
        let _ = show_words(rt, question);
    }
}

fn main(rt: HostRuntime) -> io::Result<()> {
    let mut names = Vec::new(rt.alloc());
    rt.reader().take(NAMES).read_to_end(&mut names)?;
    for line in names.split_inclusive(|b| *b == b'\n') {
        show(&rt, line_of(line))?;
    }
    show_all_words(&rt);
    Ok(())
}
