// Reads the texts that standard input names, one name to a line, from files NAME.stipula, and prints a line for each: its name, then
// `accepted`, or `refused`, the question's number and the place.
// Expected results: the vectors' reading/expected.tsv, a line for each text.
#![tactic(auto)]

use contract::Contract;
use reading::Refusal;
use std::io;
use std::io::Read;
use std::rt::Files;

// The bytes of standard input that are read, and of a text.
const INPUT: u64 = 65536;

const TEXT: usize = 65536;

// The bytes of a name; less than these are read.
const NAME: usize = 4000;

fn print_answer(rt: &impl Print, name: &[u8], answer: Result<(), Refusal>) -> io::Result<()> {
    rt.write_all(name)?;
    match answer {
        Ok(()) => println!(rt; " accepted"),
        Err(refusal) => println!(rt; " refused {} {}", refusal.question.number(), refusal.place),
    }
}

// Says on standard error why a file can't be read.
fn fail(rt: &impl Eprint, path: &[u8], error: io::Error) {
    let path = str::from_utf8(path).unwrap_or("a name that is no text");
    let _ = eprintln!(rt; "{path}: {error}");
}

// Reads the text of a name into a table. A file that can't be read has no byte, and what can't be printed is left out.
fn show<R: Files + Print + Eprint + Alloc>(
    rt: &R,
    name: &[u8],
    text: &mut [u8],
    table: &mut [u64],
) -> io::Result<()> {
    let mut path = Vec::new(rt.alloc());
    path.extend_from_slice(name)?;
    path.extend_from_slice(b".stipula")?;
    let size = match streams::load(rt, &path, text) {
        Ok(size) => size,
        Err(error) => {
            fail(rt, &path, error);
            0
        }
    };
    let _ = print_answer(rt, name, reader::read(&text[..size], table));
    Ok(())
}

fn main(rt: HostRuntime) -> io::Result<()> {
    let mut table = [0; Contract::TABLE];
    let mut text = vec![in rt.alloc(); 0; TEXT]?;
    let mut names = Vec::new(rt.alloc());
    rt.reader().take(INPUT).read_to_end(&mut names)?;
    for line in names.split_inclusive(|b| *b == b'\n') {
        let name = line.strip_suffix(b"\n").unwrap_or(line);
        if name.len() < NAME {
            show(&rt, name, &mut text, &mut table)?;
        }
    }
    Ok(())
}
