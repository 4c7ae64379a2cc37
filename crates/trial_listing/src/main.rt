// Prints contracts back. Reads the texts in the files that standard input names, one to a line; prints the contract of each from its table and
// nothing else, as a text of the same grammar with the names of the table; then reads that text into a second table, and says whether the two
// are the same, word for word.
// Expected listings: the texts, with one statement to a line, no comments, and only those parentheses that the meaning needs.
#![tactic(auto)]

use contract::Contract;
use pieces::Listing;
use std::alloc::Global;
use std::io;
use std::io::Read;
use std::rt::Files;

mod listing;
mod pieces;
mod terms;

// The bytes of standard input that are read.
const INPUT: u64 = 65536;

// The bytes of a text and of a listing: one more than a text may have, so that a longer one is told; what comes after them is left out.
const MOST: usize = Contract::TEXT + 1;

// Says whether a text reads as the contract of a table.
fn read_back(rt: &impl Print, text: &[u8], table: &[u64]) -> io::Result<()> {
    let mut second = [0u64; Contract::TABLE];
    match reader::read(text, &mut second) {
        Ok(()) if table == second.as_slice() => println!(rt; "// reads back"),
        Ok(()) => println!(rt; "// reads back as another contract"),
        Err(_) => println!(rt; "// is refused, or over 16384 bytes"),
    }
}

// Lists the contract in a table: prints the listing, and whether it reads as the table that it was made from.
fn list(rt: &impl Print, alloc: Global, table: &[u64]) -> io::Result<()> {
    let mut listing = Listing {
        table,
        text: Vec::new(alloc),
    };
    listing.put_contract()?;
    listing.text.truncate(MOST);
    // What can't be printed is left out.
    let _ = rt.write_all(&listing.text);
    let _ = read_back(rt, &listing.text, table);
    Ok(())
}

// Reads a text into a table, and lists its contract.
fn show(rt: &impl Print, alloc: Global, text: &[u8]) -> io::Result<()> {
    let mut table = [0u64; Contract::TABLE];
    match reader::read(text, &mut table) {
        Ok(()) => list(rt, alloc, &table),
        Err(_) => {
            let _ = println!(rt; "// refused");
            Ok(())
        }
    }
}

// Reads the text in a file; a file that can't be read has no byte.
fn show_file(rt: &(impl AllocGlobal + Files + Print), name: &[u8]) -> io::Result<()> {
    let mut text = [0; MOST];
    let size = streams::load(rt, name, &mut text).unwrap_or(0);
    show(rt, rt.alloc(), &text[..size])
}

fn main(rt: HostRuntime) -> io::Result<()> {
    let mut names = Vec::new(rt.alloc());
    rt.reader().take(INPUT).read_to_end(&mut names)?;
    for line in names.split_inclusive(|b| *b == b'\n') {
        show_file(&rt, line.strip_suffix(b"\n").unwrap_or(line))?;
    }
    Ok(())
}
