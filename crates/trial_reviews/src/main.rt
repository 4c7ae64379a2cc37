// Prints what a review says of groups. Reads the texts in the files that standard input names, one to a line; prints the groups of assets and asset
// parameters of each, a line for each group, as `desk --review` does, and of a text that is refused `// refused` alone.
// Expected: the customer's cases of F-7, the terms and the lines that `--review` prints of groups.
#![tactic(auto)]

use contract::Contract;
use groups::Names;
use reviews::Review;
use std::{fs, io};

// The names of one group.
fn show_group(
    rt: &impl Print,
    table: &[u64],
    numbers: &[u16; Names::MOST],
    group: u16,
) -> io::Result<()> {
    print!(rt; "// group {group}")?;
    let mut mark: &[u8] = b": ";
    for (k, &number) in numbers.iter().enumerate() {
        if number == group {
            let mut name = [0u8; Review::HOLDER];
            let n = reviews::holder_name(table, k, &mut name);
            rt.write_all(mark)?;
            rt.write_all(tokens::between(&name, 0, n))?;
            mark = b", ";
        }
    }
    println!(rt; "")
}

// The groups of the contract in a table.
// Kept: (d) the twin in the desk says what can't be written; this one hands the error on.
fn show_groups(rt: &impl Print, table: &[u64]) -> io::Result<()> {
    let numbers = reviews::group_numbers(table);
    let count = numbers.iter().copied().max().unwrap_or(0);
    for group in 1..=count {
        show_group(rt, table, &numbers, group)?;
    }
    Ok(())
}

// Reads a text into a table, and shows its groups.
fn show(rt: &impl Print, text: &[u8]) -> io::Result<()> {
    let mut table = [0u64; Contract::TABLE];
    match reader::read(text, &mut table) {
        Ok(()) => show_groups(rt, &table),
        Err(_) => println!(rt; "// refused"),
    }
}

fn main(rt: HostRuntime) -> io::Result<()> {
    let names = io::read_to_string(rt.alloc(), rt.reader())?;
    for name in names.as_str().lines() {
        println!(rt; "// {name}")?;
        show(&rt, &fs::read(&rt, name)?)?;
    }
    Ok(())
}
