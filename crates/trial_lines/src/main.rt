// Reads each line of standard input as a session line and prints what it asks for: `refused` and the question; `tick`; `jump` and its
// clock; `call`, where its party's and its function's name start and end, its values and its assets; or `agreement` and its parts. A part
// is where its party's name starts and ends, its verb's number, and each field's start, end and value.
// Expected results: 137 lines, one for each line of `stdin`. The 31 of jumps and of lines that are nearly one are worked out by hand from
// document 02, F-3; the others are to be read against document 01 (50 and 51), and who worked them out, and how, is not recorded here.
#![tactic(auto)]

use lines::{Agreement, Call, Line, Request};
use std::io;
use std::io::Read;

// The bytes of standard input that are read.
const INPUT: u64 = 65536;

fn print_call(rt: &impl Print, call: Call, numbers: &[i64]) -> io::Result<()> {
    let Call {
        party,
        function,
        values,
        assets,
    } = call;
    print!(rt;
        "call {} {} {} {} (",
        party.start, party.end, function.start, function.end
    )?;
    print_integers(rt, numbers.get(..values).unwrap_or(&[]))?;
    print!(rt; " ) [")?;
    let rest = numbers.get(values..).unwrap_or(&[]);
    print_integers(rt, rest.get(..assets).unwrap_or(&[]))?;
    println!(rt; " ]")
}

fn print_integers(rt: &impl Print, integers: &[i64]) -> io::Result<()> {
    for z in integers {
        print!(rt; " {z}")?;
    }
    Ok(())
}

fn print_agreement(rt: &impl Print, a: &Agreement) -> io::Result<()> {
    print!(rt; "agreement {} {}", a.parts, a.fields)?;
    let (heads, _) = a.heads().as_chunks::<4>();
    let (spans, _) = a.spans().as_chunks::<2>();
    let mut fields = spans.iter().zip(a.values());
    for [start, end, verb, many] in heads {
        print!(rt; " || {start} {end} {verb}")?;
        fields.by_ref().take(*many).try_for_each(|([start, end], value)| print!(rt;
            " , {start} {end} {value}"
        ))?;
    }
    println!(rt)
}

// A line that agrees.
// Kept: (b) apart from `show`, since the room for an agreement's parts, 8 KB here, is cleared at each call of the function that has it: in there
// a tick takes 8,934 instructions, where it takes 638.
fn show_agreement(rt: &impl Print, text: &[u8]) -> io::Result<()> {
    match lines::agreement_of(text) {
        Some(a) => print_agreement(rt, &a),
        None => Ok(()),
    }
}

// What one line asks for. A call's integers are read into the list that is lent.
// Kept: (b) a tick's word by `write_all`: `println!` clears and copies the room for a text's pieces at each call, and a tick takes 638
// instructions, where it takes 234.
fn show(rt: &impl Print, text: &[u8], numbers: &mut [i64; Line::NUMBERS]) -> io::Result<()> {
    match lines::read(text, numbers) {
        Err(question) => println!(rt; "refused {}", question.number()),
        Ok(Request::Tick) => rt.write_all(b"tick\n"),
        Ok(Request::Jump(clock)) => println!(rt; "jump {clock}"),
        Ok(Request::Call(call)) => print_call(rt, call, numbers),
        Ok(Request::Agreement) => show_agreement(rt, text),
    }
}

fn main(rt: HostRuntime) -> io::Result<()> {
    let mut text = Vec::new(rt.alloc());
    rt.reader().take(INPUT).read_to_end(&mut text)?;
    let mut numbers = [0; Line::NUMBERS];
    for line in text.split_inclusive(|b| *b == b'\n') {
        // What can't be printed is left out.
        let _ = show(&rt, line.strip_suffix(b"\n").unwrap_or(line), &mut numbers);
    }
    Ok(())
}
