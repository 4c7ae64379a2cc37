// Tokenizes the texts of standard input, each closed by a zero byte, and prints a line for each token: its kind, start
// and end, then a number's value, or the bytes of a name or a string. A refusal or the text's end closes a text.
// Expected results: 951 lines, to be read against document 01 (questions 5 to 8); who worked them out, and how, is not recorded here.
#![tactic(auto)]

use std::io;
use std::io::Read;
use tokens::{Lexed, Token};

// The bytes of standard input that are read.
const INPUT: u64 = 65536;

fn print_bytes(rt: &impl Print, bytes: &[u8]) -> io::Result<()> {
    print!(rt; " [")?;
    rt.write_all(bytes)?;
    print!(rt; "]")
}

fn print_token(rt: &impl Print, text: &[u8], token: Token) -> io::Result<()> {
    print!(rt; "{} {} {}", token.kind, token.start, token.end)?;
    match token.kind {
        Token::NUMBER => print!(rt; " {}", token.value)?,
        Token::NAME | Token::STRING => print_bytes(rt, tokens::part(text, token))?,
        _ => {}
    }
    println!(rt)
}

// Prints the tokens of one text.
// Kept: (d) the next token starts where the last one ends, and what ends a text is printed too: an iterator over tokens would keep that place
// itself and have to hand the end out as an item.
fn show(rt: &impl Print, text: &[u8]) -> io::Result<()> {
    let mut at = 0;
    loop {
        match tokens::next(text, at) {
            Lexed::Found(token) => {
                print_token(rt, text, token)?;
                at = token.end;
            }
            Lexed::Refused(question, place) => return println!(rt; "refused {question} {place}"),
            Lexed::End => return println!(rt; "end {}", text.len()),
        }
    }
}

fn show_numbered(rt: &impl Print, number: u64, text: &[u8]) -> io::Result<()> {
    println!(rt; "{number}")?;
    show(rt, text)
}

fn main(rt: HostRuntime) -> io::Result<()> {
    let mut texts = Vec::new(rt.alloc());
    rt.reader().take(INPUT).read_to_end(&mut texts)?;
    let parts = texts.split_inclusive(|b| *b == 0);
    for (number, part) in (1..=u64::MAX).zip(parts) {
        // What can't be printed is left out.
        let _ = show_numbered(&rt, number, part.strip_suffix(&[0]).unwrap_or(part));
    }
    Ok(())
}
