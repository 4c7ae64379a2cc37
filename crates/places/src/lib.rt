// Where a place lies in its text: its line, its column, and where that line starts and ends.
#![tactic(auto)]

ghost use Rattle.std.specs.Prelude.{◌≡◌, ◌+◌, ◌≤◌, length, drop, reverse};
ghost use Rattle.laws.specs.Lists.{keep};
ghost use Rattle.tokens.specs.Classes.{run};
ghost use Rattle.places.specs.Places.{is_line_feed, in_line, place_of};

// Line and column count from 1. The line's bytes are those from start up to, not including, end.
#[derive(Clone, Copy)]
pub struct Place {
    pub line: usize,
    pub column: usize,
    pub start: usize,
    pub end: usize,
}

// The next LF from `at` on, or the text's end.
// Kept: (a) what the private `run_end` of `tokens` does: that requires what its closure answers, as no public function may.
fn line_end(text: &[u8], at: usize) -> usize
    requires { at ≤ length text.now }
    ensures { result ≡ at + run in_line (drop at text.now) }
{
    at + text[at..].iter().take_while(|b| **b != b'\n').count()
}

// How many LFs there are.
fn line_feeds(bytes: &[u8]) -> usize
    ensures { result ≡ length (keep is_line_feed bytes.now) }
{
    bytes.iter().filter(|b| **b == b'\n').count()
}

// How many bytes stand after the last LF.
fn since_line_feed(bytes: &[u8]) -> usize
    ensures { result ≡ run in_line (reverse bytes.now) }
{
    bytes.iter().rev().take_while(|b| **b != b'\n').count()
}

// Where a place lies; past the text's end it is that end.
pub fn place_in(text: &[u8], at: usize) -> Place
    ensures { result ≡ place_of text.now at }
{
    let stop = at.min(text.len());
    let before = &text[..stop];
    let start = stop - since_line_feed(before);
    Place {
        line: line_feeds(before) + 1,
        column: stop - start + 1,
        start,
        end: line_end(text, start),
    }
}
