// What the desk does with bytes and numbers: a session's bytes as they are read in blocks, its last line, the question of a result line,
// and what each asset holds at the end.
#![tactic(auto)]

ghost use Rattle.std.specs.Prelude.{◌≡◌, ◌+◌, min, length};
ghost use Rattle.std.proofs.lemmas.List.Edits.{sets};
ghost use Rattle.results.specs.Coded.{coded_all};
ghost use Rattle.desk_lines.specs.Blocks.{kept, closed_size, closed, question_at, holdings};

use contract::Contract;
use lines::Line;
use results::Report;
use state::State;

// The most bytes that are kept of a line: one more than it may have, so that a longer one is refused.
const KEPT: usize = Line::BYTES + 1;

// The place after n more, at most the size.
pub fn past(at: usize, n: usize, size: usize) -> usize
    ensures { result ≡ min (at + n) size }
{
    at.saturating_add(n).min(size)
}

// The bytes from a place up to an end come to the front, as many as are kept; answers how many.
// Kept: (a) from and end may be any numbers, and the clauses say what comes of those past the buffer, which a slice of it can't tell.
pub fn bring(bytes: &mut [u8], from: usize, end: usize) -> usize
    ensures value { result ≡ length (kept bytes.old from end) }
    ensures bytes_after { bytes.new ≡ sets bytes.old 0 (kept bytes.old from end) }
{
    if from <= end && end <= bytes.len() {
        let n = KEPT.min(end - from);
        bytes.copy_within(from..from + n, 0);
        return n;
    }
    0
}

// A last line without LF counts if it has a byte: it gets its LF. Answers how many bytes there are then, and 0 where it has none or there is no
// place for its LF.
// Kept: (a) the size may be any number, as above; the LF is stored past it.
pub fn close(bytes: &mut [u8], size: usize) -> usize
    ensures value { result ≡ closed_size (length bytes.old) size }
    ensures bytes_after { bytes.new ≡ closed bytes.old size }
{
    if 0 < size && size < bytes.len() {
        items::store_all(bytes, size, words::spelling(words::LINE_END));
        return size + 1;
    }
    0
}

// The number of the question of report i of those in a row: of the one that refused a line, or that a failed firing met; 0 is no question's number.
// Kept: (a) any place may be asked, also that of a report of which only some words are there: those past the end are 0, while `report_at` takes
// such a one for no report; it needs the integers too.
pub fn question_of(numbers: &[u64], i: usize) -> Option<u8>
    ensures { result ≡ question_at numbers.now i }
{
    // so that the place has no overflow
    if numbers.len() < i {
        return None;
    }
    let at = Report::WORDS * i;
    let numbers = [
        contract::word(numbers, at),
        contract::word(numbers, at + 1),
        contract::word(numbers, at + 2),
        contract::word(numbers, at + 3),
    ];
    match Report::from_numbers(numbers, 0)? {
        Report::Refused(question) | Report::Failed(question) => {
            (question != 0).then_some(question)
        }
        _ => None,
    }
}

// The result lines of what each asset holds, as numbers; answers how many they are.
pub fn held(table: &[u64], s: State, numbers: &mut [u64]) -> usize
    ensures value { result ≡ length (holdings table.now s) }
    ensures numbers_after { numbers.new ≡ sets numbers.old 0 (coded_all (holdings table.now s)) }
{
    let c = contract::head(table);
    let count = c.assets.min(Contract::ASSETS);
    for (i, amount) in s.assets[..count].iter().enumerate() {
        let report = Report::Held(i, *amount);
        items::store_all(numbers, Report::WORDS * i, &report.numbers());
    }
    count
}
