//! What the trials have alike: the numbers that a line of a case says, numbers stored in a table, and whether a buffer of dots is as it
//! was.
//!
//! A line may be read in two ways. In a text words stand between spaces, and each is a number or stands for 0: `number`, `number_at`,
//! `first_word`, `store`, `store_line`. In any bytes, which is what the trials read, a number is digits and the byte behind them, whatever
//! that is, and 0 where no digit stands: `leading_number`, `integer`, `leading_word`, `store_leading`, `store_leading_line`.
#![tactic(auto)]

ghost use Rattle.std.specs.Prelude.{◌≡◌, ◌↔◌, ◌-◌, ◌+◌, ◌*◌, ◌^◌, IsTrue, MatchOption, min, nat_eq, length, drop, map, slice_get, codes};
ghost use Rattle.std.specs.List.{AllWithin, before_first, after_first, position_or_len};
ghost use Rattle.trial_text.specs.Numbers.{StandsFor, words, natural, overwritten, stored};
ghost use Rattle.trial_text.specs.Numbers.{leading_natural, leading_integer, behind, behind_integer, leading_stored, line_stored};

use std::str::FromStr;

// ---- a text

/// The number that a word stands for; the default, 0, for one that stands for no number of this type. `FromStr` relates a text to what it may
/// be read as and names no function of it, so the clause does too; at the types of the cases one number is left, the word's `natural` or
/// `integer`.
pub fn number<N: FromStr + Default + Drop>(word: &str) -> N
where
    N::Err: Drop,
    ensures { StandsFor N.from_str_gives N.is_default word.now result }
{
    word.parse().unwrap_or_default()
}

/// The number that word `k` of a text stands for, the first being word 0; the default where the text has no such word.
// Kept: (c) `map(number)`: a function handed on whose answer is of a type parameter is not covered by the check.
pub fn number_at<N: FromStr + Default + Drop>(text: &str, k: usize) -> N
where
    N::Err: Drop,
    ensures { MatchOption (slice_get (words text.now) k) (N.is_default result) (λ w. StandsFor N.from_str_gives N.is_default w result) }
{
    match text.split(' ').nth(k) {
        Some(word) => number(word),
        None => N::default(),
    }
}

/// The first word of a text, and what comes after the space behind it: nothing where the text is one word.
pub fn first_word(text: &str) -> (&str, &str)
    ensures word { result.0.now ≡ before_first (λ b. nat_eq b 32) text.now }
    ensures rest { result.1.now ≡ after_first (λ b. nat_eq b 32) text.now }
{
    text.split_once(' ').unwrap_or((text, ""))
}

/// Stores the numbers that the words of a text stand for, one after another from a place on, as far as there is room.
// Kept: (c) by places: of the slice from there on, in `iter_mut` with the words, std's contract of an adapter leaves out what is written.
pub fn store(numbers: &mut [u64], from: usize, text: &str)
    ensures { numbers.new ≡ overwritten from (map (natural 64) (words text.now)) numbers.old }
{
    for (place, word) in (from..numbers.len()).zip(text.split(' ')) {
        numbers[place] = number(word);
    }
}

/// Stores what a line of a case says: its first word is a place, and the words after it are the numbers from there on.
pub fn store_line(numbers: &mut [u64], line: &str)
    ensures { numbers.new ≡ stored line.now numbers.old }
{
    if let Some((place, words)) = line.split_once(' ') {
        store(numbers, number(place), words);
    }
}

// ---- any bytes

// A text from a place on.
fn rest(text: &[u8], from: usize) -> &[u8]
    ensures { result.now ≡ drop from text.now }
{
    text.get(from..).unwrap_or(&[])
}

// A number with one more digit; the greatest where it does not fit.
fn push(n: u64, digit: u8) -> u64
    ensures { result ≡ min (n * 10 + (digit - 48)) (2 ^ 64 - 1) }
{
    let last = u64::from(digit.saturating_sub(b'0'));
    n.saturating_mul(10).saturating_add(last)
}

// The number that a text begins with.
fn first_number(text: &[u8]) -> u64
    ensures { result ≡ leading_natural text.now }
{
    text.iter()
        .take_while(|b| tokens::is_digit(**b))
        .fold(0, |n, b| push(n, *b))
}

/// The number that a text begins with, the greatest of 64 bits where it is greater, and what stands behind the byte after its digits.
pub fn leading_number(text: &[u8]) -> (u64, &[u8])
    ensures number { result.0 ≡ leading_natural text.now }
    ensures behind { result.1.now ≡ behind text.now }
{
    let end = tokens::read_digits(text, 0).end;
    (first_number(text), rest(text, end.saturating_add(1)))
}

/// The integer that a text begins with: a number behind a minus or without one, the nearest of 64 bits where it does not fit; and what
/// stands behind it.
pub fn integer(text: &[u8]) -> (i64, &[u8])
    ensures integer { result.0 ≡ leading_integer text.now }
    ensures behind { result.1.now ≡ behind_integer text.now }
{
    match text {
        [b'-', digits @ ..] => {
            let (n, more) = leading_number(digits);
            (0i64.saturating_sub_unsigned(n), more)
        }
        _ => {
            let (n, more) = leading_number(text);
            (0i64.saturating_add_unsigned(n), more)
        }
    }
}

// Where the first word of a text ends.
fn first_space(text: &[u8]) -> usize
    ensures { result ≡ position_or_len (λ b. nat_eq b 32) text.now }
{
    text.iter().take_while(|b| **b != b' ').count()
}

/// The first word of a text, and what comes after the space behind it: nothing where the text is one word.
pub fn leading_word(text: &[u8]) -> (&[u8], &[u8])
    ensures word { result.0.now ≡ before_first (λ b. nat_eq b 32) text.now }
    ensures rest { result.1.now ≡ after_first (λ b. nat_eq b 32) text.now }
{
    let end = first_space(text);
    let word = text.get(..end).unwrap_or(text);
    (word, rest(text, end.saturating_add(1)))
}

/// Stores the numbers of a text, one after another from a place on, until the text ends or there is no room.
pub fn store_leading(numbers: &mut [u64], from: usize, text: &[u8])
    ensures { numbers.new ≡ leading_stored (length numbers.old - from) from text.now numbers.old }
{
    let mut more = text;
    for place in from..numbers.len() {
        if more.is_empty() {
            break;
        }
        let (n, behind) = leading_number(more);
        numbers[place] = n;
        more = behind;
    }
}

/// Stores what a line of a case says: its first number is a place, and the numbers after it are those from there on.
pub fn store_leading_line(numbers: &mut [u64], line: &[u8])
    ensures { numbers.new ≡ line_stored line.now numbers.old }
{
    let (place, more) = leading_number(line);
    store_leading(numbers, place as usize, more);
}

// ---- dots

/// Whether each byte of a buffer from a place on is a dot.
pub fn is_dotted(buffer: &[u8], from: usize) -> bool
    ensures { IsTrue result ↔ AllWithin (λ b. b ≡ 46) buffer.now from (length buffer.now) }
{
    buffer.iter().skip(from).all(|b| *b == b'.')
}

/// Whether the dots of a buffer from a place on are as they were, in a word.
pub fn rest_word(buffer: &[u8], from: usize) -> &'static str
    ensures kept { AllWithin (λ b. b ≡ 46) buffer.now from (length buffer.now) → result.now ≡ codes "kept" }
    ensures changed { ¬ (AllWithin (λ b. b ≡ 46) buffer.now from (length buffer.now)) → result.now ≡ codes "changed" }
{
    if is_dotted(buffer, from) {
        "kept"
    } else {
        "changed"
    }
}

#[cfg(test)]
mod tests {
    use super::*;

    #[test]
    fn words_stand_for_numbers(rt: HostRuntime) {
        let bytes = [
            ("42", 42),
            ("+7", 7),
            ("255", 255),
            ("256", 0),
            ("-1", 0),
            ("4x", 0),
            ("", 0),
        ];
        for (word, want) in bytes {
            assert_eq!(rt; number::<u8>(word), want, "{word}");
        }
        assert_eq!(rt; number::<i64>("-1250"), -1250);
        assert_eq!(rt; number::<u64>("18446744073709551615"), u64::MAX);
        assert_eq!(rt; number::<u64>("18446744073709551616"), 0);
    }

    #[test]
    fn words_have_places(rt: HostRuntime) {
        for (k, want) in [(0, 5), (1, 0), (2, 7), (3, 0), (4, 8), (5, 0)] {
            assert_eq!(rt; number_at::<u64>("5 x 7  8", k), want, "{k}");
        }
        assert!(rt; first_word("call me  now") == ("call", "me  now"));
        assert!(rt; first_word("call") == ("call", ""));
    }

    #[test]
    fn words_are_stored(rt: HostRuntime) {
        let mut numbers = [9; 5];
        store(&mut numbers, 1, "5 x 7");
        assert_eq!(rt; numbers, [9, 5, 0, 7, 9]);
        store(&mut numbers, 4, "1 2 3");
        assert_eq!(rt; numbers, [9, 5, 0, 7, 1]);
        store_line(&mut numbers, "2 60 70");
        assert_eq!(rt; numbers, [9, 5, 60, 70, 1]);
        store_line(&mut numbers, "2");
        assert_eq!(rt; numbers, [9, 5, 60, 70, 1]);
    }
}
