// A tokenizer over a lent text: a token with its place, a refusal with its place, or the text's end.
#![tactic(auto)]

ghost use Rattle.std.specs.Prelude.{◌≡◌, ℕ, Bool, true, false, ◌+◌, ◌-◌, ◌*◌, ◌≤◌, ◌<◌, min, length, drop, get_or, eqb};
ghost use Rattle.laws.specs.Choice.{pick};
ghost use Rattle.laws.specs.Bytes.{same_bytes};
ghost use Rattle.words.specs.Words.{spelled};
ghost use Rattle.questions.specs.Numbers.{number_of};
ghost use Rattle.tokens.specs.Classes.{within, is_letter, is_digit, is_name_byte, is_printable, is_blank, is_text, is_string_byte, run, gap};
ghost use Rattle.tokens.specs.Private.{is_comment_byte};
ghost use Rattle.tokens.specs.Tokens.{token, digits_at, token_at, part_of, between, name_at, number_at, string_at, mark_at, marks, start_at, kind_among, reserved};

use numbers::Value;
use questions::Question;

#[derive(Clone, Copy)]
pub struct Token {
    pub start: usize,
    // The place after its last byte.
    pub end: usize,
    // A number's value, else 0.
    pub value: u64,
    // The number of the fixed word that it is, or NAME, NUMBER or STRING.
    pub kind: u8,
}

// Kept: (a) the kinds are numbers and no enum: a token's kind is a byte, the number of a fixed word or one of these three, which the cursor of the
// parsers holds in its bits, and `part` answers for any. The others are limits and a byte.
impl Token {
    pub const NAME: u8 = 200;

    pub const NUMBER: u8 = 201;

    pub const STRING: u8 = 202;
    // The longest name and the longest string, in bytes.
    pub const NAME_BYTES: usize = 32;

    pub const STRING_BYTES: usize = 64;
    // The byte that closes a comment.
    const COMMENT_END: u8 = b'\n';
    // The greatest number.
    pub const TOP: u64 = Value::TOP as u64;
}

// What stands at a place of a text: a token, the question that refuses with its place, or the text's end.
// Kept: (d) three cases of one rank; whoever reads a Result<Option<Token>, (u8, usize)> has to match the same three, each one level deeper. The
// question stands as its number, as in the definitions of reading, which compare it, and in the cursor that it goes into.
#[derive(Clone, Copy)]
pub enum Lexed {
    Found(Token),
    Refused(u8, usize),
    End,
}

// Whether a byte is one of those from `lo` up to `hi`: two tests in this order, so that the likely one is not lost among others.
#[tactic(auto, unfolding(crate::specs::Classes::within, laws::specs::Choice::pick))]
fn within(b: u8, lo: u8, hi: u8) -> bool
    ensures { result ≡ within b lo hi }
{
    if lo <= b { b <= hi } else { false }
}

// Whether a byte is an ASCII letter.
#[tactic(auto, unfolding(crate::specs::Classes::is_letter, crate::specs::Classes::within, laws::specs::Choice::pick))]
pub fn is_letter(b: u8) -> bool
    ensures { result ≡ is_letter b }
{
    b.is_ascii_alphabetic()
}

#[tactic(auto, unfolding(crate::specs::Classes::is_digit, crate::specs::Classes::within, laws::specs::Choice::pick))]
pub fn is_digit(b: u8) -> bool
    ensures { result ≡ is_digit b }
{
    b.is_ascii_digit()
}

#[tactic(auto, unfolding(crate::specs::Classes::is_name_byte, crate::specs::Classes::is_letter, laws::specs::Choice::pick))]
pub fn is_name_byte(b: u8) -> bool
    ensures { result ≡ is_name_byte b }
{
    within(b, b'a', b'z') || is_letter(b) || is_digit(b) || b == b'_'
}

#[tactic(auto, unfolding(crate::specs::Classes::is_printable, crate::specs::Classes::within, laws::specs::Choice::pick))]
fn is_printable(b: u8) -> bool
    ensures { result ≡ is_printable b }
{
    within(b, b' ', b'~')
}

// Kept: (b) by `matches!` a reading of nodes_4096_shape_0 and nodes_4096_shape_4 of trial_reading takes 2.2 and 2.5 per cent more instructions than
// by this (unproved builds): with two places of words, which `goes_on` there tells, past the bar (docs/TIMES.md); and four tests read as plainly.
#[tactic(auto, unfolding(crate::specs::Classes::is_blank, laws::specs::Choice::pick))]
fn is_blank(b: u8) -> bool
    ensures { result ≡ is_blank b }
{
    b == b' ' || b == b'\t' || b == b'\n' || b == b'\r'
}

#[tactic(auto, unfolding(crate::specs::Classes::is_text, laws::specs::Choice::pick))]
fn is_text(b: u8) -> bool
    ensures { result ≡ is_text b }
{
    is_printable(b) || is_blank(b)
}

// Whether a comment goes on with a byte.
#[tactic(auto, unfolding(crate::specs::Private::is_comment_byte, laws::specs::Choice::pick))]
fn is_comment_byte(b: u8) -> bool
    ensures { result ≡ is_comment_byte b }
{
    b != Token::COMMENT_END && is_text(b)
}

#[tactic(auto, unfolding(crate::specs::Classes::is_string_byte, laws::specs::Choice::pick))]
pub fn is_string_byte(b: u8) -> bool
    ensures { result ≡ is_string_byte b }
{
    b != b'"' && is_printable(b)
}

// The byte at i, and 0 past the end.
// Kept: (d) `items::get_or(text, i, 0)` by a name, which its seven uses would write out; each stands where a text may end.
pub fn byte_at(text: &[u8], i: usize) -> u8
    ensures { result ≡ get_or text.now i 0 }
{
    items::get_or(text, i, 0)
}

// The text from a place on.
fn rest(text: &[u8], at: usize) -> &[u8]
    ensures { result.now ≡ drop at text.now }
{
    text.get(at..).unwrap_or(&[])
}

// The end of the bytes of a class that start at `at`.
fn run_end<F: Fn(u8) -> bool>(text: &[u8], at: usize, class: F) -> usize
    ghost p: { ℕ → Bool }
    requires callable { (b : ℕ) → F.pre class b }
    requires computes { (b : ℕ) (r : Bool) → F.post class b r → r ≡ p b }
    ensures { result ≡ at + run p (drop at text.now) }
{
    for i in at..text.len() {
        if !class(text[i]) {
            return i;
        }
    }
    at.max(text.len())
}

// The place after the comment's bytes that start at `at`.
fn comment_end(text: &[u8], at: usize) -> usize
    ensures { (at ≤ result) × (result + gap false (drop result text.now) ≡ at + gap true (drop at text.now)) }
{
    let end = run_end(text, at, is_comment_byte);
    if byte_at(text, end) == Token::COMMENT_END {
        end + 1
    } else {
        end
    }
}

// The end of the name bytes that start at `at`.
pub fn name_end(text: &[u8], at: usize) -> usize
    ensures { result ≡ at + run is_name_byte (drop at text.now) }
{
    run_end(text, at, is_name_byte)
}

// The end of digits, and their value; where that is greater than 2 ^ 63, the number after it.
#[derive(Clone, Copy)]
pub struct Digits {
    pub end: usize,
    pub value: u64,
}

impl Digits {
    // The most digits of a number of 64 bits.
    pub const MOST: usize = 20;
    // The number after 2 ^ 63.
    // Kept: (d) no Option<u64>: a reader would ask first whether there is a number, then whether it is within its own limit; this one is beyond each
    // limit, so that the second question answers both.
    const ABOVE: u64 = Value::LIMIT + 1;
    // A number above this one is beyond the limit with any digit more.
    const TENTH: u64 = Value::LIMIT / 10;
}

// v followed by one more digit, or ABOVE where that is greater than 2 ^ 63.
fn push(v: u64, digit: u8) -> u64
    ensures { result ≡ min (v * 10 + (digit - 48)) 9223372036854775809 }
{
    if Digits::TENTH < v {
        return Digits::ABOVE;
    }
    let last = u64::from(digit.saturating_sub(b'0'));
    (v * 10 + last).min(Digits::ABOVE)
}

// The digits that start at `at`, gone over once.
pub fn read_digits(text: &[u8], at: usize) -> Digits
    ensures { result ≡ digits_at text.now at }
{
    let mut value = 0;
    for end in at..text.len() {
        let digit = text[end];
        if !is_digit(digit) {
            return Digits { end, value };
        }
        value = push(value, digit);
    }
    let end = at.max(text.len());
    Digits { end, value }
}

// The value of the digits at a place; where that is greater than 2 ^ 63, the number after it.
pub fn value_of(text: &[u8], at: usize) -> u64
    ensures { result ≡ (digits_at text.now at).value }
{
    read_digits(text, at).value
}

static RESERVED: [u8; 7] = [
    words::LEGAL_CONTRACT,
    words::ASSETS,
    words::FIELDS,
    words::AGREEMENT,
    words::NOW,
    words::TRUE,
    words::FALSE,
];

// The kind of a name: the reserved word that it is, or NAME.
fn name_kind(name: &[u8]) -> u8
    ensures { result ≡ kind_among reserved name.now }
{
    RESERVED
        .iter()
        .copied()
        .find(|word| words::is_word(name, *word))
        .unwrap_or(Token::NAME)
}

// A place inside a text.
#[derive(Clone, Copy)]
struct Here<'a> {
    text: &'a [u8],
    at: usize,
    ghost inside: { at < length text.now },
}

impl Here<'_> {
    // A token without a value.
    fn found(&self, kind: u8, end: usize) -> Lexed
        ensures { result ≡ token kind self.now.at end 0 }
    {
        Lexed::Found(Token {
            kind,
            start: self.at,
            end,
            value: 0,
        })
    }

    // A fixed word, of so many bytes.
    fn word(&self, kind: u8, bytes: usize) -> Lexed
        requires { bytes ≤ 6 }
        ensures { result ≡ token kind self.now.at (self.now.at + bytes) 0 }
    {
        self.found(kind, self.at + bytes)
    }

    fn refused(&self, question: Question) -> Lexed
        ensures { result ≡ Lexed.Refused (number_of question) self.now.at }
    {
        Lexed::Refused(question.number(), self.at)
    }

    // The name or reserved word.
    fn name(&self) -> Lexed
        requires { is_letter (get_or self.now.text.now self.now.at 0) ≡ true }
        ensures { result ≡ name_at self.now.text.now self.now.at }
    {
        let end = name_end(self.text, self.at + 1);
        let fits = end - self.at <= Token::NAME_BYTES;
        if fits {
            self.found(name_kind(&self.text[self.at..end]), end)
        } else {
            self.refused(Question::WordLength)
        }
    }

    #[tactic(auto, unfolding(crate::specs::Tokens::number_at, laws::specs::Choice::pick))]
    fn number(&self) -> Lexed
        ensures { result ≡ number_at self.now.text.now self.now.at }
    {
        let d = read_digits(self.text, self.at);
        if d.value <= Token::TOP {
            Lexed::Found(Token {
                kind: Token::NUMBER,
                start: self.at,
                end: d.end,
                value: d.value,
            })
        } else {
            self.refused(Question::NumberSize)
        }
    }

    // The string that opens here with a quote.
    #[tactic(auto, unfolding(crate::specs::Tokens::string_at, laws::specs::Choice::pick))]
    fn string(&self) -> Lexed
        ensures { result ≡ string_at self.now.text.now self.now.at (run is_string_byte (drop (self.now.at + 1) self.now.text.now)) }
    {
        let start = self.at + 1;
        let end = run_end(self.text, start, is_string_byte);
        match self.text.get(end) {
            Some(b'"') if end - start <= Token::STRING_BYTES => self.found(Token::STRING, end + 1),
            Some(b'"') => self.refused(Question::WordLength),
            _ => self.refused(Question::Token),
        }
    }

    // The byte after the first, and 0 past the end.
    fn second(&self) -> u8
        ensures { result ≡ get_or self.now.text.now (self.now.at + 1) 0 }
    {
        byte_at(self.text, self.at + 1)
    }

    // The long mark where its second byte follows, else the other.
    #[tactic(auto, unfolding(laws::specs::Choice::pick))]
    fn pair(&self, second: u8, long: u8, other: Lexed) -> Lexed
        ensures { result ≡ pick (eqb (get_or self.now.text.now (self.now.at + 1) 0) second) (token long self.now.at (self.now.at + 2) 0) other }
    {
        if self.second() == second {
            self.word(long, 2)
        } else {
            other
        }
    }

    // The mark that starts with `-`; `-o` only before no name byte.
    #[tactic(auto, using(crate::proofs::Marks::minus), unfolding(laws::specs::Choice::pick))]
    fn minus(&self) -> Lexed
        requires { get_or self.now.text.now self.now.at 0 ≡ 45 }
        ensures { result ≡ mark_at marks self.now.text.now self.now.at }
    {
        match self.second() {
            b'>' => self.word(words::VALUE_ARROW, 2),
            b'o' if !is_name_byte(byte_at(self.text, self.at + 2)) => self.word(
                words::ASSET_ARROW,
                2,
            ),
            _ => self.word(words::MINUS, 1),
        }
    }

    // The mark that starts with `=`.
    #[tactic(auto, using(crate::proofs::Marks::equals), unfolding(laws::specs::Choice::pick))]
    fn equals(&self) -> Lexed
        requires { get_or self.now.text.now self.now.at 0 ≡ 61 }
        ensures { result ≡ mark_at marks self.now.text.now self.now.at }
    {
        match self.second() {
            b'>' => self.word(words::STATE_ARROW, 2),
            b'=' => self.word(words::EQUAL, 2),
            _ if words::continues(self.text, self.at, words::SET_ARROW) => self.word(
                words::SET_ARROW,
                6,
            ),
            _ if words::continues(self.text, self.at, words::OK_ARROW) => self.word(
                words::OK_ARROW,
                5,
            ),
            _ => self.refused(Question::Token),
        }
    }

    // The mark that starts with `|`.
    #[tactic(auto, using(crate::proofs::Marks::bar), unfolding(laws::specs::Choice::pick))]
    fn bar(&self) -> Lexed
        requires { get_or self.now.text.now self.now.at 0 ≡ 124 }
        ensures { result ≡ mark_at marks self.now.text.now self.now.at }
    {
        if words::continues(self.text, self.at, words::MAPS_TO) {
            return self.word(words::MAPS_TO, 3);
        }
        self.pair(b'|', words::OR, self.refused(Question::Token))
    }

    // The mark that starts here, by its first byte.
    // Kept: (d) a match on the byte is no older form: `minus`, `equals` and `bar` each require the byte that their arm has tested, which a table of
    // functions or a closure does not know.
    fn mark(&self) -> Lexed
        ensures { result ≡ mark_at marks self.now.text.now self.now.at }
    {
        let none = self.refused(Question::Token);
        let b = self.text[self.at];
        match b {
            b'(' => self.word(words::OPEN_PAREN, 1),
            b')' => self.word(words::CLOSE_PAREN, 1),
            b'{' => self.word(words::OPEN_BRACE, 1),
            b'}' => self.word(words::CLOSE_BRACE, 1),
            b'[' => self.word(words::OPEN_BRACKET, 1),
            b']' => self.word(words::CLOSE_BRACKET, 1),
            b',' => self.word(words::COMMA, 1),
            b':' => self.word(words::COLON, 1),
            b'@' => self.word(words::AT_SIGN, 1),
            b'_' => self.word(words::UNDERSCORE, 1),
            b'+' => self.word(words::PLUS, 1),
            b'*' => self.word(words::TIMES, 1),
            b'/' => self.word(words::OVER, 1),
            b'~' => self.word(words::NOT, 1),
            b'-' => self.minus(),
            b'=' => self.equals(),
            b'|' => self.bar(),
            b'<' => self.pair(b'=', words::AT_MOST, self.word(words::LESS, 1)),
            b'>' => self.pair(
                b'>',
                words::EVENT_MARK,
                self.pair(b'=', words::AT_LEAST, self.word(words::GREATER, 1)),
            ),
            b'!' => self.pair(b'=', words::UNEQUAL, none),
            b'&' => self.pair(b'&', words::AND, none),
            _ => none,
        }
    }

    // What starts here.
    // Kept: (d) a match on the byte's class is no older form: `name` requires the letter that its arm has tested, and a table of functions would
    // need an entry for each of the 256 bytes.
    #[tactic(auto, using(crate::proofs::Laws::letter_text, crate::proofs::Laws::digit_text, crate::proofs::Laws::quote_text), unfolding(crate::specs::Tokens::start_at, laws::specs::Choice::pick))]
    fn start(&self) -> Lexed
        ensures { result ≡ start_at self.now.text.now self.now.at (get_or self.now.text.now self.now.at 0) }
    {
        match self.text[self.at] {
            b if is_letter(b) => self.name(),
            b if is_digit(b) => self.number(),
            b'"' => self.string(),
            b if is_text(b) => self.mark(),
            _ => self.refused(Question::Byte),
        }
    }

    // Whether a comment opens here.
    #[tactic(auto, unfolding(laws::specs::Choice::pick))]
    fn opens(&self) -> bool
        ensures { result ≡ pick (eqb (get_or self.now.text.now self.now.at 0) 47) (eqb (get_or self.now.text.now (self.now.at + 1) 0) 47) false }
    {
        self.text[self.at] == b'/' && self.second() == b'/'
    }
}

// The first token at or after `at`.
// Kept: (d) the place jumps over a comment, so that no iterator and no `for` goes over it.
pub fn next(text: &[u8], at: usize) -> Lexed
    ensures { result ≡ token_at text.now at }
{
    let mut i = at;
    while i < text.len() {
        if is_blank(text[i]) {
            i += 1;
            continue;
        }
        let here = Here { text, at: i };
        if here.opens() {
            i = comment_end(text, i + 1);
            continue;
        }
        return here.start();
    }
    Lexed::End
}

// The bytes from a up to, not including, e; none where they are not all in the text.
pub fn between(text: &[u8], a: usize, e: usize) -> &[u8]
    ensures { result.now ≡ between text.now a e }
{
    text.get(a..e).unwrap_or(&[])
}

// The bytes of a token as a part of the text; of a string, those inside its quotes.
#[tactic(auto, unfolding(crate::specs::Tokens::part_of, crate::specs::Tokens::between, laws::specs::Choice::pick))]
pub fn part(text: &[u8], token: Token) -> &[u8]
    ensures { result.now ≡ part_of text.now token }
{
    if token.kind == Token::STRING {
        between(
            text,
            token.start.saturating_add(1),
            token.end.saturating_sub(1),
        )
    } else {
        between(text, token.start, token.end)
    }
}
