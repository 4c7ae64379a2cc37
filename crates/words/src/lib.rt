// The fixed words of document 01 by their numbers: handed out as bytes, and compared with a part of a text.
#![tactic(auto)]

ghost use Rattle.std.specs.Prelude.{◌≡◌, length, drop};
ghost use Rattle.laws.specs.Bytes.{same_bytes, starts_with};
ghost use Rattle.words.specs.Words.{spelled};
ghost use Rattle.words.specs.Packed.{packed, starts, start_in};

// A word's number is the place of its start in STARTS.

// Reserved words.

pub const LEGAL_CONTRACT: u8 = 0;

pub const ASSETS: u8 = 1;

pub const FIELDS: u8 = 2;

pub const AGREEMENT: u8 = 3;

pub const NOW: u8 = 4;

pub const TRUE: u8 = 5;

pub const FALSE: u8 = 6;

// Marks of a contract's text, longest first.

pub const SET_ARROW: u8 = 7;

pub const OK_ARROW: u8 = 8;

pub const MAPS_TO: u8 = 9;

pub const VALUE_ARROW: u8 = 10;

pub const ASSET_ARROW: u8 = 11;

pub const STATE_ARROW: u8 = 12;

pub const EVENT_MARK: u8 = 13;

pub const EQUAL: u8 = 14;

pub const UNEQUAL: u8 = 15;

pub const AT_MOST: u8 = 16;

pub const AT_LEAST: u8 = 17;

pub const AND: u8 = 18;

pub const OR: u8 = 19;

pub const OPEN_PAREN: u8 = 20;

pub const CLOSE_PAREN: u8 = 21;

pub const OPEN_BRACE: u8 = 22;

pub const CLOSE_BRACE: u8 = 23;

pub const OPEN_BRACKET: u8 = 24;

pub const CLOSE_BRACKET: u8 = 25;

pub const COMMA: u8 = 26;

pub const COLON: u8 = 27;

pub const AT_SIGN: u8 = 28;

pub const UNDERSCORE: u8 = 29;

pub const PLUS: u8 = 30;

pub const MINUS: u8 = 31;

pub const TIMES: u8 = 32;

pub const OVER: u8 = 33;

pub const LESS: u8 = 34;

pub const GREATER: u8 = 35;

pub const NOT: u8 = 36;

// Verbs and the tick of a session line.

pub const SET: u8 = 37;

pub const OK: u8 = 38;

pub const TICK: u8 = 39;

// Printed rule names (a tick prints TICK), and the printed refusal.

pub const AGREE: u8 = 40;

pub const FUNCTION: u8 = 41;

pub const EVENT_MATCH: u8 = 42;

pub const REFUSED: u8 = 43;

// What else a printed line holds.

pub const EQUALS: u8 = 44;

pub const QUOTE: u8 = 45;

pub const SPACE: u8 = 46;

pub const LINE_END: u8 = 47;

// Kept: (a) the constants are numbers and no enum: the functions below answer for any u8, and a token's kind is a byte of a cursor: a word's number, or
// that of names, numbers or strings.

// All words end to end, in the order of their numbers (document 02, F-6).
static PACKED: [u8; 142] =
    *b"legal_contractassetsfieldsagreementnowtruefalse=SET=>=OK=>|->->-o=>>>==!=<=>=&&||(){}[],:@_+-*/<>~SETOKTICKAGREEFUNCTIONEVENT MATCHrefused=\" \n";

// Where each starts, in one byte; the last ends where the bytes end.
static STARTS: [u8; 48] = [
    0, 14, 20, 26, 35, 38, 42, 47, 53, 58, 61, 63, 65, 67, 69, 71, 73, 75, 77, 79, 81, 82, 83, 84,
    85, 86, 87, 88, 89, 90, 91, 92, 93, 94, 95, 96, 97, 98, 101, 103, 107, 112, 120, 131, 138, 139,
    140, 141,
];

// The bytes of all words.
#[tactic(auto, unfolding(crate::specs::Packed::packed))]
pub fn packed() -> &'static [u8]
    ensures { result.now ≡ packed }
{
    &PACKED
}

// The places at which they start.
#[tactic(auto, unfolding(crate::specs::Packed::starts))]
pub fn starts() -> &'static [u8]
    ensures { result.now ≡ starts }
{
    &STARTS
}

// The start with a number, or the end of the bytes where there is none.
fn start(k: usize) -> usize
    ensures { result ≡ start_in packed starts k }
{
    starts().get(k).map_or(packed().len(), |at| *at as usize)
}

// The fixed word with a number, none past the last: what stands from its start to the next, or to the end.
pub fn spelling(which: u8) -> &'static [u8]
    ensures { result.now ≡ spelled which }
{
    let k = which as usize;
    &packed()[start(k)..start(k + 1)]
}

// How many bytes a fixed word has.
pub fn word_length(which: u8) -> usize
    ensures { result ≡ length (spelled which) }
{
    spelling(which).len()
}

// Whether a text goes on with a word at a place, byte by byte.
// Kept: (b) by `text.get(from..).unwrap_or(&[]).starts_with(word)` a reading of nodes_4096_shape_0 of trial_reading takes 3.3 per cent more than by this,
// by `==` in `is_word` 2.9, by `matches!` in `is_blank` of tokens 2.2 (unproved builds): together past the bar, which leaves 5.1 (docs/TIMES.md).
fn goes_on(text: &[u8], from: usize, word: &[u8]) -> bool
    ensures { result ≡ starts_with (drop from text.now) word.now }
{
    word.iter()
        .enumerate()
        .all(|(k, b)| text.get(from.saturating_add(k)) == Some(b))
}

// Whether a text goes on with the fixed word at a place.
pub fn continues(text: &[u8], at: usize, which: u8) -> bool
    ensures { result ≡ starts_with (drop at text.now) (spelled which) }
{
    goes_on(text, at, spelling(which))
}

// Whether a part of a text is the fixed word.
// Kept: (b) by `part == spelling(which)` the same reading takes 2.9 per cent more than by this length and `goes_on`, which tells the bar.
#[tactic(auto, using(crate::proofs::Comparing::same_starts, laws::proofs::Bytes::same_length))]
pub fn is_word(part: &[u8], which: u8) -> bool
    ensures { result ≡ same_bytes part.now (spelled which) }
{
    part.len() == word_length(which) && goes_on(part, 0, spelling(which))
}
