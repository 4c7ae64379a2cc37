// A cursor, and a parser's answer, as one number, which goes through registers: specs/Packed.antt tells its parts. And what
// all parsers share.
// Kept: (b) where the private parsers of crate expressions alone answer a `Result<u64, u64>`, a cursor or a refusal, which `?` hands on, a reading of
// nodes_4096_shape_0 and nodes_4096_shape_4 of trial_reading takes 7.0 and 6.8 per cent more instructions (unproved builds), which misses the bar, 1.5
// times a plain program's count (docs/TIMES.md). In small programs that read a row of ten tokens one with a number for both takes 30 instructions a
// token, one with a `Result` of two such numbers 35, one with structs of parts 50 to 65 (callgrind).
// Kept: (d) no struct of the one number: a cursor and a refusal are one number, so that a type for it would change how its parts are asked for
// (`c.kind()`) and nothing that a contract says. With a type that says that it is no refusal crate clauses had 49 lines more.
#![tactic(auto)]

ghost use Rattle.std.specs.Prelude.{◌≡◌, true, false, ◌%◌, []};
ghost use Rattle.tokens.specs.Tokens.{between};
ghost use Rattle.entries.specs.Lending.{draft_in, SameLists};
ghost use Rattle.cursors.specs.Packed.{kind_in, start_in, end_in, at_in, question_in, is_stop, cursor_in, step_in};
ghost use Rattle.cursors.specs.Packed.{clipped, clipped_step, cleared, left_after};
ghost use Rattle.reading_laws.specs.Walk as walk;
ghost use Rattle.reading_laws.specs.Walk.{Stop};

use entries::{Lent, NameAt};
pub use entries::{nodes, nodes_since};
use questions::Question;
use tokens::{Lexed, Token};

// The kinds of a cursor where no token is: a place that is refused, the text's end.
const NO_TOKEN: u8 = 203;

pub const TEXT_END: u8 = 204;

// What each part is counted in, and how many values it has.
const START: u64 = 1 << 8;

const END: u64 = 1 << 23;

const AT: u64 = 1 << 38;

const QUESTION: u64 = 1 << 53;

const STOP: u64 = 1 << 61;

const BYTES: u64 = 1 << 8;

// Kept: (d) no enum: the numbers here are the parts' weights and how many values a part has; the two kinds of a cursor without a token go on from
// the tokens' kinds, which are numbers of words.
const PLACES: u64 = 1 << 15;

// ---- Parts.

pub fn kind_of(c: u64) -> u8
    ensures { result ≡ kind_in c }
{
    (c % BYTES) as u8
}

pub fn start_of(c: u64) -> usize
    ensures { result ≡ start_in c }
{
    (c / START % PLACES) as usize
}

pub fn end_of(c: u64) -> usize
    ensures { result ≡ end_in c }
{
    (c / END % PLACES) as usize
}

pub fn at_of(c: u64) -> usize
    ensures { result ≡ at_in c }
{
    (c / AT % PLACES) as usize
}

fn question_of(c: u64) -> u8
    ensures { result ≡ question_in c }
{
    (c / QUESTION % BYTES) as u8
}

// Kept: (d) the bit of a refusal, tested by its weight; no `Ord` is written by hand.
pub fn stops(r: u64) -> bool
    ensures { result ≡ is_stop r }
{
    STOP <= r
}

// ---- Making one.

fn pack(kind: u8, question: u8, start: usize, end: usize, at: usize) -> u64
    ensures kind { kind_in result ≡ kind }
    ensures question { question_in result ≡ question }
    ensures start { start_in result ≡ start % 32768 }
    ensures end { end_in result ≡ end % 32768 }
    ensures at { at_in result ≡ at % 32768 }
    ensures goes { is_stop result ≡ false }
{
    let places = START * (start as u64 % PLACES)
        + END * (end as u64 % PLACES)
        + AT * (at as u64 % PLACES);
    kind as u64 + places + QUESTION * question as u64
}

// A refusal by a question at a place.
// Kept: (a) the question is a number, here and in `pack`: a public function takes any, and so may a cursor's number hold any.
pub fn stop(question: u8, place: usize) -> u64
    ensures value { step_in [] result ≡ Stop question (place % 32768) }
    ensures stops { is_stop result ≡ true }
{
    question as u64 + START * (place as u64 % PLACES) + STOP
}

// The cursor at the next token from a place on.
pub fn lex(text: &[u8], at: usize) -> u64
    ensures value { cursor_in text.now result ≡ clipped text.now (walk.cursor_at text.now at) }
    ensures goes { is_stop result ≡ false }
{
    let found = tokens::next(text, at);
    match found {
        Lexed::Found(t) => pack(t.kind, Question::Grammar.number(), t.start, t.end, at),
        Lexed::Refused(q, p) => pack(NO_TOKEN, q, p, p, at),
        Lexed::End => pack(
            TEXT_END,
            Question::Grammar.number(),
            text.len(),
            text.len(),
            at,
        ),
    }
}

// The cursor after the token at one.
#[tactic(auto, unfolding(crate::specs::Packed::cursor_in))]
pub fn past(text: &[u8], c: u64) -> u64
    ensures value { cursor_in text.now result ≡ clipped text.now (walk.next_of text.now (cursor_in text.now c)) }
    ensures goes { is_stop result ≡ false }
{
    lex(text, end_of(c))
}

// The token at the cursor does not fit.
#[tactic(auto, unfolding(crate::specs::Packed::step_in, crate::specs::Packed::cursor_in, laws::specs::Choice::pick))]
pub fn unfit(text: &[u8], c: u64) -> u64
    ensures value { step_in text.now result ≡ walk.unfit_at text.now (cursor_in text.now c) }
    ensures stops { is_stop result ≡ true }
{
    stop(question_of(c), start_of(c))
}

// Past a token of a kind.
#[tactic(auto, unfolding(reading_laws::specs::Walk::token, crate::specs::Packed::cursor_in, crate::specs::Packed::step_in, crate::specs::Packed::clipped_step, crate::specs::Packed::clipped, laws::specs::Choice::pick))]
pub fn token(text: &[u8], c: u64, kind: u8) -> u64
    ensures { step_in text.now result ≡ clipped_step text.now (walk.token text.now kind (cursor_in text.now c)) }
{
    if kind_of(c) == kind {
        return past(text, c);
    }
    unfit(text, c)
}

// The cursor in any number.
pub fn going(c: u64) -> u64
    ensures { result ≡ c % 2305843009213693952 }
{
    c % STOP
}

// At a name.
#[tactic(auto, unfolding(reading_laws::specs::Walk::name_here, crate::specs::Packed::cursor_in, crate::specs::Packed::step_in, laws::specs::Choice::pick))]
pub fn name_here(text: &[u8], c: u64) -> u64
    ensures { step_in text.now result ≡ walk.name_here text.now (cursor_in text.now c) }
{
    if kind_of(c) == Token::NAME {
        return going(c);
    }
    unfit(text, c)
}

// The name at the cursor.
pub fn name_at(text: &[u8], c: u64) -> NameAt<'_>
    ensures text { result.text.now ≡ text.now }
    ensures start { result.start ≡ start_in c }
    ensures end { result.end ≡ end_in c }
    ensures word { result.word.now ≡ between text.now (start_in c) (end_in c) }
{
    NameAt::of(text, start_of(c), end_of(c))
}

// At the name of a state, after its `@`.
#[tactic(auto, unfolding(reading_laws::specs::Walk::state_at, reading_laws::specs::Walk::name_here, crate::specs::Packed::cursor_in, crate::specs::Packed::clipped_step, crate::specs::Packed::clipped, laws::specs::Choice::pick))]
pub fn state_at(text: &[u8], c: u64) -> u64
    ensures { step_in text.now result ≡ clipped_step text.now (walk.state_at text.now (cursor_in text.now c)) }
{
    if kind_of(c) == words::AT_SIGN {
        return name_here(text, past(text, c));
    }
    unfit(text, c)
}

// A state's mention, and its number.
#[tactic(auto, unfolding(crate::specs::Packed::cursor_in))]
pub fn mention_state(text: &[u8], lent: &mut Lent, c: u64) -> usize
    ensures number { result ≡ walk.state_number text.now (cursor_in text.now c) (draft_in lent.old) }
    ensures value { draft_in lent.new ≡ walk.stated text.now (cursor_in text.now c) (draft_in lent.old) }
    ensures same_lists { SameLists lent.old lent.new }
{
    lent.mention(&name_at(text, c), entries::STATE, start_of(c))
}

// Past the closing parenthesis.
#[tactic(auto, unfolding(reading_laws::specs::Walk::closed_by, crate::specs::Packed::step_in, crate::specs::Packed::clipped_step, laws::specs::Choice::pick))]
pub fn close(text: &[u8], r: u64) -> u64
    ensures { step_in text.now result ≡ clipped_step text.now (walk.closed_by text.now (step_in text.now r)) }
{
    if stops(r) {
        return r;
    }
    token(text, r, words::CLOSE_PAREN)
}

// What a parser leaves behind: after a refusal, zeros.
// Kept: (a) each public parser of four crates asks the text's length and ends here; a function over them all would be public too, and
// require that its closure may be called.
#[tactic(auto, unfolding(crate::specs::Packed::left_after, laws::specs::Choice::pick))]
pub fn leave(lent: &mut Lent, r: u64) -> u64
    ensures value { result ≡ r }
    ensures lists { draft_in lent.new ≡ left_after r (draft_in lent.old) }
    ensures same_lists { SameLists lent.old lent.new }
{
    if stops(r) {
        entries::clear(lent.table);
        entries::clear(lent.notes);
    }
    r
}

// What a parser leaves behind of a text that is too long: zeros, and question 1 at the text's start.
#[tactic(auto, unfolding(crate::specs::Packed::left_after, laws::specs::Choice::pick))]
pub fn too_long(lent: &mut Lent) -> u64
    ensures value { step_in [] result ≡ Stop 1 0 }
    ensures stops { is_stop result ≡ true }
    ensures lists { draft_in lent.new ≡ cleared (draft_in lent.old) }
    ensures same_lists { SameLists lent.old lent.new }
{
    leave(lent, stop(Question::TextLength.number(), 0))
}
