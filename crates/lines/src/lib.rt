// A reader of one session line, the bytes before its LF: an agreement, a call, a tick or a jump, or the question that refuses it.
#![tactic(auto)]

ghost use Rattle.std.specs.Prelude.{◌≡◌, [], ◌∷◌, MatchOption, ◌≤◌, ◌<◌, ◌^◌, ◌*◌, length, take, pos, None};
ghost use Rattle.laws.specs.Bytes.{same_bytes};
ghost use Rattle.words.specs.Words.{spelled};
ghost use Rattle.tokens.specs.Tokens.{between};
ghost use Rattle.lines.specs.Lines.{asked, skipped, mark, end, name, digits, integer, verb, field, list, items, part, parts, jump_end, tick_line, call_line};
ghost use Rattle.lines.specs.Answers.{span_in, request_of, numbers_after, agreement_of, agreement_in};
ghost use Rattle.lines.specs.Private.{spot, Gives, Marked, Added, is_done, given, sign_of, ranged, verb_in, verb_word, field_in, field_from, asked_in, CallIs, integers_in, SameList, AgreementIs, with_integers, with_fields, with_head, with_part};

use contract::Verb;
use questions::Question;

// Where a name stands in the line: its first byte, and the place after its last.
#[derive(Clone, Copy)]
pub struct Span {
    pub start: usize,
    pub end: usize,
}

// A call: where its names stand, and how many values and assets it has.
// Kept: (b) a call's numbers stand in a list that is lent to `read`. With them in here a desk took 49 per cent more instructions for a session
// of calls and ticks (two builds without proof of one tree): the room of an option of it is cleared at each line.
#[derive(Clone, Copy)]
pub struct Call {
    pub party: Span,
    pub function: Span,
    pub values: usize,
    pub assets: usize,
}

// What a session line asks for.
#[derive(Clone, Copy)]
pub enum Request {
    Agreement,
    Call(Call),
    Tick,
    // To this clock.
    Jump(i64),
}

// A session line, for its limits.
#[derive(Clone, Copy)]
pub struct Line {}

impl Line {
    // The most bytes of a line, and the numbers that there is room for.
    pub const BYTES: usize = 512;

    pub const NUMBERS: usize = Line::BYTES / 2;
}

// The parts of an agreement. A line has at most 64 parts and 84 fields.
// Kept: (a) a library has no heap, so each list has room for the most that a line can hold, and a count says how much is taken. Document 01 has
// the public step take slices of numbers, any numbers, which questions 23 and 24 judge; in lists of structs they would be copied for it.
#[derive(Clone, Copy)]
pub struct Agreement {
    pub parts: usize,
    // How many fields all parts have.
    pub fields: usize,
    // Four a part: where its party's name starts and ends, 0 for SET and 1 for OK, how many fields it has; then zeros.
    pub heads: [usize; Agreement::HEADS],
    // Two a field: where its name starts and ends; then zeros.
    pub spans: [usize; Agreement::SPANS],
    // One a field; then zeros.
    pub values: [i64; Agreement::FIELDS],
}

// Kept: (d) no kinds but lengths and limits.
impl Agreement {
    // The numbers of a part, and of a field's name.
    pub const HEAD: usize = 4;

    pub const SPAN: usize = 2;

    // The parts and the fields that there is room for, and the numbers of both; a field with its comma takes six bytes.
    pub const PARTS: usize = 64;

    pub const FIELDS: usize = 86;

    pub const HEADS: usize = Agreement::HEAD * Agreement::PARTS;

    pub const SPANS: usize = Agreement::SPAN * Agreement::FIELDS;

    // The numbers of its parts.
    pub fn heads(&self) -> &[usize]
        ensures { result.now ≡ take (4 * self.now.parts) self.now.heads }
    {
        &self.heads[..Agreement::HEAD * self.parts.min(Agreement::PARTS)]
    }

    // The numbers of its fields' names.
    pub fn spans(&self) -> &[usize]
        ensures { result.now ≡ take (2 * self.now.fields) self.now.spans }
    {
        &self.spans[..Agreement::SPAN * self.fields.min(Agreement::FIELDS)]
    }

    // Its fields' values.
    pub fn values(&self) -> &[i64]
        ensures { result.now ≡ take self.now.fields self.now.values }
    {
        &self.values[..self.fields.min(Agreement::FIELDS)]
    }
}

#[derive(Clone, Copy)]
struct Field {
    name: Span,
    value: i64,
}

// A call's integers, so many so far, in a lent list.
// Kept: (a) a library has no heap, so the list is the caller's, with room for all that a line can hold, and a count says how many are in it.
#[derive(Drop)]
struct Integers<'a> {
    count: usize,
    all: &'a mut [i64; Line::NUMBERS],
}

// A line that is not too long.
#[derive(Clone, Copy)]
struct Short<'a> {
    line: &'a [u8],
    ghost short: { length line.now ≤ 512 },
}

// A line, and the place up to which it is read.
#[derive(Drop)]
struct Reader<'a> {
    line: &'a [u8],
    at: usize,
}

impl<'a> Short<'a> {
    fn of(line: &'a [u8]) -> Option<Short<'a>>
        ensures { MatchOption result (512 < length line.now) (λ x. x.line.now ≡ line.now) }
    {
        if Line::BYTES < line.len() {
            None
        } else {
            Some(Short { line })
        }
    }
}

// ---- tokens

impl Reader<'_> {
    // The place of the next byte that is no space.
    fn skip(&self) -> usize
        ensures { result ≡ skipped self.now.line.now self.now.at }
    {
        let rest = self.line.get(self.at..).unwrap_or(&[]);
        let spaces = rest.iter().position(|b| *b != b' ').unwrap_or(rest.len());
        self.at + spaces
    }

    // Past a mark; if another token is next, nothing is read.
    // Kept: (b) inlined, as the two lists of integers below, so that each mark is known where it is read: without, a desk takes 3.8 per cent more
    // instructions for a mixed session, and 9.4 for refused calls (builds without proof of one tree).
    #[inline(always)]
    fn mark(&mut self, which: u8) -> Option<()>
        ensures { Marked (spelled which) (spot self.old) result (spot self.new) }
    {
        let i = self.skip();
        if !words::continues(self.line, i, which) {
            return None;
        }
        self.at = i + words::word_length(which);
        Some(())
    }

    // Whether nothing but spaces is left.
    fn ends(&self) -> bool
        ensures { result ≡ is_done (end self.now.line.now self.now.at) }
    {
        self.line.len() <= self.skip()
    }

    fn name(&mut self) -> Option<Span>
        ensures { Gives span_in name (spot self.old) result (spot self.new) }
    {
        let start = self.skip();
        if !tokens::is_letter(tokens::byte_at(self.line, start)) {
            return None;
        }
        let end = tokens::name_end(self.line, start);
        self.at = end;
        Some(Span { start, end })
    }

    // The integer whose digits start at i.
    fn digits(&mut self, i: usize, minus: bool) -> Option<i64>
        ensures { Gives (λ z. z) (λ s at. digits s (sign_of minus) i) (spot self.old) result (spot self.new) }
    {
        if !tokens::is_digit(tokens::byte_at(self.line, i)) {
            return None;
        }
        let run = tokens::read_digits(self.line, i);
        self.at = run.end;
        signed(minus, run.value)
    }

    fn integer(&mut self) -> Option<i64>
        ensures { Gives (λ z. z) integer (spot self.old) result (spot self.new) }
    {
        let i = self.skip();
        let minus = tokens::byte_at(self.line, i) == b'-';
        if minus {
            return self.digits(i + 1, true);
        }
        self.digits(i, false)
    }

    // Whether a name is this fixed word, byte by byte.
    fn is_word(&self, name: Span, which: u8) -> bool
        ensures { result ≡ same_bytes (between self.now.line.now name.start name.end) (spelled which) }
    {
        words::is_word(tokens::between(self.line, name.start, name.end), which)
    }

    // Any other verb is none.
    fn verb(&mut self) -> Option<Verb>
        ensures { Gives verb_in verb (spot self.old) result (spot self.new) }
    {
        let word = self.name()?;
        if self.is_word(word, words::SET) {
            return Some(Verb::Set);
        }
        if self.is_word(word, words::OK) {
            return Some(Verb::Ok);
        }
        None
    }

    fn field(&mut self) -> Option<Field>
        ensures { Gives field_in field (spot self.old) result (spot self.new) }
    {
        let name = self.name()?;
        self.mark(words::MAPS_TO)?;
        let value = self.integer()?;
        Some(Field { name, value })
    }
}

// A number with a minus sign or none before it, within 64 bits.
fn signed(minus: bool, n: u64) -> Option<i64>
    ensures { result ≡ ranged (sign_of minus (pos n)) }
{
    if minus {
        0i64.checked_sub_unsigned(n)
    } else {
        0i64.checked_add_unsigned(n)
    }
}

// ---- a tick or a jump

impl Reader<'_> {
    // `T]` and the line's end, after `[TICK`.
    fn jump_end(&mut self) -> Option<Request>
        ensures { asked_in result ≡ given request_of (jump_end self.old.line.now self.old.at) }
    {
        let clock = self.integer()?;
        self.mark(words::CLOSE_BRACKET)?;
        if self.ends() {
            return Some(Request::Jump(clock));
        }
        None
    }
}

impl Short<'_> {
    // `[TICK]` or `[TICK T]`
    fn time_line(&self) -> Option<Request>
        ensures { asked_in result ≡ given request_of (tick_line self.now.line.now 0) }
    {
        let mut reader = Reader {
            line: self.line,
            at: 0,
        };
        reader.mark(words::OPEN_BRACKET)?;
        let word = reader.name()?;
        if reader.is_word(word, words::TICK) {
            if reader.mark(words::CLOSE_BRACKET).is_none() {
                return reader.jump_end();
            }
            if reader.ends() {
                return Some(Request::Tick);
            }
        }
        None
    }
}

// ---- a call

impl Integers<'_> {
    // One integer more; without room it is counted alone.
    fn add(&mut self, z: i64)
        requires { self.old.count < 2 ^ 63 }
        ensures value { integers_in self.new ≡ with_integers (integers_in self.old) (z ∷ []) }
        ensures same_list { SameList self.old self.new }
    {
        let at = self.count;
        items::set(self.all, at, z);
        self.count = at + 1;
    }
}

impl Reader<'_> {
    // One integer or more with commas between them, then the closing mark.
    // Kept: (d) a plain loop, here, in `fields` and in `parts`: an item is read before it is asked whether another follows, and what stands in
    // place of another is the answer; what is no item ends it by `?`.
    #[inline(always)]
    fn integers(&mut self, close: u8, out: &mut Integers) -> Option<()>
        requires { out.old.count ≤ self.old.at }
        ensures value { Added (with_integers (integers_in out.old)) (λ s. items s (integer s) (44 ∷ []) (mark s (spelled close)) (length s)) (spot self.old) result (spot self.new) (integers_in out.new) }
        ensures same_list { SameList out.old out.new }
    {
        loop {
            out.add(self.integer()?);
            if self.mark(words::COMMA).is_none() {
                return self.mark(close);
            }
        }
    }

    // A list of integers between two marks, maybe empty.
    #[inline(always)]
    fn integer_list(&mut self, opening: u8, close: u8, out: &mut Integers) -> Option<()>
        requires { out.old.count ≤ self.old.at }
        ensures value { Added (with_integers (integers_in out.old)) (λ s. list s (spelled opening) (integer s) (spelled close)) (spot self.old) result (spot self.new) (integers_in out.new) }
        ensures same_list { SameList out.old out.new }
    {
        self.mark(opening)?;
        if self.mark(close).is_some() {
            return Some(());
        }
        self.integers(close, out)
    }
}

impl Short<'_> {
    // `Party : function`, its two lists, whose integers are stored into the lent list, and the line's end.
    fn call_line(&self, numbers: &mut [i64; Line::NUMBERS]) -> Option<Call>
        ensures { CallIs (call_line self.now.line.now 0) numbers.old result numbers.new }
    {
        let mut reader = Reader {
            line: self.line,
            at: 0,
        };
        let party = reader.name()?;
        reader.mark(words::COLON)?;
        let function = reader.name()?;
        let mut read = Integers {
            count: 0,
            all: numbers,
        };
        reader.integer_list(words::OPEN_PAREN, words::CLOSE_PAREN, &mut read)?;
        let values = read.count;
        reader.integer_list(words::OPEN_BRACKET, words::CLOSE_BRACKET, &mut read)?;
        if !reader.ends() {
            return None;
        }
        Some(Call {
            party,
            function,
            values,
            assets: read.count - values,
        })
    }
}

impl Short<'_> {
    // A line that calls, whose integers go into the lent list once all of it is read: a line that breaks off writes nothing.
    fn call(&self, numbers: &mut [i64; Line::NUMBERS]) -> Option<Call>
        ensures call { CallIs (call_line self.now.line.now 0) numbers.old result numbers.new }
        ensures untouched { MatchOption result (numbers.new ≡ numbers.old) (λ x. Unit) }
    {
        let mut read = [0; Line::NUMBERS];
        let call = self.call_line(&mut read)?;
        items::store_all(numbers, 0, &read[..call.values + call.assets]);
        Some(call)
    }
}

// ---- an agreement

impl Agreement {
    // One field more; without room it is counted alone.
    fn add_field(&mut self, field: Field)
        requires { self.old.fields < 2 ^ 63 }
        ensures { self.new ≡ with_fields self.old (field_from field ∷ []) }
    {
        let span = [field.name.start, field.name.end];
        items::store_all(&mut self.spans, Agreement::SPAN * self.fields, &span);
        items::set(&mut self.values, self.fields, field.value);
        self.fields += 1;
    }

    // The four numbers of one part more.
    fn add_head(&mut self, party: Span, verb: Verb, count: usize)
        requires { self.old.parts ≤ 512 }
        ensures { self.new ≡ with_head self.old (party.start ∷ party.end ∷ verb_word verb ∷ count ∷ []) }
    {
        let head = [party.start, party.end, verb as usize, count];
        items::store_all(&mut self.heads, Agreement::HEAD * self.parts, &head);
        self.parts += 1;
    }
}

impl Reader<'_> {
    // One field or more with commas between them, then `]`.
    // Kept: (d) this and `integers`, `field_list` and `integer_list` differ in the item's type and in what is filled: one function for two would
    // take a closure that reads an item and adds it, and a clause of what that does, in place of the four lines here.
    fn fields(&mut self, out: &mut Agreement) -> Option<()>
        requires { out.old.fields ≤ self.old.at }
        ensures { Added (with_fields out.old) (λ s. items s (field s) (44 ∷ []) (mark s (93 ∷ [])) (length s)) (spot self.old) result (spot self.new) out.new }
    {
        loop {
            out.add_field(self.field()?);
            if self.mark(words::COMMA).is_none() {
                return self.mark(words::CLOSE_BRACKET);
            }
        }
    }

    // A part's fields in brackets, maybe none.
    fn field_list(&mut self, out: &mut Agreement) -> Option<()>
        requires { out.old.fields ≤ self.old.at }
        ensures { Added (with_fields out.old) (λ s. list s (91 ∷ []) (field s) (93 ∷ [])) (spot self.old) result (spot self.new) out.new }
    {
        self.mark(words::OPEN_BRACKET)?;
        if self.mark(words::CLOSE_BRACKET).is_some() {
            return Some(());
        }
        self.fields(out)
    }

    // One part more.
    fn part(&mut self, out: &mut Agreement) -> Option<()>
        requires { (length self.old.line.now ≤ 512) × (out.old.parts ≤ self.old.at) × (out.old.fields ≤ self.old.at) }
        ensures { Added (with_part out.old) part (spot self.old) result (spot self.new) out.new }
    {
        let party = self.name()?;
        let verb = self.verb()?;
        let before = out.fields;
        self.field_list(out)?;
        let count = out.fields - before;
        out.add_head(party, verb, count);
        Some(())
    }
}

// No parts yet.
fn no_agreement() -> Agreement
    ensures { result ≡ agreement_of [] }
{
    Agreement {
        parts: 0,
        fields: 0,
        heads: [0; Agreement::HEADS],
        spans: [0; Agreement::SPANS],
        values: [0; Agreement::FIELDS],
    }
}

impl Short<'_> {
    // All parts, up to the line's end, into a lent agreement that has none yet.
    // Kept: (b) lent, since the room for an agreement in an answer, 4 KB, is cleared where it is made, where it is handed on and where it is
    // taken: with one, `read` takes 17,206 instructions for a line that is refused, where it takes 4,742; (d) a plain loop, as in `integers`.
    fn parts(&self, read: &mut Agreement) -> Option<()>
        requires { read.old ≡ agreement_of [] }
        ensures { AgreementIs (parts self.now.line.now 0) result read.new }
    {
        let mut reader = Reader {
            line: self.line,
            at: 0,
        };
        loop {
            reader.part(read)?;
            if reader.mark(words::OR).is_none() {
                return reader.ends().then_some(());
            }
        }
    }
}

// The parts of an agreement; none for any other line. A line that agrees is read twice, by `read` and by this: an answer of `read` has no
// room for its parts, which would be cleared at each line, and a contract is agreed on once.
pub fn agreement_of(line: &[u8]) -> Option<Agreement>
    ensures { result ≡ agreement_in (asked line.now) }
{
    let short = Short::of(line)?;
    let mut read = no_agreement();
    short.parts(&mut read)?;
    Some(read)
}

// ---- a line

impl Short<'_> {
    // A line that is no tick, no jump and no call.
    // Kept: (b) apart from `read`, since the room for an agreement's parts is cleared at each call of the function that has it: with this in
    // there a desk takes twice the instructions for a session of calls and ticks (two builds without proof of one tree).
    fn other(&self) -> Result<Request, Question>
        requires no_time { None ≡ given request_of (tick_line self.now.line.now 0) }
        requires no_call { None ≡ given request_of (call_line self.now.line.now 0) }
        ensures { result ≡ request_of (asked self.now.line.now) }
    {
        let mut read = no_agreement();
        self.parts(&mut read)
            .map(|_| Request::Agreement)
            .ok_or(Question::LineForm)
    }
}

// What a line asks for; a call's integers come first in the lent list, over what was there, and any other line writes nothing.
pub fn read(line: &[u8], numbers: &mut [i64; Line::NUMBERS]) -> Result<Request, Question>
    ensures value { result ≡ request_of (asked line.now) }
    ensures numbers_after { numbers.new ≡ numbers_after (asked line.now) numbers.old }
{
    let Some(short) = Short::of(line) else {
        return Err(Question::LineLength);
    };
    if let Some(request) = short.time_line() {
        return Ok(request);
    }
    if let Some(call) = short.call(numbers) {
        return Ok(Request::Call(call));
    }
    short.other()
}
