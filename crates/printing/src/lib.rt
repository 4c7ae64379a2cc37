// Pieces of printed lines, written one after the other into a lent buffer: each as a whole, or nothing of it where it has no room.
#![tactic(auto)]

ghost use Rattle.std.specs.Prelude.{◌≡◌, [], ◌∷◌, ◌+◌, ◌≤◌, length, leb};
ghost use Rattle.words.specs.Words.{spelled};
ghost use Rattle.contract.specs.Decode.{word_of};
ghost use Rattle.printing.specs.Decimal.{decimal, signed};
ghost use Rattle.printing.specs.Pieces.{spaces, name_bytes, put, place_after, Put};

// A lent buffer, and the place that the next piece is written from: any place. From one past the buffer's end nothing is written.
// Kept: (d) each method says that the buffer lent before is the one lent after (`same_buffer`): that relates two writers, and a field or an
// invariant speaks of one.
#[derive(Drop)]
pub struct Writer<'a> {
    pub buffer: &'a mut [u8],
    pub at: usize,
}

impl<'a> Writer<'a> {
    // From the buffer's start on.
    pub fn new(buffer: &'a mut [u8]) -> Writer<'a>
        ensures place { result.at ≡ 0 }
        ensures bytes { result.buffer.now ≡ buffer.entry.now }
        ensures same_buffer { result.buffer.ghost_name ≡ buffer.entry.ghost_name }
    {
        Writer { buffer, at: 0 }
    }
}

impl Writer<'_> {
    // Whether n more bytes have room.
    // Kept: (a) both fields are open (docs/DECISIONS.md, 84), so the place may be any number, and room is asked at each piece: a ghost field that
    // it is within the buffer would ask that of whoever makes a writer.
    fn has_room(&self, n: usize) -> bool
        ensures { result ≡ leb (self.now.at + n) (length self.now.buffer.now) }
    {
        let size = self.buffer.len();
        self.at <= size && n <= size - self.at
    }

    // Kept: (d) each piece, here and below, asks for its own room: what is then stored differs, and the place is moved after it.
    pub fn put_byte(&mut self, b: u8)
        ensures place { self.new.at ≡ place_after self.old.buffer.now self.old.at (b ∷ []) }
        ensures bytes { self.new.buffer.now ≡ put self.old.buffer.now self.old.at (b ∷ []) }
        ensures same_buffer { self.new.buffer.ghost_name ≡ self.old.buffer.ghost_name }
    {
        let at = self.at;
        if at < self.buffer.len() {
            self.buffer[at] = b;
            self.at = at + 1;
        }
    }

    pub fn put_bytes(&mut self, word: &[u8])
        ensures place { self.new.at ≡ place_after self.old.buffer.now self.old.at word.now }
        ensures bytes { self.new.buffer.now ≡ put self.old.buffer.now self.old.at word.now }
        ensures same_buffer { self.new.buffer.ghost_name ≡ self.old.buffer.ghost_name }
    {
        if self.has_room(word.len()) {
            let at = self.at;
            let end = at + word.len();
            self.buffer[at..end].copy_from_slice(word);
            self.at = end;
        }
    }

    // A fixed word by its number.
    pub fn put_word(&mut self, which: u8)
        ensures place { self.new.at ≡ place_after self.old.buffer.now self.old.at (spelled which) }
        ensures bytes { self.new.buffer.now ≡ put self.old.buffer.now self.old.at (spelled which) }
        ensures same_buffer { self.new.buffer.ghost_name ≡ self.old.buffer.ghost_name }
    {
        self.put_bytes(words::spelling(which));
    }

    pub fn put_spaces(&mut self, n: usize)
        ensures place { self.new.at ≡ place_after self.old.buffer.now self.old.at (spaces n) }
        ensures bytes { self.new.buffer.now ≡ put self.old.buffer.now self.old.at (spaces n) }
        ensures same_buffer { self.new.buffer.ghost_name ≡ self.old.buffer.ghost_name }
    {
        if self.has_room(n) {
            let at = self.at;
            let end = at + n;
            self.buffer[at..end].fill(b' ');
            self.at = end;
        }
    }

    // The name or string of a table whose length stands at word o, of each of its words the last eight bits.
    // Kept: (c) the bytes by their places: std's contract of an adapter of `iter_mut`, as `zip`, leaves out what is written through it.
    pub fn put_name(&mut self, table: &[u64], o: usize)
        ensures place { self.new.at ≡ place_after self.old.buffer.now self.old.at (name_bytes table.now o) }
        ensures bytes { self.new.buffer.now ≡ put self.old.buffer.now self.old.at (name_bytes table.now o) }
        ensures same_buffer { self.new.buffer.ghost_name ≡ self.old.buffer.ghost_name }
    {
        let name = name_at(table, o);
        if self.has_room(name.len()) {
            let at = self.at;
            for (i, b) in name.iter().enumerate() {
                self.buffer[at + i] = (*b % 256) as u8;
            }
            self.at = at + name.len();
        }
    }

    // So many digits of a number, which are all, the last first.
    // Kept: (b) the first by itself, and no remainder: in the loop too, a line with a number of four to six digits takes 16 to 27 instructions more.
    #[inline(always)]
    fn store_digits(&mut self, count: usize, n: u64)
        requires count { count ≡ length (decimal n) }
        requires in_bounds { self.old.at + count ≤ length self.old.buffer.now }
        ensures written { Put self.old.buffer.now self.old.at (decimal n) self.new.at self.new.buffer.now }
        ensures same_buffer { self.new.buffer.ghost_name ≡ self.old.buffer.ghost_name }
    {
        let at = self.at;
        let end = at + count;
        let mut rest = n;
        for i in (at + 1..end).rev() {
            self.buffer[i] = b'0' + (rest % 10) as u8;
            rest /= 10;
        }
        self.buffer[at] = b'0' + rest as u8;
        self.at = end;
    }

    // The same as a whole, or nothing of them where they have no room.
    #[inline(always)]
    fn put_digits(&mut self, count: usize, n: u64)
        requires { count ≡ length (decimal n) }
        ensures place { self.new.at ≡ place_after self.old.buffer.now self.old.at (decimal n) }
        ensures bytes { self.new.buffer.now ≡ put self.old.buffer.now self.old.at (decimal n) }
        ensures same_buffer { self.new.buffer.ghost_name ≡ self.old.buffer.ghost_name }
    {
        if self.has_room(count) {
            self.store_digits(count, n);
        }
    }

    // The digits of a number.
    // Kept: (a) no Display: a lent buffer takes a piece as a whole or nothing of it. (b) One digit has its own way: without it a desk takes 1.9 per cent
    // more instructions for a mixed session, and 8.9 for one of labels alone (two builds without proof of one tree). So have two, as most questions.
    pub fn put_number(&mut self, n: u64)
        ensures place { self.new.at ≡ place_after self.old.buffer.now self.old.at (decimal n) }
        ensures bytes { self.new.buffer.now ≡ put self.old.buffer.now self.old.at (decimal n) }
        ensures same_buffer { self.new.buffer.ghost_name ≡ self.old.buffer.ghost_name }
    {
        if n < 10 {
            self.put_byte(b'0' + n as u8);
        } else if n < 100 {
            self.put_digits(2, n);
        } else {
            self.put_digits(digit_count(n), n);
        }
    }

    // A minus and the digits of a number.
    fn put_negative(&mut self, n: u64)
        ensures place { self.new.at ≡ place_after self.old.buffer.now self.old.at (45 ∷ decimal n) }
        ensures bytes { self.new.buffer.now ≡ put self.old.buffer.now self.old.at (45 ∷ decimal n) }
        ensures same_buffer { self.new.buffer.ghost_name ≡ self.old.buffer.ghost_name }
    {
        let count = digit_count(n);
        if self.has_room(count + 1) {
            self.put_word(words::MINUS);
            self.store_digits(count, n);
        }
    }

    // A whole number.
    pub fn put_integer(&mut self, z: i64)
        ensures place { self.new.at ≡ place_after self.old.buffer.now self.old.at (signed z) }
        ensures bytes { self.new.buffer.now ≡ put self.old.buffer.now self.old.at (signed z) }
        ensures same_buffer { self.new.buffer.ghost_name ≡ self.old.buffer.ghost_name }
    {
        match u64::try_from(z) {
            Ok(n) => self.put_number(n),
            Err(_) => self.put_negative(z.unsigned_abs()),
        }
    }
}

// What `contract::bytes_at` has.
// Kept: (b) one test of the place: by `contract::bytes_at` a name takes 8 instructions more, of some 140 a line.
fn name_at(table: &[u64], o: usize) -> &[u64]
    ensures { result.now ≡ word_of table.now o }
{
    let Some([size, rest @ ..]) = table.get(o..) else {
        return &[];
    };
    rest.get(..*size as usize).unwrap_or(rest)
}

// How many digits a number has.
pub fn digit_count(n: u64) -> usize
    ensures { result ≡ length (decimal n) }
{
    n.max(1).ilog10() as usize + 1
}
