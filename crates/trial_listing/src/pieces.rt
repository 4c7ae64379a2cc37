// A listing as it is made: the table and the text so far. Here: bytes, fixed words and names, put after those that the text has.
ghost use Rattle.std.specs.Prelude.{◌≤◌};
ghost use Rattle.contract.specs.Table.{states_start};
ghost use Rattle.contract.specs.Limits.{max_values};

use contract::{Contract, Function};
use std::io;
use std::io::Write;

// The names that a table has in rows of one size.
#[derive(Clone, Copy)]
pub enum Section {
    Parties,
    Assets,
    Fields,
    States,
}

// Where a section stands.
// Kept: (d) a place that a section has, and no number that it is: `usize::from(section)` would not say so.
fn start_of(section: Section) -> usize
    ensures { result ≤ states_start }
{
    match section {
        Section::Parties => contract::PARTIES,
        Section::Assets => contract::ASSETS,
        Section::Fields => contract::FIELDS,
        Section::States => contract::STATES,
    }
}

// The parameters that a function has.
#[derive(Clone, Copy)]
pub enum Parameters {
    Values,
    Assets,
}

// Where they stand among its names.
// Kept: (d) the reason at `start_of`.
fn place_of(parameters: Parameters) -> usize
    ensures { result ≤ max_values }
{
    match parameters {
        Parameters::Values => 0,
        Parameters::Assets => Function::VALUES,
    }
}

#[derive(Drop)]
pub struct Listing<'a> {
    pub table: &'a [u64],
    pub text: Vec<u8>,
}

// Nothing, or no memory.
pub type Put = io::Result<()>;

impl Listing<'_> {
    fn put_all(&mut self, bytes: &[u8]) -> Put {
        self.text.write_all(bytes)
    }

    pub(crate) fn put_word(&mut self, which: u8) -> Put {
        self.put_all(words::spelling(which))
    }

    pub(crate) fn put_space(&mut self) -> Put {
        self.put_word(words::SPACE)
    }

    // A fixed word after a space.
    pub(crate) fn put_apart(&mut self, which: u8) -> Put {
        self.put_space()?;
        self.put_word(which)
    }

    // A fixed word between spaces.
    pub(crate) fn put_between(&mut self, which: u8) -> Put {
        self.put_apart(which)?;
        self.put_space()
    }

    // A comma and a space before each part of a list but the first.
    pub(crate) fn put_comma(&mut self, i: usize) -> Put {
        if i == 0 {
            return Ok(());
        }
        self.put_word(words::COMMA)?;
        self.put_space()
    }

    // A new line, and a space for each level.
    pub(crate) fn put_line(&mut self, depth: usize) -> Put {
        self.put_word(words::LINE_END)?;
        for _ in 0..depth {
            self.put_space()?;
        }
        Ok(())
    }

    pub(crate) fn put_number(&mut self, n: u64) -> Put {
        write!(self.text, "{n}")
    }

    // ---- names

    // The name or the string whose length stands at word o.
    pub(crate) fn put_row(&mut self, o: usize) -> Put {
        let letters = contract::bytes_at(self.table, o);
        Ok(
            self.text
                .extend(letters.iter().map(|letter| (*letter % 256) as u8))?,
        )
    }

    // Name i of a section.
    pub(crate) fn put_name(&mut self, section: Section, i: usize) -> Put {
        if Contract::STATES <= i {
            return Ok(());
        }
        self.put_row(start_of(section) + i * contract::NAME_WORDS)
    }

    // String i in its quotes.
    pub(crate) fn put_string(&mut self, i: usize) -> Put {
        if Contract::STRINGS <= i {
            return Ok(());
        }
        self.put_word(words::QUOTE)?;
        self.put_row(contract::STRINGS + i * contract::STRING_WORDS)?;
        self.put_word(words::QUOTE)
    }

    // The name of function f, which ends its row.
    pub(crate) fn put_function_name(&mut self, f: usize) -> Put {
        if Contract::FUNCTIONS <= f {
            return Ok(());
        }
        let end = contract::FUNCTIONS + (f + 1) * Function::WORDS;
        self.put_row(end - contract::NAME_WORDS)
    }

    // Parameter i of function f, of the values or of the assets.
    pub(crate) fn put_parameter(&mut self, f: usize, parameters: Parameters, i: usize) -> Put {
        if Contract::FUNCTIONS <= f || Function::VALUES <= i {
            return Ok(());
        }
        let row = f * Function::NAMES + place_of(parameters) + i;
        let n = contract::packed_length(self.table, row) as usize;
        let table = self.table;
        Ok(
            self.text
                .extend((0..n).map(|j| contract::packed_byte(table, row, j)))?,
        )
    }

    // @Q
    pub(crate) fn put_state(&mut self, i: usize) -> Put {
        self.put_word(words::AT_SIGN)?;
        self.put_name(Section::States, i)
    }
}
