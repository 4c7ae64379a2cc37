// A contract as a text, from its table.
use crate::pieces::{Listing, Parameters, Put, Section};
use contract::{Function, Verb};

// The arrow that stands for a verb.
// Kept: (d) a fixed word for each, which a `From` would hide: words are numbers, of which many things have one.
fn arrow_of(verb: Verb) -> u8 {
    match verb {
        Verb::Set => words::SET_ARROW,
        Verb::Ok => words::OK_ARROW,
    }
}

impl Listing<'_> {
    // The first n names of a section.
    // Kept: (d) here and below a list is a loop of two lines: a function over them would be lent the listing, and its closure again.
    fn put_names(&mut self, section: Section, n: usize) -> Put {
        for i in 0..n {
            self.put_comma(i)?;
            self.put_name(section, i)?;
        }
        Ok(())
    }

    // The line of assets or of fields, omitted if there are none.
    fn put_declared(&mut self, word: u8, section: Section, n: usize) -> Put {
        if n == 0 {
            return Ok(());
        }
        self.put_line(1)?;
        self.put_word(word)?;
        self.put_space()?;
        self.put_names(section, n)
    }

    // ---- the agreement

    // The n fields of clause i, `_` for none.
    fn put_fields(&mut self, i: usize, n: usize) -> Put {
        if n == 0 {
            return self.put_word(words::UNDERSCORE);
        }
        for j in 0..n {
            self.put_comma(j)?;
            let x = contract::clause_field(self.table, i, j);
            self.put_name(Section::Fields, x)?;
        }
        Ok(())
    }

    fn put_clause(&mut self, i: usize) -> Put {
        let clause = contract::clause_at(self.table, i);
        self.put_line(2)?;
        self.put_name(Section::Parties, clause.party)?;
        self.put_between(arrow_of(clause.verb()))?;
        self.put_fields(i, clause.fields)
    }

    // agreement (A, B) {
    fn put_parties(&mut self, n: usize) -> Put {
        self.put_line(1)?;
        self.put_word(words::AGREEMENT)?;
        self.put_apart(words::OPEN_PAREN)?;
        self.put_names(Section::Parties, n)?;
        self.put_word(words::CLOSE_PAREN)?;
        self.put_apart(words::OPEN_BRACE)
    }

    fn put_agreement(&mut self) -> Put {
        let head = contract::head(self.table);
        self.put_parties(head.parties)?;
        for i in 0..head.clauses {
            self.put_clause(i)?;
        }
        self.put_end(false, 1, head.initial)
    }
}

// ---- functions

// Function f of the contract, by its row, as it is put into the listing.
#[derive(Drop)]
pub struct Listed<'l, 'a> {
    pub out: &'l mut Listing<'a>,
    pub f: usize,
    pub function: Function,
}

impl Listed<'_, '_> {
    // The first n parameters of one kind, with commas between them.
    fn put_parameters(&mut self, parameters: Parameters, n: usize) -> Put {
        for i in 0..n {
            self.out.put_comma(i)?;
            self.out.put_parameter(self.f, parameters, i)?;
        }
        Ok(())
    }

    // Its value parameters. `(` straight after its name would open them, so that a precondition without parameters comes after ().
    fn put_values(&mut self) -> Put {
        let function = self.function;
        let n = function.values;
        if n == 0 && (function.parameters != 0 || function.precondition == 0) {
            return Ok(());
        }
        self.out.put_apart(words::OPEN_PAREN)?;
        self.put_parameters(Parameters::Values, n)?;
        self.out.put_word(words::CLOSE_PAREN)
    }

    // Its asset parameters.
    fn put_assets(&mut self) -> Put {
        let n = self.function.parameters;
        if n == 0 {
            return Ok(());
        }
        self.out.put_apart(words::OPEN_BRACKET)?;
        self.put_parameters(Parameters::Assets, n)?;
        self.out.put_word(words::CLOSE_BRACKET)
    }

    // The node after its precondition, where its statements start.
    fn body(&self) -> usize {
        let function = self.function;
        function.first.saturating_add(function.precondition)
    }

    fn put_precondition(&mut self) -> Put {
        if self.function.precondition == 0 {
            return Ok(());
        }
        self.out.put_space()?;
        self.put_test(self.body())
    }

    // @Q A : f
    fn put_caller(&mut self) -> Put {
        self.out.put_line(1)?;
        self.out.put_state(self.function.state)?;
        self.out.put_space()?;
        self.out.put_name(Section::Parties, self.function.party)?;
        self.out.put_between(words::COLON)?;
        self.out.put_function_name(self.f)
    }

    // @Q A : f (x) [y] (B) {
    fn put_head(&mut self) -> Put {
        self.put_caller()?;
        self.put_values()?;
        self.put_assets()?;
        self.put_precondition()?;
        self.out.put_apart(words::OPEN_BRACE)
    }

    // Its statements, then its events.
    fn put_body(&mut self) -> Put {
        let first = self.body();
        self.put_block(first, first.saturating_add(self.function.body), 2)?;
        for i in 0..self.function.events {
            self.put_event(self.function.event.saturating_add(i))?;
        }
        Ok(())
    }

    fn put(&mut self) -> Put {
        self.put_head()?;
        self.put_body()?;
        let empty = self.function.body == 0 && self.function.events == 0;
        self.out.put_end(empty, 1, self.function.last)
    }
}

// ---- the contract

impl Listing<'_> {
    fn put_function(&mut self, f: usize) -> Put {
        let function = contract::function_at(self.table, f);
        let mut listed = Listed {
            out: self,
            f,
            function,
        };
        listed.put()
    }

    // Its name, its assets and its fields.
    fn put_start(&mut self) -> Put {
        let head = contract::head(self.table);
        self.put_word(words::LEGAL_CONTRACT)?;
        self.put_space()?;
        self.put_row(contract::NAME)?;
        self.put_apart(words::OPEN_BRACE)?;
        self.put_declared(words::ASSETS, Section::Assets, head.assets)?;
        self.put_declared(words::FIELDS, Section::Fields, head.fields)
    }

    pub(crate) fn put_contract(&mut self) -> Put {
        let head = contract::head(self.table);
        self.put_start()?;
        self.put_agreement()?;
        for f in 0..head.functions {
            self.put_function(f)?;
        }
        self.put_close(false, 0)?;
        self.put_word(words::LINE_END)
    }
}
