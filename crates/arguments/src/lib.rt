// What the desk's arguments ask for: its options, its FILE, and the first thing that is wrong with them.
#![tactic(auto)]

ghost use Rattle.std.specs.Prelude.{◌≡◌, Some};
ghost use Rattle.arguments.specs.Asking.{nothing_asked, kind_of, wrong, once, with_file, with_out, heard, ended};
ghost use Rattle.arguments.specs.Saying.{words_of, said};

use std::fmt;

// What one argument is.
#[derive(Clone, Copy)]
pub enum Argument {
    Help,
    Explain,
    Review,
    Pages,
    File,
    // It starts with `-` and is no option.
    Unknown,
    // It has more bytes than an argument may have.
    Long,
}

// What may be wrong with an argument.
#[derive(Clone, Copy, PartialEq, Eq)]
pub enum Mistake {
    Long,
    Unknown,
    // An option that was given before.
    Twice,
    // `--review` with another option.
    Alone,
    // A FILE too many.
    Many,
    // An option without its argument.
    Without,
}

// Which argument is wrong, and what is wrong with it.
#[derive(Clone, Copy)]
pub struct Fault {
    pub place: usize,
    pub mistake: Mistake,
}

// What is wrong, in words.
impl fmt::Display for Mistake {
    ghost output = { λ m. Some (words_of m) };

    fn fmt<W: fmt::Write>(&self, f: &mut fmt::Formatter<W>) -> fmt::Result {
        f.write_str(match self {
            Mistake::Long => " is over 1024 bytes",
            Mistake::Unknown => " is no option of the desk",
            Mistake::Twice => " is an option given before",
            Mistake::Alone => ": --review goes with no other option",
            Mistake::Many => " is one FILE too many",
            Mistake::Without => " is an option without its argument",
        })
    }
}

// The argument by its number, and what is wrong with it.
impl fmt::Display for Fault {
    ghost output = { λ f. Some (said f) };

    fn fmt<W: fmt::Write>(&self, f: &mut fmt::Formatter<W>) -> fmt::Result {
        write!(f, "argument {}{}", self.place, self.mistake)
    }
}

// What is asked so far.
#[derive(Clone, Copy, Default)]
pub struct Asked {
    pub help: bool,
    pub explain: bool,
    pub review: bool,
    // Which argument the OUT of `--pages` is.
    pub pages: Option<usize>,
    // Which argument is an option whose own argument is still to come.
    pub option: Option<usize>,
    // Which argument the FILE is.
    pub file: Option<usize>,
}

// What an argument is.
// Kept: (c) one match on byte strings: its arms tell the proof how long the argument is, and not which bytes it has.
pub fn classify(argument: &[u8]) -> Argument
    ensures { result ≡ kind_of argument.now }
{
    let is = |option: &[u8]| argument == option;
    if Asked::ARGUMENT_BYTES < argument.len() {
        Argument::Long
    } else if is(b"--help") {
        Argument::Help
    } else if is(b"--explain") {
        Argument::Explain
    } else if is(b"--review") {
        Argument::Review
    } else if is(b"--pages") {
        Argument::Pages
    } else if argument.first() == Some(&b'-') {
        Argument::Unknown
    } else {
        Argument::File
    }
}

// Argument n is wrong.
fn wrong(n: usize, mistake: Mistake) -> Result<Asked, Fault>
    ensures { result ≡ wrong n mistake }
{
    Err(Fault { place: n, mistake })
}

// An option, the n-th argument: given before it is wrong, and so is one that goes with none of those given.
fn once(n: usize, given: bool, barred: bool, next: Asked) -> Result<Asked, Fault>
    ensures { result ≡ once n given barred next }
{
    if given {
        wrong(n, Mistake::Twice)
    } else if barred {
        wrong(n, Mistake::Alone)
    } else {
        Ok(next)
    }
}

impl Asked {
    // The most bytes of an argument.
    pub const ARGUMENT_BYTES: usize = 1024;

    // No argument yet.
    pub fn nothing() -> Asked
        ensures { result ≡ nothing_asked }
    {
        Asked::default()
    }

    // One FILE.
    fn take_file(self, n: usize) -> Result<Asked, Fault>
        ensures { result ≡ with_file self n }
    {
        if self.file.is_some() {
            return wrong(n, Mistake::Many);
        }
        Ok(Asked {
            file: Some(n),
            ..self
        })
    }

    // The argument of the option before it, which stands at a place.
    fn take_out(self, place: usize, n: usize, argument: &[u8]) -> Result<Asked, Fault>
        ensures { result ≡ with_out self place n argument.now }
    {
        match argument {
            _ if Asked::ARGUMENT_BYTES < argument.len() => wrong(n, Mistake::Long),
            [b'-', ..] => wrong(place, Mistake::Without),
            _ => Ok(Asked {
                pages: Some(n),
                option: None,
                ..self
            }),
        }
    }

    // One more argument, the n-th.
    pub fn hear(self, n: usize, argument: &[u8]) -> Result<Asked, Fault>
        ensures { result ≡ heard self n argument.now }
    {
        if let Some(place) = self.option {
            return self.take_out(place, n, argument);
        }
        let mut next = self;
        match classify(argument) {
            Argument::Help => {
                next.help = true;
                once(n, self.help, self.review, next)
            }
            Argument::Explain => {
                next.explain = true;
                once(n, self.explain, self.review, next)
            }
            Argument::Review => {
                next.review = true;
                let other = self.help || self.explain || self.pages.is_some();
                once(n, self.review, other, next)
            }
            Argument::Pages => {
                next.option = Some(n);
                once(n, self.pages.is_some(), self.review, next)
            }
            Argument::File => self.take_file(n),
            Argument::Unknown => wrong(n, Mistake::Unknown),
            Argument::Long => wrong(n, Mistake::Long),
        }
    }

    // No argument is left: an option whose argument did not come is wrong.
    pub fn finish(self) -> Result<Asked, Fault>
        ensures { result ≡ ended self }
    {
        match self.option {
            Some(place) => wrong(place, Mistake::Without),
            None => Ok(self),
        }
    }
}
