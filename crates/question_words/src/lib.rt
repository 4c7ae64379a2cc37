// The words of each question, by its number.
#![tactic(auto)]

ghost use Rattle.std.specs.Prelude.{◌≡◌};
ghost use Rattle.question_words.specs.Words.{words_of};

// The words by the question's number, none where no question has it: reading, a table and a state from 1, steps and working out from 20,
// lines from 50, those of document 02 from 60.
// Kept: (a) a list by number, with empty rows for the numbers between: any number may be asked, and a match on 43 questions is over the 40
// lines that a function may have.
static SENTENCES: [&[u8]; 63] = [
    b"",
    b"the text is over 16384 bytes",
    b"the table has another length than docs/TABLE.md states",
    b"the table does not pass its check",
    b"the state is not within its ranges",
    b"not a printable ASCII byte, tab, LF or CR",
    b"no token starts here",
    b"a name over 32 bytes or a string over 64",
    b"a number over 9223372036854775807",
    b"this does not fit the grammar",
    b"more than 16 levels",
    b"one more than the limit",
    b"this name is declared already",
    b"not a name of the kind wanted here",
    b"the agreement breaks its rules",
    b"this party has a function of this name in this state already",
    b"",
    b"",
    b"",
    b"",
    b"the label slice is too short",
    b"agreed already",
    b"not agreed yet",
    b"not the parties, verbs and fields of the agreement",
    b"set and agreed values are not the same",
    b"an event is due",
    b"no such function for this party in this state",
    b"a wrong number of arguments",
    b"an asset below 0",
    b"the precondition is false",
    b"a field without a value",
    b"an operand of the wrong kind",
    b"a result over 64 bits",
    b"a divisor of 0",
    b"an amount below 0",
    b"more than the source holds",
    b"more than the other asset can hold",
    b"an asset parameter is not empty at the end",
    b"",
    b"more than 64 events pending",
    b"the clock is at its last value",
    b"nothing is due",
    b"",
    b"",
    b"",
    b"",
    b"",
    b"",
    b"",
    b"",
    b"a line over 512 bytes",
    b"not a line of a session",
    b"the result buffer is under 128 bytes",
    b"a number that names nothing of its kind",
    b"",
    b"",
    b"",
    b"",
    b"",
    b"",
    b"the page buffer is under 5185 bytes",
    b"not an asset payout to a known party",
    b"that time is past",
];

// The words of the question with a number. Any number may be asked: one that no question has has no words.
pub fn words(number: u8) -> &'static [u8]
    ensures { result.now ≡ words_of number }
{
    items::get_or(&SENTENCES, number as usize, &[])
}
