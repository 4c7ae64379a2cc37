// The questions that can refuse, by the documents' number.
#![tactic(auto)]

ghost use Rattle.std.specs.Prelude.{◌≡◌, IfSome};
ghost use Rattle.questions.specs.Numbers.{number_of, question_of};

// A question of the documents that can refuse, by its number there.
#[derive(Clone, Copy, PartialEq, Eq)]
pub enum Question {
    // Reading.
    // Is the text short enough?
    TextLength = 1,
    // Has the lent table exactly the length that docs/TABLE.md states?
    TableLength = 2,
    // Is the byte printable ASCII, tab, LF or CR?
    Byte = 5,
    // Does a token start here?
    Token = 6,
    // Is the name or string short enough?
    WordLength = 7,
    // Does the number fit?
    NumberSize = 8,
    // Does the token fit the grammar?
    Grammar = 9,
    // Within 16 levels?
    Levels = 10,
    // Within the other limits?
    Limits = 11,
    // Is a declared name new?
    NameNew = 12,
    // Is a used name of the kind wanted?
    NameKind = 13,
    // Does the agreement keep its three rules?
    AgreementRules = 14,
    // Are state, party and function name together new?
    FunctionNew = 15,
    // Every step.
    // Does the table pass the check?
    TableCheck = 3,
    // Is the state within its ranges and, unagreed, fresh?
    StateRanges = 4,
    // Has the label slice at least 64 entries?
    LabelRoom = 20,
    // Agreement.
    // Not yet agreed?
    NotAgreed = 21,
    // Same parties, verbs and fields?
    SameClauses = 23,
    // Agreed values equal to those set?
    SameValues = 24,
    // Call; 22 and 25 are a tick's and a jump's too, 22 a firing's.
    // Agreed?
    Agreed = 22,
    // Nothing due?
    NothingDue = 25,
    // Such a function for this party in this state?
    FunctionKnown = 26,
    // Right numbers of arguments?
    ArgumentCount = 27,
    // Assets 0 or more?
    AssetArguments = 28,
    // Precondition true?
    Precondition = 29,
    // Working out.
    // Has the field a value?
    FieldValue = 30,
    // Operands of the kind needed?
    OperandKind = 31,
    // Result in 64 bits?
    ResultRange = 32,
    // Divisor not zero?
    Divisor = 33,
    // Amount 0 or more?
    AmountSign = 34,
    // Held by the source?
    AmountHeld = 35,
    // Does the other asset's sum fit?
    SumFits = 36,
    // Body's end.
    // Asset parameters empty?
    ParametersEmpty = 37,
    // At most 64 pending?
    PendingRoom = 39,
    // Tick.
    // Clock below top?
    ClockBelowTop = 40,
    // Firing.
    // Something due?
    SomethingDue = 41,
    // Lines.
    // Session line within 512 bytes before its LF?
    LineLength = 50,
    // An agreement, a call, a tick or a jump?
    LineForm = 51,
    // Result buffer of at least 128 bytes?
    ResultRoom = 52,
    // Does each number of the result name something of its kind?
    ResultKinds = 53,
    // The settlement page (document 02, F-1); question 3 is asked between the two.
    // Has the page buffer at least 5,185 bytes?
    PageRoom = 60,
    // Is each entry an asset payout by one of the two rules to a known party, with clock and amount 0 to top?
    PageEntries = 61,
    // Jump (document 02, F-3), after a tick's 22 and 25.
    // Is the time not before the clock?
    TimeNotPast = 62,
}

impl Question {
    // Each of them.
    pub const ALL: [Question; 43] = [
        Question::TextLength,
        Question::TableLength,
        Question::Byte,
        Question::Token,
        Question::WordLength,
        Question::NumberSize,
        Question::Grammar,
        Question::Levels,
        Question::Limits,
        Question::NameNew,
        Question::NameKind,
        Question::AgreementRules,
        Question::FunctionNew,
        Question::TableCheck,
        Question::StateRanges,
        Question::LabelRoom,
        Question::NotAgreed,
        Question::SameClauses,
        Question::SameValues,
        Question::Agreed,
        Question::NothingDue,
        Question::FunctionKnown,
        Question::ArgumentCount,
        Question::AssetArguments,
        Question::Precondition,
        Question::FieldValue,
        Question::OperandKind,
        Question::ResultRange,
        Question::Divisor,
        Question::AmountSign,
        Question::AmountHeld,
        Question::SumFits,
        Question::ParametersEmpty,
        Question::PendingRoom,
        Question::ClockBelowTop,
        Question::SomethingDue,
        Question::LineLength,
        Question::LineForm,
        Question::ResultRoom,
        Question::ResultKinds,
        Question::PageRoom,
        Question::PageEntries,
        Question::TimeNotPast,
    ];

    // Its number in the documents.
    pub fn number(self) -> u8
        ensures { result ≡ number_of self }
    {
        self as u8
    }

    // The question with a number; none for a number that no question has.
    // Kept: (d) no `TryFrom`: a number that is no question's is no failure, and an error type for it would say no more than None.
    pub fn from_number(number: u8) -> Option<Question>
        ensures value { result ≡ question_of number }
        ensures only { IfSome result (λ q. number_of q ≡ number) }
    {
        Question::ALL.iter().copied().find(|q| q.number() == number)
    }
}
