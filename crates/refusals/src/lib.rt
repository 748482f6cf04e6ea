// Why a call is refused: the refusals of documents 01 and 02, each with its number.
#![tactic(auto)]

ghost use Rattle.std.specs.Prelude.{◌≡◌};
ghost use Rattle.refusals.specs.Refusals.{number_of};

// What is refused, by the number that the documents give it.
#[derive(Clone, Copy, Debug, PartialEq, Eq)]
pub enum Refusal {
    // a file too short, or longer than the limits permit
    Length = 1,
    // a version other than 1 and 2
    Version = 2,
    // distances that do not fit, or a section that is not a whole number of records
    Distances = 3,
    // a count outside the limits in force
    Counts = 4,
    // a symbol byte or a state byte over its limit
    Bytes = 5,
    // no initial state
    NoInitial = 6,
    // a record with a state or symbol past the count, or a symbol of another kind
    Records = 7,
    // records that do not ascend
    Order = 8,
    // the clause list is longer than its buffer
    ListLength = 10,
    // a clause list that does not fit its variables
    ListForm = 11,
    // no assignment satisfies the clauses
    NoneExists = 12,
    // the budget of guesses is spent
    Spent = 13,
    // fewer answer bytes than variables
    AnswerLength = 14,
    // a map with not one byte a state
    MapLength = 15,
    // class numbers that do not begin at 0 or skip one
    Numbering = 16,
    // (i) joined states that differ in accepting or in their mark
    Disagreement = 17,
    // (ii) an internal move that a joined state does not match
    InternalUnmatched = 18,
    // (iii) a call that a joined state does not match
    CallUnmatched = 19,
    // (iv) a return that a joined state does not match over a joined stack state
    ReturnUnmatched = 20,
    // the output is too short
    OutputLength = 21,
    // the map buffer has under one byte a state
    MapRoom = 22,
    // a script with a symbol past the count
    ScriptSymbol = 30,
    // a script with a 65th open call
    OpenCalls = 31,
    // use lines of another length, or too many
    Lines = 32,
    // a use line with a state past the count
    LineState = 33,
    // a season of no table or more than 8, or lengths that do not add up
    Lengths = 34,
    // a load outside its limits, or more states than permitted in two tables combined
    Load = 35,
    // more records of a kind than a file permits
    LoadRecords = 36,
    // of two tables the symbols differ
    Symbols = 37,
    // the second of two tables has a choice
    Choices = 38,
    // a limit of zero, or past its maximum
    LimitsRange = 39,
    // of two maps the check accepts neither
    NeitherMap = 40,
}

impl Refusal {
    // The number that the documents give it.
    pub fn number(self) -> u8
        ensures { result ≡ number_of self }
    {
        self as u8
    }
}

// The number, as C takes it.
impl From<Refusal> for u32 {
    ghost from_gives = { λ x y. y ≡ number_of x };

    fn from(refusal: Refusal) -> u32 {
        u32::from(refusal.number())
    }
}

// The number, as a season answers it.
impl From<Refusal> for u64 {
    ghost from_gives = { λ x y. y ≡ number_of x };

    fn from(refusal: Refusal) -> u64 {
        u64::from(refusal.number())
    }
}
