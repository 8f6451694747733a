// The numbers of the C interface by their names: of refusals, of literals' and records' kinds, and of rows' reasons.
#![tactic(auto)]

// A refusal's number, as RULES 11 lists them.
#[derive(Clone, Copy, PartialEq, Eq)]
pub enum Number {
    EmptyList = 1,
    NotSixes = 2,
    TooManyLiterals = 3,
    BadDescriptor = 4,
    BodiesTooLong = 5,
    NotUtf8 = 6,
    MixedBytes = 7,
    StringError = 10,
    UnicodeError = 11,
    NonAsciiInBytes = 12,
    NameNotHeld = 13,
    UnclosedLbrace = 20,
    InvalidConversionFlag = 21,
    EmptyExpression = 22,
    MismatchedDelimiter = 23,
    ExpressionNestedTooDeeply = 24,
    SingleRbrace = 25,
    Unmatched = 26,
    UnterminatedString = 27,
    TooManyBrackets = 28,
    TooFewRecordPlaces = 30,
    TooLittleTextRoom = 31,
    ScriptTooLong = 49,
    NeverClosed = 50,
    NewlineInLiteral = 51,
    NoLiteral = 52,
    TooLittleListRoom = 53,
    NotWritable = 54,
    NotReadBack = 55,
    TooLittleBodyRoom = 56,
    FirstIllFormed = 57,
    SecondIllFormed = 58,
    NoMiddleRoom = 59,
    LineMalformed = 60,
    NameTwice = 61,
    TooLittleIndexRoom = 62,
    WrongIndex = 63,
    WrongOffsets = 64,
    PieceTooLong = 65,
    PieceRefused = 66,
    ReadingsDiffer = 67,
    NotOfGrammar = 68,
    OutsideSet = 69,
    RowMalformed = 70,
    WrongColumns = 71,
    OutOfRange = 72,
    TooLittleLineRoom = 73,
    TooLittleCutRoom = 74,
    ReadOtherwise = 75,
    UnknownPrefix = 76,
}

// A literal's kind.
#[derive(Clone, Copy, PartialEq, Eq)]
pub enum Kind {
    String = 0,
    FString = 1,
    Bytes = 2,
    RawString = 3,
    RawFString = 4,
    RawBytes = 5,
    Unicode = 6,
}

// A record's kind.
#[derive(Clone, Copy, PartialEq, Eq)]
pub enum RecordKind {
    Literal = 1,
    Field = 2,
    Spec = 3,
    Bytes = 4,
}

// A row's reason: a field's conversion is written, or there is none, or it is `r` for want of a spec, or none for a spec; or the row is a refusal.
#[derive(Clone, Copy, PartialEq, Eq)]
pub enum Reason {
    Written = 1,
    Bare = 2,
    Repr = 3,
    Spec = 4,
    Refusal = 5,
}
