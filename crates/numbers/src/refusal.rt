// Why an entry refuses, and where: a reason, which has a number, and a position in the caller's slice.
ghost use Rattle.std.specs.Prelude.{◌≡◌};
ghost use Rattle.numbers.specs.Refusals.{number_of};

#[derive(Clone, Copy, Debug, PartialEq, Eq)]
pub enum Reason {
    // Whoever cut the bytes short.

    // Nothing after annotations, or where an entry on a value is to begin.
    NoValueLeft = 1,
    // A marker under 4 bytes.
    MarkerCut = 2,
    // A VarUInt without a last byte.
    VarUIntCut = 3,
    // A VarInt without a last byte.
    VarIntCut = 4,
    // Annotations that run past the part.
    AnnotationsCut = 5,
    // A pad that runs past the part.
    PadCut = 6,
    // A field ID with nothing after it.
    FieldCut = 7,
    // A value that runs past the part.
    ValueCut = 8,
    // An Int that runs past the part.
    IntCut = 9,

    // Whoever wrote the bytes.

    // A number that ended past 9 bytes.
    NumberTooLong = 20,
    // A marker without EA.
    BadMarker = 21,
    // No value where one is to stand.
    NotAValue = 22,
    // An annotations' length of 0.
    NoAnnotations = 23,
    // Annotations longer than their wrapper.
    AnnotationsTooLong = 24,
    // A wrapper with no room for a value.
    NoRoomForValue = 25,
    // Annotations of more bytes than the limit.
    TooManyAnnotations = 26,
    // A wrapper in a wrapper.
    WrapperInWrapper = 27,
    // A pad in a wrapper.
    PadInWrapper = 28,
    // A value whose length differs from what its wrapper says.
    WrappedLengthDiffers = 29,
    // A float code outside 0, 4, 8, 15.
    BadFloatLength = 30,
    // A non-null timestamp under 2 bytes.
    TimestampTooShort = 31,
    // An empty ordered struct.
    EmptyOrderedStruct = 32,
    // A bool code 2 to 14.
    BadBool = 33,
    // A negative int of zero.
    NegativeZeroInt = 34,
    // A symbol over 8 bytes.
    SymbolTooLong = 35,
    // Text that is not UTF-8.
    BadUtf8 = 36,
    // A container deeper than the walk goes.
    TooDeep = 37,
    // A marker that isn't 1.0.
    NotVersion10 = 60,
    // A timestamp's hour with no minute.
    HourWithoutMinute = 61,
    // A timestamp's field, offset or fraction out of range.
    TimestampOutOfRange = 62,
    // A timestamp's coefficient whose magnitude has over 8 bytes.
    CoefficientTooLong = 63,
    // A symbol table with imports.
    HasImports = 64,
    // A symbol table with a second list of symbols.
    SecondSymbols = 65,

    // Whoever calls.

    // Parts or positions outside the slice or out of order, a part kind above 2, or a walk state deeper than the walk's
    // limit.
    Outside = 50,
    // A record buffer that is too short.
    RecordTooShort = 51,
    // Stepping into what is not a container or is null.
    NotAContainer = 52,
    // More input than `mapspans` takes.
    InputTooLong = 54,
    // A lent system text that isn't the nine joined.
    NotTheSystemText = 66,
    // A largest number of pads of 0.
    NoPadsAllowed = 67,
    // A limit outside its range.
    LimitOutOfRange = 68,
    // A lent buffer that is shorter than the packed map.
    NoRoomToPack = 69,
    // A lent buffer that is shorter than what is to be written.
    NoRoomToWrite = 70,
    // A pad of size 0, or a length that 9 VarUInt bytes cannot tell.
    NoSuchLength = 71,
}

#[derive(Clone, Copy, Debug, PartialEq, Eq)]
pub struct Refusal {
    pub reason: Reason,
    pub position: usize,
}

// Parts and positions that are outside the slice or out of order, and a limit that is none: each entry refuses them at 0.
pub const OUTSIDE: Refusal = Refusal {
    reason: Reason::Outside,
    position: 0,
};

pub const LIMIT_OUT_OF_RANGE: Refusal = Refusal {
    reason: Reason::LimitOutOfRange,
    position: 0,
};

impl Reason {
    // The number that callers of other languages are given. By `as`, an enum's own way to its number: a `From` would match 43 cases.
    pub fn number(self) -> u64
        ensures { result ≡ number_of self }
    {
        self as u64
    }
}
