// The kinds of records. A record's word 0 is the number of its kind.

#[derive(Clone, Copy, Debug, PartialEq, Eq)]
pub enum RecordKind {
    // Of a step.
    End = 0,
    Marker = 1,
    Value = 2,
    Field = 3,
    // A bounded step that passed the most pads.
    More = 4,

    // Of what is read where a step led to.
    Annotation = 5,
    Body = 6,
    Scalar = 7,
    Number = 8,
    Decimal = 10,
    Timestamp = 11,

    // Of any call, where it refuses.
    Refused = 9,

    // Of a whole map.
    Check = 12,
    PackedSize = 15,
    Packed = 16,

    // What a call wrote.
    Written = 17,

    // Of symbols.
    Text = 13,
    Symbols = 19,
}
