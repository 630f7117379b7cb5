// What is asked.
use std::str::FromStr;

#[derive(Clone, Copy, Debug, PartialEq, Eq)]
pub enum Asked {
    VarUInt,
    VarInt,
    Int,
    IntParts,
    Descriptor,
    Length,
    Pad,
    Wrapper,
    Value,
    Frame,
    Annotations,
    Stream,
    Sequence,
    Struct,
    StreamLeft,
    SequenceLeft,
    StructLeft,
    Scalar,
    Part,
    StepIn,
    Decimal,
    DecimalParts,
    DecimalRest,
    Timestamp,
    Instant,
    Walk,
    Check,
}

#[derive(Clone, Copy, Debug)]
pub struct NoSuchQuestion;

// `Function` of `maps_cases` is read the same way: they share the trait and no name, and one table looked through for both would be no plainer.
impl FromStr for Asked {
    type Err = NoSuchQuestion;

    fn from_str(word: &str) -> Result<Self, NoSuchQuestion> {
        match word {
            "varuint" => Ok(Asked::VarUInt),
            "varint" => Ok(Asked::VarInt),
            "int" => Ok(Asked::Int),
            "intparts" => Ok(Asked::IntParts),
            "descriptor" => Ok(Asked::Descriptor),
            "length" => Ok(Asked::Length),
            "pad" => Ok(Asked::Pad),
            "wrapper" => Ok(Asked::Wrapper),
            "value" => Ok(Asked::Value),
            "frame" => Ok(Asked::Frame),
            "annotations" => Ok(Asked::Annotations),
            "stream" => Ok(Asked::Stream),
            "sequence" => Ok(Asked::Sequence),
            "struct" => Ok(Asked::Struct),
            "streamleft" => Ok(Asked::StreamLeft),
            "sequenceleft" => Ok(Asked::SequenceLeft),
            "structleft" => Ok(Asked::StructLeft),
            "scalar" => Ok(Asked::Scalar),
            "part" => Ok(Asked::Part),
            "stepin" => Ok(Asked::StepIn),
            "decimal" => Ok(Asked::Decimal),
            "decimalparts" => Ok(Asked::DecimalParts),
            "decimalrest" => Ok(Asked::DecimalRest),
            "timestamp" => Ok(Asked::Timestamp),
            "instant" => Ok(Asked::Instant),
            "walk" => Ok(Asked::Walk),
            "check" => Ok(Asked::Check),
            _ => Err(NoSuchQuestion),
        }
    }
}
