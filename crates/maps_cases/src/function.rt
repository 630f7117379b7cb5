// The exported functions.
use std::str::FromStr;

#[derive(Clone, Copy, Debug, PartialEq, Eq)]
pub enum Function {
    Step,
    Steps,
    StepBounded,
    Annotation,
    StepIn,
    Scalar,
    Timestamp,
    Number,
    Decimal,
    Walked,
    Check,
    Ids,
    Text,
    Symbols,
    SymbolText,
    PackedSize,
    Pack,
    WriteNull,
    WriteBool,
    WriteInt,
    WriteFloat,
    WriteSymbol,
    WriteScalar,
    WriteContainer,
    WriteWrapper,
    WritePad,
}

#[derive(Clone, Copy, Debug)]
pub struct NoSuchFunction;

// `Asked` of `vectors` is read the same way: they share the trait and no name, and one table looked through for both would be no plainer.
impl FromStr for Function {
    type Err = NoSuchFunction;

    // By its name without `ion_map_`.
    fn from_str(name: &str) -> Result<Self, NoSuchFunction> {
        match name {
            "step" => Ok(Function::Step),
            "steps" => Ok(Function::Steps),
            "step_bounded" => Ok(Function::StepBounded),
            "annotation" => Ok(Function::Annotation),
            "step_in" => Ok(Function::StepIn),
            "scalar" => Ok(Function::Scalar),
            "timestamp" => Ok(Function::Timestamp),
            "number" => Ok(Function::Number),
            "decimal" => Ok(Function::Decimal),
            "walked" => Ok(Function::Walked),
            "check" => Ok(Function::Check),
            "ids" => Ok(Function::Ids),
            "text" => Ok(Function::Text),
            "symbols" => Ok(Function::Symbols),
            "symbol_text" => Ok(Function::SymbolText),
            "packed_size" => Ok(Function::PackedSize),
            "pack" => Ok(Function::Pack),
            "write_null" => Ok(Function::WriteNull),
            "write_bool" => Ok(Function::WriteBool),
            "write_int" => Ok(Function::WriteInt),
            "write_float" => Ok(Function::WriteFloat),
            "write_symbol" => Ok(Function::WriteSymbol),
            "write_scalar" => Ok(Function::WriteScalar),
            "write_container" => Ok(Function::WriteContainer),
            "write_wrapper" => Ok(Function::WriteWrapper),
            "write_pad" => Ok(Function::WritePad),
            _ => Err(NoSuchFunction),
        }
    }
}
