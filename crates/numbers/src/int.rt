// An Int as it was read: its sign, the low seven bits of its first byte, and the bytes after that one: rest..end. Negative zero is negative with nothing but
// zero bits.
#[derive(Clone, Copy, Debug, PartialEq, Eq)]
pub struct Int {
    pub negative: bool,
    pub first: u8,
    pub rest: usize,
    pub end: usize,
}
