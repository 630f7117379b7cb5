// A VarInt as it was read: its sign, its magnitude, and where it ends. Negative zero is negative with magnitude 0.
#[derive(Clone, Copy, Debug, PartialEq, Eq)]
pub struct VarInt {
    pub negative: bool,
    pub magnitude: usize,
    pub next: usize,
}
