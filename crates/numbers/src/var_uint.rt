// A VarUInt as it was read: what it is worth, and where it ends.
#[derive(Clone, Copy, Debug, PartialEq, Eq)]
pub struct VarUInt {
    pub value: usize,
    pub next: usize,
}
