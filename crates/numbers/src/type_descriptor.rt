// The descriptor byte that begins each value, pad, wrapper and marker.
ghost use Rattle.std.specs.Prelude.{◌≡◌, ◌/◌, ◌%◌};
ghost use Rattle.numbers.specs.Descriptor.{descriptor_of, kind_of};

// What a descriptor byte begins.
#[derive(Clone, Copy, Debug, PartialEq, Eq)]
pub enum Kind {
    Value,
    Null,
    Pad,
    Marker,
    Wrapper,
    Reserved,
}

#[derive(Clone, Copy, Debug, PartialEq, Eq)]
pub struct TypeDescriptor {
    pub type_code: u8,
    pub length_code: u8,
    pub kind: Kind,
}

// The first byte that begins no pad.
pub const FIRST_NO_PAD: u8 = 0x0F;

// The kind of a byte. By comparisons, in the order of the bytes: a match on ranges would say each bound twice.
#[tactic(auto, using(std::proofs::lemmas::Bool::Decides::nat_tests), unfolding(crate::specs::Descriptor::kind_of))]
fn kind_of(byte: u8) -> Kind
    ensures { result ≡ kind_of (byte / 16) (byte % 16) }
{
    if byte < FIRST_NO_PAD {
        return Kind::Pad;
    }
    if byte < 0xE0 {
        if byte % 16 == 15 {
            return Kind::Null;
        }
        return Kind::Value;
    }
    if byte == 0xE0 {
        return Kind::Marker;
    }
    if byte < 0xF0 {
        return Kind::Wrapper;
    }
    Kind::Reserved
}

impl TypeDescriptor {
    // The descriptor that a byte stands for: ion-rust's name for it, and no `From`.
    pub fn from_byte(byte: u8) -> Self
        ensures { result ≡ descriptor_of byte }
    {
        TypeDescriptor {
            type_code: byte / 16,
            length_code: byte % 16,
            kind: kind_of(byte),
        }
    }
}
