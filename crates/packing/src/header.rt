// What goes before the body of a value: its descriptor, and its length.
ghost use Rattle.std.specs.Prelude.{◌≡◌};
ghost use Rattle.packing.specs.Tree.{kept_byte, header_of};
ghost use Rattle.packing.specs.Private.Kinds.{kind_of};
ghost use Rattle.packing.specs.Private.Puts.{HasRoom, Puts};
ghost use Rattle.packing.specs.Private.Sizes.{header_size};

use crate::output::Output;
use encoding::put::{head_size, var_uint_size};

// The descriptor of an ordered struct, and of an empty one.
const ORDERED: u8 = 0xD1;

const EMPTY_STRUCT: u8 = 0xD0;

// Where the length of a value stands.
#[derive(Clone, Copy)]
enum Kind {
    // Nowhere: it is a null or a bool.
    Lengthless,
    // Always behind the descriptor: it is an ordered struct.
    Ordered,
    // In the descriptor, or behind it where that says so.
    Coded,
}

// By the byte's halves, as in `values`: a descriptor would be made with its kind for each test.
impl From<u8> for Kind {
    ghost from_gives = { λ byte kind. kind ≡ kind_of byte };

    #[tactic(auto, using(std::proofs::lemmas::Bool::Decides::nat_tests), unfolding(crate::specs::Tree::lengthless, crate::specs::Private::Kinds::kind_of))]
    fn from(byte: u8) -> Kind {
        if byte / 16 < 2 || byte % 16 == 15 {
            Kind::Lengthless
        } else if byte == ORDERED {
            Kind::Ordered
        } else {
            Kind::Coded
        }
    }
}

// A descriptor without its length, of a value whose body then has `n` bytes.
#[tactic(auto, unfolding(crate::specs::Tree::kept_byte, crate::specs::Private::Kinds::kind_of))]
pub(crate) fn kept_byte(byte: u8, n: usize) -> u8
    ensures { result ≡ kept_byte byte n }
{
    match Kind::from(byte) {
        Kind::Lengthless => byte,
        Kind::Ordered if n == 0 => EMPTY_STRUCT,
        Kind::Ordered => ORDERED,
        Kind::Coded => byte / 16 * 16,
    }
}

// How many bytes a descriptor and a length take. What puts them stays beside it: a length that is put before them counts them.
#[tactic(auto, using(encoding::proofs::VarUInts::size_high), unfolding(crate::specs::Private::Sizes::header_size, crate::specs::Private::Kinds::kind_of))]
pub(crate) fn header_size(byte: u8, n: usize) -> usize
    ensures { result ≡ header_size byte n }
{
    match Kind::from(byte) {
        Kind::Lengthless => 1,
        Kind::Ordered => 1 + var_uint_size(n),
        Kind::Coded => head_size(n),
    }
}

impl<'a> Output<'a> {
    // Puts a descriptor and the length of a body of `n` bytes.
    #[tactic(auto, unfolding(crate::specs::Tree::header_of, crate::specs::Private::Sizes::header_size, crate::specs::Private::Kinds::kind_of))]
    pub(crate) fn put_header(&mut self, byte: u8, n: usize)
        requires { HasRoom self.old (header_size byte n) }
        ensures { Puts self.old (header_of byte n) self.new }
    {
        match Kind::from(byte) {
            Kind::Lengthless => self.put(&[byte]),
            Kind::Ordered => {
                self.put(&[byte]);
                self.put_var_uint(n);
            }
            Kind::Coded => self.put_head(byte, n),
        }
    }
}
