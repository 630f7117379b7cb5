// The lent buffer that a map is packed into, and where the next byte goes: there is no heap, so no `Vec` that grows.
ghost use Rattle.std.specs.Prelude.{◌/◌, length};
ghost use Rattle.encoding.specs.Fields.{var_uint_bytes, var_uint_size};
ghost use Rattle.encoding.specs.Heads.{head_bytes, head_size};
ghost use Rattle.packing.specs.Private.Puts.{HasRoom, Puts};

use encoding::put::{head_size, put_bytes, put_head, put_var_uint, var_uint_size};

// That there is room is no ghost field: each function asks for the room of its own bytes, and what is left changes as they are put.
#[derive(Drop)]
pub(crate) struct Output<'a> {
    pub(crate) out: &'a mut [u8],
    pub(crate) next: usize,
}

impl<'a> Output<'a> {
    // Puts bytes.
    pub(crate) fn put(&mut self, bytes: &[u8])
        requires { HasRoom self.old (length bytes.now) }
        ensures { Puts self.old bytes.now self.new }
    {
        put_bytes(self.out, self.next, bytes);
        self.next += bytes.len();
    }

    // Puts a VarUInt.
    #[tactic(auto, using(encoding::proofs::VarUInts::bytes_size))]
    pub(crate) fn put_var_uint(&mut self, n: usize)
        requires { HasRoom self.old (var_uint_size n) }
        ensures { Puts self.old (var_uint_bytes n) self.new }
    {
        put_var_uint(self.out, self.next, n);
        self.next += var_uint_size(n);
    }

    // Puts the descriptor of the type of `byte`, and the length field of `n` bytes.
    #[tactic(auto, using(encoding::proofs::Heads::head_length))]
    pub(crate) fn put_head(&mut self, byte: u8, n: usize)
        requires { HasRoom self.old (head_size n) }
        ensures { Puts self.old (head_bytes (byte / 16) n) self.new }
    {
        put_head(self.out, self.next, byte, n);
        self.next += head_size(n);
    }
}
