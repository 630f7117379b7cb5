// Packs a map into a lent buffer: what `size.rt` gives the size of, written.
//
// `limit` is the most bytes that a value's annotations may have, `deepest` the depth at which a container is too deep.
ghost use Rattle.std.specs.Prelude.{◌≡◌, ◌-◌, length};
ghost use Rattle.numbers.specs.Bytes.{part};
ghost use Rattle.packing.specs.Answers.{pack_of, buffer_of};
ghost use Rattle.packing.specs.Read.{size_read};
ghost use Rattle.packing.specs.Private.Sizes.{wrap_size};
ghost use Rattle.packing.specs.Private.Items.{part_bytes, entry_body, entry_bytes, entry_front};
ghost use Rattle.packing.specs.Private.Fronts.{wrap_front};
ghost use Rattle.packing.specs.Private.Puts.{HasRoom, Puts};

use crate::header::{header_size, kept_byte};
use crate::output::Output;
use crate::part::{Entry, Met, Part};
use crate::size::packed_size;
use encoding::put::var_uint_size;
use numbers::refusal::{Reason, Refusal};

// The type of a wrapper.
const WRAPPER: u8 = 0xE0;

impl<'a> Entry<'a> {
    // Puts what goes before a value of `n` bytes with its annotations: nothing where there are none. `put` of a wrapper in writing puts the same and the value
    // too: a function for both would be public in encoding, and ask for room.
    #[tactic(auto, using(crate::proofs::Fronts::puts, crate::proofs::Fronts::wrap_summed, crate::proofs::Fronts::front_none, crate::proofs::Fronts::front_some, encoding::proofs::VarUInts::bytes_size, encoding::proofs::Heads::head_length, numbers::proofs::Parts::part_taken, numbers::proofs::Parts::part_length))]
    fn put_wrap(&self, output: &mut Output, n: usize)
        requires { HasRoom output.old (wrap_size (self.now.value.descriptor - self.now.value.annotations) n) }
        ensures { Puts output.old (wrap_front (part self.now.s.now self.now.value.annotations self.now.value.descriptor) n) output.new }
    {
        let annotations = &self.s[self.value.annotations..self.value.descriptor];
        let size = annotations.len();
        if size != 0 {
            output.put_head(WRAPPER, var_uint_size(size) + (size + n));
            output.put_var_uint(size);
            output.put(annotations);
        }
    }

    // Puts what goes before its body, of `n` bytes: its field ID, its annotations, its descriptor and its length.
    #[tactic(auto, using(crate::proofs::Fronts::puts, crate::proofs::Entries::entry_size, crate::proofs::Entries::entry_least, crate::proofs::Fronts::wrap_front_length, numbers::proofs::Parts::part_taken, numbers::proofs::Parts::part_length), unfolding(crate::specs::Private::Fronts::front_of))]
    fn put_front(&self, output: &mut Output, n: usize)
        requires { (n ≡ length (entry_body self.now)) × HasRoom output.old (length (entry_bytes self.now)) }
        ensures { Puts output.old (entry_front self.now n) output.new }
    {
        let byte = kept_byte(self.value.byte, n);
        output.put(&self.s[self.from..self.value.start]);
        self.put_wrap(output, header_size(byte, n) + n);
        output.put_header(byte, n);
    }

    // Packs it.
    #[cycle(packs)]
    #[tactic(auto, using(crate::proofs::Fronts::entry_length, crate::proofs::Fronts::entry_stored, numbers::proofs::Parts::part_taken, numbers::proofs::Parts::part_length))]
    fn pack(&self, output: &mut Output)
        requires { HasRoom output.old (length (entry_bytes self.now)) }
        ensures { Puts output.old (entry_bytes self.now) output.new }
    {
        let n = self.body_size();
        self.put_front(output, n);
        match self.inside() {
            Some(inside) => inside.pack(output),
            None => output.put(&self.s[self.value.body..self.value.end]),
        }
    }
}

impl<'a> Part<'a> {
    // Packs it.
    #[cycle(packs)]
    #[tactic(auto, using(crate::proofs::Fronts::puts))]
    fn pack(&self, output: &mut Output)
        requires { HasRoom output.old (length (part_bytes self.now)) }
        ensures { Puts output.old (part_bytes self.now) output.new }
    {
        let mut from = self.at;
        // No `for`, as in `size`: a step begins where what was met ends.
        while let Some(met) = self.meet(from) {
            match met {
                Met::Marker { major, minor, end } => {
                    output.put(&[0xE0, major, minor, 0xEA]);
                    from = end;
                }
                Met::Value(entry) => {
                    entry.pack(output);
                    from = entry.value.end;
                }
            }
        }
    }
}

// Packs a map that is accepted into the buffer, where it fits.
#[tactic(auto, using(crate::proofs::Buffers::size_is, crate::proofs::Buffers::not_packed, crate::proofs::Buffers::left_not_packed))]
pub fn pack(s: &[u8], limit: usize, deepest: usize, out: &mut [u8]) -> Result<usize, Refusal>
    ensures result_value { size_read result ≡ pack_of limit deepest s.now (length out.old) }
    ensures out_after { out.new ≡ buffer_of limit deepest s.now out.old }
{
    let n = packed_size(s, limit, deepest)?;
    if out.len() < n {
        return Err(Refusal {
            reason: Reason::NoRoomToPack,
            position: n,
        });
    }
    let mut output = Output { out, next: 0 };
    Part::whole(s, limit).pack(&mut output);
    Ok(n)
}
