// The exported functions on packed maps.
//
// `limit` is the most bytes that a value's annotations may have, `deepest` the depth at which a container is too deep. The parameters, and the numbers
// returned, are C's.
ghost use Rattle.std.specs.Prelude.{◌≡◌, length};
ghost use Rattle.records.specs.Buffer.{record_in, returned};
ghost use Rattle.packing.specs.Answers.{size_of, pack_of};
ghost use Rattle.additions.specs.Packed.{size_words, pack_words, packed_in};

use numbers::refusal::Reason;
use packing::pack::pack;
use packing::size::packed_size;
use records::buffer::{RECORD_SIZE, put_record};
use records::kind::RecordKind;
use records::words::bytes_words;

// How many bytes a map has once it is packed.
#[tactic(auto, using(crate::proofs::Returned::bytes_returned))]
pub fn ion_map_packed_size(map: &[u8], limit: usize, deepest: usize, out: &mut [u8]) -> u64
    ensures value { result ≡ returned out.old (size_of limit deepest map.now) }
    ensures out_after { out.new ≡ record_in (size_words (size_of limit deepest map.now)) out.old }
{
    put_record(
        out,
        bytes_words(RecordKind::PackedSize, packed_size(map, limit, deepest)),
    )
}

// Packs a map into the buffer `packed`. Where `out` has no room for the record, nothing is written: the test stands here as it does where values are written,
// since one function for both would be public in `records`, and ask its callers that their closure can be called.
#[tactic(auto, using(crate::proofs::Returned::bytes_returned, std::proofs::lemmas::Bool::Decides::nat_tests), unfolding(records::specs::Buffer::answered, records::specs::Buffer::words_in, crate::specs::Packed::packed_in))]
pub fn ion_map_pack(
    map: &[u8],
    limit: usize,
    deepest: usize,
    packed: &mut [u8],
    out: &mut [u8],
) -> u64
    ensures value { result ≡ returned out.old (pack_of limit deepest map.now (length packed.old)) }
    ensures packed_after { packed.new ≡ packed_in limit deepest map.now packed.old out.old }
    ensures out_after { out.new ≡ record_in (pack_words (pack_of limit deepest map.now (length packed.old))) out.old }
{
    if out.len() < RECORD_SIZE {
        return Reason::RecordTooShort.number();
    }
    put_record(
        out,
        bytes_words(RecordKind::Packed, pack(map, limit, deepest, packed)),
    )
}
