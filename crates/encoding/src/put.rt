// Bytes that are put into a lent buffer from a position on: there is no heap, so no `Vec` that grows. What does not fit into it is left out: callers see to it
// that all does.
ghost use Rattle.std.specs.Prelude.{◌≡◌, ◌/◌, ◌%◌, ◌^◌, set};
ghost use Rattle.std.proofs.lemmas.List.Edits.{sets};
ghost use Rattle.encoding.specs.Fields.{var_uint_in, var_uint_size, var_uint_bytes};
ghost use Rattle.encoding.specs.Heads.{head_bytes, head_size};

// The lengths from 14 on stand behind the descriptor.
const LONG: usize = 14;

// How many bytes a VarUInt of `n` has at least.
#[tactic(auto, using(crate::proofs::VarUInts::size_by_power))]
pub fn var_uint_size(n: usize) -> usize
    ensures { result ≡ var_uint_size n }
{
    // A cast, here and below: std has no `From` for these types, and each is proved to lose nothing.
    n.max(1).ilog(128) as usize + 1
}

// How many bytes the descriptor and the length field of `n` bytes have at least.
#[tactic(auto, using(crate::proofs::VarUInts::size_high, crate::proofs::Heads::head_short, crate::proofs::Heads::head_long))]
pub fn head_size(n: usize) -> usize
    ensures { result ≡ head_size n }
{
    if n < LONG { 1 } else { 1 + var_uint_size(n) }
}

// The seven bits of `n` that `k` bytes follow. Byte by byte: for a large `k` the power of 128 is no `usize`, and a shift is too long.
#[tactic(auto, using(crate::proofs::VarUInts::next_power, crate::proofs::VarUInts::no_power))]
fn digit(n: usize, k: usize) -> usize
    ensures { result ≡ n / 128 ^ k % 128 }
{
    let mut rest = n;
    for _ in 0..k {
        rest /= 128;
    }
    rest % 128
}

// Puts a byte.
pub fn put_byte(out: &mut [u8], at: usize, byte: u8)
    ensures { out.new ≡ set out.old at byte }
{
    if at < out.len() {
        out[at] = byte;
    }
}

// Puts all bytes of another slice.
#[tactic(auto, using(crate::proofs::Stores::sets_out, crate::proofs::Stores::bytes_stored, crate::proofs::Stores::bytes_over))]
pub fn put_bytes(out: &mut [u8], at: usize, from: &[u8])
    ensures { out.new ≡ sets out.old at from.now }
{
    if out.len() <= at {
        return;
    }
    let n = from.len().min(out.len() - at);
    // Byte by byte: by `copy_from_slice` the archive would ask its programs for `memmove`, beside `memset` and `memcpy`. By
    // places and not over two slices: the contract tells a byte by where it stands in the whole buffer.
    for i in 0..n {
        out[at + i] = from[i];
    }
}

// Puts a VarUInt of `n` in k + 1 bytes.
#[tactic(auto, using(crate::proofs::Stores::sets_out, crate::proofs::Stores::digits_stored, crate::proofs::Stores::digits_over))]
pub fn put_var_uint_in(out: &mut [u8], at: usize, k: usize, n: usize)
    ensures { out.new ≡ sets out.old at (var_uint_in k n) }
{
    if out.len() <= at {
        return;
    }
    let most = k.min(out.len() - at);
    // By places: a digit is told by how many follow it.
    for i in 0..most {
        out[at + i] = digit(n, k - i) as u8;
    }
    put_byte(out, at + most, (128 + n % 128) as u8);
}

// Puts a VarUInt in the fewest bytes.
#[tactic(auto, using(crate::proofs::VarUInts::size_low), unfolding(crate::specs::Fields::var_uint_bytes))]
pub fn put_var_uint(out: &mut [u8], at: usize, n: usize)
    ensures { out.new ≡ sets out.old at (var_uint_bytes n) }
{
    put_var_uint_in(out, at, var_uint_size(n) - 1, n);
}

// Puts the descriptor of the type of `byte`, and the length field of `n` bytes. By the byte's halves: a descriptor would be made with its kind.
#[tactic(auto, using(crate::proofs::Stores::sets_out, crate::proofs::Stores::short_stored, crate::proofs::Stores::long_stored))]
pub fn put_head(out: &mut [u8], at: usize, byte: u8, n: usize)
    ensures { out.new ≡ sets out.old at (head_bytes (byte / 16) n) }
{
    let high = byte / 16 * 16;
    if n < LONG {
        put_byte(out, at, high + n as u8);
        return;
    }
    if out.len() <= at {
        return;
    }
    put_byte(out, at, high + LONG as u8);
    put_var_uint(out, at + 1, n);
}
