// The bytes of a record, and putting it into a lent buffer: numbers in the order that C reads them in, and no text that `Display` would write. `as u64` of a
// kind is its own number.
ghost use Rattle.std.specs.Prelude.{◌≡◌, ◌*◌, ◌≤◌, ◌++◌, length, drop};
ghost use Rattle.records.specs.Buffer.{word_size, bytes_of, number_in, words_in, words_returned};

use crate::kind::RecordKind;
use numbers::refusal::Reason;

// The words of a record, the bytes of a word, and those of a record.
pub const RECORD_WORDS: usize = 9;

const WORD_SIZE: usize = 8;

pub const RECORD_SIZE: usize = RECORD_WORDS * WORD_SIZE;

// Puts words at the buffer's start, each with its least significant byte first. Over `chunks_exact_mut` the proof did not close: the library does not say what
// a buffer holds once the parts that it lends were written.
#[tactic(auto, using(crate::proofs::Storing::stored))]
fn put_words(out: &mut [u8], words: &[u64])
    requires { length words.now * word_size ≤ length out.old }
    ensures { out.new ≡ bytes_of words.now ++ drop (length words.now * word_size) out.old }
{
    for (i, word) in words.iter().enumerate() {
        let at = i * WORD_SIZE;
        out[at..at + WORD_SIZE].copy_from_slice(&word.to_le_bytes());
    }
}

// The number that a record tells: a refusal's, else 0. From the words, as C reads them: an answer given beside them would have to be proved to agree.
#[tactic(auto, using(crate::proofs::Storing::told))]
fn number_in(words: &[u64]) -> u64
    ensures { result ≡ number_in words.now }
{
    match words {
        [kind, number, ..] if *kind == RecordKind::Refused as u64 => *number,
        _ => 0,
    }
}

// Puts a record at the buffer's start. Returns 51 where there is no room for it, and nothing is written; else 0, or the number of the refusal that the record
// is.
#[tactic(auto, using(values::proofs::Tests::tests), unfolding(crate::specs::Buffer::words_in, crate::specs::Buffer::words_returned))]
pub fn put_record<const N: usize>(out: &mut [u8], words: [u64; N]) -> u64
    ensures value { result ≡ words_returned N words.entry out.old }
    ensures out_after { out.new ≡ words_in N words.entry out.old }
{
    if out.len() < N * WORD_SIZE {
        return Reason::RecordTooShort.number();
    }
    put_words(out, &words);
    number_in(&words)
}
