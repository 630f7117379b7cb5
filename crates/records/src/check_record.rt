// The words of a check's record: an array, since there is no heap and C is given so many words. `as u64` of a kind is its own number.
ghost use Rattle.std.specs.Prelude.{◌≡◌};
ghost use Rattle.numbers.specs.Outcome.{gives};
ghost use Rattle.numbers.specs.Read.{refusal_read};
ghost use Rattle.records.specs.Words.{check_words};

use crate::buffer::RECORD_WORDS;
use crate::kind::RecordKind;
use crate::words::refused_words;
use numbers::refusal::Refusal;

pub const CHECK_WORDS: usize = 16;

// The words of a check that is accepted: its counts.
pub fn counts_words(counts: [u64; 15]) -> [u64; CHECK_WORDS]
    ensures { result ≡ check_words (gives counts) }
{
    let mut words = [RecordKind::Check as u64; CHECK_WORDS];
    words[1..].copy_from_slice(&counts);
    words
}

// The words of a check that is refused: those of any refusal, and zeros. One function over the number of words, for both records, is longer: it could not ask
// for three words at least, and so would have to say what fewer hold.
pub fn refused_check_words(refusal: Refusal) -> [u64; CHECK_WORDS]
    ensures { result ≡ check_words (refusal_read refusal) }
{
    let mut words = [0; CHECK_WORDS];
    words[..RECORD_WORDS].copy_from_slice(&refused_words(refusal));
    words
}
