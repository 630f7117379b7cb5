// The exported readings of what a step hands out: an annotation, the body of a container, a scalar, a number. The caller lends a buffer for the answer's
// record.
//
// `limit` is the most bytes that a value's annotations may have. The parameters, a form as a number among them, and the numbers returned are C's, and are
// handed on as they came.
ghost use Rattle.std.specs.Prelude.{◌≡◌};
ghost use Rattle.framing.specs.Read.{annotation_read};
ghost use Rattle.values.specs.Scalars.{step_in, read_scalar, read_with_value};
ghost use Rattle.records.specs.Buffer.{record_in, returned};
ghost use Rattle.records.specs.Read.{number_read};
ghost use Rattle.records.specs.Words.{annotation_words, body_words, reading_words, number_words};
ghost use Rattle.readings.specs.Exported.{exported_annotation, exported_body, number_by, exported_number};
ghost use Rattle.readings.specs.Forms.{form_number};

use crate::form::Form;
use framing::annotations_iterator::{Annotation, read_annotation};
use numbers::binary_buffer::{read_int, read_var_int, read_var_uint};
use numbers::refusal::{OUTSIDE, Refusal};
use records::buffer::{RECORD_WORDS, put_record};
use records::number::Number;
use records::words::{annotation_words, body_words, number_words, refused_words, scalar_words};
use values::value::{open, read_with_value, value_in};

// One annotation step over the bytes start..end.
#[tactic(auto, unfolding(crate::specs::Exported::exported_annotation))]
fn annotation_at(
    map: &[u8],
    start: usize,
    end: usize,
    position: usize,
) -> Result<Option<Annotation>, Refusal>
    ensures { annotation_read result ≡ exported_annotation map.now start end position }
{
    if position < start {
        return Err(OUTSIDE);
    }
    read_annotation(map, position, end)
}

#[tactic(auto, using(crate::proofs::Returned::annotation_returned))]
pub fn ion_map_annotation(
    map: &[u8],
    start: usize,
    end: usize,
    position: usize,
    out: &mut [u8],
) -> u64
    ensures value { result ≡ returned out.old (exported_annotation map.now start end position) }
    ensures out_after { out.new ≡ record_in (annotation_words position (exported_annotation map.now start end position)) out.old }
{
    put_record(
        out,
        annotation_words(position, annotation_at(map, start, end, position)),
    )
}

// Steps into the container at `position` of the part start..end.
#[tactic(auto, unfolding(crate::specs::Exported::exported_body))]
fn body_at(
    map: &[u8],
    start: usize,
    end: usize,
    position: usize,
    limit: usize,
) -> [u64; RECORD_WORDS]
    ensures { result ≡ body_words (exported_body limit map.now start end position) }
{
    match value_in(map, start, end, position, limit) {
        Ok(value) => body_words(value.descriptor, open(value)),
        Err(refusal) => refused_words(refusal),
    }
}

#[tactic(auto, using(crate::proofs::Returned::body_returned))]
pub fn ion_map_step_in(
    map: &[u8],
    start: usize,
    end: usize,
    position: usize,
    limit: usize,
    out: &mut [u8],
) -> u64
    ensures value { result ≡ returned out.old (step_in limit map.now start end position) }
    ensures out_after { out.new ≡ record_in (body_words (exported_body limit map.now start end position)) out.old }
{
    put_record(out, body_at(map, start, end, position, limit))
}

// Reads the value at `position` of the part start..end. This and the step above share their parameters, which are C's, and no line of what they do; by
// `map_or_else` in place of each `match` the proof did not close.
fn scalar_at(
    map: &[u8],
    start: usize,
    end: usize,
    position: usize,
    limit: usize,
) -> [u64; RECORD_WORDS]
    ensures { result ≡ reading_words (read_with_value limit map.now start end position) }
{
    match read_with_value(map, start, end, position, limit) {
        Ok(read) => scalar_words(read.value, read.scalar),
        Err(refusal) => refused_words(refusal),
    }
}

#[tactic(auto, using(crate::proofs::Returned::reading_returned))]
pub fn ion_map_scalar(
    map: &[u8],
    start: usize,
    end: usize,
    position: usize,
    limit: usize,
    out: &mut [u8],
) -> u64
    ensures value { result ≡ returned out.old (read_scalar limit map.now start end position) }
    ensures out_after { out.new ≡ record_in (reading_words (read_with_value limit map.now start end position)) out.old }
{
    put_record(out, scalar_at(map, start, end, position, limit))
}

// A number by its form, which C says as a number, so that no closure can stand in its place.
#[tactic(auto, unfolding(crate::specs::Exported::number_by))]
fn number_by(
    map: &[u8],
    end: usize,
    position: usize,
    form: Form,
    size: usize,
) -> Result<Number, Refusal>
    ensures { number_read result ≡ number_by map.now end position (form_number form) size }
{
    match form {
        Form::VarUInt => Ok(Number::from(read_var_uint(map, position, end)?)),
        Form::VarInt => Ok(Number::from(read_var_int(map, position, end)?)),
        Form::Int => Ok(Number::from(read_int(map, position, end, size)?)),
    }
}

#[tactic(auto, unfolding(crate::specs::Exported::exported_number))]
fn number_at(
    map: &[u8],
    start: usize,
    end: usize,
    position: usize,
    form: u64,
    size: usize,
) -> Result<Number, Refusal>
    ensures { number_read result ≡ exported_number map.now start end position form size }
{
    match Form::try_from(form) {
        Ok(form) if start <= position => number_by(map, end, position, form, size),
        _ => Err(OUTSIDE),
    }
}

#[tactic(auto, using(crate::proofs::Returned::number_returned))]
pub fn ion_map_number(
    map: &[u8],
    start: usize,
    end: usize,
    position: usize,
    form: u64,
    size: usize,
    out: &mut [u8],
) -> u64
    ensures value { result ≡ returned out.old (exported_number map.now start end position form size) }
    ensures out_after { out.new ≡ record_in (number_words position (exported_number map.now start end position form size)) out.old }
{
    put_record(
        out,
        number_words(position, number_at(map, start, end, position, form, size)),
    )
}
