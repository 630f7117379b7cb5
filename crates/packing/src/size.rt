// How many bytes a map has once it is packed. Nothing is written.
//
// `limit` is the most bytes that a value's annotations may have, `deepest` the depth at which a container is too deep.
ghost use Rattle.std.specs.Prelude.{◌≡◌, ◌<◌, ◌^◌, length};
ghost use Rattle.packing.specs.Packed.{packed};
ghost use Rattle.packing.specs.Answers.{size_of};
ghost use Rattle.packing.specs.Read.{size_read};
ghost use Rattle.packing.specs.Private.Sizes.{wrap_size};
ghost use Rattle.packing.specs.Private.Items.{left_bytes, part_bytes, entry_body, entry_bytes, met_bytes, MetFits, Inside};

use crate::header::{header_size, kept_byte};
use crate::part::{Entry, Met, Part};
use checking::check::check_map;
use encoding::put::{head_size, var_uint_size};
use numbers::refusal::Refusal;
use stepping::cursor::{Item, Rules, item_at};
use values::value::open;

// The bytes of a marker.
const MARKER: usize = 4;

// How many bytes a value of `n` bytes takes behind its annotations. This and `put_wrap`, as `size` and `put_front` of an entry, stay two: the lengths around a
// value are put before it, and count it. A sink that counts or puts would be a trait, two impls and their laws, where each of these is a few lines.
#[tactic(auto, using(std::proofs::lemmas::Bool::Decides::nat_tests), unfolding(crate::specs::Private::Sizes::wrap_size, crate::specs::Private::Sizes::wrapped_size))]
pub(crate) fn wrap_size(annotations: usize, n: usize) -> usize
    requires { wrap_size annotations n < 2 ^ 64 }
    ensures { result ≡ wrap_size annotations n }
{
    if annotations == 0 {
        return n;
    }
    let wrapped = var_uint_size(annotations) + (annotations + n);
    head_size(wrapped) + wrapped
}

impl<'a> Part<'a> {
    // All of a map.
    #[tactic(auto, using(crate::proofs::Unrolled::whole_bytes))]
    pub(crate) fn whole(s: &'a [u8], limit: usize) -> Part<'a>
        ensures { part_bytes result ≡ packed limit s.now }
    {
        Part {
            s,
            limit,
            rules: Rules::Stream,
            at: 0,
            end: s.len(),
        }
    }

    // What the step at `at` meets. At the part's end nothing.
    #[tactic(auto, using(crate::proofs::Unrolled::step_bytes, crate::proofs::Places::marker_lies, crate::proofs::Places::value_lies, crate::proofs::Places::field_lies))]
    pub(crate) fn meet(&self, at: usize) -> Option<Met<'a>>
        ensures meets { left_bytes self.now at ≡ met_bytes self.now result }
        ensures fits { MetFits self.now at result }
    {
        let Part { s, limit, .. } = *self;
        match item_at(self.rules, s, at, self.end, limit) {
            Ok(
                Item::Marker {
                    major,
                    minor,
                    end,
                    ..
                },
            ) => Some(Met::Marker { major, minor, end }),
            Ok(Item::Value(value)) => Some(Met::Value(Entry {
                s,
                limit,
                from: value.start,
                value,
            })),
            Ok(Item::Field { start, value, .. }) => Some(Met::Value(Entry {
                s,
                limit,
                from: start,
                value,
            })),
            Ok(Item::End { .. }) | Err(_) => None,
        }
    }

    // How many bytes it takes. This walk and that of `pack` stay two: a container's size is needed before its body is put, while a size adds up what is inside
    // as it goes. One walk over a sink would walk each inside twice to get a size, at every depth again. Neither is a `for`: a step begins where what was met
    // ends.
    #[cycle(sizes)]
    #[tactic(auto, using(crate::proofs::Places::part_sizes))]
    pub(crate) fn size(&self) -> usize
        ensures { result ≡ length (part_bytes self.now) }
    {
        let mut from = self.at;
        let mut size = 0;
        while let Some(met) = self.meet(from) {
            match met {
                Met::Marker { end, .. } => {
                    size += MARKER;
                    from = end;
                }
                Met::Value(entry) => {
                    size += entry.size(entry.body_size());
                    from = entry.value.end;
                }
            }
        }
        size
    }
}

impl<'a> Entry<'a> {
    // What is in its value, where that is a container.
    pub(crate) fn inside(&self) -> Option<Part<'a>>
        ensures { Inside self.now result }
    {
        let body = open(self.value).ok()?;
        Some(Part {
            s: self.s,
            limit: self.limit,
            rules: body.rules,
            at: body.cursor.at,
            end: body.cursor.end,
        })
    }

    // How many bytes its body takes.
    #[cycle(sizes)]
    #[tactic(auto, using(numbers::proofs::Parts::part_length))]
    pub(crate) fn body_size(&self) -> usize
        ensures { result ≡ length (entry_body self.now) }
    {
        match self.inside() {
            Some(inside) => inside.size(),
            None => self.value.end - self.value.body,
        }
    }

    // How many bytes it takes, of which its body has `n`.
    #[tactic(auto, using(crate::proofs::Entries::entry_size, crate::proofs::Entries::entry_least))]
    fn size(&self, n: usize) -> usize
        requires { n ≡ length (entry_body self.now) }
        ensures { result ≡ length (entry_bytes self.now) }
    {
        let value = self.value;
        let size = header_size(kept_byte(value.byte, n), n) + n;
        (value.start - self.from) + wrap_size(value.descriptor - value.annotations, size)
    }
}

// How many bytes a map has once it is packed.
#[tactic(auto, using(crate::proofs::Buffers::size_refused))]
pub fn packed_size(s: &[u8], limit: usize, deepest: usize) -> Result<usize, Refusal>
    ensures { size_read result ≡ size_of limit deepest s.now }
{
    check_map(s, limit, deepest)?;
    Ok(Part::whole(s, limit).size())
}
