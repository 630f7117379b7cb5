// A descriptor where it stands: it begins the part at..end of a slice, and what is framed is read behind it.
ghost use Rattle.std.specs.Prelude.{◌≤◌, ◌<◌, length};

use numbers::type_descriptor::TypeDescriptor;

#[derive(Clone, Copy)]
pub(crate) struct Described<'a> {
    pub(crate) s: &'a [u8],
    pub(crate) at: usize,
    pub(crate) end: usize,
    pub(crate) descriptor: TypeDescriptor,
    pub(crate) ghost before: { at < end },
    pub(crate) ghost inside: { end ≤ length s.now },
}
