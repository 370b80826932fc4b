//! A file that is read from its first byte on.
ghost use Rattle.std.specs.Prelude.{◌≡◌, ◌≤◌, length};

/// A file, and the place of its next field. The bytes stay whole: a fault is reported by its place in the file.
#[derive(Drop)]
pub(crate) struct Cursor<'a> {
    pub bytes: &'a [u8],
    pub at: usize,
    ghost inside: { at ≤ length bytes.now },
}

impl<'a> Cursor<'a> {
    /// At the first field of a file.
    pub fn new(bytes: &'a [u8]) -> Cursor<'a>
        ensures bytes { result.bytes.now ≡ bytes.now }
        ensures first { result.at ≡ 0 }
    {
        Cursor { bytes, at: 0 }
    }
}
