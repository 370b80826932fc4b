//! The refusal of a file's check.
ghost use Rattle.std.specs.Prelude.{◌≡◌};
ghost use Rattle.layout.specs.Refusals.{layout_refusal};

/// The bytes are not a rekey file.
#[derive(Clone, Copy, PartialEq, Eq, Debug)]
pub struct LayoutFault {
    /// The first byte of the first wrong field, or the file's length where a field is cut off.
    pub place: usize,
}

impl LayoutFault {
    /// The number of this refusal.
    pub fn number(&self) -> u8
        ensures { result ≡ (layout_refusal self.now).number }
    {
        15
    }
}
