//! The refusals of a key wrap.
ghost use Rattle.std.specs.Prelude.{◌≡◌};
ghost use Rattle.wrap.specs.Refusals.{wrap_refusal};

/// Why a call of a key wrap was refused.
#[derive(Clone, Copy, PartialEq, Eq, Debug)]
pub enum WrapFault {
    /// Fewer than `WORKING_BYTES` working bytes were lent.
    ShortWorking,
    /// The sealed bytes do not fit in the buffer that was lent; `needed` is their number.
    ShortBuffer { needed: usize },
    /// No sealing under this key and name gives these bytes.
    DoesNotOpen,
}

impl WrapFault {
    /// The number of this refusal.
    pub fn number(&self) -> u8
        ensures { result ≡ (wrap_refusal self.now).number }
    {
        match *self {
            WrapFault::ShortWorking => 9,
            WrapFault::ShortBuffer { .. } => 12,
            WrapFault::DoesNotOpen => 18,
        }
    }
}
