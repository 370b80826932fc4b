//! The refusals of the writer.
ghost use Rattle.std.specs.Prelude.{◌≡◌};
ghost use Rattle.file_writer.specs.Refusals.{write_refusal};

/// Why a file was not written.
#[derive(Clone, Copy, PartialEq, Eq, Debug)]
pub enum WriteFault {
    /// Fewer than `WORKING_BYTES` working bytes were lent.
    ShortWorking,
    /// The file does not fit in the buffer that was lent; `needed` is its number of bytes.
    ShortFile { needed: usize },
}

impl WriteFault {
    /// The number of this refusal.
    pub fn number(&self) -> u8
        ensures { result ≡ (write_refusal self.now).number }
    {
        match *self {
            WriteFault::ShortWorking => 9,
            WriteFault::ShortFile { .. } => 12,
        }
    }
}
