//! The refusal of an opening.
ghost use Rattle.std.specs.Prelude.{◌≡◌};
ghost use Rattle.file_reader.specs.Refusals.{file_fault_of, file_refusal};

use wrap::WrapFault;

/// Why a wrap of a checked file was not opened.
#[derive(Clone, Copy, PartialEq, Eq, Debug)]
pub enum FileFault {
    /// The wrap was refused: its index from 0, and the wrap's own refusal.
    Wrap { index: usize, fault: WrapFault },
}

/// A wrap's refusal beside the index of the wrap.
#[derive(Clone, Copy)]
pub struct IndexedFault {
    pub index: usize,
    pub fault: WrapFault,
}

impl From<IndexedFault> for FileFault {
    ghost from_gives = { λ f r. r ≡ file_fault_of f };

    fn from(f: IndexedFault) -> FileFault {
        FileFault::Wrap {
            index: f.index,
            fault: f.fault,
        }
    }
}

impl FileFault {
    /// The number of this refusal, which is the wrap's own.
    pub fn number(&self) -> u8
        ensures { result ≡ (file_refusal self.now).number }
    {
        match self {
            FileFault::Wrap { fault, .. } => fault.number(),
        }
    }
}
