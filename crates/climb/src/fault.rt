//! The refusals of reading a file.
ghost use Rattle.std.specs.Prelude.{◌≡◌};
ghost use Rattle.climb.specs.Refusals.{layout_read_fault, file_read_fault, read_refusal};

use file_reader::FileFault;
use layout::LayoutFault;

/// Why a player did not read a file, in the order of the checks.
#[derive(Clone, Copy, PartialEq, Eq, Debug)]
pub enum ReadFault {
    /// Fewer than `WORKING_BYTES` working bytes were lent.
    ShortWorking,
    /// The bytes that were lent as the ring are not `RING_BYTES`.
    NotARing,
    /// The bytes are not a rekey file of this wrap.
    Layout(LayoutFault),
    /// The file's epoch is below the wanted one.
    TooLow { wanted: u32 },
    /// The file's epoch is above the wanted one.
    TooHigh { wanted: u32 },
    /// A wrap of the file of that epoch was not opened.
    File { epoch: u32, fault: FileFault },
    /// No entry of the ring opens a wrap of this listed node.
    ShutOut { node: u8 },
}

/// A fault of an opening beside the file's epoch.
#[derive(Clone, Copy)]
pub struct DatedFault {
    pub epoch: u32,
    pub fault: FileFault,
}

impl From<LayoutFault> for ReadFault {
    ghost from_gives = { λ f r. r ≡ layout_read_fault f };

    fn from(f: LayoutFault) -> ReadFault {
        ReadFault::Layout(f)
    }
}

impl From<DatedFault> for ReadFault {
    ghost from_gives = { λ f r. r ≡ file_read_fault f };

    fn from(f: DatedFault) -> ReadFault {
        ReadFault::File {
            epoch: f.epoch,
            fault: f.fault,
        }
    }
}

impl ReadFault {
    /// The number of this refusal.
    pub fn number(&self) -> u8
        ensures { result ≡ (read_refusal self.now).number }
    {
        match self {
            ReadFault::ShortWorking => 9,
            ReadFault::NotARing => 14,
            ReadFault::Layout(fault) => fault.number(),
            ReadFault::TooLow { .. } => 16,
            ReadFault::TooHigh { .. } => 17,
            ReadFault::File { fault, .. } => fault.number(),
            ReadFault::ShutOut { .. } => 19,
        }
    }
}
