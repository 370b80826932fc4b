//! What a call answers.
ghost use Rattle.std.specs.Prelude.{◌≡◌};
ghost use Rattle.nannyseason.specs.Answers.{wrap_answer, opening_values, read_answer, enrol_answer, ring_answer};

use file_reader::FileFault;
use layout::LayoutFault;
use player::{EnrolFault, ReadFault, RingFault};
use wrap::WrapFault;

/// What a call answers: 0 where it was done, else the number of its refusal; and the first two
/// values of the refusal, 0 where there are fewer.
#[repr(C)]
#[derive(Clone, Copy)]
pub struct Answer {
    pub refusal: u8,
    pub first: u64,
    pub second: u64,
}

/// The call was done.
pub(crate) const DONE: Answer = Answer {
    refusal: 0,
    first: 0,
    second: 0,
};

/// The library's own refusal: the call got what no caller should hand in.
pub(crate) const MISUSE: Answer = Answer {
    refusal: 64,
    first: 0,
    second: 0,
};

impl From<WrapFault> for Answer {
    ghost from_gives = { λ f a. a ≡ wrap_answer f };

    fn from(fault: WrapFault) -> Answer {
        let first = match fault {
            WrapFault::ShortBuffer { needed } => needed as u64,
            _ => 0,
        };
        Answer {
            refusal: fault.number(),
            first,
            second: 0,
        }
    }
}

impl From<ReadFault> for Answer {
    ghost from_gives = { λ f a. a ≡ read_answer f };

    fn from(fault: ReadFault) -> Answer {
        let (first, second) = match fault {
            ReadFault::ShortWorking | ReadFault::NotARing => (0, 0),
            ReadFault::Layout(LayoutFault { place }) => (place as u64, 0),
            ReadFault::TooLow { wanted } | ReadFault::TooHigh { wanted } => (wanted as u64, 0),
            ReadFault::File { epoch, fault } => opening_values(epoch, fault),
            ReadFault::ShutOut { node } => (node as u64, 0),
        };
        Answer {
            refusal: fault.number(),
            first,
            second,
        }
    }
}

// The values that a read reports of an opening in the file of that epoch.
fn opening_values(epoch: u32, fault: FileFault) -> (u64, u64)
    ensures { result ≡ opening_values epoch fault }
{
    let FileFault::Wrap { index, fault } = fault;
    match fault {
        WrapFault::ShortWorking => (0, 0),
        WrapFault::ShortBuffer { needed } => (needed as u64, 0),
        WrapFault::DoesNotOpen => (index as u64, epoch as u64),
    }
}

impl From<EnrolFault> for Answer {
    ghost from_gives = { λ f a. a ≡ enrol_answer f };

    fn from(fault: EnrolFault) -> Answer {
        let first = match fault {
            EnrolFault::NotARing => 0,
            EnrolFault::Card { place } => place as u64,
        };
        Answer {
            refusal: fault.number(),
            first,
            second: 0,
        }
    }
}

impl From<RingFault> for Answer {
    ghost from_gives = { λ f a. a ≡ ring_answer f };

    fn from(fault: RingFault) -> Answer {
        Answer {
            refusal: fault.number(),
            first: 0,
            second: 0,
        }
    }
}
