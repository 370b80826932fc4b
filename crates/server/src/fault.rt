//! The refusals of the server's calls.
ghost use Rattle.std.specs.Prelude.{◌≡◌};
ghost use Rattle.tree.specs.Calls.{plan_refusal};
ghost use Rattle.server.specs.Refusals.{admit_refusal, remove_refusal, card_refusal, publish_refusal};

use tree::PlanFault;

/// Why an arrival was not noted.
#[derive(Clone, Copy, PartialEq, Eq, Debug)]
pub enum AdmitFault {
    /// The serial is not one of 1 to `LAST_SERIAL`.
    NoSerial,
    /// The cradle is not one of 1 to `CRADLES`.
    NoCradle,
    /// The scanner holds that cradle: it is in it without a noted departure, or noted to arrive
    /// there.
    SerialHeld { cradle: u8 },
    /// The cradle is held by that scanner.
    CradleHeld { serial: u16 },
}

impl AdmitFault {
    /// The number of this refusal.
    pub fn number(&self) -> u8
        ensures { result ≡ (admit_refusal self.now).number }
    {
        match *self {
            AdmitFault::NoSerial => 1,
            AdmitFault::NoCradle => 2,
            AdmitFault::SerialHeld { .. } => 3,
            AdmitFault::CradleHeld { .. } => 4,
        }
    }
}

/// Why a departure was not noted.
#[derive(Clone, Copy, PartialEq, Eq, Debug)]
pub enum RemoveFault {
    /// The serial is not one of 1 to `LAST_SERIAL`.
    NoSerial,
    /// The scanner is in no cradle.
    NotSeated,
    /// The scanner's departure is noted already.
    Departing,
}

impl RemoveFault {
    /// The number of this refusal.
    pub fn number(&self) -> u8
        ensures { result ≡ (remove_refusal self.now).number }
    {
        match *self {
            RemoveFault::NoSerial => 1,
            RemoveFault::NotSeated => 5,
            RemoveFault::Departing => 6,
        }
    }
}

/// Why a card was not written.
#[derive(Clone, Copy, PartialEq, Eq, Debug)]
pub enum CardFault {
    /// The serial is not one of 1 to `LAST_SERIAL`.
    NoSerial,
    /// The scanner is in no cradle.
    NotSeated,
    /// The card does not fit in the buffer that was lent; `needed` is its number of bytes.
    ShortCard { needed: usize },
}

impl CardFault {
    /// The number of this refusal.
    pub fn number(&self) -> u8
        ensures { result ≡ (card_refusal self.now).number }
    {
        match *self {
            CardFault::NoSerial => 1,
            CardFault::NotSeated => 5,
            CardFault::ShortCard { .. } => 12,
        }
    }
}

/// Why nothing was published.
#[derive(Clone, Copy, PartialEq, Eq, Debug)]
pub enum PublishFault {
    /// Nothing is noted.
    NothingNoted,
    /// The server is in its last epoch, `LAST_EPOCH`.
    LastEpoch,
    /// Fewer than `WORKING_BYTES` working bytes were lent.
    ShortWorking,
    /// The material is shorter than what is to be drawn; `needed` is the number of bytes of that.
    ShortMaterial { needed: usize },
    /// The plan does not fit in the pair buffer that was lent; `needed` is its number of pairs.
    ShortPairs { needed: usize },
    /// The file does not fit in the file buffer that was lent; `needed` is its number of bytes.
    ShortFile { needed: usize },
}

impl PublishFault {
    /// The number of this refusal.
    pub fn number(&self) -> u8
        ensures { result ≡ (publish_refusal self.now).number }
    {
        match *self {
            PublishFault::NothingNoted => 7,
            PublishFault::LastEpoch => 8,
            PublishFault::ShortWorking => 9,
            PublishFault::ShortMaterial { .. } => 10,
            PublishFault::ShortPairs { .. } => 11,
            PublishFault::ShortFile { .. } => 12,
        }
    }
}

impl From<PlanFault> for PublishFault {
    ghost from_gives = { λ fault publish. publish_refusal publish ≡ plan_refusal fault };

    fn from(fault: PlanFault) -> PublishFault {
        match fault {
            PlanFault::ShortPairs { needed } => PublishFault::ShortPairs { needed },
        }
    }
}
