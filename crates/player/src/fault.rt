//! The refusals of a player's calls that read no file.
ghost use Rattle.std.specs.Prelude.{◌≡◌};
ghost use Rattle.player.specs.Refusals.{enrol_refusal, ring_refusal};

/// Why a player was not enrolled.
#[derive(Clone, Copy, PartialEq, Eq, Debug)]
pub enum EnrolFault {
    /// The bytes that were lent as the ring are not `RING_BYTES`.
    NotARing,
    /// The bytes are not a card: the place of the first fault.
    Card { place: usize },
}

impl EnrolFault {
    /// The number of this refusal.
    pub fn number(&self) -> u8
        ensures { result ≡ (enrol_refusal self.now).number }
    {
        match *self {
            EnrolFault::NotARing => 14,
            EnrolFault::Card { .. } => 13,
        }
    }
}

/// Why the group key was not shown, or the ring not wiped.
#[derive(Clone, Copy, PartialEq, Eq, Debug)]
pub enum RingFault {
    /// The bytes that were lent as the ring are not `RING_BYTES`.
    NotARing,
}

impl RingFault {
    /// The number of this refusal.
    pub fn number(&self) -> u8
        ensures { result ≡ (ring_refusal self.now).number }
    {
        match *self {
            RingFault::NotARing => 14,
        }
    }
}
