//! The number of a refusal.
ghost use Rattle.std.specs.Prelude.{◌≡◌};
ghost use Rattle.tree.specs.Calls.{plan_refusal};

use crate::types::PlanFault;

impl PlanFault {
    /// The number of this refusal: 11.
    pub fn number(&self) -> u8
        ensures { result ≡ (plan_refusal self.now).number }
    {
        match *self {
            PlanFault::ShortPairs { .. } => 11,
        }
    }
}
