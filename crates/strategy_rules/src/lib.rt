//! What the three strategies mean: their plans, by rules, and that these are lawful. There is no
//! code to run here.
#![tactic(auto)]

ghost use Rattle.strategy_rules.specs.Lawfulness.{PlansAreLawful};

/// The star, user-oriented and key-oriented plans are lawful for every row.
pub fn plans_are_lawful()
    ensures { PlansAreLawful }
{}
