//! Links, chains and what is reached by them, over names of any type. There is no code to run here.
#![tactic(auto)]

ghost use Rattle.chains.specs.Chains.{ReachLaws};

/// What is reached is the least that holds the set and is closed under links.
#[tactic(auto, using(crate::proofs::Chains::reach_laws))]
pub fn reach_laws<Name>()
    ensures { ReachLaws Name }
{}
