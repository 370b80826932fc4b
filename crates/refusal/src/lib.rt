//! Refusals: what every call that can be refused reports to its caller. There is no code here, only
//! words for contracts.
#![tactic(auto)]
