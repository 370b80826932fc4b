//! Tests of the player: rings and group keys against a model from elsewhere, and each refusal with
//! what it leaves. No other code.
#![tactic(auto)]

#[cfg(test)]
mod bytes;
#[cfg(test)]
mod changes;
#[cfg(test)]
mod chosen;
#[cfg(test)]
mod enrolling;
#[cfg(test)]
mod long_run;
#[cfg(test)]
mod players;
#[cfg(test)]
mod refused;
#[cfg(test)]
mod spoilt;
#[cfg(test)]
mod storing;
#[cfg(test)]
mod sums;
