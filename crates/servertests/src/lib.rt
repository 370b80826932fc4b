//! Tests of the key server: files and cards against bytes from elsewhere, notes, and each refusal with what it leaves. No other code.
#![tactic(auto)]

#[cfg(test)]
mod bytes;
#[cfg(test)]
mod cards;
#[cfg(test)]
mod changes;
#[cfg(test)]
mod long_run;
#[cfg(test)]
mod notes;
#[cfg(test)]
mod publishing;
#[cfg(test)]
mod site;
