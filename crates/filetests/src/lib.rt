//! Tests of rekey files: what is written against bytes from elsewhere, what is refused, the sizes of real plans. No other code.
#![tactic(auto)]

#[cfg(test)]
mod reading;
#[cfg(test)]
mod sample;
#[cfg(test)]
mod sizes;
#[cfg(test)]
mod writing;
