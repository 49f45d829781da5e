//! The tests of `rec_portable`.
#![tactic(auto)]

#[cfg(test)]
mod answers;
#[cfg(test)]
mod asking;
#[cfg(test)]
mod bundles;
#[cfg(test)]
mod texts;
