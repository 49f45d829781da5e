//! The tests of `rec_packing`.
#![tactic(auto)]

#[cfg(test)]
mod directories;
#[cfg(test)]
mod packings;
#[cfg(test)]
mod texts;
