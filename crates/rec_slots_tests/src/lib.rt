//! The tests of `rec_slots`.
#![tactic(auto)]

#[cfg(test)]
mod errors;
