//! The tests of `rec_forms`.
#![tactic(auto)]

#[cfg(test)]
mod forms;
