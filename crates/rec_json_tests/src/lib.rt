//! The tests of `rec_json`.
#![tactic(auto)]

#[cfg(test)]
mod reading;
#[cfg(test)]
mod writing;
