//! The tests of `rec_view_json`.
#![tactic(auto)]

#[cfg(test)]
mod texts;
#[cfg(test)]
mod views;
