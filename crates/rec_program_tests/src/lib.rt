//! The tests of `rec_program` for which no case of the built program can stand;
//! those are in `workshop/cases`.
#![tactic(auto)]

#[cfg(test)]
mod faults;
#[cfg(test)]
mod running;
#[cfg(test)]
mod texts;
