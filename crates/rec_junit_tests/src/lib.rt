//! The tests of `rec_junit` for which no case of the built program can stand;
//! those are in `workshop/cases`.
#![tactic(auto)]

#[cfg(test)]
mod made;
#[cfg(test)]
mod reports;
