//! The tests of `rec_replay` for which no case of the built program can stand;
//! those are in `workshop/cases`.
#![tactic(auto)]

#[cfg(test)]
mod contexts;
#[cfg(test)]
mod headers;
#[cfg(test)]
mod refusals;
#[cfg(test)]
mod reporters;
