//! The tests of `rec_trace` for which no case of the built program can stand;
//! those are in `workshop/cases`.
#![tactic(auto)]

#[cfg(test)]
mod builder;
#[cfg(test)]
mod errors;
#[cfg(test)]
mod logs;
#[cfg(test)]
mod printed_trace;
