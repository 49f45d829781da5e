//! The tests of `rec_trace_events` for which no case of the built program can stand;
//! those are in `workshop/cases`.
#![tactic(auto)]

#[cfg(test)]
mod slow;
