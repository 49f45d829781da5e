//! The tests of `rec_events` and `rec_summaries`.
#![tactic(auto)]

#[cfg(test)]
mod attempts;
#[cfg(test)]
mod live_events;
#[cfg(test)]
mod summaries;
#[cfg(test)]
mod values;
