//! The tests of `rec_codec`.
#![tactic(auto)]

#[cfg(test)]
mod captured_events;
#[cfg(test)]
mod events;
#[cfg(test)]
mod line_items;
#[cfg(test)]
mod stored_events;
