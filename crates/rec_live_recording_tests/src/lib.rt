//! The tests of `rec_live_recording`: what no input of a program brings about.
#![tactic(auto)]

#[cfg(test)]
mod lines;
#[cfg(test)]
mod recordings;
#[cfg(test)]
mod texts;
