//! The tests of `rec_store`: what no input of the program brings about.
#![tactic(auto)]

#[cfg(test)]
mod answers;
#[cfg(test)]
mod errors;
#[cfg(test)]
mod recording;
#[cfg(test)]
mod sizes;
#[cfg(test)]
mod texts;
#[cfg(test)]
mod unloaded;
