//! The tests of `rec_words`, `rec_export` and `rec_faults`: the settings that words ask for, a
//! session whose outputs clash, and lines of refusals that no input of the program brings about.
#![tactic(auto)]

#[cfg(test)]
mod commands;
#[cfg(test)]
mod exports;
#[cfg(test)]
mod lines;
#[cfg(test)]
mod sessions;
