//! The tests of `rec_salvage` and `rec_salvage_directory`.
#![tactic(auto)]

#[cfg(test)]
mod directories;
#[cfg(test)]
mod made;
#[cfg(test)]
mod stops;
#[cfg(test)]
mod texts;
