//! The tests of `rec_view`.
#![tactic(auto)]

#[cfg(test)]
mod histories;
#[cfg(test)]
mod instants;
#[cfg(test)]
mod script_steps;
#[cfg(test)]
mod scripts;
#[cfg(test)]
mod slices;
#[cfg(test)]
mod steps;
