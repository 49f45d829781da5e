//! The tests of `rec_session`.
#![tactic(auto)]

#[cfg(test)]
mod keeper;
#[cfg(test)]
mod made;
#[cfg(test)]
mod reporters;
#[cfg(test)]
mod sessions;
#[cfg(test)]
mod told;
