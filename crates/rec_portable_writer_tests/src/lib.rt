//! The tests of `rec_portable_writer`.
#![tactic(auto)]

#[cfg(test)]
mod directories;
#[cfg(test)]
mod real_files;
#[cfg(test)]
mod writing;
