//! The tests of `rec_directory`.
#![tactic(auto)]

#[cfg(test)]
mod asking;
#[cfg(test)]
mod directories;
#[cfg(test)]
mod logs;
#[cfg(test)]
mod real_files;
