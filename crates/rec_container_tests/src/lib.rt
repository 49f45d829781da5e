//! The tests of `rec_container` and `rec_disk`: what no input of the program brings about.
#![tactic(auto)]

#[cfg(test)]
mod calls;
#[cfg(test)]
mod containers;
#[cfg(test)]
mod disks;
#[cfg(test)]
mod lookups;
#[cfg(test)]
mod real_files;
