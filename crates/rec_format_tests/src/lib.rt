//! The tests of `rec_format`.
#![tactic(auto)]

#[cfg(test)]
mod formats;
#[cfg(test)]
mod helpers;
#[cfg(test)]
mod run_lists;
#[cfg(test)]
mod small_impls;
