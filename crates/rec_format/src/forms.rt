//! The JSON forms of the types of this crate.
mod head;
mod manifest;
mod parts;
mod rerun;
mod run;
mod run_list;
mod scope;
mod sizes;
mod stats;
mod status;
mod suites;
mod versions;
