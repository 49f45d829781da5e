//! JSON written and read without a tree of values in between.
#![tactic(auto)]

mod errors;
mod laws;
mod lookup;
mod node;
mod numbers;
mod parse;
mod text;
mod values;

pub use errors::ReadError;
pub use json::Scratch;
pub use laws::ascending_fields_are_in_order;
pub use lookup::{member, only_member, sorted};
pub use node::Node;
pub use text::JsonText;
