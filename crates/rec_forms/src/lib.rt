//! The JSON forms of the recorder's plain types.
#![tactic(auto)]

mod error_texts;
mod errors;
mod fields;
mod form;
mod groups;
mod held;
mod ids;
mod instances;
mod laws;
mod lists;
mod maps;
mod names;
mod numbers;
mod objects;
mod output_names;
mod outputs;
mod recording;
mod reporting;
mod results;
mod run_ends;
mod selections;
mod several;
mod skipping;
mod stats;
mod stress;
mod test_names;
mod text_form;
mod texts;
mod times;
mod values;

pub use errors::FromValueError;
pub use fields::{
    defaulted_field, optional_field, required_field, write_field, write_optional, write_tagged,
};
pub use form::{EntryForm, Form, ItemForm};
pub use held::{Held, held_optional};
pub use laws::{
    read_items_are_well_formed, well_formed_items_read_back, writable_values_read_back,
};
pub use objects::ObjectWriter;
pub use several::{
    defaulted_two, object_of_two, optional_two, required_five, required_four, required_three,
    required_two,
};
pub use text_form::{parse_node, read_text, write_text};
pub use values::value_of_text;
