//! What the program says where it doesn't do what it is asked: the line of each refusal,
//! its fields, and the status.
#![tactic(auto)]

mod bundle;
mod events;
mod export;
mod line;
mod live;
mod marks;
mod pack;
mod reading;
mod refusal;
mod salvage;
mod status;
mod store;
mod upgrade;
mod versions;
mod words;

pub use line::Line;
pub use refusal::{Refusal, refuse, write_fault};
pub use status::{
    ABOVE_READ_LIMIT, BUNDLE_FAILED, FAULTY_LINE, FAULTY_WORDS, NAME_COLLISION, NO_BUNDLE,
    NO_EVENT, NO_USAGE, NOTHING_SALVAGED, OUT_OF_MEMORY, OUT_OF_ORDER, OUT_OF_RANGE, OUTPUT_FAILED,
    SOURCE_FAILED, SUCCESS, TOO_LONG,
};
