//! Sources and sinks of bytes, and the container: a file of named contents, one after the other.
#![tactic(auto)]

mod adapters;
mod errors;
mod front;
mod growing;
mod indexed;
pub mod laws;
mod lookup;
mod memory;
mod named_contents;
mod reader;
mod step_count;
mod steps;
mod streams;
mod within;
mod writer;

pub use adapters::{FileSink, StdSink, StdSource, write_flushed};
pub use errors::{ContainerError, ContainerSizes, ContainerWriteError};
pub use front::FrontError;
pub use growing::GrowingSink;
pub use memory::SliceSource;
pub use named_contents::{
    NamedContent, container_length, nested_length, write_container, write_nested,
};
pub use reader::Container;
pub use step_count::Steps;
pub use streams::{Sink, SinkFailed, Source, SourceFailed, write_all, write_all_dyn};
pub use within::{ReadError, read_within};
pub use writer::{ContainerEnd, ContainerWriter};
