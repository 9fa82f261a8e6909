//! Serves the lines of an input: each is answered by a responder, and the replies go to an output.
#![tactic(auto)]

mod answer;
pub mod buffered;
pub mod fault;
pub mod input;
pub mod laws;
pub mod output;
pub mod reader;
pub mod responder;
pub mod serving;
pub mod sink;
pub mod source;
pub mod writer;

pub use buffered::Buffered;
pub use fault::ServeFault;
pub use input::Input;
pub use output::Output;
pub use reader::Reader;
pub use responder::Responder;
pub use serving::{MAX_INPUT, serve_lines};
pub use sink::{Sink, WriteFailed};
pub use source::{ReadFailed, Source};
pub use writer::Writer;
