//! Command lines as commands, and replies and entries as lines.
#![tactic(auto)]

pub mod command;
pub mod entry_text;
pub mod json_reader;
pub mod reply_text;

pub use command::{BadLine, read_command};
pub use entry_text::{write_entry, write_trace};
pub use json_reader::JsonReader;
pub use reply_text::write_reply;
