//! Names, values, acts, entries, commands and replies; how a deployment is run; and which known text was probably meant by one that
//! isn't known.
#![tactic(auto)]

pub mod act;
pub mod built_in;
pub mod command;
pub mod entry;
pub mod fields;
pub mod limits;
pub mod name;
pub mod near;
pub mod or_memory;
pub mod place;
pub mod reply;
pub mod scope;
pub mod seq;
mod settings;
pub mod text;
pub mod uses;
pub mod value;

pub use act::{Act, Answer, Via};
pub use built_in::BuiltIn;
pub use command::Command;
pub use entry::Entry;
pub use fields::Fields;
pub use limits::Limits;
pub use name::{Name, Names, TableFull, is_name};
pub use near::nearest;
pub use or_memory::OrMemory;
pub use place::{InterceptorMethod, Place};
pub use reply::{Cause, Refusal, Reply};
pub use scope::Scope;
pub use seq::Seq;
pub use settings::{Order, Settings};
pub use text::Text;
pub use uses::{MemberValue, Use, WrittenMember, WrittenUse};
pub use value::Value;
