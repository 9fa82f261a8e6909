//! The types of a deployment: which type is a subtype of which (Jakarta CDI 4.0, *Bean types*), and
//! what a class has of what it and its superclasses declare (Jakarta CDI 4.0, *Inheritance and specialization*).
#![tactic(auto)]

pub mod class_index;
pub mod declaration;
pub mod edges;
pub mod fault;
pub mod graph;
mod index;
pub mod inheritance_laws;
pub mod kind;
pub mod line;
pub mod member;
pub mod name_set;
pub mod part;
pub mod subtype_laws;
pub mod table;

pub use class_index::ClassIndex;
pub use declaration::{TypeDeclaration, declarations_of};
pub use edges::supertype_graph;
pub use fault::TypesFault;
pub use graph::TypeGraph;
pub use kind::MemberKind;
pub use line::ClassLine;
pub use name_set::NameSet;
pub use part::ClassPart;
pub use table::TypeTable;
