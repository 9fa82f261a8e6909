//! The commands to a container.
use crate::seq::Seq;
use crate::text::Text;
use crate::uses::WrittenUse;
use crate::value::Value;

/// A command as it was read: its names are texts, which the container looks up.
#[derive(Debug, PartialEq, Eq, Drop)]
pub enum Command {
    /// Begins a request, in a session if one is named (Jakarta CDI 4.0, *Context management for built-in scopes*).
    Begin {
        request: Text,
        session: Option<Text>,
    },
    /// Calls a business method of the bean that a type and qualifiers resolve to.
    Call {
        request: Option<Text>,
        bean_type: Text,
        qualifiers: Seq<WrittenUse>,
        method: Text,
        args: Seq<Value>,
    },
    /// Reads the product that a type and qualifiers resolve to.
    Read {
        request: Option<Text>,
        bean_type: Text,
        qualifiers: Seq<WrittenUse>,
    },
    /// Fires an event.
    Fire {
        request: Option<Text>,
        class: Text,
        qualifiers: Seq<WrittenUse>,
        value: Value,
    },
    /// Ends a request.
    End {
        request: Text,
    },
    /// Ends a session, once it has no open request.
    Invalidate {
        session: Text,
    },
    /// Asks for the numbers of the live instances.
    Live,
    /// Ends all contexts and the container.
    Shutdown,
}
