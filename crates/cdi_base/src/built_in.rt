//! The names that every deployment knows without declaring them.
ghost use Rattle.std.specs.Prelude.{◌≡◌, ◌<◌, length, slice_get, Some, IfOk};
ghost use Rattle.cdi_base.specs.BuiltIn as spec;

use crate::name::{Name, Names, TableFull};
use crate::or_memory::OrMemory;
use std::alloc::{AllocError, Global};

/// A built-in class, qualifier, member of a qualifier, or exception. All built-in exceptions are unchecked.
#[derive(Clone, Copy, Debug, PartialEq, Eq)]
pub enum BuiltIn {
    /// The class above all types (Jakarta CDI 4.0, *Legal bean types*), also the class of context events.
    Object,
    /// The class of the event at the start (Jakarta CDI 4.0, *Startup event*).
    Startup,
    /// The class of the event at the end (Jakarta CDI 4.0, *Shutdown event*).
    Shutdown,
    /// The qualifier that every bean and every event has (Jakarta CDI 4.0, *Built-in qualifier types*).
    Any,
    /// The qualifier of a bean, and of an injection point, that declares no other.
    Default,
    /// The qualifier with a name as its member.
    Named,
    /// The qualifier of the event at the begin of a context.
    Initialized,
    /// The qualifier of the event before the end of a context.
    BeforeDestroyed,
    /// The qualifier of the event at the end of a context.
    Destroyed,
    /// The one member of the last four qualifiers.
    Value,
    ContextNotActiveException,
    CreationException,
    IllegalProductException,
    IllegalStateException,
    IllegalArgumentException,
    NullPointerException,
    ObserverException,
    UnsatisfiedResolutionException,
    AmbiguousResolutionException,
}

/// The built-in names, each at its number.
pub const ALL: [BuiltIn; 19] = [
    BuiltIn::Object,
    BuiltIn::Startup,
    BuiltIn::Shutdown,
    BuiltIn::Any,
    BuiltIn::Default,
    BuiltIn::Named,
    BuiltIn::Initialized,
    BuiltIn::BeforeDestroyed,
    BuiltIn::Destroyed,
    BuiltIn::Value,
    BuiltIn::ContextNotActiveException,
    BuiltIn::CreationException,
    BuiltIn::IllegalProductException,
    BuiltIn::IllegalStateException,
    BuiltIn::IllegalArgumentException,
    BuiltIn::NullPointerException,
    BuiltIn::ObserverException,
    BuiltIn::UnsatisfiedResolutionException,
    BuiltIn::AmbiguousResolutionException,
];

impl BuiltIn {
    /// The name as it is written.
    pub const fn text(self) -> &'static str
        ensures { result.now ≡ spec.text_of self }
    {
        match self {
            BuiltIn::Object => "Object",
            BuiltIn::Startup => "Startup",
            BuiltIn::Shutdown => "Shutdown",
            BuiltIn::Any => "Any",
            BuiltIn::Default => "Default",
            BuiltIn::Named => "Named",
            BuiltIn::Initialized => "Initialized",
            BuiltIn::BeforeDestroyed => "BeforeDestroyed",
            BuiltIn::Destroyed => "Destroyed",
            BuiltIn::Value => "value",
            BuiltIn::ContextNotActiveException => "ContextNotActiveException",
            BuiltIn::CreationException => "CreationException",
            BuiltIn::IllegalProductException => "IllegalProductException",
            BuiltIn::IllegalStateException => "IllegalStateException",
            BuiltIn::IllegalArgumentException => "IllegalArgumentException",
            BuiltIn::NullPointerException => "NullPointerException",
            BuiltIn::ObserverException => "ObserverException",
            BuiltIn::UnsatisfiedResolutionException => "UnsatisfiedResolutionException",
            BuiltIn::AmbiguousResolutionException => "AmbiguousResolutionException",
        }
    }

    /// The name in each table that began with [`Names::with_built_in`].
    pub const fn name(self) -> Name
        ensures number { result ≡ spec.number_of self }
        ensures stands { slice_get spec.built_in_names result ≡ Some (spec.text_of self) }
    {
        Name::under(self as u32)
    }
}

impl Names {
    /// A table with the built-in names.
    pub fn with_built_in(alloc: Global) -> Result<Names, AllocError>
        ensures { IfOk result (λ names. names ≡ spec.built_in_names) }
    {
        let mut names = Names::new(alloc);
        for built_in in ALL {
            match names.intern(built_in.text()) {
                Ok(_) => {}
                Err(OrMemory::Fault(TableFull)) => unreachable!(),
                Err(OrMemory::Memory) => return Err(AllocError),
            }
        }
        Ok(names)
    }
}
