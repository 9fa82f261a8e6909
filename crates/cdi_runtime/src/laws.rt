//! A law of registered bodies. A call of it does nothing: its contract is the law.
ghost use Rattle.cdi_bodies.specs.Table.{entries_of};
ghost use Rattle.cdi_runtime.specs.Knowing.{DrivesRegistered};

use cdi_bodies::Bodies;

/// If the bodies of what is enabled are registered, those of beans, of interceptors and of observers, each body that the engine can come to
/// run is: that of a business method, a constructor, an initializer, a callback, a producer method, a disposer, a method of an
/// interceptor, or an observer.
pub fn law_drives_registered(_bodies: &Bodies)
    ensures { DrivesRegistered (entries_of _bodies.now) }
{}
