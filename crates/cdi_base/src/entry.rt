//! The entries of a trace.
use crate::act::Act;
use crate::name::Name;
use crate::place::Place;
use crate::seq::Seq;
use crate::uses::Use;

/// One step of a command that can be seen from outside. Instances are told apart by their numbers, which count
/// from 1 and are never given twice.
#[derive(Debug, PartialEq, Eq, Drop)]
pub enum Entry {
    /// The creation of an instance of a bean or of an interceptor begins.
    New { number: u32, bean: Place },
    /// The instance is made.
    Ready { number: u32 },
    /// The creation of the instance failed, and it is gone.
    Drop { number: u32 },
    /// A body of a member starts on the instance.
    Run { number: u32, member: Place },
    /// The running body gave this act.
    Did(Act),
    /// Of so many candidates, the one at this index was chosen.
    Pick { count: u32, choice: u32 },
    /// An event is delivered to its observers (Jakarta CDI 4.0, *Observer notification*).
    Event { class: Name, qualifiers: Seq<Use> },
    /// The destruction of the instance begins.
    End { number: u32 },
    /// The instance is destroyed.
    Gone { number: u32 },
}
