//! Laws on what an accepted deployment gives the whole machine. A call of one of these does nothing: its contract is the law.
ghost use Rattle.cdi_accepted.specs.Ties.{BeansHaveSets, GroupsAre, SubtypesAre, WrittenAre};
ghost use Rattle.cdi_bodies.specs.Table.{entries_of};
ghost use Rattle.cdi_accepted.specs.Accepted.{AcceptedIsFaultless, FarewellsApart, FarewellsBeginOnce, FarewellsBeginOnceIfShort, ManagedFit, WholeFits, WholeIsRegistered};
ghost use Rattle.cdi_accepted.specs.Chains.{InvokesPlanned, LivesPlanned};

use cdi_bodies::Bodies;

/// A deployment that has no problem with these bodies has tables of which the laws below speak (Jakarta CDI 4.0, *Problems detected
/// automatically by the container*).
pub fn law_accepted_is_faultless(bodies: &Bodies)
    ensures { AcceptedIsFaultless (entries_of bodies.now) }
{}

/// In an accepted deployment each managed bean to which something resolves fits.
pub fn law_managed_fit(bodies: &Bodies)
    ensures { ManagedFit (entries_of bodies.now) }
{
    Bodies::gives_in_shape(bodies);
}

/// The tables of an accepted deployment fit its bodies.
pub fn law_whole_fits(bodies: &Bodies)
    ensures { WholeFits (entries_of bodies.now) }
{
    Bodies::gives_in_shape(bodies);
}

/// In an accepted deployment each body that can come to run is registered: those in the life of an instance of an enabled bean, those of
/// enabled interceptors, and those of the observers of enabled beans.
pub fn law_whole_is_registered(bodies: &Bodies)
    ensures { WholeIsRegistered (entries_of bodies.now) }
{}

/// The tables of an accepted deployment tell the bodies of a destruction from all others by their places; and so
/// each destruction begins its callbacks exactly once, also if memory runs out (Jakarta CDI 4.0, *Lifecycle of managed beans*;
/// Jakarta Interceptors 2.1, *Interceptor Methods for Lifecycle Event Callbacks*).
pub fn law_farewells_begin_once(bodies: &Bodies)
    ensures apart { FarewellsApart (entries_of bodies.now) }
    ensures with_memory { FarewellsBeginOnce (entries_of bodies.now) }
    ensures short_of_memory { FarewellsBeginOnceIfShort (entries_of bodies.now) }
{
    Bodies::gives_in_shape(bodies);
}

/// In each chain of a bean stand enabled interceptors that have the method, and of each of them the bean's plan makes an
/// instance (Jakarta Interceptors 2.1, Interceptor Life Cycle).
pub fn law_chains_planned()
    ensures members { InvokesPlanned }
    ensures lifecycle { LivesPlanned }
{}

/// In a hierarchy without a cycle the types of a class are computed as those that stand above it (Jakarta CDI 4.0, *Observer
/// resolution*).
pub fn law_subtypes_are_computed()
    ensures { SubtypesAre }
{}

/// The machine hears exactly the groups of a deployment's observers, by ascending priority (Jakarta CDI 4.0, *Observer
/// resolution*, *Observer ordering*).
pub fn law_groups_are_computed()
    ensures { GroupsAre }
{}

/// The qualifiers of an event are written as the set of them without `Any` (Jakarta CDI 4.0, *Observer resolution*).
pub fn law_written_are_computed()
    ensures { WrittenAre }
{}

/// The list of a bean's qualifiers has the required ones that their ordered set has (Jakarta CDI 4.0, *Typesafe resolution*).
pub fn law_beans_have_sets()
    ensures { BeansHaveSets }
{}
