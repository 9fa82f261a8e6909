//! A set of members to which most are added often.
ghost use Rattle.std.specs.Prelude.{◌≡◌, ◌||◌, None, Some, OnOk, if◌then◌else◌, ◌==◌, ℕ};
ghost use Rattle.cdi_live.specs.MemberSets as spec;

use cdi_base::Name;
use cdi_beans::BeanMember;
use std::alloc::{AllocError, Global};
use std::collections::HashSet;

/// Of each name the class that was last put down with it, by the numbers of the names.
#[derive(Drop)]
pub(crate) struct LastClasses {
    classes: Vec<Option<Name>>,
}

impl LastClasses {
    /// No class with any name.
    pub(crate) fn none(alloc: Global) -> LastClasses
        ensures { (name : ℕ) → spec.last_with result name ≡ None }
    {
        LastClasses {
            classes: Vec::new(alloc),
        }
    }

    /// The class that was last put down with a name.
    fn with(&self, name: Name) -> Option<Name>
        ensures { result ≡ spec.last_with self.now name }
    {
        *self.classes.get(name.number() as usize)?
    }

    /// Puts a class down with a name.
    fn put(&mut self, class: Name, name: Name) -> Result<(), AllocError>
        ensures { OnOk result ((n : ℕ) → spec.last_with self.new n
            ≡ if name == n then Some class else spec.last_with self.old n) }
    {
        let place = name.number() as usize;
        if self.classes.len() <= place {
            self.classes.resize(place + 1, None)?;
        }
        self.classes[place] = Some(class);
        Ok(())
    }
}

/// Adds a member to a set of members, by the classes that declare them and their names, unless it was the last one of its name that was
/// added: beans of classes in one line have most members in common.
pub(crate) fn add_member(
    member: &BeanMember,
    set: &mut HashSet<(Name, Name)>,
    last: &mut LastClasses,
) -> Result<(), AllocError>
    requires { spec.HasLast set.old last.old }
    ensures set { OnOk result ((class name : ℕ) → spec.has set.new class name
        ≡ (spec.has set.old class name || spec.is_it class name member.now)) }
    ensures last { OnOk result (spec.HasLast set.new last.new) }
{
    if last.with(member.name) == Some(member.class) {
        return Ok(());
    }
    set.insert((member.class, member.name))?;
    last.put(member.class, member.name)?;
    Ok(())
}
