//! Names of members that aren't all alike.
ghost use Rattle.std.specs.Prelude.{◌≡◌, ◌≢◌, Contains, IfOk, OnOk};
ghost use Rattle.cdi_bean_check.specs.MixedNames as spec;

use cdi_base::Name;
use cdi_deployment::{Class, Member};
use cdi_types::MemberKind;
use std::alloc::{AllocError, Global};
use std::collections::{HashMap, HashSet};

/// What members that are alike have in common: their kind, and how many values they are called with.
#[derive(Clone, Copy, PartialEq, Eq)]
pub(crate) struct Signature {
    pub(crate) kind: MemberKind,
    /// That of a method; other members are called with none.
    pub(crate) values: u32,
}

/// The first signature of each name of a member, and the names that have another one, too.
#[derive(Drop)]
pub(crate) struct MixedNames {
    pub(crate) firsts: HashMap<Name, Signature>,
    pub(crate) mixed: HashSet<Name>,
}

/// How many values a method is called with.
fn values_of(member: &Member) -> u32
    ensures { result ≡ spec.values_of member.now }
{
    match member {
        Member::Method(method) => method.args,
        _ => 0,
    }
}

fn signature_of(member: &Member) -> Signature
    ensures { result ≡ spec.signature_of member.now }
{
    Signature {
        kind: MemberKind::of(member),
        values: values_of(member),
    }
}

impl MixedNames {
    /// Those of no members.
    fn none(alloc: Global) -> MixedNames {
        MixedNames {
            firsts: HashMap::new(alloc),
            mixed: HashSet::new(alloc),
        }
    }

    /// Looks at a member, too.
    fn add(&mut self, member: &Member) -> Result<(), AllocError>
        ensures seen { OnOk result (spec.IsSeen self.new member.now) }
        ensures kept { OnOk result (spec.KeepsSeen self.old self.new) }
    {
        let name = member.name();
        let signature = signature_of(member);
        match self.firsts.get(&name) {
            Some(first) => {
                if *first != signature {
                    self.mixed.insert(name)?;
                }
            }
            None => {
                self.firsts.insert(name, signature)?;
            }
        }
        Ok(())
    }

    /// Looks at the members of a class, too.
    fn add_members(&mut self, members: &[Member]) -> Result<(), AllocError>
        ensures seen { OnOk result (spec.HasSeen members.now self.new) }
        ensures kept { OnOk result (spec.KeepsSeen self.old self.new) }
    {
        for member in members {
            self.add(member)?;
        }
        Ok(())
    }

    /// Those of the members of some classes.
    pub(crate) fn of(alloc: Global, classes: &[Class]) -> Result<MixedNames, AllocError>
        ensures { IfOk result (spec.HasSeenAll classes.now) }
    {
        let mut names = MixedNames::none(alloc);
        for class in classes {
            names.add_members(class.members.as_slice())?;
        }
        Ok(names)
    }

    /// Whether one of some members has a name whose members aren't all alike.
    pub(crate) fn has_any_of(&self, members: &[Member]) -> bool
        ensures { result ≡ spec.has_mixed self.now members.now }
    {
        members
            .iter()
            .any(|member| self.mixed.contains(&member.name()))
    }
}
