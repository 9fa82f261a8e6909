//! Uses of qualifiers and of interceptor bindings.
ghost use Rattle.std.specs.Prelude.{◌≡◌, IsTrue};
ghost use Rattle.std.specs.List.{list_all};
ghost use Rattle.cdi_base.specs.Name.{is_name, Extends};
ghost use Rattle.cdi_base.specs.Uses as spec;

use crate::name::{Name, Names, TableFull, is_name as is_a_name};
use crate::or_memory::OrMemory;
use crate::seq::Seq;
use crate::text::Text;
use crate::value::Value;
use std::alloc::{AllocError, Global};

/// The value that a use gives to a member of its qualifier or interceptor binding.
#[derive(Debug, PartialEq, Eq, Drop)]
pub struct MemberValue {
    pub name: Name,
    pub value: Value,
}

/// A use of a qualifier or of an interceptor binding: its name and the values of its members, as they were
/// written. A member that is not given is null.
#[derive(Debug, PartialEq, Eq, Drop)]
pub struct Use {
    pub name: Name,
    pub members: Seq<MemberValue>,
}

/// A member's value in a command, whose name is still a text.
#[derive(Debug, PartialEq, Eq, Drop)]
pub struct WrittenMember {
    pub name: Text,
    pub value: Value,
}

/// A use of a qualifier in a command, whose names are still texts.
#[derive(Debug, PartialEq, Eq, Drop)]
pub struct WrittenUse {
    pub name: Text,
    pub members: Seq<WrittenMember>,
}

impl Clone for MemberValue {
    ghost is_clone = { λ m copy. copy ≡ m };

    fn clone(&self) -> Result<MemberValue, AllocError> {
        Ok(MemberValue {
            name: self.name,
            value: self.value.clone()?,
        })
    }
}

impl Clone for Use {
    ghost is_clone = { λ u copy. copy ≡ u };

    #[tactic(auto, using(crate::proofs::Clones::same_items))]
    fn clone(&self) -> Result<Use, AllocError> {
        Ok(Use {
            name: self.name,
            members: self.members.clone()?,
        })
    }
}

fn are_named(members: &[WrittenMember]) -> bool
    ensures { result ≡ list_all spec.has_name members.now }
{
    members.iter().all(|member| is_a_name(member.name.as_str()))
}

impl WrittenUse {
    /// Whether each text of the use that stands in the place of a name is one: its own, and those of its members.
    pub fn has_names(&self) -> bool
        ensures { result ≡ spec.has_names self.now }
    {
        is_a_name(self.name.as_str()) && are_named(self.members.as_slice())
    }
}

/// The name of a text, which has to be a name. An error leaves the table as it is.
fn number(names: &mut Names, text: &str) -> Result<Name, OrMemory<TableFull>>
    requires { IsTrue (is_name text.now) }
    ensures gives { spec.Interns
        (λ name. (name, names.new)) result (spec.numbered names.old text.now) }
    ensures kept { Extends names.old names.new }
{
    names.intern(text)
}

fn number_member(
    names: &mut Names,
    written: &WrittenMember,
) -> Result<MemberValue, OrMemory<TableFull>>
    requires { IsTrue (spec.has_name written.now) }
    ensures gives { spec.Interns (λ m. (m, names.new)) result
        (spec.numbered_member names.old written.now) }
    ensures kept { Extends names.old names.new }
{
    let name = number(names, written.name.as_str())?;
    let value = written.value.clone()?;
    Ok(MemberValue { name, value })
}

fn number_members(
    alloc: Global,
    names: &mut Names,
    written: &[WrittenMember],
) -> Result<Seq<MemberValue>, OrMemory<TableFull>>
    requires { IsTrue (list_all spec.has_name written.now) }
    ensures gives { spec.Interns (λ ms. (ms, names.new)) result
        (spec.numbered_members names.old written.now) }
    ensures kept { Extends names.old names.new }
{
    let mut members = Vec::new(alloc);
    for member in written {
        members.push(number_member(names, member)?)?;
    }
    Ok(Seq::new(members))
}

impl Names {
    /// The use with its names in this table: its own first, and then those of its members in their order. Its texts have
    /// to be names (see [`WrittenUse::has_names`]). On an error the table may have got some of the names, and those that
    /// were in it keep their numbers.
    pub fn intern_use(
        &mut self,
        alloc: Global,
        written: &WrittenUse,
    ) -> Result<Use, OrMemory<TableFull>>
        requires { IsTrue (spec.has_names written.now) }
        ensures gives { spec.Interns (λ u. (u, self.new)) result
            (spec.numbered_use self.old written.now) }
        ensures kept { Extends self.old self.new }
    {
        let name = number(self, written.name.as_str())?;
        let members = number_members(alloc, self, written.members.as_slice())?;
        Ok(Use { name, members })
    }
}
