//! The enabled ones of a list of beans.
ghost use Rattle.std.specs.Prelude.{◌≡◌, IfOk};
ghost use Rattle.cdi_beans.specs.Kinds.{is_managed as kind_is_managed};
ghost use Rattle.cdi_resolve.specs.Filters.{enabled_beans, is_bean_of, is_enabled};

use cdi_base::{Name, Seq};
use cdi_beans::{Bean, BeanKind, BeanMember};
use std::alloc::{AllocError, Global};
use std::marker::Model;

/// An enabled bean with its index in the bean list. Contracts see the pair.
#[derive(Drop)]
pub struct EnabledBean<'a> {
    index: usize,
    bean: &'a Bean,
}

impl<'a> Model for EnabledBean<'a> {
    ghost use Rattle.std.specs.Prelude.{ℕ};
    ghost use Rattle.cdi_beans.specs.declared.bean.Bean.{Bean};

    ghost Value = { ℕ × Bean };

    ghost view = { λ b. (b.index, b.bean.now) };
}

/// What a list says of an index; what isn't there isn't enabled.
fn has_flag(flags: &[bool], index: usize) -> bool
    ensures { result ≡ is_enabled flags.now index }
{
    match flags.get(index) {
        Some(flag) => *flag,
        None => false,
    }
}

/// Those of these beans that a list of flags tells to be enabled, by their indices.
pub fn enabled_of<'a>(
    alloc: Global,
    beans: &'a [Bean],
    flags: &[bool],
) -> Result<Seq<EnabledBean<'a>>, AllocError>
    ensures { IfOk result (λ enabled. enabled ≡ enabled_beans beans.now flags.now) }
{
    let mut enabled = Seq::empty(alloc);
    for (index, bean) in beans.iter().enumerate() {
        if has_flag(flags, index) {
            enabled.push(EnabledBean { index, bean })?;
        }
    }
    Ok(enabled)
}

impl<'a> EnabledBean<'a> {
    /// Its index in the bean list.
    pub fn index(&self) -> usize
        ensures { result ≡ self.now.0 }
    {
        self.index
    }

    /// The bean.
    pub fn bean(&self) -> &'a Bean
        ensures { result.now ≡ self.now.1 }
    {
        self.bean
    }

    /// Whether it is a managed bean of a class.
    pub fn is_of(&self, class: Name) -> bool
        ensures { result ≡ is_bean_of class self.now }
    {
        self.is_managed() && self.bean.class == class
    }

    /// Whether it is a managed bean.
    pub fn is_managed(&self) -> bool
        ensures { result ≡ kind_is_managed self.now.1.kind }
    {
        self.bean.is_managed()
    }

    /// The class that declares it.
    pub fn class(&self) -> Name
        ensures { result ≡ self.now.1.class }
    {
        self.bean.class
    }

    /// Its members.
    pub fn members(&self) -> &'a [BeanMember]
        ensures { result.now ≡ self.now.1.members }
    {
        self.bean.members.as_slice()
    }
}
