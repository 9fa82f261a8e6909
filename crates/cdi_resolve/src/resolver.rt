//! The resolver.
ghost use Rattle.std.specs.Prelude.{◌≡◌, IfOk};
ghost use Rattle.std.specs.Option.{option_copied};
ghost use Rattle.cdi_base.specs.Maps.{at};
ghost use Rattle.cdi_bean_check.specs.Qualifiers.{full_uses};
ghost use Rattle.cdi_resolve.specs.Filters.{required_of, enabled_of};
ghost use Rattle.cdi_resolve.specs.Narrowing.{eligible_of as eligible_in};
ghost use Rattle.cdi_resolve.specs.Resolution as spec;

use crate::bean_index::{BeanIndex, asked_type};
use crate::bean_rows::has_flag;
use crate::question::Question;
use crate::required::Required;
use crate::resolution::Resolution;
use crate::written_uses::WrittenUses;
use cdi_base::{BuiltIn, Name, Seq, Use};
use cdi_beans::Bean;
use cdi_quals::{QualSet, Qualifier, QualifierTypes};
use std::alloc::{AllocError, Global};
use std::marker::Model;

/// Typesafe resolution among the enabled ones of a list of beans (Jakarta CDI 4.0, *Typesafe resolution*). Contracts see the
/// beans and the flags that tell which of them are enabled. A question looks only at enabled beans
/// that have the type, or at those that have one of the required qualifiers, where these are fewer.
pub struct Resolver {
    beans: Seq<Bean>,
    enabled: Seq<bool>,
    index: BeanIndex,
    default: Qualifier,
}

/// In one call, so that the proof of each function that owns a resolver has one step here, and not one for each of its parts.
impl Drop for Resolver {
    fn drop(self) {
        let Self {
            beans: _beans,
            enabled: _enabled,
            index: _index,
            default: _default,
        } = self;
    }
}

impl Model for Resolver {
    ghost use Rattle.std.specs.Prelude.{◌≡◌};
    ghost use Rattle.cdi_resolve.specs.Filters as filters;
    ghost use Rattle.cdi_resolve.specs.BeanIndex.{IsIndexOf};

    ghost Value = { filters.Candidates };

    ghost view = { λ r. record { beans = r.beans; flags = r.enabled } };

    ghost invariant = { λ r. (r.default ≡ filters.default)
        × IsIndexOf r.beans r.enabled r.index };
}

impl Resolver {
    /// Resolution among those of these beans that a list of flags tells to be enabled, by their indices.
    pub fn new(alloc: Global, beans: Seq<Bean>, enabled: Seq<bool>) -> Result<Resolver, AllocError>
        ensures { IfOk result (λ r. r ≡ record { beans = beans; flags = enabled }) }
    {
        let index = BeanIndex::build(alloc, beans.as_slice(), enabled.as_slice())?;
        Ok(Resolver {
            beans,
            enabled,
            index,
            default: Qualifier {
                name: BuiltIn::Default.name(),
                members: Seq::empty(alloc),
            },
        })
    }

    /// All beans, by their indices, enabled or not.
    pub fn beans(&self) -> &[Bean]
        ensures { result.now ≡ self.now.beans }
    {
        self.beans.as_slice()
    }

    /// Which of the beans are enabled.
    pub fn flags(&self) -> &[bool]
        ensures { result.now ≡ self.now.flags }
    {
        self.enabled.as_slice()
    }

    /// The enabled bean with an index, as [`Resolution::One`] tells it.
    pub fn bean(&self, index: usize) -> Option<&Bean>
        ensures { option_copied result ≡ at (enabled_of self.now) index }
    {
        if has_flag(self.enabled.as_slice(), index) {
            return self.beans.get(index);
        }
        None
    }

    /// A question.
    fn question<'a>(&'a self, ty: Name, required: &Required<'a>) -> Question<'a>
        ensures { eligible_in result
            ≡ spec.eligible ty (required_of required.now) (enabled_of self.now) }
    {
        let key = self.index.key_of(ty, required, &self.default);
        Question {
            beans: self.beans.as_slice(),
            row: self.index.row(&key),
            ty: asked_type(ty, &key),
            required: *required,
            default: &self.default,
        }
    }

    /// What a type and qualifiers resolve to (Jakarta CDI 4.0, *Typesafe resolution*, *Unsatisfied and ambiguous dependencies*). No
    /// qualifiers stand for `Default`. One bean that has the type and each of the qualifiers is enough, whether it is an alternative
    /// or not. Of several, the one alternative, or product of an alternative, is taken; of several alternatives that all have a
    /// priority, the one whose priority is the highest.
    pub fn resolve(&self, ty: Name, qualifiers: &QualSet) -> Resolution
        ensures { result ≡ spec.resolution ty qualifiers.now (enabled_of self.now) }
    {
        self.question(ty, &Required::Set(qualifiers)).resolution()
    }

    /// The same for qualifiers as they were written. The types say which members each has; those that it doesn't give are null.
    pub fn resolve_written(&self, types: &QualifierTypes, ty: Name, uses: &[Use]) -> Resolution
        ensures { result
            ≡ spec.resolution ty (full_uses types.now uses.now) (enabled_of self.now) }
    {
        let written = WrittenUses::new(types, uses);
        self.question(ty, &Required::Written(written)).resolution()
    }
}
