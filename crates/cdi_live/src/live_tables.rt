//! What is live, as tables.
ghost use Rattle.std.specs.Prelude.{◌≡◌, ◌↔◌, IsTrue, IfOk};
ghost use Rattle.cdi_live.specs.Live as spec;
ghost use Rattle.cdi_resolve.specs.Filters.{enabled_beans};

use crate::sets::LiveSets;
use cdi_base::{Name, Seq};
use cdi_beans::{Bean, EnabledInterceptor};
use cdi_deployment::Class;
use cdi_resolve::enabled_bean::{EnabledBean, enabled_of};
use cdi_types::TypeTable;
use std::alloc::{AllocError, Global};
use std::marker::Model;

/// What of a deployment is live: the members of enabled beans, the constructors of their classes, and the methods of enabled
/// interceptors (Jakarta CDI 4.0, *Enabled and disabled beans*; Jakarta Interceptors 2.1, *Enabling Interceptors*); and whose injected
/// fields are set. Contracts see what is enabled; a question takes constant time.
#[derive(Drop)]
pub struct LiveTables<'a> {
    classes: &'a [Class],
    types: &'a TypeTable,
    beans: Seq<EnabledBean<'a>>,
    interceptors: &'a [EnabledInterceptor],
    sets: LiveSets,
}

impl<'a> Model for LiveTables<'a> {
    ghost use Rattle.cdi_live.specs.Enabled.{Enabled};
    ghost use Rattle.cdi_live.specs.LiveSets.{AreLive};

    ghost Value = { Enabled };

    ghost view = { λ t. record {
      classes = t.classes.now;
      types = t.types.now;
      beans = t.beans;
      interceptors = t.interceptors.now;
    } };

    ghost invariant = { λ t. AreLive (record {
      classes = t.classes.now;
      types = t.types.now;
      beans = t.beans;
      interceptors = t.interceptors.now;
    }) t.sets };
}

impl<'a> LiveTables<'a> {
    /// What is live by the enabled ones of these beans, which are told by a flag for each, and these enabled interceptors. It takes
    /// time in proportion to the members that enabled beans have, and to the classes times the enabled beans.
    pub fn build(
        alloc: Global,
        types: &'a TypeTable,
        classes: &'a [Class],
        beans: &'a [Bean],
        flags: &[bool],
        interceptors: &'a [EnabledInterceptor],
    ) -> Result<LiveTables<'a>, AllocError>
        ensures { IfOk result (λ live. live ≡ record {
          classes = classes.now;
          types = types.now;
          beans = enabled_beans beans.now flags.now;
          interceptors = interceptors.now;
        }) }
    {
        let beans = enabled_of(alloc, beans, flags)?;
        let sets = LiveSets::of(alloc, types, classes, beans.as_slice(), interceptors)?;
        Ok(LiveTables {
            classes,
            types,
            beans,
            interceptors,
            sets,
        })
    }

    /// The enabled beans, in the order of the bean list.
    pub fn beans(&self) -> &[EnabledBean<'a>]
        ensures { result.now ≡ self.now.beans }
    {
        self.beans.as_slice()
    }

    /// The enabled interceptors, in their order.
    pub fn interceptors(&self) -> &'a [EnabledInterceptor]
        ensures { result.now ≡ self.now.interceptors }
    {
        self.interceptors
    }

    /// Whether the constructor of a class is live: an enabled managed bean is of the class.
    pub fn has_bean(&self, class: Name) -> bool
        ensures { result ≡ spec.is_live_class self.now.beans class }
    {
        self.sets.classes.contains(&class)
    }

    /// Whether the injected fields that a class of the deployment declares are live: it is the class of an enabled managed bean, or
    /// stands above it (Jakarta CDI 4.0, *Injected fields*, *Inheritance of member-level metadata*).
    pub fn has_fields_of(&self, class: Name) -> bool
        ensures { IsTrue result
            ↔ spec.HasFieldsOf self.now.classes self.now.types self.now.beans class }
    {
        self.sets.with_fields.contains(&class)
    }

    /// Whether a member is live: an enabled bean has it, of its own class or of a superclass.
    pub fn has_member(&self, class: Name, name: Name) -> bool
        ensures { result ≡ spec.is_live_member self.now.beans class name }
    {
        self.sets.members.contains(&(class, name))
    }

    /// Whether the methods and the injected fields of an interceptor are live: it is enabled.
    pub fn has_interceptor(&self, name: Name) -> bool
        ensures { result ≡ spec.is_live_interceptor self.now.interceptors name }
    {
        self.sets.interceptors.contains(&name)
    }
}
