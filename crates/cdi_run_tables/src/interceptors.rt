//! The enabled interceptors, by their places in their order (Jakarta Interceptors 2.1, *Interceptor Ordering*).
ghost use Rattle.std.specs.Prelude.{◌≡◌, option_map, IfOk};
ghost use Rattle.std.specs.Option.{option_copied};
ghost use Rattle.cdi_body_check.specs.Sites.{method_body};
ghost use Rattle.cdi_run_tables.specs.Interceptors as spec;
ghost use Rattle.cdi_run_tables.specs.Machine as machine;

use crate::tables::RunTables;
use cdi_base::{Fields, InterceptorMethod, Name, Place};
use cdi_bodies::BodyId;
use cdi_deployment::Interceptor;
use cdi_machine::Code;
use cdi_numbered_plans::first_values;
use std::alloc::{AllocError, Global};

/// The name of the body of an interceptor's method, if it has that.
fn method_name(interceptor: &Interceptor, role: InterceptorMethod) -> Option<Name>
    ensures { result ≡ method_body interceptor.now role }
{
    match role {
        InterceptorMethod::AroundInvoke => interceptor.invoke,
        InterceptorMethod::AroundConstruct => interceptor.construct,
        InterceptorMethod::PostConstruct => interceptor.post,
        InterceptorMethod::PreDestroy => interceptor.pre,
    }
}

impl RunTables {
    /// The declaration of the enabled interceptor at a place.
    fn interceptor(&self, place: usize) -> Option<&Interceptor>
        ensures { option_copied result ≡ machine.declared_at self.now place }
    {
        let enabled = self.parts.tables.chains.interceptors().get(place)?;
        self.parts.deployment.interceptors.get(enabled.index)
    }

    /// The name of the enabled interceptor at a place.
    pub fn interceptor_name(&self, place: usize) -> Option<Name>
        ensures { result ≡ option_map (λ j. j.name) (machine.interceptor_at self.now place) }
    {
        let declared = self.interceptor(place)?;
        Some(declared.name)
    }

    /// The fields of a new instance of the enabled interceptor at a place, each with its first value; there are none if there is no such
    /// interceptor.
    pub fn interceptor_fields(&self, alloc: Global, place: usize) -> Result<Fields, AllocError>
        ensures { IfOk result (λ fields. fields
            ≡ spec.fields_in (machine.interceptor_at self.now place)) }
    {
        match self.interceptor(place) {
            Some(declared) => first_values(alloc, declared.fields.as_slice()),
            None => Ok(Fields::new(alloc)),
        }
    }

    /// The method of a role of the enabled interceptor at a place, if it has one (Jakarta Interceptors 2.1, *Interceptor Methods*). A body
    /// that isn't registered has the number of no body.
    pub fn interceptor_method(&self, place: usize, role: InterceptorMethod) -> Option<Code>
        ensures { result ≡ spec.method_code self.now place role }
    {
        let declared = self.interceptor(place)?;
        let name = method_name(declared, role)?;
        let body = match self.parts.ids.id(name) {
            Some(body) => body,
            None => BodyId::unregistered(),
        };
        Some(Code::new(
            Place::Interceptor {
                interceptor: declared.name,
                method: role,
            },
            body,
        ))
    }
}
