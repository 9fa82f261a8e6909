//! How many beans and injected fields there are.
ghost use Rattle.std.specs.Prelude.{◌≡◌};
ghost use Rattle.std.specs.List.{list_all};
ghost use Rattle.cdi_run_tables.specs.Sizes as spec;

use crate::tables::RunTables;
use cdi_deployment::Interceptor;

/// The most beans that a container numbers.
const MAX_BEANS: usize = 4096;

pub(crate) fn have_few_fields(interceptors: &[Interceptor]) -> bool
    ensures { result ≡ list_all spec.has_few_fields interceptors.now }
{
    interceptors
        .iter()
        .all(|interceptor| interceptor.inject.len() < 4_294_967_296)
}

impl RunTables {
    /// Whether a container can number what there is: at most [`MAX_BEANS`] beans, as every deployment without problems has, and of each
    /// interceptor at most 4,294,967,295 injected fields. No bean has more, since its steps are counted when it is kept.
    pub(crate) fn is_small(&self) -> bool
        ensures { result ≡ spec.is_small self.now }
    {
        self.parts.tables.resolver.beans().len() <= MAX_BEANS
            && have_few_fields(self.parts.deployment.interceptors.as_slice())
    }
}
