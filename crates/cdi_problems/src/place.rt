//! Places as they are printed.
ghost use Rattle.std.specs.Prelude.{◌≡◌, Some};
ghost use Rattle.cdi_problems.specs.Places as spec;

use cdi_base::{InterceptorMethod, Name, Names, Place};
use std::fmt;

/// A place as problems are printed with it: a bean `K`, a member `K#m`, a constructor `K#`, a method of an interceptor `J#invoke`.
#[derive(Clone, Copy)]
pub struct PlaceText<'a> {
    /// The table that has the names of the place.
    pub names: &'a Names,
    pub place: &'a Place,
}

/// The text of a name, which is empty for a name that the table doesn't hold.
pub fn name_text<'a>(names: &'a Names, name: Name) -> &'a str
    ensures { result.now ≡ spec.name_text names.now name }
{
    match names.get(name) {
        Some(text) => text,
        None => "",
    }
}

fn method_word(method: InterceptorMethod) -> &'static str
    ensures { result.now ≡ spec.method_word method }
{
    match method {
        InterceptorMethod::AroundInvoke => "invoke",
        InterceptorMethod::AroundConstruct => "construct",
        InterceptorMethod::PostConstruct => "post",
        InterceptorMethod::PreDestroy => "pre",
    }
}

impl fmt::Display for PlaceText<'_> {
    ghost output = { λ text. Some (spec.place_text text.names.now text.place.now) };

    fn fmt<W: fmt::Write>(&self, f: &mut fmt::Formatter<W>) -> fmt::Result {
        match self.place {
            Place::Class(name) => f.write_str(name_text(self.names, *name)),
            Place::Member { class, member } => {
                let class = name_text(self.names, *class);
                let member = name_text(self.names, *member);
                write!(f, "{class}#{member}")
            }
            Place::Constructor(class) => {
                let class = name_text(self.names, *class);
                write!(f, "{class}#")
            }
            Place::Interceptor {
                interceptor,
                method,
            } => {
                let interceptor = name_text(self.names, *interceptor);
                let method = method_word(*method);
                write!(f, "{interceptor}#{method}")
            }
        }
    }
}
