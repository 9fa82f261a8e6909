//! What is claimed so far.
ghost use Rattle.std.specs.Prelude.{◌≡◌, [], ◌∷◌, option_to_list, IfOk, OnOk};
ghost use Rattle.std.specs.List.{list_any};
ghost use Rattle.cdi_name_check.specs.Claims as spec;
ghost use Rattle.cdi_name_check.specs.DuplicateName as duplicate;
ghost use Rattle.cdi_problems.specs.Elements.{element_of};

use crate::claim::{Claim, claims_of};
use cdi_base::BuiltIn;
use cdi_base::built_in::ALL;
use cdi_problems::Element;
use std::alloc::{AllocError, Global};
use std::collections::HashSet;

/// A set of claims. A question takes constant time.
#[derive(Drop)]
pub(crate) struct Claims {
    set: HashSet<Claim>,
}

/// What a built-in name claims before anything is declared. The member of a qualifier claims nothing.
fn built_in_claim(built_in: BuiltIn) -> Option<Claim>
    ensures { result ≡ duplicate.built_in_claim built_in }
{
    let name = built_in.name();
    match built_in {
        BuiltIn::Object => Some(Claim::Type(name)),
        BuiltIn::Startup => Some(Claim::Type(name)),
        BuiltIn::Shutdown => Some(Claim::Type(name)),
        BuiltIn::Any => Some(Claim::Qualifier(name)),
        BuiltIn::Default => Some(Claim::Qualifier(name)),
        BuiltIn::Named => Some(Claim::Qualifier(name)),
        BuiltIn::Initialized => Some(Claim::Qualifier(name)),
        BuiltIn::BeforeDestroyed => Some(Claim::Qualifier(name)),
        BuiltIn::Destroyed => Some(Claim::Qualifier(name)),
        BuiltIn::Value => None,
        BuiltIn::ContextNotActiveException => Some(Claim::Exception(name)),
        BuiltIn::CreationException => Some(Claim::Exception(name)),
        BuiltIn::IllegalProductException => Some(Claim::Exception(name)),
        BuiltIn::IllegalStateException => Some(Claim::Exception(name)),
        BuiltIn::IllegalArgumentException => Some(Claim::Exception(name)),
        BuiltIn::NullPointerException => Some(Claim::Exception(name)),
        BuiltIn::ObserverException => Some(Claim::Exception(name)),
        BuiltIn::UnsatisfiedResolutionException => Some(Claim::Exception(name)),
        BuiltIn::AmbiguousResolutionException => Some(Claim::Exception(name)),
    }
}

impl Claims {
    /// The claims of the built-in names.
    pub(crate) fn built_in(alloc: Global) -> Result<Claims, AllocError>
        ensures { IfOk result (spec.HasClaims duplicate.built_in_claims) }
    {
        let mut claims = Claims {
            set: HashSet::new(alloc),
        };
        for built_in in ALL {
            claims.add(built_in_claim(built_in))?;
        }
        Ok(claims)
    }

    /// Whether a claim, if it is one, is there.
    fn has(&self, claim: Option<Claim>) -> bool
        ensures { result ≡ list_any (spec.has self.now) (option_to_list claim) }
    {
        match claim {
            Some(claim) => self.set.contains(&claim),
            None => false,
        }
    }

    /// Adds a claim, if it is one.
    fn add(&mut self, claim: Option<Claim>) -> Result<(), AllocError>
        ensures { OnOk result (spec.AddsClaims (option_to_list claim) self.old self.new) }
    {
        if let Some(claim) = claim {
            self.set.insert(claim)?;
        }
        Ok(())
    }

    /// Adds what an element claims, and tells whether some of it was there already.
    pub(crate) fn claim(&mut self, element: &Element<'_>) -> Result<bool, AllocError>
        ensures again { IfOk result (λ again. again
            ≡ list_any (spec.has self.old) (duplicate.claims_of (element_of element.now))) }
        ensures added { OnOk result (spec.AddsClaims
            (duplicate.claims_of (element_of element.now)) self.old self.new) }
    {
        let (name, callback) = claims_of(element);
        let name_stands = self.has(name);
        let callback_stands = self.has(callback);
        self.add(name)?;
        self.add(callback)?;
        Ok(name_stands || callback_stands)
    }
}
