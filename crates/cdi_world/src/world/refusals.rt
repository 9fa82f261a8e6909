//! What the contexts of a world refuse.
ghost use Rattle.std.specs.Prelude.{◌≡◌};
ghost use Rattle.std.specs.Option.{option_copied};
ghost use Rattle.cdi_contexts.specs.Refusals.{begin_refusal, invalidate_refusal, request_refusal};

use super::World;
use cdi_base::Refusal;

impl World {
    /// Why a request doesn't begin, in its session if one is named, if it doesn't: the first that
    /// holds of [`Refusal::RequestOpen`], [`Refusal::SessionEnding`], [`Refusal::TooManyRequests`] and
    /// [`Refusal::TooManySessions`].
    pub fn refuses_begin(&self, request: &str, session: Option<&str>) -> Option<Refusal>
        ensures { result
            ≡ begin_refusal self.now.contexts request.now (option_copied session.entry) }
    {
        self.contexts.refuses_begin(request, session)
    }

    /// Why nothing is done in a request, if it isn't: [`Refusal::NoRequest`] if one is named that
    /// isn't there.
    pub fn refuses_in(&self, request: Option<&str>) -> Option<Refusal>
        ensures { result ≡ request_refusal self.now.contexts (option_copied request.entry) }
    {
        self.contexts.refuses_in(request)
    }

    /// Why a session isn't invalidated, if it isn't: [`Refusal::NoSession`] or
    /// [`Refusal::SessionEnding`].
    pub fn refuses_invalidate(&self, session: &str) -> Option<Refusal>
        ensures { result ≡ invalidate_refusal self.now.contexts session.now }
    {
        self.contexts.refuses_invalidate(session)
    }
}
