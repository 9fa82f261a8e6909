//! A body, and the member that it is of.
ghost use Rattle.std.specs.Prelude.{◌≡◌};

use cdi_base::Place;
use cdi_bodies::BodyId;
use std::marker::Model;

/// A body, and the member that it is of.
#[derive(Clone, Copy, Debug, PartialEq, Eq)]
pub struct Code {
    place: Place,
    body: BodyId,
}

impl Model for Code {
    ghost use Rattle.cdi_machine.specs.Tables.{Code as AnyCode};

    ghost Value = { AnyCode };

    ghost view = { λ c. record { place = c.place; body = c.body } };

    ghost inverse = { λ c. record { place = c.place; body = c.body } };
}

impl Code {
    /// The body of a member.
    pub fn new(place: Place, body: BodyId) -> Code
        ensures { result ≡ record { place = place; body = body } }
    {
        Code { place, body }
    }

    /// The member.
    pub fn place(self) -> Place
        ensures { result ≡ self.place }
    {
        self.place
    }

    /// The number of the body, or that of no body if it isn't registered.
    pub fn body(self) -> BodyId
        ensures { result ≡ self.body }
    {
        self.body
    }
}
