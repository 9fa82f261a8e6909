//! The bodies at the end of a chain.
ghost use Rattle.std.specs.Prelude.{◌≡◌, ◌∷◌, []};

use cdi_base::Seq;
use cdi_machine::Code;
use std::marker::Model;
use std::slice;

/// The bodies at the end of a chain, in the order in which they run, which contracts see as a list.
#[derive(Drop)]
pub struct Members {
    kept: Kept,
}

/// How they are kept.
#[derive(Drop)]
enum Kept {
    /// A business method's one, which needs no memory of its own.
    One(Code),
    /// Any number of callbacks.
    Any(Seq<Code>),
}

impl Model for Members {
    ghost use Rattle.std.specs.Prelude.{List};
    ghost use Rattle.cdi_machine.specs.Tables.{Code as AnyCode};
    ghost use Rattle.cdi_host.specs.Members.{members_in};

    ghost Value = { List AnyCode };

    ghost view = { λ m. members_in m.kept };
}

impl Members {
    /// One body alone.
    pub fn one(code: Code) -> Members
        ensures { result ≡ code ∷ [] }
    {
        Members {
            kept: Kept::One(code),
        }
    }

    /// These bodies.
    pub fn of(codes: Seq<Code>) -> Members
        ensures { result ≡ codes }
    {
        Members {
            kept: Kept::Any(codes),
        }
    }

    /// The bodies, in order.
    pub fn as_slice(&self) -> &[Code]
        ensures { result.now ≡ self.now }
    {
        match &self.kept {
            Kept::One(code) => slice::from_ref(code),
            Kept::Any(codes) => codes.as_slice(),
        }
    }
}
