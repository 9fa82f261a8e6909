//! What the words of lines stand for.
//!
//! | Words | What they stand for |
//! |---|---|
//! | `SLOT NUMBER` | a key |
//! | `borrower`, or a number | an owner: nothing, or the instance with the number |
//! | `application`, `session`, `request`, `dependent` | a scope |
//! | `making`, or a number | what a context has for a bean |
//!
//! A word that is to be a number and is none stands for 0.
use cdi_base::Scope;
use cdi_contexts::Held;
use cdi_store::{Key, Owner};

/// The number that a word is, or 0.
pub(crate) fn number(word: &str) -> u32 {
    word.parse().unwrap_or(0)
}

pub(crate) fn key_of(slot: &str, word: &str) -> Key {
    Key {
        slot: slot.parse().unwrap_or(0),
        number: number(word),
    }
}

pub(crate) fn owner_of(word: &str) -> Owner {
    match word {
        "borrower" => Owner::Borrower,
        _ => Owner::Instance(number(word)),
    }
}

pub(crate) fn scope_of(word: &str) -> Scope {
    match word {
        "application" => Scope::ApplicationScoped,
        "session" => Scope::SessionScoped,
        "request" => Scope::RequestScoped,
        _ => Scope::Dependent,
    }
}

pub(crate) fn held_of(word: &str) -> Held {
    match word {
        "making" => Held::Making,
        _ => Held::Is(number(word)),
    }
}
