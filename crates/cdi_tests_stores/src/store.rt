//! Calls of a store, behind the word `store` and the number of its first instance. The lines are those of the module `lines`. Instances
//! are told by their keys.
//!
//! | Call | What is called | Answer |
//! |---|---|---|
//! | `make BEAN OWNER` | makes an instance of a bean, with no fields | `Ok(..)` with its key, or `Err(..)` |
//! | `free KEY` | takes the instance out of the store | `Ok(())` or `Err(Stale)` |
//! | `hold KEY VALUE` | gives the product its value, a number | the same |
//! | `leave KEY` | the destruction of the instance begins | the same |
//! | `settle KEY` | the instance is ready | the same |
//! | `adopt KEY KEY` | makes the first instance the owner of the second | the same, or `owned` if a live instance owns that |
//! | `release KEY KEY` | takes the second instance out of the dependents of the first | `Ok(())` or `Err(Stale)` |
//! | `next` | the number of the next instance | it |
//! | `length` | how many instances live | the number |
//! | `state KEY` | the phase, the owner and the value of the instance | these, or `Err(Stale)` |
//! | `dependents KEY` | the numbers of its dependents | `Ok(..)` or `Err(Stale)` |
use crate::lines::{Answering, answers_to_lines};
use crate::words::{key_of, number, owner_of};
use cdi_base::{Fields, Value};
use cdi_store::{ChangeError, Component, Instance, Key, MakeError, Owner, Stale, Store};
use std::alloc::{AllocError, Global};

/// Makes an instance with no fields.
fn make(alloc: Global, store: &mut Store, bean: u32, owner: Owner) -> Result<Key, MakeError> {
    store.make(Component::Bean(bean), owner, Fields::new(alloc))
}

fn free(store: &mut Store, key: Key) -> Result<(), Stale> {
    match store.free(key) {
        Ok(_instance) => Ok(()),
        Err(stale) => Err(stale),
    }
}

/// Makes an instance the owner of another, unless a live instance owns that.
fn adopt(store: &mut Store, owner: Key, key: Key) -> Option<Result<(), ChangeError>> {
    match store.owner(key) {
        Ok(Some(_)) => None,
        Ok(None) => Some(store.adopt(owner, key)),
        Err(_) => Some(store.adopt(owner, key)),
    }
}

/// The value that a word is.
fn value_of(word: &str) -> Value {
    Value::Int(i64::from(number(word)))
}

fn push_state(instance: &Instance, text: &mut String) -> Result<(), AllocError> {
    let phase = instance.phase;
    let owner = &instance.owner;
    let value = &instance.value;
    write!(text, "{phase:?} {owner:?} {value:?}")
}

/// Adds what is seen of a live instance.
fn push_instance(store: &Store, key: Key, text: &mut String) -> Result<(), AllocError> {
    match store.instance(key) {
        Ok(instance) => push_state(instance, text),
        Err(stale) => write!(text, "Err({stale:?})"),
    }
}

/// Adds what is seen of a store.
fn push_look(store: &Store, words: &[&str], text: &mut String) -> Result<(), AllocError> {
    match words {
        ["next"] => {
            let next = store.next_number();
            write!(text, "{next:?}")
        }
        ["length"] => {
            let length = store.len();
            write!(text, "{length}")
        }
        ["state", slot, number] => push_instance(store, key_of(slot, number), text),
        ["dependents", slot, number] => {
            let dependents = store.dependents(key_of(slot, number));
            write!(text, "{dependents:?}")
        }
        _ => text.push_str("no such line"),
    }
}

/// Makes a change that needs no memory, and adds what the store answers; other words are those of looks.
fn answer_instance(store: &mut Store, words: &[&str], text: &mut String) -> Result<(), AllocError> {
    let answer = match words {
        ["free", slot, number] => free(store, key_of(slot, number)),
        ["hold", slot, number, value] => store.hold(key_of(slot, number), value_of(value)),
        ["leave", slot, number] => store.leave(key_of(slot, number)),
        ["release", owner_slot, owner, slot, number] => {
            store.release(key_of(owner_slot, owner), key_of(slot, number))
        }
        _ => return push_look(store, words, text),
    };
    write!(text, "{answer:?}")
}

/// Makes a change for which memory may be wanting, and adds what the store answers; other words are those of other changes.
fn answer_joining(store: &mut Store, words: &[&str], text: &mut String) -> Result<(), AllocError> {
    let answer = match words {
        ["settle", slot, number] => Some(store.settle(key_of(slot, number))),
        ["adopt", owner_slot, owner, slot, number] => {
            adopt(store, key_of(owner_slot, owner), key_of(slot, number))
        }
        _ => return answer_instance(store, words, text),
    };
    match answer {
        Some(answer) => write!(text, "{answer:?}"),
        None => text.push_str("owned"),
    }
}

impl Answering for Store {
    fn answer(
        &mut self,
        alloc: Global,
        words: &[&str],
        text: &mut String,
    ) -> Result<(), AllocError> {
        match words {
            ["make", bean, owner] => {
                let made = make(alloc, self, number(bean), owner_of(owner));
                write!(text, "{made:?}")
            }
            _ => answer_joining(self, words, text),
        }
    }
}

/// A store with this first number, or with 1 in place of 0.
fn store_from(alloc: Global, first: u32) -> Store {
    if first == 0 {
        Store::new(alloc)
    } else {
        Store::starting_at(alloc, first)
    }
}

/// What a store with this first number answers to each line.
pub(crate) fn store_answers(alloc: Global, first: u32, input: &str) -> Result<String, AllocError> {
    let mut store = store_from(alloc, first);
    answers_to_lines(alloc, &mut store, input)
}
