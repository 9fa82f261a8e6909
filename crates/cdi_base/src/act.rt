//! What a body does, and what it is answered.
ghost use Rattle.std.specs.Prelude.{◌≡◌, IsOk, IfOk};

use crate::name::Name;
use crate::seq::Seq;
use crate::text::Text;
use crate::uses::Use;
use crate::value::Value;
use std::alloc::AllocError;

/// The reference by which a body reaches another contextual instance.
#[derive(Clone, Copy, Debug, PartialEq, Eq)]
pub enum Via {
    /// An injected field of the body's own instance.
    Field(Name),
    /// An injected parameter of the body's member, counted from 0.
    Param(u32),
    /// The result of a programmatic lookup of the body, counted from 0.
    Local(u32),
}

/// One thing that a body does. A running body gives one act after another, until it gives a value or throws.
#[derive(Debug, PartialEq, Eq, Drop)]
pub enum Act {
    /// Gives a field of the body's own instance another value. Answered by null.
    Set {
        field: Name,
        value: Value,
    },
    /// Calls a business method of the instance behind a reference, through its interceptors
    /// (Jakarta Interceptors 2.1, *Business Method Interceptor Methods*). Answered by its value or exception.
    Call {
        via: Via,
        method: Name,
        args: Seq<Value>,
    },
    /// Calls a method of the body's own instance, without interceptors: a self call is no business method
    /// invocation (Jakarta CDI 4.0, *Container invocations and interception*).
    Own {
        method: Name,
        args: Seq<Value>,
    },
    /// Reads the value that the product behind a reference holds. Answered by the value.
    Read {
        via: Via,
    },
    /// Gives the product behind a reference another value. Answered by null.
    Write {
        via: Via,
        value: Value,
    },
    /// Fires an event (Jakarta CDI 4.0, *Firing events*). Answered by null, or by what an observer threw.
    Fire {
        class: Name,
        qualifiers: Seq<Use>,
        value: Value,
    },
    /// Goes on with the rest of an interceptor chain, with the parameters as they are or with others
    /// (Jakarta Interceptors 2.1, *InvocationContext*). Answered by the value or exception of that rest.
    Proceed {
        args: Option<Seq<Value>>,
    },
    /// Looks a bean up (Jakarta CDI 4.0, *Programmatic lookup*). Answered by the local that holds the reference.
    Find {
        lookup: u32,
    },
    /// Keeps a value in the context data of the invocation (Jakarta Interceptors 2.1, *InvocationContext*).
    Keep {
        key: Name,
        value: Value,
    },
    /// Reads a value of the context data. Answered by it, or by null.
    Peek {
        key: Name,
    },
    /// Destroys the instance behind a local (Jakarta CDI 4.0, *Programmatic lookup*: `Instance.destroy`). Answered by
    /// null.
    Destroy {
        local: u32,
    },
    /// Ends the body with a value.
    Give {
        value: Value,
    },
    /// Ends the body with an exception.
    Throw {
        exception: Name,
    },
}

/// What an act was answered.
#[derive(Debug, PartialEq, Eq, Drop)]
pub enum Answer {
    /// A value, or null where the act has none.
    Done(Value),
    /// An exception: its class, and the text of that.
    Threw { exception: Name, text: Text },
    /// The local that now holds a reference.
    Found(u32),
}

impl Clone for Act {
    ghost use Rattle.std.specs.Prelude.{IsTrue};
    ghost use Rattle.cdi_base.specs.Plain.{is_plain_act};

    ghost is_clone = { λ act copy. copy ≡ act };

    ghost is_infallible = { λ act. IsTrue (is_plain_act act) };

    #[tactic(auto, using(crate::proofs::Clones::same_items))]
    fn clone(&self) -> Result<Act, AllocError> {
        Ok(match self {
            Act::Set { field, value } => Act::Set {
                field: *field,
                value: value.clone()?,
            },
            Act::Call { via, method, args } => Act::Call {
                via: *via,
                method: *method,
                args: args.clone()?,
            },
            Act::Own { method, args } => Act::Own {
                method: *method,
                args: args.clone()?,
            },
            Act::Read { via } => Act::Read { via: *via },
            Act::Write { via, value } => Act::Write {
                via: *via,
                value: value.clone()?,
            },
            Act::Fire {
                class,
                qualifiers,
                value,
            } => Act::Fire {
                class: *class,
                qualifiers: qualifiers.clone()?,
                value: value.clone()?,
            },
            Act::Proceed { args } => Act::Proceed {
                args: clone_of(args)?,
            },
            Act::Find { lookup } => Act::Find { lookup: *lookup },
            Act::Keep { key, value } => Act::Keep {
                key: *key,
                value: value.clone()?,
            },
            Act::Peek { key } => Act::Peek { key: *key },
            Act::Destroy { local } => Act::Destroy { local: *local },
            Act::Give { value } => Act::Give {
                value: value.clone()?,
            },
            Act::Throw { exception } => Act::Throw {
                exception: *exception,
            },
        })
    }
}

impl Clone for Answer {
    ghost use Rattle.std.specs.Prelude.{IsTrue};
    ghost use Rattle.cdi_base.specs.Plain.{is_plain_answer};

    ghost is_clone = { λ answer copy. copy ≡ answer };

    ghost is_infallible = { λ answer. IsTrue (is_plain_answer answer) };

    fn clone(&self) -> Result<Answer, AllocError> {
        Ok(match self {
            Answer::Done(value) => Answer::Done(value.clone()?),
            Answer::Threw { exception, text } => Answer::Threw {
                exception: *exception,
                text: text.clone()?,
            },
            Answer::Found(local) => Answer::Found(*local),
        })
    }
}

#[tactic(auto, using(crate::proofs::Clones::same_items))]
fn clone_of(args: &Option<Seq<Value>>) -> Result<Option<Seq<Value>>, AllocError>
    ensures copied { IfOk result (λ copy. copy ≡ args.now) }
    ensures none { args.now ≡ None → IsOk result }
{
    match args {
        Some(args) => Ok(Some(args.clone()?)),
        None => Ok(None),
    }
}
