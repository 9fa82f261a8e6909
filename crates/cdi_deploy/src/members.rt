//! What the members of a class stand for.
ghost use Rattle.std.specs.Prelude.{◌≡◌, IfOk};
ghost use Rattle.serde_json.specs.View.{view};
ghost use Rattle.cdi_deploy.specs.Items as spec;
ghost use Rattle.cdi_deploy.specs.Items.{method_in, initializer_in, callback_in, producer_in, producer_field_in, disposer_in, observer_in, member_in};

use crate::items::{Item, each_at, maybe_at, name_at};
use crate::parts::{count_at, mark_at, scope_at, text_at, whole_number_at};
use cdi_base::{Name, Names, Seq, Use};
use cdi_deployment::{
    Callback, Disposer, Initializer, Member, Method, Observer, Point, ProducerField, ProducerMethod,
};
use cdi_form::Kind;
use cdi_form::words::member_kind;
use serde_json::Value as Json;
use std::alloc::{AllocError, Global};

impl Item for Method {
    ghost form = { method_in };

    #[tactic(auto, unfolding(crate::specs::Items::method_in))]
    fn read(alloc: Global, names: &Names, value: &Json) -> Result<Method, AllocError> {
        Ok(Method {
            name: name_at(names, value, "name"),
            body: name_at(names, value, "body"),
            args: count_at(value, "args"),
            bindings: each_at::<Use>(alloc, names, value, "bindings")?,
        })
    }
}

impl Item for Initializer {
    ghost form = { initializer_in };

    #[tactic(auto, unfolding(crate::specs::Items::initializer_in))]
    fn read(alloc: Global, names: &Names, value: &Json) -> Result<Initializer, AllocError> {
        Ok(Initializer {
            name: name_at(names, value, "name"),
            body: name_at(names, value, "body"),
            params: each_at::<Point>(alloc, names, value, "params")?,
        })
    }
}

impl Item for Callback {
    ghost form = { callback_in };

    #[tactic(auto, unfolding(crate::specs::Items::callback_in))]
    fn read(_alloc: Global, names: &Names, value: &Json) -> Result<Callback, AllocError> {
        Ok(Callback {
            name: name_at(names, value, "name"),
            body: name_at(names, value, "body"),
        })
    }
}

impl Item for ProducerMethod {
    ghost form = { producer_in };

    #[tactic(auto, unfolding(crate::specs::Items::producer_in))]
    fn read(alloc: Global, names: &Names, value: &Json) -> Result<ProducerMethod, AllocError> {
        Ok(ProducerMethod {
            name: name_at(names, value, "name"),
            body: name_at(names, value, "body"),
            ty: name_at(names, value, "type"),
            quals: each_at::<Use>(alloc, names, value, "quals")?,
            typed: maybe_at::<Seq<Name>>(alloc, names, value, "typed")?,
            scope: scope_at(value, "scope"),
            params: each_at::<Point>(alloc, names, value, "params")?,
            bindings: each_at::<Use>(alloc, names, value, "bindings")?,
        })
    }
}

impl Item for ProducerField {
    ghost form = { producer_field_in };

    #[tactic(auto, unfolding(crate::specs::Items::producer_field_in))]
    fn read(alloc: Global, names: &Names, value: &Json) -> Result<ProducerField, AllocError> {
        Ok(ProducerField {
            name: name_at(names, value, "name"),
            field: name_at(names, value, "field"),
            ty: name_at(names, value, "type"),
            quals: each_at::<Use>(alloc, names, value, "quals")?,
            typed: maybe_at::<Seq<Name>>(alloc, names, value, "typed")?,
            scope: scope_at(value, "scope"),
        })
    }
}

impl Item for Disposer {
    ghost form = { disposer_in };

    #[tactic(auto, unfolding(crate::specs::Items::disposer_in))]
    fn read(alloc: Global, names: &Names, value: &Json) -> Result<Disposer, AllocError> {
        Ok(Disposer {
            name: name_at(names, value, "name"),
            body: name_at(names, value, "body"),
            ty: name_at(names, value, "type"),
            quals: each_at::<Use>(alloc, names, value, "quals")?,
            params: each_at::<Point>(alloc, names, value, "params")?,
            bindings: each_at::<Use>(alloc, names, value, "bindings")?,
        })
    }
}

impl Item for Observer {
    ghost form = { observer_in };

    #[tactic(auto, unfolding(crate::specs::Items::observer_in))]
    fn read(alloc: Global, names: &Names, value: &Json) -> Result<Observer, AllocError> {
        Ok(Observer {
            name: name_at(names, value, "name"),
            body: name_at(names, value, "body"),
            ty: name_at(names, value, "type"),
            quals: each_at::<Use>(alloc, names, value, "quals")?,
            params: each_at::<Point>(alloc, names, value, "params")?,
            priority: whole_number_at(value, "priority"),
            if_exists: mark_at(value, "if_exists"),
            bindings: each_at::<Use>(alloc, names, value, "bindings")?,
        })
    }
}

/// A member of the kind that it names.
#[tactic(auto, unfolding(crate::specs::Items::member_of))]
fn member_of(
    alloc: Global,
    kind: Option<Kind>,
    names: &Names,
    value: &Json,
) -> Result<Member, AllocError>
    ensures { IfOk result (λ member. member ≡ spec.member_of kind names.now (view value.now)) }
{
    let Some(kind) = kind else {
        return Ok(Member::Method(Method::read(alloc, names, value)?));
    };
    Ok(match kind {
        Kind::Initializer => Member::Initializer(Initializer::read(alloc, names, value)?),
        Kind::PostConstruct => Member::PostConstruct(Callback::read(alloc, names, value)?),
        Kind::PreDestroy => Member::PreDestroy(Callback::read(alloc, names, value)?),
        Kind::Producer => Member::Producer(ProducerMethod::read(alloc, names, value)?),
        Kind::ProducerField => Member::ProducerField(ProducerField::read(alloc, names, value)?),
        Kind::Disposer => Member::Disposer(Disposer::read(alloc, names, value)?),
        Kind::Observer => Member::Observer(Observer::read(alloc, names, value)?),
        _ => Member::Method(Method::read(alloc, names, value)?),
    })
}

impl Item for Member {
    ghost form = { member_in };

    fn read(alloc: Global, names: &Names, value: &Json) -> Result<Member, AllocError> {
        member_of(alloc, member_kind(text_at(value, "kind")), names, value)
    }
}
