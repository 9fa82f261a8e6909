//! What the objects of a deployment stand for, but for the members of classes.
ghost use Rattle.std.specs.Prelude.{◌≡◌, IfOk};
ghost use Rattle.serde_json.specs.View.{view};
ghost use Rattle.cdi_deploy.specs.Items as spec;
ghost use Rattle.cdi_deploy.specs.Items.{interface_in, annotation_type_in, exception_in, bean_in, field_in, injected_field_in, point_in, constructor_in, interceptor_in, class_in, script_in};

use crate::items::{Item, each_at, maybe_at, name_at};
use crate::parts::{mark_at, scope_at, steps_at, value_at, whole_number_at};
use cdi_base::{Name, Names, Seq, Use};
use cdi_deployment::{
    AnnotationType, Bean, Class, Constructor, Deployment, Exception, Field, InjectedField,
    Interceptor, Interface, Member, Point, Script,
};
use serde_json::Value as Json;
use std::alloc::{AllocError, Global};

impl Item for Interface {
    ghost form = { interface_in };

    #[tactic(auto, unfolding(crate::specs::Items::interface_in))]
    fn read(alloc: Global, names: &Names, value: &Json) -> Result<Interface, AllocError> {
        Ok(Interface {
            name: name_at(names, value, "name"),
            extends: each_at::<Name>(alloc, names, value, "extends")?,
        })
    }
}

impl Item for AnnotationType {
    ghost form = { annotation_type_in };

    #[tactic(auto, unfolding(crate::specs::Items::annotation_type_in))]
    fn read(alloc: Global, names: &Names, value: &Json) -> Result<AnnotationType, AllocError> {
        Ok(AnnotationType {
            name: name_at(names, value, "name"),
            members: each_at::<Name>(alloc, names, value, "members")?,
            nonbinding: each_at::<Name>(alloc, names, value, "nonbinding")?,
        })
    }
}

impl Item for Exception {
    ghost form = { exception_in };

    #[tactic(auto, unfolding(crate::specs::Items::exception_in))]
    fn read(_alloc: Global, names: &Names, value: &Json) -> Result<Exception, AllocError> {
        Ok(Exception {
            name: name_at(names, value, "name"),
            checked: mark_at(value, "checked"),
        })
    }
}

impl Item for Bean {
    ghost form = { bean_in };

    #[tactic(auto, unfolding(crate::specs::Items::bean_in))]
    fn read(alloc: Global, names: &Names, value: &Json) -> Result<Bean, AllocError> {
        Ok(Bean {
            scope: scope_at(value, "scope"),
            quals: each_at::<Use>(alloc, names, value, "quals")?,
            typed: maybe_at::<Seq<Name>>(alloc, names, value, "typed")?,
            alternative: mark_at(value, "alternative"),
            priority: whole_number_at(value, "priority"),
            specializes: mark_at(value, "specializes"),
        })
    }
}

impl Item for Field {
    ghost form = { field_in };

    #[tactic(auto, unfolding(crate::specs::Items::field_in))]
    fn read(alloc: Global, names: &Names, value: &Json) -> Result<Field, AllocError> {
        Ok(Field {
            name: name_at(names, value, "name"),
            value: value_at(alloc, value, "value")?,
        })
    }
}

impl Item for InjectedField {
    ghost form = { injected_field_in };

    #[tactic(auto, unfolding(crate::specs::Items::injected_field_in))]
    fn read(alloc: Global, names: &Names, value: &Json) -> Result<InjectedField, AllocError> {
        Ok(InjectedField {
            name: name_at(names, value, "name"),
            ty: name_at(names, value, "type"),
            quals: each_at::<Use>(alloc, names, value, "quals")?,
        })
    }
}

impl Item for Point {
    ghost form = { point_in };

    #[tactic(auto, unfolding(crate::specs::Items::point_in))]
    fn read(alloc: Global, names: &Names, value: &Json) -> Result<Point, AllocError> {
        Ok(Point {
            ty: name_at(names, value, "type"),
            quals: each_at::<Use>(alloc, names, value, "quals")?,
        })
    }
}

impl Item for Constructor {
    ghost form = { constructor_in };

    #[tactic(auto, unfolding(crate::specs::Items::constructor_in))]
    fn read(alloc: Global, names: &Names, value: &Json) -> Result<Constructor, AllocError> {
        Ok(Constructor {
            params: each_at::<Point>(alloc, names, value, "params")?,
            body: maybe_at::<Name>(alloc, names, value, "body")?,
        })
    }
}

impl Item for Interceptor {
    ghost form = { interceptor_in };

    #[tactic(auto, unfolding(crate::specs::Items::interceptor_in))]
    fn read(alloc: Global, names: &Names, value: &Json) -> Result<Interceptor, AllocError> {
        Ok(Interceptor {
            name: name_at(names, value, "name"),
            bindings: each_at::<Use>(alloc, names, value, "bindings")?,
            priority: whole_number_at(value, "priority"),
            fields: each_at::<Field>(alloc, names, value, "fields")?,
            inject: each_at::<InjectedField>(alloc, names, value, "inject")?,
            invoke: maybe_at::<Name>(alloc, names, value, "invoke")?,
            construct: maybe_at::<Name>(alloc, names, value, "construct")?,
            post: maybe_at::<Name>(alloc, names, value, "post")?,
            pre: maybe_at::<Name>(alloc, names, value, "pre")?,
        })
    }
}

impl Item for Class {
    ghost form = { class_in };

    #[tactic(auto, unfolding(crate::specs::Items::class_in))]
    fn read(alloc: Global, names: &Names, value: &Json) -> Result<Class, AllocError> {
        Ok(Class {
            name: name_at(names, value, "name"),
            extends: maybe_at::<Name>(alloc, names, value, "extends")?,
            implements: each_at::<Name>(alloc, names, value, "implements")?,
            is_abstract: mark_at(value, "abstract"),
            is_final: mark_at(value, "final"),
            bindings: each_at::<Use>(alloc, names, value, "bindings")?,
            bean: maybe_at::<Bean>(alloc, names, value, "bean")?,
            fields: each_at::<Field>(alloc, names, value, "fields")?,
            inject: each_at::<InjectedField>(alloc, names, value, "inject")?,
            constructor: maybe_at::<Constructor>(alloc, names, value, "constructor")?,
            members: each_at::<Member>(alloc, names, value, "members")?,
        })
    }
}

impl Item for Script {
    ghost form = { script_in };

    #[tactic(auto, unfolding(crate::specs::Items::script_in))]
    fn read(_alloc: Global, names: &Names, value: &Json) -> Result<Script, AllocError> {
        Ok(Script {
            name: name_at(names, value, "name"),
            steps: steps_at(value, "steps")?,
        })
    }
}

/// The lists of a deployment whose names all stand in a table.
#[tactic(auto, unfolding(crate::specs::Items::lists_in))]
pub(crate) fn lists_in(alloc: Global, names: Names, value: &Json) -> Result<Deployment, AllocError>
    ensures { IfOk result (λ d. d ≡ spec.lists_in names (view value.now)) }
{
    let interfaces = each_at::<Interface>(alloc, &names, value, "interfaces")?;
    let qualifiers = each_at::<AnnotationType>(alloc, &names, value, "qualifiers")?;
    let bindings = each_at::<AnnotationType>(alloc, &names, value, "bindings")?;
    let exceptions = each_at::<Exception>(alloc, &names, value, "exceptions")?;
    let classes = each_at::<Class>(alloc, &names, value, "classes")?;
    let interceptors = each_at::<Interceptor>(alloc, &names, value, "interceptors")?;
    let selected = each_at::<Name>(alloc, &names, value, "selected")?;
    let order = each_at::<Name>(alloc, &names, value, "order")?;
    let scripts = each_at::<Script>(alloc, &names, value, "scripts")?;
    Ok(Deployment {
        names,
        interfaces,
        qualifiers,
        bindings,
        exceptions,
        classes,
        interceptors,
        selected,
        order,
        scripts,
    })
}
