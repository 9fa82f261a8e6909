//! What is told of a name that isn't known.
ghost use Rattle.std.specs.Prelude.{◌≡◌, ◌++◌, map, option_map, string_bytes, IfOk, OnOk};
ghost use Rattle.cdi_deployment.specs.Lists.{is_declared_class as is_class_in};
ghost use Rattle.cdi_base.specs.Near.{nearest};
ghost use Rattle.cdi_problem_hints.specs.Sentences as spec;
ghost use Rattle.cdi_problems.specs.Elements.{element_of};
ghost use Rattle.cdi_problems.specs.Places.{name_text as text_in};

use cdi_base::{BuiltIn, Name, Names, nearest};
use cdi_deployment::{Class, Deployment};
use cdi_name_uses::{Annotation, Group, NameUse, group_names};
use cdi_problems::{Element, name_text};
use std::alloc::{AllocError, Global};

fn texts_of<'a>(alloc: Global, names: &'a Names, known: &[Name]) -> Result<Vec<&'a str>, AllocError>
    ensures { IfOk result (λ texts.
        map (λ text. text.now) texts.items ≡ map (text_in names.now) known.now) }
{
    let mut texts = Vec::new(alloc);
    for name in known {
        texts.push(name_text(names, *name))?;
    }
    Ok(texts)
}

/// The known name that was probably meant.
fn meant<'a>(
    alloc: Global,
    names: &'a Names,
    known: &[Name],
    name: Name,
) -> Result<Option<&'a str>, AllocError>
    ensures { IfOk result (λ text.
        option_map (λ t. t.now) text ≡ spec.meant names.now known.now name) }
{
    let texts = texts_of(alloc, names, known)?;
    Ok(nearest(name_text(names, name), texts.as_slice()))
}

/// What is told of the known name that was probably meant, if there is one.
pub(crate) fn suggestion(
    alloc: Global,
    names: &Names,
    known: &[Name],
    name: Name,
) -> Result<String, AllocError>
    ensures { IfOk result (λ text.
        string_bytes text ≡ spec.suggestion (spec.meant names.now known.now name)) }
{
    match meant(alloc, names, known, name)? {
        Some(near) => format!(in alloc; " (did you mean {near}?)"),
        None => Ok(String::new(alloc)),
    }
}

fn group_word(group: Group) -> &'static str
    ensures { result.now ≡ spec.group_word group }
{
    match group {
        Group::Superclass | Group::BeanClass => "class",
        Group::Interface => "interface",
        Group::Type => "type",
        Group::Annotation(Annotation::Binding) => "binding",
        Group::Annotation(_) => "qualifier",
        Group::MemberOf(_, _) | Group::OwnMember => "member",
        Group::OwnField => "field",
        Group::Interceptor => "interceptor",
        Group::Script => "script",
    }
}

fn is_declared_class(classes: &[Class], name: Name) -> bool
    ensures { result ≡ is_class_in classes.now name }
{
    classes.iter().any(|class| class.name == name)
}

/// What is wrong with a name that isn't known.
fn fault_word(deployment: &Deployment, used: &NameUse) -> &'static str
    ensures { result.now ≡ spec.fault_word deployment.now used.now }
{
    let classes = deployment.classes.as_slice();
    match used.group {
        Group::Superclass if is_declared_class(classes, used.name) => "is final",
        Group::BeanClass if is_declared_class(classes, used.name) => "is no bean",
        Group::Annotation(Annotation::EventQualifier) if used.name == BuiltIn::Default.name() => {
            "is none of an event"
        }
        Group::MemberOf(_, _) => "isn't one of ",
        _ => "isn't declared",
    }
}

/// The name of the annotation of which a name has to be a member.
fn owner_text<'a>(names: &'a Names, group: Group) -> &'a str
    ensures { result.now ≡ spec.owner_text names.now group }
{
    match group {
        Group::MemberOf(_, name) => name_text(names, name),
        _ => "",
    }
}

fn add_sentence(
    alloc: Global,
    deployment: &Deployment,
    element: &Element<'_>,
    used: &NameUse,
    hint: &mut String,
) -> Result<(), AllocError>
    ensures { OnOk result (string_bytes hint.new ≡ string_bytes hint.old
        ++ spec.sentence deployment.now (element_of element.now) used.now) }
{
    let names = &deployment.names;
    let group = group_word(used.group);
    let name = name_text(names, used.name);
    let fault = fault_word(deployment, used);
    let owner = owner_text(names, used.group);
    let known = group_names(alloc, deployment, element, used.group)?;
    let suggestion = suggestion(alloc, names, known.as_slice(), used.name)?;
    let sentence = format!(in alloc; "; the {group} {name} {fault}{owner}{suggestion}")?;
    hint.push_str(&sentence)
}

/// Adds what is told of names that an element uses and that aren't known.
pub(crate) fn add_sentences(
    alloc: Global,
    deployment: &Deployment,
    element: &Element<'_>,
    unknown: &[NameUse],
    hint: &mut String,
) -> Result<(), AllocError>
    ensures { OnOk result (string_bytes hint.new ≡ string_bytes hint.old
        ++ spec.sentences deployment.now (element_of element.now) unknown.now) }
{
    for used in unknown {
        add_sentence(alloc, deployment, element, used, hint)?;
    }
    Ok(())
}
