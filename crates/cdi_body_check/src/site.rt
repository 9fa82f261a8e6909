//! What names a body.
ghost use Rattle.std.specs.Prelude.{◌≡◌, ◌++◌, OnOk, IfOk, option_map};
ghost use Rattle.std.specs.List.{flat_map};
ghost use Rattle.std.specs.Option.{option_copied};
ghost use Rattle.cdi_body_check.specs.Sites as spec;

use cdi_base::{InterceptorMethod, Name, Place};
use cdi_deployment::{Class, Constructor, Deployment, Interceptor, Member, Point};
use cdi_live::LiveTables;
use std::alloc::{AllocError, Global};

/// Something that has a body, with the body's name.
#[derive(Clone, Copy)]
pub enum BodySite<'a> {
    /// A constructor that has one.
    Constructor {
        class: &'a Class,
        constructor: &'a Constructor,
        body: &'a Name,
    },
    /// A member, with the class that declares it. All have one but producer fields.
    Member {
        class: &'a Class,
        member: &'a Member,
        body: &'a Name,
    },
    /// A method that an interceptor has.
    InterceptorMethod {
        interceptor: &'a Interceptor,
        method: InterceptorMethod,
        body: &'a Name,
    },
}

fn member_body(member: &Member) -> Option<&Name>
    ensures { option_copied result ≡ spec.member_body member.now }
{
    match member {
        Member::Method(method) => Some(&method.body),
        Member::Initializer(initializer) => Some(&initializer.body),
        Member::PostConstruct(callback) => Some(&callback.body),
        Member::PreDestroy(callback) => Some(&callback.body),
        Member::Producer(producer) => Some(&producer.body),
        Member::ProducerField(_) => None,
        Member::Disposer(disposer) => Some(&disposer.body),
        Member::Observer(observer) => Some(&observer.body),
    }
}

fn method_body(interceptor: &Interceptor, method: InterceptorMethod) -> Option<&Name>
    ensures { option_copied result ≡ spec.method_body interceptor.now method }
{
    match method {
        InterceptorMethod::AroundInvoke => interceptor.invoke.as_ref(),
        InterceptorMethod::AroundConstruct => interceptor.construct.as_ref(),
        InterceptorMethod::PostConstruct => interceptor.post.as_ref(),
        InterceptorMethod::PreDestroy => interceptor.pre.as_ref(),
    }
}

/// The site of a constructor that has a body.
fn constructor_site<'a>(class: &'a Class, constructor: &'a Constructor) -> Option<BodySite<'a>>
    ensures { option_map spec.site_of result ≡ spec.constructor_site class.now constructor.now }
{
    let body = constructor.body.as_ref()?;
    Some(BodySite::Constructor {
        class,
        constructor,
        body,
    })
}

/// The site of a member that has a body.
fn member_site<'a>(class: &'a Class, member: &'a Member) -> Option<BodySite<'a>>
    ensures { option_map spec.site_of result ≡ spec.member_site class.now member.now }
{
    let body = member_body(member)?;
    Some(BodySite::Member {
        class,
        member,
        body,
    })
}

fn add_constructor<'a>(class: &'a Class, sites: &mut Vec<BodySite<'a>>) -> Result<(), AllocError>
    ensures { OnOk result (spec.shown sites.new.items
        ≡ spec.shown sites.old.items ++ spec.constructor_sites class.now) }
{
    if let Some(constructor) = &class.constructor {
        if let Some(site) = constructor_site(class, constructor) {
            sites.push(site)?;
        }
    }
    Ok(())
}

fn add_members<'a>(class: &'a Class, sites: &mut Vec<BodySite<'a>>) -> Result<(), AllocError>
    ensures { OnOk result (spec.shown sites.new.items
        ≡ spec.shown sites.old.items ++ spec.member_sites class.now) }
{
    for member in class.members.as_slice() {
        if let Some(site) = member_site(class, member) {
            sites.push(site)?;
        }
    }
    Ok(())
}

/// Adds the sites of a class.
pub fn add_class_sites<'a>(
    class: &'a Class,
    sites: &mut Vec<BodySite<'a>>,
) -> Result<(), AllocError>
    ensures { OnOk result (spec.shown sites.new.items
        ≡ spec.shown sites.old.items ++ spec.class_sites class.now) }
{
    add_constructor(class, sites)?;
    add_members(class, sites)
}

fn add_method<'a>(
    interceptor: &'a Interceptor,
    method: InterceptorMethod,
    sites: &mut Vec<BodySite<'a>>,
) -> Result<(), AllocError>
    ensures { OnOk result (spec.shown sites.new.items
        ≡ spec.shown sites.old.items ++ spec.method_sites interceptor.now method) }
{
    if let Some(body) = method_body(interceptor, method) {
        sites.push(BodySite::InterceptorMethod {
            interceptor,
            method,
            body,
        })?;
    }
    Ok(())
}

/// Adds the sites of an interceptor.
pub fn add_interceptor_sites<'a>(
    interceptor: &'a Interceptor,
    sites: &mut Vec<BodySite<'a>>,
) -> Result<(), AllocError>
    ensures { OnOk result (spec.shown sites.new.items
        ≡ spec.shown sites.old.items ++ spec.interceptor_sites interceptor.now) }
{
    add_method(interceptor, InterceptorMethod::AroundInvoke, sites)?;
    add_method(interceptor, InterceptorMethod::AroundConstruct, sites)?;
    add_method(interceptor, InterceptorMethod::PostConstruct, sites)?;
    add_method(interceptor, InterceptorMethod::PreDestroy, sites)
}

fn add_of_classes<'a>(classes: &'a [Class], sites: &mut Vec<BodySite<'a>>) -> Result<(), AllocError>
    ensures { OnOk result (spec.shown sites.new.items
        ≡ spec.shown sites.old.items ++ flat_map spec.class_sites classes.now) }
{
    for class in classes {
        add_class_sites(class, sites)?;
    }
    Ok(())
}

fn add_of_interceptors<'a>(
    interceptors: &'a [Interceptor],
    sites: &mut Vec<BodySite<'a>>,
) -> Result<(), AllocError>
    ensures { OnOk result (spec.shown sites.new.items
        ≡ spec.shown sites.old.items ++ flat_map spec.interceptor_sites interceptors.now) }
{
    for interceptor in interceptors {
        add_interceptor_sites(interceptor, sites)?;
    }
    Ok(())
}

/// All that has a body in a deployment, in the order of places: class by class the constructor and the members, and interceptor by
/// interceptor its methods, around-invoke, around-construct, post-construct and pre-destroy.
pub fn sites_of(alloc: Global, deployment: &Deployment) -> Result<Vec<BodySite<'_>>, AllocError>
    ensures { IfOk result (λ sites. spec.shown sites.items ≡ spec.sites_of deployment.now) }
{
    let mut sites = Vec::new(alloc);
    add_of_classes(deployment.classes.as_slice(), &mut sites)?;
    add_of_interceptors(deployment.interceptors.as_slice(), &mut sites)?;
    Ok(sites)
}

impl<'a> BodySite<'a> {
    /// The name of the body.
    pub fn body(&self) -> Name
        ensures { result ≡ spec.body_of (spec.site_of self.now) }
    {
        match self {
            BodySite::Constructor { body, .. } => **body,
            BodySite::Member { body, .. } => **body,
            BodySite::InterceptorMethod { body, .. } => **body,
        }
    }

    /// The place by which problems tell the site.
    pub fn place(&self) -> Place
        ensures { result ≡ spec.place_of (spec.site_of self.now) }
    {
        match self {
            BodySite::Constructor { class, .. } => Place::Constructor(class.name),
            BodySite::Member { class, member, .. } => Place::Member {
                class: class.name,
                member: member.name(),
            },
            BodySite::InterceptorMethod {
                interceptor,
                method,
                ..
            } => Place::Interceptor {
                interceptor: interceptor.name,
                method: *method,
            },
        }
    }

    /// Its injected parameters (Jakarta CDI 4.0, *Injection points*). Those of a business method are values, and a callback or an
    /// interceptor's method has none.
    pub fn params(&self) -> &'a [Point]
        ensures { result.now ≡ spec.params_of (spec.site_of self.now) }
    {
        match self {
            BodySite::Constructor { constructor, .. } => constructor.params.as_slice(),
            BodySite::Member { member, .. } => member.params(),
            BodySite::InterceptorMethod { .. } => &[],
        }
    }

    /// Whether it is live: the constructor of the class of an enabled bean, a member that an enabled bean has, or a method of an
    /// enabled interceptor.
    pub fn is_live(&self, live: &LiveTables<'_>) -> bool
        ensures { result ≡ spec.is_live live.now (spec.site_of self.now) }
    {
        match self {
            BodySite::Constructor { class, .. } => live.has_bean(class.name),
            BodySite::Member { class, member, .. } => { live.has_member(class.name, member.name()) }
            BodySite::InterceptorMethod { interceptor, .. } => {
                live.has_interceptor(interceptor.name)
            }
        }
    }

    /// Whether it is a method of an interceptor.
    pub fn is_interceptor_method(&self) -> bool
        ensures { result ≡ spec.is_interceptor_method (spec.site_of self.now) }
    {
        matches!(self, BodySite::InterceptorMethod { .. })
    }

    /// Whether it is a post-construct or pre-destroy callback, of a class or of an interceptor (Jakarta Interceptors 2.1, *Interceptor
    /// Methods for Lifecycle Event Callbacks*).
    pub fn is_callback(&self) -> bool
        ensures { result ≡ spec.is_callback (spec.site_of self.now) }
    {
        match self {
            BodySite::Constructor { .. } => false,
            BodySite::Member { member, .. } => {
                matches!(member, Member::PostConstruct(_) | Member::PreDestroy(_))
            }
            BodySite::InterceptorMethod { method, .. } => matches!(
                method,
                InterceptorMethod::PostConstruct | InterceptorMethod::PreDestroy
            ),
        }
    }
}
