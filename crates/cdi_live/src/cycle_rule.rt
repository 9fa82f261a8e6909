//! Where dependent beans and interceptors need themselves.
ghost use Rattle.std.specs.Prelude.{◌≡◌, ◌&&◌, ◌||◌, ◌==◌, ℕ, IfOk, OnOk};
ghost use Rattle.std.specs.HashSet.{contains};
ghost use Rattle.std.specs.List.{enumerate_from, list_any};
ghost use Rattle.cdi_live.specs.Cycles as spec;
ghost use Rattle.cdi_live.specs.Settings.{setting_of};
ghost use Rattle.cdi_resolve.specs.Filters.{is_bean_of};
ghost use Rattle.cdi_name_check.specs.NameSets.{HasPairs, same_pair};
ghost use Rattle.cdi_problems.specs.Elements.{shown};
ghost use Rattle.cdi_problems.specs.Findings.{ArePlacesOf};

use crate::cycles::NeedyFlags;
use crate::deployment_tables::DeploymentTables;
use crate::live_tables::LiveTables;
use crate::needs::product_name;
use cdi_base::{Name, Place, Seq};
use cdi_beans::EnabledInterceptor;
use cdi_problems::{Element, Rule, places_where};
use cdi_resolve::EnabledBean;
use std::alloc::{AllocError, Global};
use std::collections::HashSet;

/// An enabled dependent bean or interceptor needs itself. It stands at the class, the producer or the interceptor.
#[derive(Clone, Copy)]
struct FlaggedCycle<'a> {
    live: &'a LiveTables<'a>,
    flags: &'a NeedyFlags,
    /// The producers whose products need themselves, by their classes and their names, so that a member's question takes constant time.
    products: &'a HashSet<(Name, Name)>,
    ghost products_are: { HasPairs (spec.has_needy_product flags.now live.now.beans) products.now },
}

/// What a list of flags says of an index.
fn has_flag(flags: &[bool], index: usize) -> bool
    ensures { result ≡ spec.flag flags.now index }
{
    match flags.get(index) {
        Some(flag) => *flag,
        None => false,
    }
}

/// Whether a bean is a managed one of a class, and needs itself.
fn is_needy_bean(flags: &NeedyFlags, class: Name, bean: &EnabledBean<'_>) -> bool
    ensures { result ≡ (is_bean_of class bean.now && spec.flag flags.now.beans bean.now.0) }
{
    bean.is_of(class) && has_flag(flags.beans.as_slice(), bean.index())
}

/// Adds the producer of a bean, if the bean is a product and needs itself.
fn add_needy_product(
    flags: &NeedyFlags,
    bean: &EnabledBean<'_>,
    set: &mut HashSet<(Name, Name)>,
) -> Result<(), AllocError>
    ensures { OnOk result ((class name : ℕ) → contains same_pair set.new (class, name)
        ≡ (contains same_pair set.old (class, name)
        || spec.is_needy_product flags.now class name bean.now)) }
{
    let Some(name) = product_name(bean.bean().kind) else {
        return Ok(());
    };
    if !has_flag(flags.beans.as_slice(), bean.index()) {
        return Ok(());
    }
    set.insert((bean.bean().class, name))?;
    Ok(())
}

/// The producers of those beans that are products and need themselves, by their classes and their names.
fn needy_products(
    alloc: Global,
    flags: &NeedyFlags,
    beans: &[EnabledBean<'_>],
) -> Result<HashSet<(Name, Name)>, AllocError>
    ensures { IfOk result (HasPairs (spec.has_needy_product flags.now beans.now)) }
{
    let mut set = HashSet::new(alloc);
    for bean in beans {
        add_needy_product(flags, bean, &mut set)?;
    }
    Ok(set)
}

/// Whether an interceptor has a name, and needs itself.
fn is_needy_interceptor(
    flags: &NeedyFlags,
    name: Name,
    place: usize,
    interceptor: &EnabledInterceptor,
) -> bool
    ensures { result
        ≡ ((interceptor.now.name == name) && spec.flag flags.now.interceptors place) }
{
    interceptor.name == name && has_flag(flags.interceptors.as_slice(), place)
}

/// Whether an enabled managed bean of a class needs itself.
fn has_needy_bean(flags: &NeedyFlags, beans: &[EnabledBean<'_>], class: Name) -> bool
    ensures { result ≡ list_any
        (λ b. is_bean_of class b && spec.flag flags.now.beans b.0) beans.now }
{
    beans.iter().any(|bean| is_needy_bean(flags, class, bean))
}

/// Whether an enabled interceptor with a name needs itself.
fn has_needy_interceptor(
    flags: &NeedyFlags,
    interceptors: &[EnabledInterceptor],
    name: Name,
) -> bool
    ensures { result ≡ list_any
        (λ k. (k.1.name == name) && spec.flag flags.now.interceptors k.0)
        (enumerate_from 0 interceptors.now) }
{
    interceptors.iter().enumerate().any(|(place, interceptor)| is_needy_interceptor(
        flags,
        name,
        place,
        interceptor,
    ))
}

impl Rule for FlaggedCycle<'_> {
    ghost use Rattle.cdi_live.specs.Cycles.{HasFlaggedCycle};

    ghost holds_at = { λ rule e. HasFlaggedCycle rule.live.now rule.flags.now e };

    fn holds(&self, element: &Element<'_>) -> bool {
        match element {
            Element::Class { class, .. } => {
                has_needy_bean(self.flags, self.live.beans(), class.name)
            }
            Element::Member { class, member, .. } => {
                self.products.contains(&(class.name, member.name()))
            }
            Element::Interceptor { interceptor, .. } => {
                has_needy_interceptor(self.flags, self.live.interceptors(), interceptor.name)
            }
            _ => false,
        }
    }
}

/// The places of those elements of a deployment that are enabled dependent beans, or enabled interceptors, and need themselves, directly
/// or through others (Jakarta CDI 4.0, *Dependent pseudo-scope*): each is a class, a producer or an interceptor.
pub fn dependent_cycles(
    alloc: Global,
    tables: &DeploymentTables<'_>,
    elements: &[Element<'_>],
) -> Result<Seq<Place>, AllocError>
    ensures { IfOk result
        (ArePlacesOf (spec.HasDependentCycle (setting_of tables.now)) (shown elements.now)) }
{
    let flags = NeedyFlags::build(alloc, tables)?;
    let products = needy_products(alloc, &flags, tables.live.beans())?;
    let rule = FlaggedCycle {
        live: tables.live,
        flags: &flags,
        products: &products,
    };
    let places = places_where(alloc, &rule, elements)?;
    Ok(places)
}
