//! What beans and interceptors need.
ghost use Rattle.std.specs.Prelude.{◌≡◌, ◌==◌, ◌++◌, ◌∷◌, [], ℕ, map, filter, Some, option_and_then, IfOk, OnOk};
ghost use Rattle.std.specs.List.{filter_map, flat_map, list_any};
ghost use Rattle.std.specs.Option.{option_copied};
ghost use Rattle.cdi_base.specs.Maps.{at};
ghost use Rattle.cdi_plans.specs.Chains.{interceptors_of};
ghost use Rattle.cdi_live.specs.FieldNeeds.{AreFieldNeeds, AreNamed};
ghost use Rattle.cdi_live.specs.Points.{field_point};
ghost use Rattle.cdi_live.specs.Needs as spec;
ghost use Rattle.cdi_live.specs.OwnPoints as own;
ghost use Rattle.cdi_live.specs.Settings.{setting_of};

use crate::deployment_tables::DeploymentTables;
use crate::field_needs::FieldNeeds;
use crate::needed_at_points::{add_fields, add_initializers, add_params};
use crate::node::Node;
use cdi_base::{Name, Scope, Seq};
use cdi_beans::{Bean, BeanKind, DisposerMethod};
use cdi_deployment::{Class, InjectedField, Member, Point};
use cdi_resolve::EnabledBean;
use cdi_types::{ClassLine, MemberKind};
use std::alloc::{AllocError, Global};

/// The parameters of the constructor of a class, if it has one.
fn constructor_points(class: Option<&Class>) -> &[Point]
    ensures { result.now ≡ own.constructor_points (option_copied class.entry) }
{
    let Some(class) = class else {
        return &[];
    };
    match &class.constructor {
        Some(constructor) => constructor.params.as_slice(),
        None => &[],
    }
}

/// The member of a class with a name.
fn member_in(class: &Class, name: Name) -> Option<&Member>
    ensures { option_copied result ≡ own.member_in name class.now }
{
    class.members.iter().find(|member| member.name() == name)
}

/// The parameters of the member of a class with a name.
fn member_points(class: Option<&Class>, name: Name) -> &[Point]
    ensures { result.now ≡ own.points_of_some
        (option_and_then (own.member_in name) (option_copied class.entry)) }
{
    let Some(class) = class else {
        return &[];
    };
    match member_in(class, name) {
        Some(member) => member.params(),
        None => &[],
    }
}

/// Whether a disposer serves a producer with a name.
fn serves_name(disposer: &DisposerMethod, name: Name) -> bool
    ensures { result ≡ list_any (λ n. n == name) disposer.now.serves }
{
    disposer.serves.iter().any(|served| *served == name)
}

/// Whether a disposer serves the producer of a class with a name.
fn serves(disposer: &DisposerMethod, class: Name, name: Name) -> bool
    ensures { result ≡ own.serves class name disposer.now }
{
    disposer.class == class && serves_name(disposer, name)
}

/// The dependent managed bean of a class, if this is it.
fn declaring_bean(bean: &EnabledBean<'_>, class: Name) -> Option<Node>
    ensures { result ≡ spec.declaring_bean class bean.now }
{
    if bean.is_of(class) && matches!(bean.bean().scope, Scope::Dependent) {
        Some(Node::Bean(bean.index()))
    } else {
        None
    }
}

/// The name of a producer.
pub(crate) fn product_name(kind: BeanKind) -> Option<Name>
    ensures { result ≡ own.product_name kind }
{
    match kind {
        BeanKind::Managed => None,
        BeanKind::ProducerMethod(name) => Some(name),
        BeanKind::ProducerField(name) => Some(name),
    }
}

impl DeploymentTables<'_> {
    /// Adds what the members of a line of classes need that a bean has.
    fn add_of_line(
        &self,
        alloc: Global,
        fields: &FieldNeeds,
        line: &ClassLine<'_>,
        needs: &mut Seq<Node>,
    ) -> Result<(), AllocError>
        requires are { AreFieldNeeds (setting_of self.now) fields.now }
        requires named { AreNamed (setting_of self.now) line.now }
        ensures { OnOk result (needs.new ≡ needs.old
            ++ filter_map (spec.needed_at (setting_of self.now)) (own.line_points line.now)) }
    {
        fields.add_of(line.classes(), needs)?;
        let initializers = line.members_of_kind(alloc, MemberKind::Initializer)?;
        add_initializers(self, initializers.as_slice(), needs)?;
        Ok(())
    }

    /// Adds what the points of a managed bean need.
    fn add_managed(
        &self,
        alloc: Global,
        fields: &FieldNeeds,
        bean: &Bean,
        needs: &mut Seq<Node>,
    ) -> Result<(), AllocError>
        requires { AreFieldNeeds (setting_of self.now) fields.now }
        ensures { OnOk result
            (spec.AddsManaged (setting_of self.now) bean.now needs.old needs.new) }
    {
        let classes = self.classes;
        add_params(self, constructor_points(classes.class(bean.class)), needs)?;
        let line = classes.line(alloc, &self.beans.declared.types, bean.class)?;
        self.add_of_line(alloc, fields, &line, needs)?;
        Ok(())
    }

    /// Adds the interceptors of a managed bean.
    fn add_interceptors(
        &self,
        alloc: Global,
        bean: &Bean,
        needs: &mut Seq<Node>,
    ) -> Result<(), AllocError>
        ensures { OnOk result (needs.new
            ≡ needs.old ++ map Node.Interceptor (interceptors_of self.now.beans.now.chains bean.now)) }
    {
        let places = self.beans.chains.interceptors_of(alloc, bean)?;
        for place in places.as_slice() {
            needs.push(Node::Interceptor(*place))?;
        }
        Ok(())
    }

    /// Adds what a disposer needs, if it serves the producer of a class with a name.
    fn add_disposer(
        &self,
        disposer: &DisposerMethod,
        class: Name,
        name: Name,
        needs: &mut Seq<Node>,
    ) -> Result<(), AllocError>
        ensures { OnOk result (needs.new ≡ needs.old
            ++ filter_map (spec.needed_at (setting_of self.now)) (flat_map
            (own.disposer_points self.now.classes.now)
            (filter (own.serves class name) (disposer.now ∷ [])))) }
    {
        if !serves(disposer, class, name) {
            return Ok(());
        }
        let declaring = self.classes.class(disposer.class);
        add_params(self, member_points(declaring, disposer.name), needs)
    }

    /// Adds what the disposers need that serve the producer of a class with a name.
    fn add_disposers(
        &self,
        class: Name,
        name: Name,
        needs: &mut Seq<Node>,
    ) -> Result<(), AllocError>
        ensures { OnOk result (needs.new ≡ needs.old
            ++ filter_map (spec.needed_at (setting_of self.now)) (flat_map
            (own.disposer_points self.now.classes.now)
            (filter (own.serves class name) self.now.beans.now.disposers))) }
    {
        let disposers = self.beans.disposers.as_slice();
        for disposer in disposers {
            self.add_disposer(disposer, class, name, needs)?;
        }
        Ok(())
    }

    /// Adds the dependent managed beans of a class.
    fn add_declaring(&self, class: Name, needs: &mut Seq<Node>) -> Result<(), AllocError>
        ensures { OnOk result (needs.new ≡ needs.old
            ++ filter_map (spec.declaring_bean class) self.now.live.now.beans) }
    {
        let beans = self.live.beans();
        for bean in beans {
            if let Some(node) = declaring_bean(bean, class) {
                needs.push(node)?;
            }
        }
        Ok(())
    }

    /// What a managed bean needs.
    fn managed_needs(
        &self,
        alloc: Global,
        fields: &FieldNeeds,
        bean: &Bean,
    ) -> Result<Seq<Node>, AllocError>
        requires are { AreFieldNeeds (setting_of self.now) fields.now }
        requires managed { bean.now.kind ≡ BeanKind.Managed }
        ensures { IfOk result (λ needs. (i : ℕ)
            → at self.now.live.now.beans i ≡ Some bean.now
            → spec.NeedsThose (setting_of self.now) (Node.Bean i) needs) }
    {
        let mut needs = Seq::empty(alloc);
        self.add_managed(alloc, fields, bean, &mut needs)?;
        self.add_interceptors(alloc, bean, &mut needs)?;
        Ok(needs)
    }

    /// What the product of a producer with this name needs.
    fn product_needs(&self, alloc: Global, bean: &Bean, name: Name) -> Result<Seq<Node>, AllocError>
        requires { own.product_name bean.now.kind ≡ Some name }
        ensures { IfOk result (λ needs. (i : ℕ)
            → at self.now.live.now.beans i ≡ Some bean.now
            → spec.NeedsThose (setting_of self.now) (Node.Bean i) needs) }
    {
        let mut needs = Seq::empty(alloc);
        let class = self.classes.class(bean.class);
        add_params(self, member_points(class, name), &mut needs)?;
        self.add_disposers(bean.class, name, &mut needs)?;
        self.add_declaring(bean.class, &mut needs)?;
        Ok(needs)
    }

    /// What an enabled bean needs.
    pub(crate) fn bean_needs(
        &self,
        alloc: Global,
        fields: &FieldNeeds,
        bean: &Bean,
    ) -> Result<Seq<Node>, AllocError>
        requires { AreFieldNeeds (setting_of self.now) fields.now }
        ensures { IfOk result (λ needs. (i : ℕ)
            → at self.now.live.now.beans i ≡ Some bean.now
            → spec.NeedsThose (setting_of self.now) (Node.Bean i) needs) }
    {
        match product_name(bean.kind) {
            Some(name) => self.product_needs(alloc, bean, name),
            None => self.managed_needs(alloc, fields, bean),
        }
    }

    /// The injected fields of an enabled interceptor.
    fn fields_of(&self, place: usize) -> &[InjectedField]
        ensures { map field_point result.now ≡ own.interceptor_points (setting_of self.now) place }
    {
        let Some(interceptor) = self.live.interceptors().get(place) else {
            return &[];
        };
        match self.deployment.interceptors.get(interceptor.index) {
            Some(interceptor) => interceptor.inject.as_slice(),
            None => &[],
        }
    }

    /// What an enabled interceptor needs.
    pub(crate) fn interceptor_needs(
        &self,
        alloc: Global,
        place: usize,
    ) -> Result<Seq<Node>, AllocError>
        ensures { IfOk result
            (spec.NeedsThose (setting_of self.now) (Node.Interceptor place)) }
    {
        let mut needs = Seq::empty(alloc);
        add_fields(self, self.fields_of(place), &mut needs)?;
        Ok(needs)
    }
}
