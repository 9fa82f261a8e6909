//! What the injection points of a deployment resolve to.
ghost use Rattle.std.specs.Prelude.{◌≡◌, IfOk, OnOk, IfSome};
ghost use Rattle.cdi_live.specs.ResolvedPoints as spec;
ghost use Rattle.cdi_resolve.specs.Filters.{enabled_of};

use cdi_base::{Name, Seq, Use};
use cdi_cache::WrittenQuestion;
use cdi_deployment::{InjectedField, Point};
use cdi_problems::Element;
use cdi_quals::QualifierTypes;
use cdi_resolve::{Resolution, Resolver};
use std::alloc::{AllocError, Global};
use std::collections::HashMap;
use std::marker::Model;

/// What a point asks for, with what it resolves to. Contracts see the point and the answer.
#[derive(Drop)]
pub(crate) struct ResolvedPoint<'a> {
    question: WrittenQuestion<'a>,
    told: Resolution,
}

impl<'a> Model for ResolvedPoint<'a> {
    ghost use Rattle.cdi_deployment.specs.declared.deployment.Point.{Point};
    ghost use Rattle.cdi_resolve.specs.declared.resolution.Resolution.{Resolution};

    ghost Value = { Point × Resolution };

    ghost view = { λ p. (record { ty = p.question.ty; quals = p.question.uses.now }, p.told) };
}

/// What the injection points of a deployment resolve to (Jakarta CDI 4.0, *Typesafe resolution*), each found by what it asks for. So
/// points that ask for the same in the same words are resolved once. Contracts see by what they are resolved. Points are found by
/// hashes, and each stands with what it asks for, since two may have one hash; what isn't found is resolved anew.
#[derive(Drop)]
pub struct ResolvedPoints<'a> {
    qualifiers: &'a QualifierTypes,
    resolver: &'a Resolver,
    points: Seq<ResolvedPoint<'a>>,
    /// The places of points, by hashes of what they ask for.
    places: HashMap<u64, usize>,
}

impl<'a> Model for ResolvedPoints<'a> {
    ghost use Rattle.cdi_live.specs.ResolvedPoints.{Resolving, AreTold};
    ghost use Rattle.cdi_resolve.specs.Filters.{enabled_of};

    ghost Value = { Resolving };

    ghost view = { λ p. record {
      qualifiers = p.qualifiers.now;
      enabled = enabled_of p.resolver.now;
    } };

    ghost invariant = { λ p. AreTold (record {
      qualifiers = p.qualifiers.now;
      enabled = enabled_of p.resolver.now;
    }) p.points };
}

impl ResolvedPoint<'_> {
    /// What it resolves to, if it asks a question.
    fn told_to(&self, question: &WrittenQuestion<'_>) -> Option<Resolution>
        ensures { IfSome result (λ told. (told ≡ self.now.1)
            × (self.now.0 ≡ record { ty = question.now.ty; quals = question.now.uses.now })) }
    {
        if self.question.is_same(question) {
            return Some(self.told);
        }
        None
    }
}

impl<'a> ResolvedPoints<'a> {
    /// The points of some elements of a deployment, with the types of its qualifiers and the resolver of its beans.
    pub fn build(
        alloc: Global,
        qualifiers: &'a QualifierTypes,
        resolver: &'a Resolver,
        elements: &[Element<'a>],
    ) -> Result<ResolvedPoints<'a>, AllocError>
        ensures { IfOk result (λ points. points
            ≡ record { qualifiers = qualifiers.now; enabled = enabled_of resolver.now }) }
    {
        let mut points = ResolvedPoints {
            qualifiers,
            resolver,
            points: Seq::empty(alloc),
            places: HashMap::new(alloc),
        };
        for element in elements {
            points.add_of(element)?;
        }
        Ok(points)
    }

    /// Adds the points of an element.
    fn add_of(&mut self, element: &Element<'a>) -> Result<(), AllocError>
        ensures { OnOk result (self.new ≡ self.old) }
    {
        match element {
            Element::InjectedField { field, .. } => self.add_field(field),
            Element::Constructor { constructor, .. } => {
                self.add_params(constructor.params.as_slice())
            }
            Element::Member { member, .. } => self.add_params(member.params()),
            Element::InterceptorInjectedField { field, .. } => self.add_field(field),
            _ => Ok(()),
        }
    }

    /// Adds an injected field.
    fn add_field(&mut self, field: &'a InjectedField) -> Result<(), AllocError>
        ensures { OnOk result (self.new ≡ self.old) }
    {
        self.add(field.ty, field.quals.as_slice())
    }

    /// Adds parameters.
    fn add_params(&mut self, params: &'a [Point]) -> Result<(), AllocError>
        ensures { OnOk result (self.new ≡ self.old) }
    {
        for point in params {
            self.add(point.ty, point.quals.as_slice())?;
        }
        Ok(())
    }

    /// Adds what a type and qualifiers as they were written resolve to, unless a point with their hash is there.
    fn add(&mut self, ty: Name, quals: &'a [Use]) -> Result<(), AllocError>
        ensures { OnOk result (self.new ≡ self.old) }
    {
        let question = WrittenQuestion { ty, uses: quals };
        let hash = question.hash();
        if self.places.contains_key(&hash) {
            return Ok(());
        }
        let told = self.resolver.resolve_written(self.qualifiers, ty, quals);
        self.places.insert(hash, self.points.len())?;
        self.points.push(ResolvedPoint { question, told })?;
        Ok(())
    }

    /// What the point that stands at the hash of a question resolves to, if it asks the question.
    fn known(&self, question: &WrittenQuestion<'_>) -> Option<Resolution>
        ensures { IfSome result (λ told. told
            ≡ spec.resolved_by self.now question.now.ty question.now.uses.now) }
    {
        let place = self.places.get(&question.hash()).copied()?;
        let point = self.points.get(place)?;
        point.told_to(question)
    }

    /// What a type and qualifiers as they were written resolve to.
    pub fn resolve(&self, ty: Name, quals: &[Use]) -> Resolution
        ensures { result ≡ spec.resolved_by self.now ty quals.now }
    {
        let question = WrittenQuestion { ty, uses: quals };
        match self.known(&question) {
            Some(told) => told,
            None => self.resolver.resolve_written(self.qualifiers, ty, quals),
        }
    }
}
