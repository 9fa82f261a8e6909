//! All that the machine asks of a deployment.
ghost use Rattle.std.specs.Prelude.{◌≡◌, IfOk};
ghost use Rattle.cdi_bodies.specs.Gives.{lookups_of};
ghost use Rattle.cdi_bodies.specs.Table.{entries_of};
ghost use Rattle.cdi_name_check.specs.NameSets.{HasDeclared};
ghost use Rattle.cdi_resolve.specs.BeanTables.{AreTablesOf};
ghost use Rattle.cdi_resolve.specs.Filters.{is_enabled};
ghost use Rattle.cdi_run_tables.specs.Machine as spec;
ghost use Rattle.cdi_run_tables.specs.Planned.{IsTabled};

use crate::index::RunIndex;
use crate::parts::{KeptParts, PartsWithEvents};
use cdi_base::{Name, Use};
use cdi_bodies::Bodies;
use cdi_cache::WrittenQuestion;
use cdi_deployment::Deployment;
use cdi_name_check::{DeclaredNames, NameSets, are_qualifiers};
use cdi_resolve::{BeanTables, Resolution};
use std::alloc::{AllocError, Global};
use std::marker::Model;

/// A deployment with its tables and the plans of its beans, which contracts see. It never changes. What is asked in a run is looked
/// up in an index that is made once, so that the size of the deployment makes no difference, but for two questions: resolution of what a
/// call names ([`RunTables::ask`]), if it is none of the last ones, goes over the enabled beans that have the type, and who hears an event ([`RunTables::observers`])
/// is asked of each observer of an enabled bean.
pub struct RunTables {
    pub(crate) parts: KeptParts,
    pub(crate) index: RunIndex,
}

/// In one call, so that the proof of each function that owns all tables has one step here, and not one for each of them.
impl Drop for RunTables {
    fn drop(self) {
        let RunTables {
            parts: _parts,
            index: _index,
        } = self;
    }
}

impl Model for RunTables {
    ghost use Rattle.std.specs.Coded.{codes};
    ghost use Rattle.cdi_deployment.specs.contracts.deployment.Deployment as deployments;
    ghost use Rattle.cdi_event_tables.specs.contracts.ids.BodyIds as body_ids;
    ghost use Rattle.cdi_resolve.specs.contracts.bean_tables.BeanTables as bean_tables;
    ghost use Rattle.cdi_run_tables.specs.Parts.{RunParts};

    ghost Value = { RunParts };

    ghost coded = { Prim.hlevel (
      codes,
      deployments.the_row.coded,
      bean_tables.the_row.coded,
      body_ids.the_row.coded,
    ) };

    ghost use Rattle.cdi_run_tables.specs.Kept.{AreRunTables};
    ghost use Rattle.cdi_run_tables.specs.Seen.{parts_seen};

    ghost view = { λ t. parts_seen t.parts };

    ghost invariant = { λ t. AreRunTables t.parts t.index };
}

impl RunTables {
    /// The tables of a deployment whose names and beans have no problem, with the names that it declares and the tables of its bean list.
    /// Its members have the bodies that are registered under their names.
    pub fn build(
        alloc: Global,
        deployment: Deployment,
        names: NameSets,
        tables: BeanTables,
        bodies: &Bodies,
    ) -> Result<RunTables, AllocError>
        requires names { HasDeclared deployment names }
        requires tables { AreTablesOf deployment tables }
        ensures deployment { IfOk result (λ t. t.deployment ≡ deployment) }
        ensures tables { IfOk result (λ t. t.tables ≡ tables) }
        ensures tabled { IfOk result IsTabled }
        ensures ids { IfOk result (spec.AreIdsOf (entries_of bodies.now)) }
        ensures lookups { IfOk result (λ t.
            t.lookups ≡ lookups_of (entries_of bodies.now)) }
    {
        let made = PartsWithEvents::build(alloc, deployment, tables, bodies)?;
        let PartsWithEvents { parts, events } = made;
        let index = RunIndex::build(alloc, &parts, names, events)?;
        Ok(RunTables { parts, index })
    }

    /// The deployment.
    pub fn deployment(&self) -> &Deployment
        ensures { result.now ≡ self.now.deployment }
    {
        &self.parts.deployment
    }

    /// Whether the bean with an index is enabled.
    pub(crate) fn is_enabled(&self, bean: usize) -> bool
        ensures { result ≡ is_enabled self.now.tables.resolver.flags bean }
    {
        match self.parts.tables.resolver.flags().get(bean) {
            Some(flag) => *flag,
            None => false,
        }
    }

    /// What a type and qualifiers, as they were written, resolve to among the enabled beans (Jakarta CDI 4.0, *Typesafe resolution*).
    /// No qualifiers stand for `Default`. What no command asked for lately goes over the enabled beans that have the type.
    pub fn resolve(&self, ty: Name, uses: &[Use]) -> Resolution
        ensures { result ≡ spec.resolution_of self.now ty uses.now }
    {
        let question = WrittenQuestion { ty, uses };
        match self.index.asked.known(question.hash(), &question) {
            Some(told) => told,
            None => self.resolve_anew(ty, uses),
        }
    }

    /// The same, whatever was asked for before.
    fn resolve_anew(&self, ty: Name, uses: &[Use]) -> Resolution
        ensures { result ≡ spec.resolution_of self.now ty uses.now }
    {
        let tables = &self.parts.tables;
        tables
            .resolver
            .resolve_written(&tables.declared.qualifiers, ty, uses)
    }

    /// The same for a command. It is remembered, if there is memory, beside the last answers to commands, 256 at most.
    pub fn ask(&mut self, alloc: Global, ty: Name, uses: &[Use]) -> Resolution
        ensures told { result ≡ spec.resolution_of self.old ty uses.now }
        ensures kept { self.new ≡ self.old }
    {
        let question = WrittenQuestion { ty, uses };
        let hash = question.hash();
        if let Some(told) = self.index.asked.known(hash, &question) {
            self.index.asked.promote(hash);
            return told;
        }
        let told = self.resolve_anew(ty, uses);
        self.index.asked.remember(alloc, hash, &question, told);
        told
    }

    /// Whether a type and uses of qualifiers are known, with the members that these give.
    pub fn is_known(&self, ty: Name, uses: &[Use]) -> bool
        ensures { result ≡ spec.is_known self.now.deployment ty uses.now }
    {
        let names = DeclaredNames::new(&self.parts.deployment, &self.index.names);
        names.is_type(ty) && are_qualifiers(&names, uses)
    }
}
