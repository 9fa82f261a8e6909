//! What hints are about.
ghost use Rattle.std.specs.Prelude.{◌≡◌};
ghost use Rattle.std.specs.Option.{option_copied};
ghost use Rattle.cdi_cycle_hints.specs.Needs.{AreNeedsOf};

use cdi_cycle_hints::Needs;
use cdi_deployment::Deployment;
use cdi_name_uses::ScriptNames;
use cdi_place_index::PlaceIndex;
use cdi_resolve::BeanTables;

/// A deployment whose problems get hints.
#[derive(Clone, Copy)]
pub struct Subject<'a> {
    pub deployment: &'a Deployment,
    /// The names that the steps of its scripts use, script by script.
    pub scripts: &'a [ScriptNames],
    /// The tables by which its points resolve. Without them no candidates are told.
    pub tables: Option<&'a BeanTables>,
    /// What its dependent beans need by these tables. Without it, each hint that tells of it looks for it anew.
    pub needs: Option<&'a Needs>,
    /// Its elements and its body sites, by their places.
    pub index: &'a PlaceIndex<'a>,
    pub ghost are_needs: { AreNeedsOf deployment.now (option_copied tables) (option_copied needs) },
    pub ghost is_index: { index.now.deployment.now ≡ deployment.now },
}
