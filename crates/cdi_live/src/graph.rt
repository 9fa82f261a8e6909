//! The graph of what needs what.
ghost use Rattle.std.specs.Prelude.{◌≡◌, ◌+◌, ◌<◌, ◌^◌, ◌++◌, ◌∷◌, [], true, if◌then◌else◌, nat_eq, vec_len, slice_set, length, IfOk, OnOk};
ghost use Rattle.std.specs.List.{filter_map, IsDistinct};
ghost use Rattle.cdi_live.specs.Cycles.{flag};
ghost use Rattle.cdi_live.specs.FieldNeeds.{AreFieldNeeds};
ghost use Rattle.cdi_live.specs.Graphs as spec;
ghost use Rattle.cdi_live.specs.Settings.{setting_of, counts_of};

use crate::deployment_tables::DeploymentTables;
use crate::field_needs::FieldNeeds;
use crate::node::Node;
use cdi_base::Seq;
use std::alloc::{AllocError, Global};

/// How many beans and interceptors there are.
#[derive(Clone, Copy)]
pub(crate) struct Counts {
    pub(crate) beans: usize,
    pub(crate) interceptors: usize,
}

/// Adds a number to a row, unless its flag tells that it is listed there.
fn add_number(number: usize, listed: &mut Vec<bool>, row: &mut Seq<usize>) -> Result<(), AllocError>
    requires { number < vec_len listed.old }
    ensures flags { OnOk result (listed.new.items ≡ slice_set listed.old.items number true) }
    ensures row { OnOk result (row.new ≡ (if flag listed.old.items number then row.old
        else row.old ++ number ∷ [])) }
{
    if !listed[number] {
        listed[number] = true;
        row.push(number)?;
    }
    Ok(())
}

impl Counts {
    /// The number of a node, if it is one of so many: that of a bean is its index; interceptors come behind the beans.
    fn number_of(self, node: Node) -> Option<usize>
        requires { self.beans + self.interceptors < 2 ^ 64 }
        ensures { result ≡ spec.number_of
            (record { beans = self.beans; interceptors = self.interceptors }) node }
    {
        match node {
            Node::Bean(index) => {
                if index < self.beans {
                    Some(index)
                } else {
                    None
                }
            }
            Node::Interceptor(place) => {
                if place < self.interceptors {
                    Some(self.beans + place)
                } else {
                    None
                }
            }
        }
    }

    /// The numbers of some nodes, each once.
    fn numbers_of(self, alloc: Global, nodes: &[Node]) -> Result<Seq<usize>, AllocError>
        requires { self.beans + self.interceptors < 2 ^ 64 }
        ensures same { IfOk result (λ row. spec.HaveSameItems row (filter_map (spec.number_of
            (record { beans = self.beans; interceptors = self.interceptors })) nodes.now)) }
        ensures once { IfOk result (IsDistinct nat_eq) }
    {
        let mut listed = vec![in alloc; false; self.beans + self.interceptors]?;
        let mut row = Seq::empty(alloc);
        for node in nodes {
            if let Some(number) = self.number_of(*node) {
                add_number(number, &mut listed, &mut row)?;
            }
        }
        Ok(row)
    }
}

impl DeploymentTables<'_> {
    pub(crate) fn counts(&self) -> Counts
        ensures counts { record { beans = result.beans; interceptors = result.interceptors }
            ≡ counts_of self.now }
        ensures few { result.beans + result.interceptors < 2 ^ 64 }
    {
        Counts {
            beans: self.beans.resolver.beans().len(),
            interceptors: self.live.interceptors().len(),
        }
    }

    /// The row of a bean: the numbers of what it needs, if it is enabled.
    fn bean_row(
        &self,
        alloc: Global,
        fields: &FieldNeeds,
        index: usize,
    ) -> Result<Seq<usize>, AllocError>
        requires { AreFieldNeeds (setting_of self.now) fields.now }
        ensures { IfOk result
            (spec.IsRowOf (setting_of self.now) (counts_of self.now) (Node.Bean index)) }
    {
        match self.beans.resolver.bean(index) {
            Some(bean) => {
                let needs = self.bean_needs(alloc, fields, bean)?;
                let row = self.counts().numbers_of(alloc, needs.as_slice())?;
                Ok(row)
            }
            None => Ok(Seq::empty(alloc)),
        }
    }

    /// The row of an enabled interceptor: the numbers of what it needs.
    fn interceptor_row(&self, alloc: Global, place: usize) -> Result<Seq<usize>, AllocError>
        ensures { IfOk result
            (spec.IsRowOf (setting_of self.now) (counts_of self.now) (Node.Interceptor place)) }
    {
        let needs = self.interceptor_needs(alloc, place)?;
        let row = self.counts().numbers_of(alloc, needs.as_slice())?;
        Ok(row)
    }

    /// The rows of the beans.
    fn bean_rows(&self, alloc: Global, fields: &FieldNeeds) -> Result<Seq<Seq<usize>>, AllocError>
        requires { AreFieldNeeds (setting_of self.now) fields.now }
        ensures { IfOk result (spec.HasBeanRows (setting_of self.now) (counts_of self.now)
            (counts_of self.now).beans) }
    {
        let mut graph = Seq::empty(alloc);
        for index in 0..self.beans.resolver.beans().len() {
            graph.push(self.bean_row(alloc, fields, index)?)?;
        }
        Ok(graph)
    }

    /// The rows of the beans, and behind them those of the enabled interceptors.
    pub(crate) fn rows(&self, alloc: Global) -> Result<Seq<Seq<usize>>, AllocError>
        ensures { IfOk result (spec.HasRows (setting_of self.now) (counts_of self.now)
            (counts_of self.now).interceptors) }
    {
        let fields = FieldNeeds::build(alloc, self)?;
        let mut graph = self.bean_rows(alloc, &fields)?;
        for place in 0..self.live.interceptors().len() {
            graph.push(self.interceptor_row(alloc, place)?)?;
        }
        Ok(graph)
    }
}
