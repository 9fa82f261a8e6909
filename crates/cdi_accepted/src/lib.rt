//! Laws of deployments: each has one bean list, one set of tables, one plan of each bean, and one list of problems; what the tables of
//! an accepted one have for the body of each site of the check; and that what they compute of events is what `cdi_observers` has.
#![tactic(auto)]

pub mod laws;
pub mod uniqueness_laws;
