//! What of a deployment is live: what the container calls, and where it injects (Jakarta CDI 4.0, *Enabled and disabled beans*, *Injection
//! points*); and the problems of that: injection points without one bean, or whose bean no client proxy can stand for (*Unsatisfied and
//! ambiguous dependencies*, *Unproxyable bean types*), and dependent beans that need themselves (*Dependent pseudo-scope*).
#![tactic(auto)]

pub mod cycle_rule;
mod cycles;
pub mod deployment_tables;
mod field_needs;
mod graph;
pub mod live_tables;
mod member_set;
mod needed_at_points;
mod needs;
pub mod node;
pub mod point_problem;
pub mod point_rule;
pub mod resolved_points;
mod sets;

pub use cycle_rule::dependent_cycles;
pub use deployment_tables::DeploymentTables;
pub use live_tables::LiveTables;
pub use node::Node;
pub use point_problem::PointProblem;
pub use point_rule::PointRule;
pub use resolved_points::ResolvedPoints;
