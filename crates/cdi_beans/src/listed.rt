//! The bean list of a deployment with what it was made from.
use crate::bean::BeanList;
use crate::declared::DeclaredTables;
use cdi_name_check::NameSets;

/// The bean list of a deployment (Jakarta CDI 4.0, *Beans*), with the tables of what the deployment declares, by which it was made, and
/// the names that it declares. So who goes on with the list needn't build these again.
#[derive(Drop)]
pub struct ListedBeans {
    pub list: BeanList,
    pub declared: DeclaredTables,
    pub names: NameSets,
}
