//! What the ledger hears of jobs.
use cdi_base::{Place, Scope};
use cdi_deployment::{Class, Deployment, Member};
use cdi_steps::{Completion, Outcome};
use cdi_tests_player::{Beans, Ledger};
use cdi_world::World;
use std::alloc::{AllocError, Global};

/// Adds the class itself, if its bean is application-scoped.
fn add_bean(class: &Class, beans: &mut Beans) -> Result<(), AllocError> {
    if let Some(bean) = &class.bean {
        if matches!(bean.scope, Scope::ApplicationScoped) {
            beans.shared.push(Place::Class(class.name))?;
        }
    }
    Ok(())
}

/// Adds a member: an application-scoped product, or a callback.
fn add_member(class: &Class, member: &Member, beans: &mut Beans) -> Result<(), AllocError> {
    let place = Place::Member {
        class: class.name,
        member: member.name(),
    };
    match member {
        Member::PreDestroy(_) => beans.farewells.push(place)?,
        Member::Producer(producer) if matches!(producer.scope, Scope::ApplicationScoped) => {
            beans.shared.push(place)?
        }
        _ => {}
    }
    Ok(())
}

fn add_class(class: &Class, beans: &mut Beans) -> Result<(), AllocError> {
    add_bean(class, beans)?;
    for member in class.members.as_slice() {
        add_member(class, member, beans)?;
    }
    Ok(())
}

/// What of a deployment the ledger has to know.
pub(crate) fn beans_of(alloc: Global, deployment: &Deployment) -> Result<Beans, AllocError> {
    let mut beans = Beans {
        shared: Vec::new(alloc),
        farewells: Vec::new(alloc),
    };
    for class in deployment.classes.as_slice() {
        add_class(class, &mut beans)?;
    }
    Ok(beans)
}

/// Tells the ledger the entries of a job, and if it was a shutdown that was done, that.
pub(crate) fn hear(
    ledger: &mut Ledger,
    world: &World,
    ends_all: bool,
    outcome: &Outcome,
) -> Result<(), AllocError> {
    ledger.hear_all(world.trace())?;
    if ends_all && matches!(outcome, Outcome::Ends(Completion::Gave(_))) {
        ledger.hear_shutdown();
    }
    Ok(())
}
