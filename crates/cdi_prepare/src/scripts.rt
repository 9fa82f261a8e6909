//! The scripts of a deployment.
ghost use Rattle.cdi_base.specs.Name.{Extends};
ghost use Rattle.cdi_base.specs.Reading.{Gives};
ghost use Rattle.cdi_prepare.specs.Scripts as spec;

use cdi_base::{Name, Names, OrMemory, Text};
use cdi_deployment::deployment::Script as Declared;
use cdi_problems::name_text;
use cdi_script::{Script, ScriptFault};
use std::alloc::Global;

/// A script under its name.
#[derive(Drop)]
pub struct NamedScript {
    pub name: Name,
    pub script: Script,
}

/// The first script of a deployment that can't be read, by the text of its name.
#[derive(Drop)]
pub struct BadScript {
    pub name: Text,
    pub fault: ScriptFault,
}

fn read_script(
    alloc: Global,
    names: &mut Names,
    declared: &Declared,
) -> Result<NamedScript, OrMemory<BadScript>>
    ensures gives { Gives (λ script. (script, names.new)) result
        (spec.script_in names.old declared.now) }
    ensures kept { Extends names.old names.new }
{
    let name = Text::from_str(alloc, name_text(names, declared.name))?;
    match Script::read(alloc, declared.steps.as_value(), names) {
        Ok(script) => Ok(NamedScript {
            name: declared.name,
            script,
        }),
        Err(OrMemory::Fault(fault)) => Err(OrMemory::Fault(BadScript { name, fault })),
        Err(OrMemory::Memory) => Err(OrMemory::Memory),
    }
}

/// Reads the scripts of a deployment one after the other, up to the first that can't be read. Their names go into the table.
/// An error is [`OrMemory::Memory`] if a growth was refused; the table may then have some of the names.
pub fn read_scripts(
    alloc: Global,
    names: &mut Names,
    declared: &[Declared],
) -> Result<Vec<NamedScript>, OrMemory<BadScript>>
    ensures gives { Gives (λ scripts. (scripts.items, names.new)) result
        (spec.scripts_in names.old declared.now) }
    ensures kept { Extends names.old names.new }
{
    let mut scripts = Vec::new(alloc);
    for script in declared {
        scripts.push(read_script(alloc, names, script)?)?;
    }
    Ok(scripts)
}
