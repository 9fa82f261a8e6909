//! Two containers in one thread. A method is called in each, and then they take turns of one entry each until both have answered:
//! neither waits for the other.
ghost use Rattle.std.specs.Prelude.{◌≡◌, ◌<◌, true, IfOk};
ghost use Rattle.cdi_bodies.specs.Shape.{in_shape, no_acts};
ghost use Rattle.cdi_run_tables.specs.Machine.{machine_tables};
ghost use Rattle.cdi_runtime.specs.Standing.{IsServable};
ghost use Rattle.cdi_steps.specs.Driving.{Drives};

use crate::reading::{deployment_of, wrong};
use cdi_base::{Act, Command, Fields, Limits, OrMemory, Reply, Seq, Text, Value};
use cdi_bodies::{Bodies, Body, Choice, Chooser, Shape, View};
use cdi_container::{Container, Turned, Turns, Unaccepted, accept};
use cdi_machine::{Driver, Registered};
use cdi_run_tables::RunTables;
use cdi_text::{write_reply, write_trace};
use std::alloc::{AllocError, Global};
use std::io;
use std::io::Write;

/// A shop with a till, which tells a price.
const SHOP: &[u8] = br#"{"classes": [
    {"name": "Till", "bean": {"scope": "ApplicationScoped"},
        "members": [{"kind": "method", "name": "price", "body": "price"}]}]}"#;

/// More turns than a command of these shops needs.
const ENOUGH: u32 = 100;

/// A container that goes by turns, with the name under which its lines are told.
#[derive(Drop)]
struct Shop<D: Driver> {
    name: &'static str,
    turns: Turns<D>,
    /// So many entries of its command are told.
    told: usize,
}

/// A call of the till's method.
fn call(alloc: Global) -> Result<Command, AllocError> {
    Ok(Command::Call {
        request: None,
        bean_type: Text::from_str(alloc, "Till")?,
        qualifiers: Seq::empty(alloc),
        method: Text::from_str(alloc, "price")?,
        args: Seq::empty(alloc),
    })
}

/// Writes a line behind the name of a shop.
fn tell(output: &mut impl Write, name: &str, line: &[u8]) -> io::Result<()> {
    output.write_all(name.as_bytes())?;
    output.write_all(b": ")?;
    output.write_all(line)
}

impl<D: Driver> Shop<D> {
    /// A container, before its first turn.
    fn new(name: &'static str, container: Container<D>) -> Shop<D> {
        Shop {
            name,
            turns: Turns::new(container),
            told: 0,
        }
    }

    /// Writes the entry that the turn before has written, if it has written one.
    fn tell_entry(&mut self, alloc: Global, output: &mut impl Write) -> io::Result<()> {
        let entries = self.turns.trace().get(self.told..).unwrap_or(&[]);
        if entries.is_empty() {
            return Ok(());
        }
        let line = write_trace(alloc, self.turns.container().names(), entries)?;
        tell(output, self.name, &line)?;
        self.told = self.turns.trace().len();
        Ok(())
    }

    /// Asks for another command while one may be under way, and writes why it is refused, if it is. The entries that were shown are
    /// forgotten then.
    fn ask(&mut self, alloc: Global, output: &mut impl Write, command: &Command) -> io::Result<()> {
        let Some(refusal) = self.turns.start(command) else {
            return Ok(());
        };
        self.told = 0;
        let names = self.turns.container().names();
        let line = write_reply(alloc, names, &Reply::Refused(refusal))?;
        tell(output, self.name, &line)
    }

    /// Takes a turn of one entry, and writes what it has done. Whether the command goes on.
    fn take_turn(&mut self, alloc: Global, output: &mut impl Write) -> io::Result<bool> {
        let turned = self.turns.turn(1);
        self.tell_entry(alloc, output)?;
        match turned {
            Turned::Running => Ok(true),
            Turned::Finished(reply) => {
                let line = write_reply(alloc, self.turns.container().names(), &reply)?;
                tell(output, self.name, &line)?;
                Ok(false)
            }
            Turned::Idle => Ok(false),
        }
    }
}

/// The turn before which the second shop is asked to shut down, which it refuses.
const BUSY_TURN: u32 = 2;

/// Calls the method in both shops, by turns of one entry each. The second is asked for another command on the way.
fn take_turns<D: Driver + Drop, E: Driver + Drop>(
    alloc: Global,
    output: &mut impl Write,
    first: Container<D>,
    second: Container<E>,
) -> io::Result<()> {
    let command = call(alloc)?;
    let mut first = Shop::new("bakery", first);
    let mut second = Shop::new("bookshop", second);
    if first.turns.start(&command).is_some() || second.turns.start(&command).is_some() {
        return Err(wrong());
    }
    for turn in 0..ENOUGH {
        if turn == BUSY_TURN {
            second.ask(alloc, output, &Command::Shutdown)?;
        }
        let first_goes_on = first.take_turn(alloc, output)?;
        let second_goes_on = second.take_turn(alloc, output)?;
        if !first_goes_on && !second_goes_on {
            break;
        }
    }
    Ok(())
}

/// Starts a second container, if its deployment is accepted, and lets both take turns.
fn run_second<D: Driver + Drop, E: Driver + Drop>(
    alloc: Global,
    output: &mut impl Write,
    first: Container<D>,
    accepted: Result<RunTables, OrMemory<Unaccepted>>,
    driver: E,
) -> io::Result<()>
    requires drives { IfOk accepted (λ tables. Drives (machine_tables tables) (E.knows driver)) }
    requires servable { IfOk accepted IsServable }
{
    let Ok(tables) = accepted else {
        return Err(wrong());
    };
    let second = Container::start(alloc, tables, driver, Limits::default());
    take_turns(alloc, output, first, second)
}

/// Makes a second shop beside a first one, with a price of its own. Where an order is left open, its container takes the last.
#[tactic(auto, using(crate::proofs::Driven::drives_with))]
fn run_beside<D: Driver + Drop>(
    alloc: Global,
    output: &mut impl Write,
    first: Container<D>,
) -> io::Result<()> {
    let deployment = deployment_of(alloc, SHOP)?;
    let body: Body = Box::new(
        alloc,
        |_fields: &Fields, view: &View| -> Result<Act, AllocError>
            ensures { IfOk result (λ act. in_shape no_acts view.now act ≡ true) }
        {
            Ok(Act::Give {
                value: Value::Int(12),
            })
        },
    )?;
    let mut bodies = Bodies::new(alloc);
    if bodies
        .add(deployment.names.name_for("price"), Shape::new(alloc), body)
        .is_err()
    {
        return Err(wrong());
    }
    let choice: Choice = Box::new(
        alloc,
        |_count: u32, _entries: u64| -> u32
            requires { 0 < _count }
            ensures { result < _count }
        { _count - 1 },
    )?;
    let chooser = Chooser::new(choice);
    let accepted = accept(alloc, deployment, &bodies);
    run_second(
        alloc,
        output,
        first,
        accepted,
        Registered { bodies, chooser },
    )
}

/// Starts a first container, if its deployment is accepted, and goes on with a second one.
fn run_first<D: Driver + Drop>(
    alloc: Global,
    output: &mut impl Write,
    accepted: Result<RunTables, OrMemory<Unaccepted>>,
    driver: D,
) -> io::Result<()>
    requires drives { IfOk accepted (λ tables. Drives (machine_tables tables) (D.knows driver)) }
    requires servable { IfOk accepted IsServable }
{
    let Ok(tables) = accepted else {
        return Err(wrong());
    };
    let first = Container::start(alloc, tables, driver, Limits::default());
    run_beside(alloc, output, first)
}

/// Makes the first shop, whose container takes the first where an order is left open, and goes on with a second one.
#[tactic(auto, using(crate::proofs::Driven::drives_with))]
pub(crate) fn run_two_shops(alloc: Global, output: &mut impl Write) -> io::Result<()> {
    let deployment = deployment_of(alloc, SHOP)?;
    let body: Body = Box::new(
        alloc,
        |_fields: &Fields, view: &View| -> Result<Act, AllocError>
            ensures { IfOk result (λ act. in_shape no_acts view.now act ≡ true) }
        {
            Ok(Act::Give {
                value: Value::Int(3),
            })
        },
    )?;
    let mut bodies = Bodies::new(alloc);
    if bodies
        .add(deployment.names.name_for("price"), Shape::new(alloc), body)
        .is_err()
    {
        return Err(wrong());
    }
    let choice: Choice = Box::new(
        alloc,
        |_count: u32, _entries: u64| -> u32
            requires { 0 < _count }
            ensures { result < _count }
        { 0 },
    )?;
    let chooser = Chooser::new(choice);
    let accepted = accept(alloc, deployment, &bodies);
    run_first(alloc, output, accepted, Registered { bodies, chooser })
}
