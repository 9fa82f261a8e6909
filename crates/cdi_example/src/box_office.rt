//! A box office whose bodies are closures, of which one has a list of prices. A request begins, a ticket is bought in it, an event is
//! fired from outside, and all ends; each reply is told, behind the entries of its command and before what lives.
ghost use Rattle.std.specs.Prelude.{◌≡◌, ◌<◌, true, IfOk};
ghost use Rattle.cdi_bodies.specs.Shape.{KeepsShape, in_shape, no_acts};
ghost use Rattle.cdi_run_tables.specs.Machine.{machine_tables};
ghost use Rattle.cdi_runtime.specs.Standing.{IsServable};
ghost use Rattle.cdi_steps.specs.Driving.{Drives};
ghost use Rattle.cdi_example.specs.Shapes as spec;

use crate::bodies::{act_of_desk, act_of_ledger, act_of_office, buy_shape, note_shape};
use crate::reading::{deployment_of, wrong};
use cdi_base::{Act, Command, Fields, Limits, Names, OrMemory, Reply, Seq, Text, Value};
use cdi_bodies::{Bodies, Body, Choice, Chooser, Shape, View};
use cdi_container::{Container, Unaccepted, accept};
use cdi_deployment::Deployment;
use cdi_machine::{Driver, Registered};
use cdi_run_tables::RunTables;
use cdi_text::{write_reply, write_trace};
use std::alloc::{AllocError, Global};
use std::io;
use std::io::Write;

/// A box office, a desk for each request, and a ledger that hears of each ticket that is sold.
const BOX_OFFICE: &[u8] = br#"{"classes": [
    {"name": "Sold"},
    {"name": "BoxOffice", "bean": {"scope": "ApplicationScoped"},
        "members": [{"kind": "method", "name": "sell", "args": 1, "body": "sell"}]},
    {"name": "Desk", "bean": {"scope": "RequestScoped"},
        "inject": [{"name": "office", "type": "BoxOffice"}],
        "members": [{"kind": "method", "name": "buy", "args": 1, "body": "buy"}]},
    {"name": "Ledger", "bean": {"scope": "ApplicationScoped"},
        "fields": [{"name": "takings", "value": 0}],
        "members": [{"kind": "observer", "name": "note", "type": "Sold", "body": "note"}]}]}"#;

/// The request in which a ticket is bought.
const REQUEST: &str = "monday";

/// Begins the request.
fn begin(alloc: Global) -> Result<Command, AllocError> {
    Ok(Command::Begin {
        request: Text::from_str(alloc, REQUEST)?,
        session: None,
    })
}

/// Buys a ticket of a row at the request's desk.
fn buy(alloc: Global, row: i64) -> Result<Command, AllocError> {
    let mut args = Seq::empty(alloc);
    args.push(Value::Int(row))?;
    Ok(Command::Call {
        request: Some(Text::from_str(alloc, REQUEST)?),
        bean_type: Text::from_str(alloc, "Desk")?,
        qualifiers: Seq::empty(alloc),
        method: Text::from_str(alloc, "buy")?,
        args,
    })
}

/// Tells the ledger of a ticket that was sold elsewhere.
fn fire(alloc: Global, price: i64) -> Result<Command, AllocError> {
    Ok(Command::Fire {
        request: None,
        class: Text::from_str(alloc, "Sold")?,
        qualifiers: Seq::empty(alloc),
        value: Value::Int(price),
    })
}

/// The highest number of an instance that is looked for.
const LAST_NUMBER: u32 = 9;

/// Writes how many instances live, and their numbers.
fn tell_living<D: Driver>(
    alloc: Global,
    output: &mut impl Write,
    container: &Container<D>,
) -> io::Result<()> {
    let count = container.live_count();
    let mut line = format!(in alloc; "{count} live:")?;
    for number in 1..=LAST_NUMBER {
        if container.live(number) {
            write!(line, " {number}")?;
        }
    }
    line.push('\n')?;
    output.write_all(line.as_bytes())
}

/// Writes the entries of the last command, its reply, and what lives.
fn tell<D: Driver>(
    alloc: Global,
    output: &mut impl Write,
    container: &Container<D>,
    reply: &Reply,
) -> io::Result<()> {
    output.write_all(&write_trace(alloc, container.names(), container.trace())?)?;
    output.write_all(&write_reply(alloc, container.names(), reply)?)?;
    tell_living(alloc, output, container)
}

/// Carries out one command after the other, and tells what came of each.
fn play<D: Driver + Drop>(
    alloc: Global,
    output: &mut impl Write,
    container: Container<D>,
) -> io::Result<()> {
    let mut container = container;
    tell(alloc, output, &container, container.boot_reply())?;
    let commands = [
        begin(alloc)?,
        buy(alloc, 1)?,
        fire(alloc, 12)?,
        Command::Shutdown,
    ];
    for command in &commands {
        let reply = container.command(command);
        tell(alloc, output, &container, &reply)?;
    }
    Ok(())
}

/// Starts a container, if its deployment is accepted, and asks it.
fn run_accepted<D: Driver + Drop>(
    alloc: Global,
    output: &mut impl Write,
    accepted: Result<RunTables, OrMemory<Unaccepted>>,
    driver: D,
) -> io::Result<()>
    requires drives { IfOk accepted (λ tables. Drives (machine_tables tables) (D.knows driver)) }
    requires servable { IfOk accepted IsServable }
{
    let Ok(tables) = accepted else {
        return Err(wrong());
    };
    play(
        alloc,
        output,
        Container::start(alloc, tables, driver, Limits::default()),
    )
}

/// Registers a body under a name.
fn register(
    names: &Names,
    name: &str,
    shape: Shape,
    body: Body,
    bodies: &mut Bodies,
) -> io::Result<()>
    requires callable { Body.IsAlwaysCallable body }
    requires within { KeepsShape (Body.post body) shape }
{
    match bodies.add(names.name_for(name), shape, body) {
        Ok(_) => Ok(()),
        Err(_) => Err(wrong()),
    }
}

/// Accepts the deployment with the bodies, and goes on with a container. Where an order is left open, it takes the first.
#[tactic(auto, using(crate::proofs::Driven::drives_with))]
fn run_with(
    alloc: Global,
    output: &mut impl Write,
    deployment: Deployment,
    bodies: Bodies,
) -> io::Result<()> {
    let choice: Choice = Box::new(
        alloc,
        |_count: u32, _entries: u64| -> u32
            requires { 0 < _count }
            ensures { result < _count }
        { 0 },
    )?;
    let chooser = Chooser::new(choice);
    let accepted = accept(alloc, deployment, &bodies);
    run_accepted(alloc, output, accepted, Registered { bodies, chooser })
}

/// Makes the bodies, closures of which one has a list of prices, registers them, and goes on. They are made here, since no function may
/// hand out a closure that it boxed.
pub(crate) fn run_box_office(alloc: Global, output: &mut impl Write) -> io::Result<()> {
    let deployment = deployment_of(alloc, BOX_OFFICE)?;
    let prices = vec![in alloc; 40i64, 25, 15]?;
    let sell_body: Body = Box::new(
        alloc,
        move |_fields: &Fields, view: &View| -> Result<Act, AllocError>
            ensures { IfOk result (λ act. in_shape no_acts view.now act ≡ true) }
        { Ok(act_of_office(&prices, view)) },
    )?;
    let office = deployment.names.name_for("office");
    let sell = deployment.names.name_for("sell");
    let sold = deployment.names.name_for("Sold");
    let buy_body: Body = Box::new(
        alloc,
        move |_fields: &Fields, view: &View| -> Result<Act, AllocError>
            ensures { IfOk result
                (λ act. in_shape (spec.buy_shape office sell sold) view.now act ≡ true) }
        { act_of_desk(alloc, office, sell, sold, view) },
    )?;
    let takings = deployment.names.name_for("takings");
    let note_body: Body = Box::new(
        alloc,
        move |fields: &Fields, view: &View| -> Result<Act, AllocError>
            ensures { IfOk result (λ act. in_shape (spec.note_shape takings) view.now act ≡ true) }
        { Ok(act_of_ledger(takings, fields, view)) },
    )?;
    let names = &deployment.names;
    let buys = buy_shape(alloc, office, sell, sold)?;
    let notes = note_shape(alloc, takings)?;
    let mut bodies = Bodies::new(alloc);
    register(names, "sell", Shape::new(alloc), sell_body, &mut bodies)?;
    register(names, "buy", buys, buy_body, &mut bodies)?;
    register(names, "note", notes, note_body, &mut bodies)?;
    run_with(alloc, output, deployment, bodies)
}
