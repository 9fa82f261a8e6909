//! The container as a library of a program: a box office, whose bodies are closures with state of their own; and two shops in one
//! thread, whose containers take turns.
#![tactic(auto)]

mod bodies;
mod box_office;
mod reading;
mod two_shops;

use box_office::run_box_office;
use std::io;
use std::process::ExitCode;
use two_shops::run_two_shops;

fn main(rt: HostRuntime) -> io::Result<ExitCode> {
    let mut output = io::writer(&rt);
    run_box_office(rt.alloc(), &mut output)?;
    run_two_shops(rt.alloc(), &mut output)?;
    Ok(ExitCode::SUCCESS)
}
