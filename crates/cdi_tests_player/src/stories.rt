//! Stories of instances, behind the word `ledger`: what the ledger says of entries that are written by hand. Each line is an entry, or what
//! has to be known of the beans before the first one; the answer is the first sentence that is broken, or that the ledger is kept.
//!
//! | Line | Meaning |
//! |---|---|
//! | `shared BEAN`, `farewell BEAN METHOD` | an application-scoped bean; a pre-destroy callback |
//! | `new NUMBER BEAN`, `ready`, `drop`, `end`, `gone` with a NUMBER | the entry |
//! | `run NUMBER BEAN METHOD`, `own` | the entry; that a body called a method of its own instance |
//! | `shutdown` | a shutdown was answered done |
use crate::ledger::{Beans, Ledger};
use crate::playing::{Played, Player};
use crate::scene::Scene;
use cdi_base::{Act, Entry, Name, Names, OrMemory, Place, Seq, is_name};
use std::alloc::{AllocError, Global};

fn name_of(names: &mut Names, word: &str) -> Result<Name, AllocError> {
    if !is_name(word) {
        return Ok(names.name_for(word));
    }
    match names.intern(word) {
        Ok(name) => Ok(name),
        Err(OrMemory::Memory) => Err(AllocError),
        Err(OrMemory::Fault(_)) => Ok(names.name_for(word)),
    }
}

/// What is read so far: the names, the beans and the entries.
#[derive(Drop)]
struct Story {
    names: Names,
    beans: Beans,
    entries: Vec<Entry>,
    is_down: bool,
}

impl Story {
    fn new(alloc: Global) -> Story {
        Story {
            names: Names::new(alloc),
            beans: Beans {
                shared: Vec::new(alloc),
                farewells: Vec::new(alloc),
            },
            entries: Vec::new(alloc),
            is_down: false,
        }
    }

    fn bean(&mut self, word: &str) -> Result<Place, AllocError> {
        Ok(Place::Class(name_of(&mut self.names, word)?))
    }

    fn member(&mut self, bean: &str, method: &str) -> Result<Place, AllocError> {
        Ok(Place::Member {
            class: name_of(&mut self.names, bean)?,
            member: name_of(&mut self.names, method)?,
        })
    }

    fn read_run(&mut self, number: &str, bean: &str, method: &str) -> Result<(), AllocError> {
        let member = self.member(bean, method)?;
        self.entries.push(Entry::Run {
            number: number.parse().unwrap_or(0),
            member,
        })?;
        Ok(())
    }

    fn read_own(&mut self, alloc: Global) -> Result<(), AllocError> {
        let method = name_of(&mut self.names, "own")?;
        self.entries.push(Entry::Did(Act::Own {
            method,
            args: Seq::empty(alloc),
        }))?;
        Ok(())
    }

    /// An entry of a number alone.
    fn read_numbered(&mut self, word: &str, number: u32) -> Result<(), AllocError> {
        let entry = match word {
            "ready" => Entry::Ready { number },
            "drop" => Entry::Drop { number },
            "end" => Entry::End { number },
            _ => Entry::Gone { number },
        };
        self.entries.push(entry)?;
        Ok(())
    }

    fn read_new(&mut self, number: &str, bean: &str) -> Result<(), AllocError> {
        let bean = self.bean(bean)?;
        self.entries.push(Entry::New {
            number: number.parse().unwrap_or(0),
            bean,
        })?;
        Ok(())
    }

    fn read_line(&mut self, alloc: Global, line: &str) -> Result<(), AllocError> {
        let words: Vec<&str> = line.split_whitespace().collect(alloc)?;
        match words.as_slice() {
            ["shared", bean] => {
                let bean = self.bean(bean)?;
                self.beans.shared.push(bean)?;
            }
            ["farewell", bean, method] => {
                let member = self.member(bean, method)?;
                self.beans.farewells.push(member)?;
            }
            ["new", number, bean] => self.read_new(number, bean)?,
            ["run", number, bean, method] => self.read_run(number, bean, method)?,
            ["own"] => self.read_own(alloc)?,
            ["shutdown"] => self.is_down = true,
            [word, number] => self.read_numbered(word, number.parse().unwrap_or(0))?,
            _ => {}
        }
        Ok(())
    }
}

/// What the ledger says of a story.
fn told(alloc: Global, story: Story) -> Result<&'static str, AllocError> {
    let Story {
        names: _names,
        beans,
        entries,
        is_down,
    } = story;
    let mut ledger = Ledger::new(alloc, beans);
    ledger.hear_all(&entries)?;
    if is_down {
        ledger.hear_shutdown();
    }
    Ok(ledger.broken().unwrap_or("kept"))
}

/// What the ledger says of the story that these lines are.
fn story_answers(alloc: Global, input: &str) -> Result<String, AllocError> {
    let mut story = Story::new(alloc);
    for line in input.lines() {
        story.read_line(alloc, line)?;
    }
    let sentence = told(alloc, story)?;
    format!(in alloc; "{sentence}\n")
}

/// Stories of instances, each with what it breaks.
pub struct Stories;

impl Player for Stories {
    fn play(&self, alloc: Global, _words: &[&str], scene: &Scene) -> Result<Played, AllocError> {
        let text = story_answers(alloc, scene.input.as_str())?;
        Ok(Played::well(alloc, text.into_bytes()))
    }
}
