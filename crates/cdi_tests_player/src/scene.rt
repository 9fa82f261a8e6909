//! A run as it is written in a transcript, with all that it has to write.
//!
//! The first letter of a line and a space behind it say what the line is for; the rest of it is taken as it stands.
//!
//! | Letter | The rest is |
//! |---|---|
//! | `#`, or nothing | for the reader alone |
//! | `@` | a line of the deployment of the runs that follow, in the file `deployment.json` |
//! | `$` | the words of a run, which begins here |
//! | `%` | what takes the place of the next `%%` of the run's deployment; what is left of these is taken out |
//! | `*` | a number, and a text that takes the next such place so many times |
//! | `>` | a line of its input |
//! | `<` | a line that it writes |
//! | `!` | a line with which what it writes to standard error begins; without one that isn't looked at, unless the status is 0 |
//! | `=` | its exit status, if that isn't 0 |
//!
//! What the words of a run are is for the program to say that plays it.
use std::alloc::{AllocError, Global};

/// A run as it is written in a transcript.
#[derive(Drop)]
pub struct Scene {
    /// The line of its words, counted from 1.
    pub line: usize,
    pub words: String,
    pub deployment: String,
    /// What takes the places that the deployment leaves open.
    pub inserts: Vec<String>,
    pub input: String,
    pub output: String,
    pub errors: String,
    /// The exit status as it is written.
    pub status: String,
}

impl Scene {
    fn new(alloc: Global, line: usize, words: &str, deployment: &str) -> Result<Scene, AllocError> {
        Ok(Scene {
            line,
            words: String::from_str(alloc, words)?,
            deployment: String::from_str(alloc, deployment)?,
            inserts: Vec::new(alloc),
            input: String::new(alloc),
            output: String::new(alloc),
            errors: String::new(alloc),
            status: String::from_str(alloc, "0")?,
        })
    }

    /// The deployment, with what takes the places that it leaves open.
    pub fn whole_deployment(&self, alloc: Global) -> Result<String, AllocError> {
        let mut text = String::new(alloc);
        let mut inserts = self.inserts.iter();
        for (index, piece) in self.deployment.as_str().split("%%").enumerate() {
            if index > 0 {
                text.push_str(inserts.next().map_or("", |insert| insert.as_str()))?;
            }
            text.push_str(piece)?;
        }
        Ok(text)
    }

    /// Fills the next open place with a text, so many times.
    fn insert(&mut self, alloc: Global, text: &str, count: usize) -> Result<(), AllocError> {
        let insert = text.repeat(alloc, count)?;
        Ok(self.inserts.push(insert)?)
    }

    /// Takes a line that belongs to it.
    fn add(&mut self, alloc: Global, letter: &str, rest: &str) -> Result<(), AllocError> {
        match letter {
            "%" => self.insert(alloc, rest, 1),
            "*" => {
                let (count, text) = rest.split_once(' ').unwrap_or((rest, ""));
                self.insert(alloc, text, count.parse().unwrap_or(0))
            }
            ">" => push_line(&mut self.input, rest),
            "<" => push_line(&mut self.output, rest),
            "!" => push_line(&mut self.errors, rest),
            "=" => {
                self.status = String::from_str(alloc, rest)?;
                Ok(())
            }
            _ => Ok(()),
        }
    }
}

fn push_line(text: &mut String, line: &str) -> Result<(), AllocError> {
    text.push_str(line)?;
    text.push('\n')
}

/// What has been read of a transcript.
#[derive(Drop)]
struct Reading {
    scenes: Vec<Scene>,
    deployment: String,
    /// Whether the last line was one of a deployment.
    in_deployment: bool,
}

impl Reading {
    fn add_to_deployment(&mut self, rest: &str) -> Result<(), AllocError> {
        if self.in_deployment {
            self.deployment.push('\n')?;
        } else {
            self.deployment.clear();
        }
        self.in_deployment = true;
        self.deployment.push_str(rest)
    }

    /// Takes the next line, which has this number.
    fn add(&mut self, alloc: Global, number: usize, line: &str) -> Result<(), AllocError> {
        let (letter, rest) = line.split_once(' ').unwrap_or((line, ""));
        if letter == "@" {
            return self.add_to_deployment(rest);
        }
        self.in_deployment = false;
        if letter == "$" {
            let scene = Scene::new(alloc, number, rest, self.deployment.as_str())?;
            return Ok(self.scenes.push(scene)?);
        }
        match self.scenes.last_mut() {
            Some(scene) => scene.add(alloc, letter, rest),
            None => Ok(()),
        }
    }
}

/// The runs of a transcript, in their order.
pub fn scenes_of(alloc: Global, text: &str) -> Result<Vec<Scene>, AllocError> {
    let mut reading = Reading {
        scenes: Vec::new(alloc),
        deployment: String::new(alloc),
        in_deployment: false,
    };
    for (index, line) in text.split('\n').enumerate() {
        reading.add(alloc, index.saturating_add(1), line)?;
    }
    Ok(reading.scenes)
}
