//! What has to be true of the entries of a run, checked one entry after the other, whatever wrote them.
use cdi_base::{Act, Entry, Place};
use std::alloc::{AllocError, Global};

/// How far the life of an instance has come.
#[derive(Clone, Copy, Debug, PartialEq, Eq, Drop)]
enum Phase {
    New,
    Ready,
    Ending,
    Gone,
    Dropped,
}

/// An instance: what of, how far its life has come, and which callbacks have started on it.
#[derive(Drop)]
struct Instance {
    bean: Place,
    phase: Phase,
    callbacks: Vec<Place>,
}

/// What a deployment says of its beans, as far as it matters here.
#[derive(Drop)]
pub struct Beans {
    /// The places of the application-scoped beans.
    pub shared: Vec<Place>,
    /// The places of the pre-destroy callbacks.
    pub farewells: Vec<Place>,
}

/// What has been heard of a run so far, and the first sentence that it broke.
#[derive(Drop)]
pub struct Ledger {
    beans: Beans,
    /// The number of the first instance; others follow it without a gap.
    first: u32,
    instances: Vec<Instance>,
    /// The numbers of those whose destruction is under way, the latest last.
    ending: Vec<u32>,
    /// Whether the entry before told of an own call.
    calls_own: bool,
    broken: Option<&'static str>,
    alloc: Global,
}

impl Ledger {
    /// Nothing has been heard yet.
    pub fn new(alloc: Global, beans: Beans) -> Ledger {
        Ledger {
            beans,
            first: 0,
            instances: Vec::new(alloc),
            ending: Vec::new(alloc),
            calls_own: false,
            broken: None,
            alloc,
        }
    }

    /// The first sentence that was broken, if one was.
    pub fn broken(&self) -> Option<&'static str> {
        self.broken
    }

    fn need(&mut self, holds: bool, sentence: &'static str) {
        if !holds && self.broken.is_none() {
            self.broken = Some(sentence);
        }
    }

    fn instance(&self, number: u32) -> Option<&Instance> {
        self.instances.get(number.checked_sub(self.first)? as usize)
    }

    fn phase(&self, number: u32) -> Option<Phase> {
        Some(self.instance(number)?.phase)
    }

    fn put_phase(&mut self, number: u32, phase: Phase) {
        let Some(place) = number.checked_sub(self.first) else {
            return;
        };
        if let Some(instance) = self.instances.get_mut(place as usize) {
            instance.phase = phase;
        }
    }

    fn is_next(&self, number: u32) -> bool {
        u64::from(number) == u64::from(self.first) + self.instances.as_slice().len() as u64
    }

    /// Whether an application-scoped bean has an instance whose destruction hasn't begun.
    fn stands(&self, bean: &Place) -> bool {
        self.beans.shared.contains(bean)
            && self.instances.iter().any(|other| other.bean == *bean
                && (other.phase == Phase::New || other.phase == Phase::Ready))
    }

    fn hear_new(&mut self, number: u32, bean: Place) -> Result<(), AllocError> {
        if self.instances.is_empty() {
            self.first = number;
        }
        self.need(
            self.is_next(number),
            "numbers are given one after the other",
        );
        self.need(
            !self.stands(&bean),
            "an application-scoped bean has one instance at a time",
        );
        let made = Instance {
            bean,
            phase: Phase::New,
            callbacks: Vec::new(self.alloc),
        };
        self.instances.push(made)?;
        Ok(())
    }

    fn hear_phase(&mut self, number: u32, from: Phase, to: Phase, sentence: &'static str) {
        self.need(self.phase(number) == Some(from), sentence);
        self.put_phase(number, to);
    }

    fn hear_end(&mut self, number: u32) -> Result<(), AllocError> {
        self.hear_phase(number, Phase::Ready, Phase::Ending, "what ends was ready");
        self.ending.push(number)?;
        Ok(())
    }

    fn hear_gone(&mut self, number: u32) {
        self.hear_phase(
            number,
            Phase::Ending,
            Phase::Gone,
            "what is gone had its end",
        );
        let last = self.ending.pop();
        self.need(last == Some(number), "destructions are nested");
    }

    /// Hears of a callback, and tells whether it is the first time on this instance.
    fn is_first(&mut self, number: u32, callback: Place) -> Result<bool, AllocError> {
        let Some(place) = number.checked_sub(self.first) else {
            return Ok(true);
        };
        let Some(instance) = self.instances.get_mut(place as usize) else {
            return Ok(true);
        };
        if instance.callbacks.contains(&callback) {
            return Ok(false);
        }
        instance.callbacks.push(callback)?;
        Ok(true)
    }

    fn hear_farewell(&mut self, number: u32, callback: Place) -> Result<(), AllocError> {
        let is_ending = self.phase(number) == Some(Phase::Ending);
        self.need(is_ending, "callbacks run in the destruction");
        let is_first = self.is_first(number, callback)?;
        self.need(is_first, "each callback runs once");
        Ok(())
    }

    /// A body starts: on what is there, and in a destruction it is a callback or what that calls of its own.
    fn hear_run(&mut self, number: u32, member: Place) -> Result<(), AllocError> {
        let phase = self.phase(number);
        let is_there = matches!(phase, Some(Phase::New | Phase::Ready | Phase::Ending));
        self.need(is_there, "bodies start on what is there");
        if self.beans.farewells.contains(&member) {
            return self.hear_farewell(number, member);
        }
        let may = phase != Some(Phase::Ending) || self.calls_own;
        self.need(may, "only farewells run in the destruction");
        Ok(())
    }

    /// Hears of one entry more.
    pub fn hear(&mut self, entry: &Entry) -> Result<(), AllocError> {
        match entry {
            Entry::New { number, bean } => self.hear_new(*number, *bean)?,
            Entry::Ready { number } => {
                self.hear_phase(*number, Phase::New, Phase::Ready, "what is ready was new")
            }
            Entry::Drop { number } => {
                self.hear_phase(
                    *number,
                    Phase::New,
                    Phase::Dropped,
                    "what is dropped was new",
                )
            }
            Entry::End { number } => self.hear_end(*number)?,
            Entry::Gone { number } => self.hear_gone(*number),
            Entry::Run { number, member } => self.hear_run(*number, *member)?,
            _ => {}
        }
        self.calls_own = matches!(entry, Entry::Did(Act::Own { .. }));
        Ok(())
    }

    /// Hears of the entries of a command.
    pub fn hear_all(&mut self, entries: &[Entry]) -> Result<(), AllocError> {
        for entry in entries {
            self.hear(entry)?;
        }
        Ok(())
    }

    /// Hears that a shutdown was answered done.
    pub fn hear_shutdown(&mut self) {
        let is_empty = self.instances.iter().all(|instance| instance.phase == Phase::Gone
            || instance.phase == Phase::Dropped);
        self.need(is_empty, "a shutdown leaves nothing");
    }
}
