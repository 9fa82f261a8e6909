//! Command lines that were read lately.
ghost use Rattle.std.specs.Prelude.{◌≡◌, ℕ, List, IfOk, IfSome, None, true};
ghost use Rattle.cdi_machine.specs.Tables.{Tables};
ghost use Rattle.cdi_container.specs.KnownLines as spec;

use crate::copies::copy_of_job;
use crate::left::Unadmitted;
use cdi_steps::Job;
use lru::LruCache;
use std::alloc::Global;
use std::hash::{BuildHasher, BuildHasherDefault, FoldHasher, Hasher};
use std::num::NonZeroUsize;

/// So many lines are kept.
const CAPACITY: usize = 32;

/// What is shorter is read as fast as it is found.
const SHORTEST: usize = 256;

/// What is longer would take much memory.
const LONGEST: usize = 8_192;

/// A line, and what it asks for.
pub struct KnownLine {
    pub line: Vec<u8>,
    pub job: Job,
}

/// In one call, so that the proof of each function that owns one has one step here, and not one for each of its parts.
impl Drop for KnownLine {
    fn drop(self) {
        let Self {
            line: _line,
            job: _job,
        } = self;
    }
}

/// The command lines that were read lately, with what they ask for, so that one that comes again isn't read anew: reading a line with
/// many qualifiers, and resolving them, takes much longer than what is done then. They are found by hashes, and each is kept
/// whole, since two lines may have one hash.
#[derive(Drop)]
pub(crate) struct KnownLines {
    /// None before the first is kept.
    lines: Option<LruCache<u64, KnownLine>>,
}

/// A hash of a line. Others may have the same.
fn hash_of(line: &[u8]) -> u64 {
    let mut state: FoldHasher = BuildHasherDefault::new().build_hasher();
    state.write(line);
    state.finish()
}

/// A line with what it asks for, if there is memory for a copy.
fn known_line(alloc: Global, line: &[u8], job: &Job) -> Option<KnownLine>
    ensures { IfSome result (λ known. (names : List (List ℕ)) (tables : Tables)
        → spec.Asks names tables line.now job.now → spec.IsKnown names tables known) }
{
    let mut text = Vec::new(alloc);
    text.extend_from_slice(line).ok()?;
    let job = copy_of_job(alloc, job).ok()?;
    Some(KnownLine { line: text, job })
}

/// Whether this is the line that is kept.
fn is_line(known: &KnownLine, line: &[u8]) -> bool
    ensures { result ≡ true → known.now.line.items ≡ line.now }
{
    known.line.as_slice() == line
}

/// What a line asks for, if it is the one with a hash and there is memory for a copy.
fn job_at(alloc: Global, lines: &LruCache<u64, KnownLine>, hash: u64, line: &[u8]) -> Option<Job>
    ensures { (names : List (List ℕ)) (tables : Tables)
        → spec.AreAllKnown names tables lines.now.entries
        → IfSome result (λ job. spec.Asks names tables line.now job) }
{
    let known = lines.peek(&hash)?;
    if !is_line(known, line) {
        return None;
    }
    copy_of_job(alloc, &known.job).ok()
}

/// The same, found by its hash. It is the last that was asked for then.
fn look_up(alloc: Global, lines: &mut LruCache<u64, KnownLine>, line: &[u8]) -> Option<Job>
    ensures found { (names : List (List ℕ)) (tables : Tables)
        → spec.AreAllKnown names tables lines.old.entries
        → IfSome result (λ job. spec.Asks names tables line.now job) }
    ensures kept { (names : List (List ℕ)) (tables : Tables)
        → spec.AreAllKnown names tables lines.old.entries
        → spec.AreAllKnown names tables lines.new.entries }
{
    let hash = hash_of(line);
    let job = job_at(alloc, lines, hash, line)?;
    lines.promote(&hash);
    Some(job)
}

/// These lines, or room for some, if there is memory for it.
fn lines_or_room(
    alloc: Global,
    lines: Option<LruCache<u64, KnownLine>>,
) -> Option<LruCache<u64, KnownLine>>
    ensures { (names : List (List ℕ)) (tables : Tables)
        → IfSome lines (λ lines. spec.AreAllKnown names tables lines.entries)
        → IfSome result (λ lines. spec.AreAllKnown names tables lines.entries) }
{
    match lines {
        Some(lines) => Some(lines),
        None => {
            let capacity = NonZeroUsize::new(CAPACITY).unwrap();
            LruCache::sparse(alloc, capacity).ok()
        }
    }
}

/// Puts a line, if there is memory.
fn put(alloc: Global, lines: &mut LruCache<u64, KnownLine>, line: &[u8], job: &Job)
    ensures { (names : List (List ℕ)) (tables : Tables)
        → spec.AreAllKnown names tables lines.old.entries → spec.Asks names tables line.now job.now
        → spec.AreAllKnown names tables lines.new.entries }
{
    if let Some(known) = known_line(alloc, line, job) {
        let _ = lines.put(hash_of(line), known);
    }
}

impl KnownLines {
    /// None is kept.
    pub(crate) fn new() -> KnownLines
        ensures { result.lines ≡ None }
    {
        KnownLines { lines: None }
    }

    /// What a line asks for, if that is kept and there is memory for a copy.
    pub(crate) fn find(&mut self, alloc: Global, line: &[u8]) -> Option<Job>
        ensures found { (names : List (List ℕ)) (tables : Tables)
            → spec.AreKnown names tables self.old
            → IfSome result (λ job. spec.Asks names tables line.now job) }
        ensures kept { (names : List (List ℕ)) (tables : Tables)
            → spec.AreKnown names tables self.old → spec.AreKnown names tables self.new }
    {
        match &mut self.lines {
            Some(lines) => look_up(alloc, lines, line),
            None => None,
        }
    }

    /// Keeps what a line asks for, if it is neither short nor very long and there is memory.
    pub(crate) fn keep(&mut self, alloc: Global, line: &[u8], job: &Job)
        ensures { (names : List (List ℕ)) (tables : Tables)
            → spec.AreKnown names tables self.old → spec.Asks names tables line.now job.now
            → spec.AreKnown names tables self.new }
    {
        if line.len() < SHORTEST || line.len() > LONGEST {
            return;
        }
        self.lines = lines_or_room(alloc, self.lines.take());
        if let Some(lines) = &mut self.lines {
            put(alloc, lines, line, job);
        }
    }

    /// Keeps what a line asks for, if that was admitted.
    pub(crate) fn keep_admitted(
        &mut self,
        alloc: Global,
        line: &[u8],
        admitted: &Result<Job, Unadmitted>,
    )
        ensures { (names : List (List ℕ)) (tables : Tables)
            → spec.AreKnown names tables self.old
            → IfOk admitted.now (λ job. spec.Asks names tables line.now job)
            → spec.AreKnown names tables self.new }
    {
        match admitted {
            Ok(job) => self.keep(alloc, line, job),
            Err(_) => {}
        }
    }
}
