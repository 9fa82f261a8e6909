//! Where the bytes of files come from.
ghost use Rattle.std.specs.Prelude.{◌≡◌, ℕ, List, IfOk, OnErr};
ghost use Rattle.cdi_program.specs.Files.{GivesFront, IsFrontOf};

use std::alloc::Global;
use std::fs::File;
use std::io::Read;
use std::{fs, io};

/// Where the bytes of files come from.
pub trait Files {
    // The file at a path may be read so: of so many bytes at most, these come.
    ghost gives: { Self → List ℕ → ℕ → List ℕ → Type 0 };

    // The file at a path may be one that can't be read.
    ghost refuses: { Self → List ℕ → Type 0 };

    /// The first bytes of a file, and no more than `most` of them. An error says why it can't be read.
    fn front(&self, alloc: Global, path: &str, most: usize) -> io::Result<Vec<u8>>
        ensures bytes { IfOk result (λ bytes. gives self.now path.now most bytes.items) }
        ensures err { OnErr result (refuses self.now path.now) };
}

/// What opens files: any file system of the standard library. Here a clause can name what was opened, which it can't of
/// [`fs::Files`].
pub trait Opener {
    type Opened: Read + Drop;

    // Opening the file at a path may give this.
    ghost opens: { Self → List ℕ → Self.Opened → Type 0 };

    /// Opens the file at a path to be read from its begin.
    fn opened(&self, path: &str) -> io::Result<Self::Opened>
        ensures { IfOk result (λ file. opens self.now path.now file) };
}

impl<F: fs::Files> Opener for F {
    type Opened = F::File;

    ghost opens = { λ files path file. Unit {0} };

    fn opened(&self, path: &str) -> io::Result<F::File> {
        File::open(self, path)
    }
}

/// The first bytes that a reader gives, up to a count.
pub fn read_front<R: Read + Drop>(alloc: Global, reader: R, most: usize) -> io::Result<Vec<u8>>
    ensures { IfOk result (λ bytes. IsFrontOf (R.remaining reader) most bytes.items) }
{
    let mut bytes = Vec::new(alloc);
    reader.take(most as u64).read_to_end(&mut bytes)?;
    // No clause of the library says that a limited reader keeps its limit.
    bytes.truncate(most);
    Ok(bytes)
}

/// The files of the machine.
#[derive(Drop)]
pub struct HostFiles<'a, F = HostRuntime> {
    opener: &'a F,
}

impl<'a, F> HostFiles<'a, F> {
    /// The files of the machine that the program runs on.
    pub fn new(opener: &'a F) -> HostFiles<'a, F>
        ensures { result.opener.now ≡ opener.now }
    {
        HostFiles { opener }
    }
}

impl<F: Opener> Files for HostFiles<'_, F> {
    ghost gives = { GivesFront F.opens F.Opened.remaining };

    ghost refuses = { λ files path. Unit {0} };

    fn front(&self, alloc: Global, path: &str, most: usize) -> io::Result<Vec<u8>> {
        read_front(alloc, self.opener.opened(path)?, most)
    }
}
