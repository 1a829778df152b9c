//! The files of the system as a store.
ghost use Rattle.std.specs.Prelude.{◌≡◌, ℕ, IfErr, IfOk, IsErrOf, List, None, Option};
ghost use Rattle.std.specs.IoError.{error_kind};
ghost use Rattle.flux_io.specs.Stores.{HasFileCause, ReadsFile, ReadsKnown, faults_after, refused_after};
ghost use Rattle.flux_io.specs.Streams.{HasLeft};

use crate::std_source::{RETRIES, StdSource};
use crate::stores::{FileFail, Files, Got};
use crate::whole::{ReadAllFail, append_all};
use std::io::{ErrorKind, Read};
use std::marker::Model;
use std::{fs, io, rt};

/// What opens files by their names.
pub trait FileOpener {
    type File: Read + Drop;

    /// The bytes that the file of a name gives, where the opener tells them.
    ghost content: { Self → List ℕ → Option (List ℕ) };

    /// Opens the file for reading. `NotFound` says that there is none.
    fn open(&self, name: &str) -> io::Result<Self::File>
        ensures file { IfOk result (λ file. HasLeft (content self.now name.now) (Self.File.remaining file)) }
        ensures found { IfErr result (λ e. error_kind e ≡ ErrorKind.NotFound
            → content self.now name.now ≡ None) };
}

/// The files that a runtime reaches. It tells nothing of their bytes.
#[derive(Drop)]
pub struct SystemFiles<R: rt::Files + Drop> {
    rt: R,
}

impl<R: rt::Files + Drop> FileOpener for SystemFiles<R> {
    ghost use Rattle.std.specs.Prelude.{None};

    type File = R::File;

    ghost content = { λ _ _. None };

    fn open(&self, name: &str) -> io::Result<R::File> {
        fs::open(&self.rt, name)
    }
}

/// The files of the system, by their paths. A call that a signal interrupts is tried again, up to 1,000 times.
/// A path whose file or folder isn't there is absent; what else keeps a file from being read is a fault.
/// It tells no files; that it passes on what the opener tells of them is proved for every opener.
#[derive(Drop)]
pub struct StdFiles<O: FileOpener + Drop> {
    opener: O,
    faults: u64,
    refused: u64,
}

impl<O: FileOpener + Drop> Model for StdFiles<O> {
    ghost use Rattle.flux_io.specs.Memory.{CountedStore, counted_store_code};

    ghost Value = { CountedStore O };

    ghost coded = { counted_store_code O.code };

    ghost view = { λ store. record {
      opener = store.opener;
      faults = store.faults;
      refused = store.refused;
    } };
}

impl<R: rt::Files + Drop> StdFiles<SystemFiles<R>> {
    /// The files that the runtime reaches.
    pub fn new(rt: R) -> StdFiles<SystemFiles<R>>
        ensures faults { result.faults ≡ 0 }
        ensures refused { result.refused ≡ 0 }
    {
        StdFiles::of(SystemFiles { rt })
    }
}

impl<O: FileOpener + Drop> StdFiles<O> {
    /// The files that the opener opens.
    pub fn of(opener: O) -> StdFiles<O>
        ensures { result ≡ record { opener = opener; faults = 0; refused = 0 } }
    {
        StdFiles {
            opener,
            faults: 0,
            refused: 0,
        }
    }
}

/// Why no file was opened.
#[derive(Clone, Copy, PartialEq, Eq)]
enum OpenFail {
    Absent,
    Failed,
}

/// Opens a file, and tries an interrupted call again.
fn open_file<O: FileOpener>(opener: &O, name: &str) -> Result<O::File, OpenFail>
    ensures file { IfOk result (λ file. HasLeft (O.content opener.now name.now) (O.File.remaining file)) }
    ensures absent { IsErrOf result OpenFail.Absent → O.content opener.now name.now ≡ None }
{
    for _ in 0..RETRIES + 1 {
        match opener.open(name) {
            Ok(file) => return Ok(file),
            Err(e) => match e.kind() {
                ErrorKind::Interrupted => {}
                ErrorKind::NotFound => return Err(OpenFail::Absent),
                _ => break,
            },
        }
    }
    Err(OpenFail::Failed)
}

impl<O: FileOpener + Drop> Files for StdFiles<O> {
    ghost use Rattle.std.specs.Prelude.{None};

    ghost told = { λ _. None };

    ghost faults = { λ store. store.faults };

    ghost refused = { λ store. store.refused };

    fn read(&mut self, name: &str, into: &mut Vec<u8>, most: u64) -> Result<Got, FileFail>
        ensures file { ReadsFile None name.now most into.old.items into.new.items result }
        ensures cause { HasFileCause self.old.faults self.new.faults
            self.old.refused self.new.refused result }
        ensures known { ReadsKnown (O.content self.old.opener name.now) most
            into.old.items into.new.items result }
        ensures counts { self.new ≡ record self.old {
          faults = faults_after self.old.faults result;
          refused = refused_after self.old.refused result;
        } }
    {
        let file = match open_file(&self.opener, name) {
            Ok(file) => file,
            Err(OpenFail::Absent) => {
                self.refused = self.refused.saturating_add(1);
                return Ok(Got::Absent);
            }
            Err(OpenFail::Failed) => {
                self.faults = self.faults.saturating_add(1);
                return Err(FileFail::Failed);
            }
        };
        let alloc = *into.allocator();
        match append_all(alloc, &mut StdSource::new(file), into, most) {
            Ok(()) => Ok(Got::Whole),
            Err(ReadAllFail::Long) => {
                self.refused = self.refused.saturating_add(1);
                Ok(Got::Long)
            }
            Err(ReadAllFail::Failed) => {
                self.faults = self.faults.saturating_add(1);
                Err(FileFail::Failed)
            }
            Err(ReadAllFail::Memory) => Err(FileFail::Memory),
        }
    }
}
