//! Stores of files in memory.
ghost use Rattle.std.specs.Prelude.{◌≡◌, ◌↔◌, Contains, IsErrOf, Some, option_map};
ghost use Rattle.flux_io.specs.Counts.{next_count};
ghost use Rattle.flux_io.specs.Memory.{next_call};
ghost use Rattle.flux_io.specs.Stores.{AnswersFile, HasFileCause, ReadsFile, faults_after, file_of, refused_after};

use crate::calls::Calls;
use crate::stores::{FileFail, Files, Got};
use flux_defs::{List, Text};
use std::marker::Model;

/// Files in memory, each a name and its bytes, that are read without a fault. Of equal names the first counts.
#[derive(Debug, Drop)]
pub struct SureFiles {
    files: List<(Text, Text)>,
    refused: u64,
}

impl Model for SureFiles {
    ghost use Rattle.flux_io.specs.Memory.{StoreState};

    ghost Value = { StoreState };

    ghost view = { λ store. record { files = store.files; refused = store.refused } };
}

impl SureFiles {
    /// The store of these files.
    pub fn new(files: List<(Text, Text)>) -> SureFiles
        ensures { result ≡ record { files = files; refused = 0 } }
    {
        SureFiles { files, refused: 0 }
    }
}

/// The bytes of the first file of the name.
fn find_file<'a>(files: &'a List<(Text, Text)>, name: &[u8]) -> Option<&'a [u8]>
    ensures { option_map (λ bytes. bytes.now) result ≡ file_of files.now name.now }
{
    'files: for file in files.items() {
        if file.0.bytes() == name {
            return Some(file.1.bytes());
        }
    }
    None
}

impl Files for SureFiles {
    ghost use Rattle.std.specs.Prelude.{Some};

    ghost told = { λ store. Some store.files };

    ghost faults = { λ _. 0 };

    ghost refused = { λ store. store.refused };

    fn read(&mut self, name: &str, into: &mut Vec<u8>, most: u64) -> Result<Got, FileFail>
        ensures file { ReadsFile (Some self.old.files) name.now most into.old.items into.new.items result }
        ensures same { Some self.new.files ≡ Some self.old.files }
        ensures cause { HasFileCause 0 0 self.old.refused self.new.refused result }
        ensures sure { AnswersFile (file_of self.old.files name.now) most result }
        ensures store { self.new ≡ record self.old { refused = refused_after self.old.refused result } }
    {
        let Some(bytes) = find_file(&self.files, name.as_bytes()) else {
            self.refused = self.refused.saturating_add(1);
            return Ok(Got::Absent);
        };
        if bytes.len() as u64 > most {
            self.refused = self.refused.saturating_add(1);
            return Ok(Got::Long);
        }
        match into.extend_from_slice(bytes) {
            Ok(()) => Ok(Got::Whole),
            Err(_) => Err(FileFail::Memory),
        }
    }
}

/// Files in memory of which the reads fail whose numbers, from 1, are listed.
#[derive(Debug, Drop)]
pub struct MemFiles {
    store: SureFiles,
    calls: Calls,
    faults: u64,
}

impl Model for MemFiles {
    ghost use Rattle.flux_io.specs.Memory.{FailingStore};

    ghost Value = { FailingStore };

    ghost view = { λ mem. record { store = mem.store; calls = mem.calls; faults = mem.faults } };
}

impl MemFiles {
    /// The store of these files.
    pub fn new(files: List<(Text, Text)>, fails: List<u64>) -> MemFiles
        ensures store { result.store ≡ record { files = files; refused = 0 } }
        ensures calls { result.calls ≡ record { made = 0; fails = fails } }
        ensures faults { result.faults ≡ 0 }
    {
        MemFiles {
            store: SureFiles::new(files),
            calls: Calls::new(fails),
            faults: 0,
        }
    }
}

impl Files for MemFiles {
    ghost use Rattle.std.specs.Prelude.{Some};

    ghost told = { λ mem. Some mem.store.files };

    ghost faults = { λ mem. mem.faults };

    ghost refused = { λ mem. mem.store.refused };

    fn read(&mut self, name: &str, into: &mut Vec<u8>, most: u64) -> Result<Got, FileFail>
        ensures file { ReadsFile (Some self.old.store.files) name.now most
            into.old.items into.new.items result }
        ensures same { Some self.new.store.files ≡ Some self.old.store.files }
        ensures cause { HasFileCause self.old.faults self.new.faults
            self.old.store.refused self.new.store.refused result }
        ensures failed { IsErrOf result FileFail.Failed
            ↔ Contains self.old.calls.fails (next_count self.old.calls.made) }
        ensures answers { ¬ Contains self.old.calls.fails (next_count self.old.calls.made)
            → AnswersFile (file_of self.old.store.files name.now) most result }
        ensures store { self.new.store
            ≡ record self.old.store { refused = refused_after self.old.store.refused result } }
        ensures calls { self.new.calls ≡ next_call self.old.calls }
        ensures faults { self.new.faults ≡ faults_after self.old.faults result }
    {
        if self.calls.next_fails() {
            self.faults = self.faults.saturating_add(1);
            return Err(FileFail::Failed);
        }
        self.store.read(name, into, most)
    }
}
