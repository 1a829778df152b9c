//! The rows, from their folders.
use flux_io::{FileFail, Files, Got};
use std::alloc::Global;
use std::io::{Error, ErrorKind};
use std::{fs, io};

/// How many bytes a file of a row may have.
const MOST_BYTES: u64 = 16_777_216;

/// What stands in the files of a row. A file that isn't there is empty.
#[derive(Drop)]
pub(crate) struct Row {
    /// The calls, one a line, each with its words parted by single spaces. They need not be UTF-8.
    pub(crate) calls: Vec<u8>,
    /// What each call reads.
    pub(crate) input: Vec<u8>,
    /// What all calls together have to write.
    pub(crate) output: Vec<u8>,
    /// The fault lines that all calls together have to end with.
    pub(crate) faults: Vec<u8>,
    /// The status with which each call has to end, in decimal.
    pub(crate) status: Vec<u8>,
}

/// The names of the folders that have a file `args`, in their order.
pub(crate) fn rows_in(rt: &HostRuntime, folder: &str) -> io::Result<Vec<String>> {
    let mut names = Vec::new(rt.alloc());
    for entry in fs::read_dir(rt, folder)? {
        let entry = entry?;
        let args = format!(in rt.alloc(); "{}/args", entry.file_name())?;
        if entry.file_type()?.is_dir() && fs::exists(rt, args.as_str())? {
            names.push(String::from_str(rt.alloc(), entry.file_name())?)?;
        }
    }
    names.sort()?;
    Ok(names)
}

/// The bytes of a file of a row.
fn read_file<F: Files>(alloc: Global, files: &mut F, row: &str, name: &str) -> io::Result<Vec<u8>> {
    let path = format!(in alloc; "{row}/{name}")?;
    let mut bytes = Vec::new(alloc);
    match files.read(path.as_str(), &mut bytes, MOST_BYTES) {
        Ok(Got::Whole) | Ok(Got::Absent) => Ok(bytes),
        Ok(Got::Long) => Err(Error::from(ErrorKind::FileTooLarge)),
        Err(FileFail::Failed) => Err(Error::from(ErrorKind::Other)),
        Err(FileFail::Memory) => Err(Error::from(ErrorKind::OutOfMemory)),
    }
}

/// The row in a folder.
pub(crate) fn read_row<F: Files>(alloc: Global, files: &mut F, name: &str) -> io::Result<Row> {
    Ok(Row {
        calls: read_file(alloc, files, name, "args")?,
        input: read_file(alloc, files, name, "stdin")?,
        output: read_file(alloc, files, name, "stdout")?,
        faults: read_file(alloc, files, name, "stderr")?,
        status: read_file(alloc, files, name, "status")?,
    })
}
