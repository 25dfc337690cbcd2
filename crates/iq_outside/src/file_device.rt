//! Blocks in a file.
ghost use Rattle.std.specs.Prelude.{◌≡◌, None, false};
ghost use Rattle.iq_outside.specs.Faults.{CountsFaults};
ghost use Rattle.std.proofs.Common.{rules};

use crate::{Block, Device, Failed};
use std::fs::{File, OpenOptions};
use std::io;
use std::os::unix::fs::FileExt;
use std::rt::Files;

/// How long a block is, in bytes.
const BLOCK: u64 = 1024;

/// The longest file, in bytes.
const LONGEST: u64 = 1_073_741_824;

/// The blocks of a file, each of 1,024 bytes at its place. The file is opened at the first call, and made where that call is
/// `resize`. It tells nothing: whether the system keeps what was written is known to nobody. A length that is no multiple
/// of 1,024, or is above 1,073,741,824 bytes, is a fault of `count`, which asks the system once and after a `resize` that
/// failed or went above: nobody else may write the file meanwhile. A sync keeps the bytes and the length; the entry of a new
/// file in its directory isn't synced. Once a sync has failed, what was written may be lost with no further word from the
/// system, so every later sync fails too. Each other call is one call of the system, and takes no memory.
#[derive(Drop)]
pub struct FileDevice<R> {
    rt: R,
    path: String,
    file: Option<File>,
    count: Option<u32>,
    lost: bool,
    faults: u64,
}

impl<R: Files<File = File>> FileDevice<R> {
    /// The file with this path. Nothing is opened yet.
    pub fn new(rt: R, path: String) -> FileDevice<R> {
        FileDevice {
            rt,
            path,
            file: None,
            count: None,
            lost: false,
            faults: 0,
        }
    }

    /// Opens the file, where it isn't open yet.
    fn open(&mut self, make: bool) -> io::Result<()>
        ensures { self.new.faults ≡ self.old.faults }
    {
        if self.file.is_none() {
            let mut options = OpenOptions::new();
            options.read(true).write(true).create(make);
            self.file = Some(options.open(&self.rt, self.path.as_str())?);
        }
        Ok(())
    }

    /// What a call answers, where a fault is counted.
    fn told<T: Drop>(&mut self, outcome: io::Result<T>) -> Result<T, Failed>
        ensures { CountsFaults result self.old.faults self.new.faults }
    {
        match outcome {
            Ok(value) => Ok(value),
            Err(_) => {
                self.faults = self.faults.saturating_add(1);
                Err(Failed)
            }
        }
    }

    fn try_count(&mut self) -> io::Result<u32>
        ensures { self.new.faults ≡ self.old.faults }
    {
        if let Some(count) = self.count {
            return Ok(count);
        }
        self.open(false)?;
        let length = length_of(&self.file)?;
        if length % BLOCK != 0 || length > LONGEST {
            return Err(io::ErrorKind::InvalidData.into());
        }
        let count = (length / BLOCK) as u32;
        self.count = Some(count);
        Ok(count)
    }

    fn try_resize(&mut self, count: u32) -> io::Result<()>
        ensures { self.new.faults ≡ self.old.faults }
    {
        self.open(true)?;
        self.count = None;
        let length = u64::from(count) * BLOCK;
        match &self.file {
            Some(file) => file.set_len(length)?,
            None => return Err(io::ErrorKind::NotFound.into()),
        }
        if length <= LONGEST {
            self.count = Some(count);
        }
        Ok(())
    }

    fn try_read(&mut self, at: u32, into: &mut Block) -> io::Result<()>
        ensures { self.new.faults ≡ self.old.faults }
    {
        self.open(false)?;
        match &self.file {
            Some(file) => file.read_exact_at(into, u64::from(at) * BLOCK),
            None => Err(io::ErrorKind::NotFound.into()),
        }
    }

    fn try_write(&mut self, at: u32, from: &Block) -> io::Result<()>
        ensures { self.new.faults ≡ self.old.faults }
    {
        self.open(false)?;
        match &self.file {
            Some(file) => file.write_all_at(from, u64::from(at) * BLOCK),
            None => Err(io::ErrorKind::NotFound.into()),
        }
    }

    fn try_sync(&mut self) -> io::Result<()>
        ensures { self.new.faults ≡ self.old.faults }
    {
        self.open(false)?;
        let outcome = match &self.file {
            Some(file) if !self.lost => file.sync_data(),
            _ => Err(io::ErrorKind::Other.into()),
        };
        self.lost = outcome.is_err();
        outcome
    }
}

/// The length of an open file, in bytes.
fn length_of(file: &Option<File>) -> io::Result<u64> {
    match file {
        Some(file) => Ok(file.metadata()?.len()),
        None => Err(io::ErrorKind::NotFound.into()),
    }
}

impl<R: Files<File = File> + Drop> Device for FileDevice<R> {
    ghost blocks = { λ _. None };

    ghost faults = { λ d. d.faults };

    ghost tells = { λ _. false };

    ghost clock = { λ _. 0 };

    ghost image = { λ _ _ _. ⊥ };

    ghost whole = { λ _ _ _ _. ⊥ };

    fn count(&mut self) -> Result<u32, Failed> {
        let outcome = self.try_count();
        self.told(outcome)
    }

    fn resize(&mut self, count: u32) -> Result<(), Failed> {
        let outcome = self.try_resize(count);
        self.told(outcome)
    }

    fn read(&mut self, at: u32, into: &mut Block) -> Result<(), Failed> {
        let outcome = self.try_read(at, into);
        self.told(outcome)
    }

    fn write(&mut self, at: u32, from: &Block) -> Result<(), Failed> {
        let outcome = self.try_write(at, from);
        self.told(outcome)
    }

    fn sync(&mut self) -> Result<(), Failed> {
        let outcome = self.try_sync();
        self.told(outcome)
    }

    fn faults(&self) -> u64 {
        self.faults
    }

    fn clock(&self) -> u64 {
        0
    }

    ghost reads_now = { Prim.search rules };

    ghost stays_whole = { Prim.search rules };
}
