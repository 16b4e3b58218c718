//! Files of the system.
ghost use Rattle.std.specs.Prelude.{◌≡◌, ◌<◌, ◌≤◌, None, false, length, IfOk, OnErr};

use crate::system::{read_from, translate, write_to};
use esi_links::{Files, OutStop};
use std::io::{Seek, SeekFrom};
use std::{fs, io, rt};

/// Files of the system. They tell nothing of what they hold, and raise one count at each failure.
#[derive(Drop)]
pub struct DiskFiles<R> {
    runtime: R,
    faults: u64,
}

impl<R: rt::Files> DiskFiles<R> {
    ghost use Rattle.system_adapters.specs.Adapters.{disk_faults};

    /// The files that a runtime reaches. No call failed yet.
    pub fn new(runtime: R) -> DiskFiles<R>
        ensures { disk_faults result ≡ 0 }
    {
        DiskFiles { runtime, faults: 0 }
    }
}

impl<R: rt::Files> Files for DiskFiles<R> {
    ghost use Rattle.system_adapters.specs.Adapters.{disk_faults};

    ghost text = { λ _ _. None };

    ghost unreadable = { λ _ _. false };

    ghost log = { λ _. None };

    ghost read_faults = { λ files _. disk_faults files };

    ghost write_faults = { λ files _. disk_faults files };

    fn read(&mut self, name: &str, at: u64, into: &mut [u8]) -> Result<usize, OutStop> {
        translate(read_file(&self.runtime, name, at, into), &mut self.faults)
    }

    fn write(&mut self, name: &str, octets: &[u8]) -> Result<(), OutStop> {
        translate(write_file(&self.runtime, name, octets), &mut self.faults)
    }
}

/// Reads octets of a file from an offset on, at most as many as the system gives at once.
fn read_file<R: rt::Files>(runtime: &R, name: &str, at: u64, into: &mut [u8]) -> io::Result<usize>
    ensures bound { IfOk result (λ count. count ≤ length into.new) }
    ensures kept { OnErr result (into.new ≡ into.old) }
{
    let mut file = fs::open(runtime, name)?;
    file.seek(SeekFrom::Start(at))?;
    read_from(&mut file, into)
}

/// Puts a text in place of the whole file.
fn write_file<R: rt::Files>(runtime: &R, name: &str, octets: &[u8]) -> io::Result<()> {
    let mut file = fs::create(runtime, name)?;
    write_to(&mut file, octets)
}
