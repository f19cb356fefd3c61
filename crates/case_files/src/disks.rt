//! Disks of a case: changed by hand, and copied for runs in which calls fail.

use crate::fault::{CaseFault, both};
use crate::step::{DiskName, Failure, Outside};
use memory_world::MemoryDisk;
use outside_api::{Disk, fill};
use std::alloc::{AllocError, Global};

/// The disks of a depot.
#[derive(Drop)]
pub struct Disks {
    pub journal: MemoryDisk,
    pub archive: MemoryDisk,
}

/// The disks of a case.
#[derive(Drop)]
pub struct Sites {
    /// Those of the depot.
    pub depot: Disks,
    /// Those of the node that follows it.
    pub node: Disks,
}

/// A disk of empty files.
fn empty_disk(alloc: Global) -> MemoryDisk {
    MemoryDisk::new(Vec::new(alloc))
}

impl Disks {
    /// Disks of empty files.
    pub fn empty(alloc: Global) -> Self {
        Disks {
            journal: empty_disk(alloc),
            archive: empty_disk(alloc),
        }
    }

    /// Copies, by the names of their disks, in which these calls fail.
    fn failing_copies(
        &mut self,
        alloc: Global,
        failures: &[Failure],
        journal: DiskName,
        archive: DiskName,
    ) -> Result<Disks, CaseFault> {
        let (journal, archive) = both(
            failing_copy(alloc, &mut self.journal, failures, journal),
            failing_copy(alloc, &mut self.archive, failures, archive),
        )?;
        Ok(Disks { journal, archive })
    }

    /// What a stop at a moment of the journal's disk leaves, with the archive's disk as it is now. The open bytes of
    /// each are those of a text and then 0.
    fn stopped(&self, moment: u64, pick: &[u8]) -> Result<Disks, AllocError> {
        let (journal, archive) = both(
            self.journal.image(moment, pick),
            self.archive.image(u64::MAX, pick),
        )?;
        Ok(Disks { journal, archive })
    }
}

impl Sites {
    /// Disks of empty files.
    pub fn empty(alloc: Global) -> Self {
        Sites {
            depot: Disks::empty(alloc),
            node: Disks::empty(alloc),
        }
    }

    /// The disk of a name.
    pub fn named(&mut self, name: DiskName) -> &mut MemoryDisk {
        match name {
            DiskName::Journal => &mut self.depot.journal,
            DiskName::Archive => &mut self.depot.archive,
            DiskName::NodeJournal => &mut self.node.journal,
            DiskName::NodeArchive => &mut self.node.archive,
        }
    }

    /// Copies in which these calls fail.
    pub fn failing_copies(
        &mut self,
        alloc: Global,
        failures: &[Failure],
    ) -> Result<Sites, CaseFault> {
        let (depot, node) = both(
            self.depot
                .failing_copies(alloc, failures, DiskName::Journal, DiskName::Archive),
            self.node.failing_copies(
                alloc,
                failures,
                DiskName::NodeJournal,
                DiskName::NodeArchive,
            ),
        )?;
        Ok(Sites { depot, node })
    }

    /// What a stop at a moment of the depot's journal's disk leaves, with the other disks as they are now. The open
    /// bytes of each are those of a text and then 0.
    pub fn stopped(&self, moment: u64, pick: &[u8]) -> Result<Sites, AllocError> {
        let (depot, node) = both(
            self.depot.stopped(moment, pick),
            self.node.stopped(u64::MAX, pick),
        )?;
        Ok(Sites { depot, node })
    }
}

/// Changes a byte of a file.
pub fn damage<D: Disk>(disk: &mut D, file: u32, place: u64, byte: u8) -> Result<(), CaseFault> {
    let Ok(length) = disk.length(file) else {
        return Err(CaseFault::DiskFailed);
    };
    if place >= length {
        return Err(CaseFault::OutsideFile);
    }
    disk.write_at(file, place, &[byte])
        .or(Err(CaseFault::DiskFailed))
}

/// Cuts a file to a length.
pub fn cut<D: Disk>(disk: &mut D, file: u32, length: u64) -> Result<(), CaseFault> {
    let Ok(whole) = disk.length(file) else {
        return Err(CaseFault::DiskFailed);
    };
    if length > whole {
        return Err(CaseFault::OutsideFile);
    }
    disk.cut(file, length).or(Err(CaseFault::DiskFailed))
}

/// Lets a file be these bytes.
pub fn put_file<D: Disk>(disk: &mut D, file: u32, bytes: &[u8]) -> Result<(), CaseFault> {
    if disk.cut(file, 0).is_err() || disk.write_at(file, 0, bytes).is_err() {
        return Err(CaseFault::DiskFailed);
    }
    Ok(())
}

/// Adds the numbers of the calls of a failure.
fn add_calls(calls: &mut Vec<u64>, failure: Failure) -> Result<(), AllocError> {
    for call in failure.first..=failure.last {
        calls.push(call)?;
    }
    Ok(())
}

/// The numbers of the calls of an object that fail.
pub fn failing_calls(
    alloc: Global,
    failures: &[Failure],
    object: Outside,
) -> Result<Vec<u64>, AllocError> {
    let mut calls = Vec::new(alloc);
    for failure in failures {
        if failure.object == object {
            add_calls(&mut calls, *failure)?;
        }
    }
    Ok(calls)
}

/// The bytes of a file.
pub fn bytes_of(alloc: Global, disk: &mut MemoryDisk, file: u32) -> Result<Vec<u8>, CaseFault> {
    let Ok(length) = disk.length(file) else {
        return Err(CaseFault::DiskFailed);
    };
    let mut bytes = vec![in alloc; 0u8; length as usize]?;
    match fill(disk, file, 0, &mut bytes) {
        Ok(_) => Ok(bytes),
        Err(_) => {
            drop(bytes);
            Err(CaseFault::DiskFailed)
        }
    }
}

/// A copy of the disk of a name in which these calls fail. The disk is synced, so that no bytes are open in what a stop
/// now would leave.
fn failing_copy(
    alloc: Global,
    disk: &mut MemoryDisk,
    failures: &[Failure],
    name: DiskName,
) -> Result<MemoryDisk, CaseFault> {
    if disk.sync().is_err() {
        return Err(CaseFault::DiskFailed);
    }
    let calls = failing_calls(alloc, failures, Outside::Disk(name));
    match both(disk.image(u64::MAX, &[]), calls) {
        Ok((copy, calls)) => Ok(copy.with_fails(calls)),
        Err(AllocError) => Err(CaseFault::Memory),
    }
}
