//! A disk in memory. It keeps the files that it began with and each call, so that it can tell what a stop leaves.

ghost use Rattle.std.specs.Prelude.{◌≡◌, ◌⊎◌, ◌≤◌, ◌<◌, ◌+◌, ◌^◌, ℕ, [], ◌∷◌, ◌++◌, length, take, IfOk, OnOk, OnErr, IsErr, IsTrue};
ghost use Rattle.outside_api.specs.Count.{HasCause, counted};
ghost use Rattle.outside_api.specs.Disk.{Files, Follows, OnFile, Torn, Cut, Holds, Elapses, NoMore, Same, Leads, StillTells, Reads};
ghost use Rattle.memory_world.specs.Files.{contents, put, written};
ghost use Rattle.memory_world.specs.Failing.{calls_of, no_call, one_more, fails_next};
ghost use Rattle.memory_world.specs.Replay.{IsSound};
ghost use Rattle.memory_world.specs.declared.call.Call.TheVariants.{Look, Write, Sync};

use crate::call::Call;
use crate::failing::Failing;
use crate::files::{copy_files, cut_file, file_bytes, write_file};
use crate::image::{Replayed, fill_all, replay_calls};
use outside_api::{Disk, Failed};
use std::alloc::{AllocError, Global};

/// A disk in memory. A call that finds no memory for what it keeps fails as well.
#[derive(Drop)]
pub struct MemoryDisk {
    alloc: Global,
    failing: Failing,
    start: Vec<Vec<u8>>,
    files: Vec<Vec<u8>>,
    log: Vec<Call>,
    ghost sound: { IsSound (contents start.items) log.items (contents files.items) },
}

impl MemoryDisk {
    ghost use Rattle.memory_world.specs.Ranges.{IsFilled};
    ghost use Rattle.memory_world.specs.Disk.{files_of, disk_faults, disk_calls, state_at, moment_of, may_be_left};

    /// A disk of empty files, which takes no memory. The calls of these numbers, from 1, fail.
    pub fn new(fails: Vec<u64>) -> Self
        ensures files { (f : ℕ) → files_of result f ≡ [] }
        ensures moment { moment_of result ≡ 0 }
        ensures faults { disk_faults result ≡ 0 }
        ensures calls { disk_calls result ≡ no_call fails.items }
    {
        let alloc = *fails.allocator();
        MemoryDisk {
            alloc,
            failing: Failing::new(fails),
            start: Vec::new(alloc),
            files: Vec::new(alloc),
            log: Vec::new(alloc),
        }
    }

    /// The same disk, of whose calls from now on those of these numbers, from 1, fail.
    pub fn with_fails(mut self, fails: Vec<u64>) -> Self
        ensures files { (f : ℕ) → files_of result f ≡ files_of self f }
        ensures moment { moment_of result ≡ moment_of self }
        ensures states { (moment : ℕ) → state_at result moment ≡ state_at self moment }
        ensures left { Same (may_be_left self) (may_be_left result) }
        ensures faults { disk_faults result ≡ 0 }
        ensures calls { disk_calls result ≡ no_call fails.items }
    {
        self.failing = Failing::new(fails);
        self
    }

    /// The disk that a stop after so many calls leaves, or a stop now where there were fewer: with the
    /// lengths that it read then, and with the open bytes, in order of file and place, taken from
    /// `pick` and then 0.
    pub fn image(&self, moment: u64, pick: &[u8]) -> Result<MemoryDisk, AllocError>
        ensures filled { let state = state_at self.now moment in IfOk result (λ disk. IsFilled state.is_open pick.now state.files (files_of disk)) }
        ensures moment { IfOk result (λ disk. moment_of disk ≡ 0) }
        ensures faults { IfOk result (λ disk. disk_faults disk ≡ 0) }
        ensures calls { IfOk result (λ disk. disk_calls disk ≡ no_call []) }
    {
        let alloc = self.alloc;
        let Replayed {
            files: mut start,
            ranges,
        } = replay_calls(alloc, &self.start, until(&self.log, moment))?;
        fill_all(&mut start, &ranges, pick);
        let files = copy_files(alloc, &start)?;
        Ok(MemoryDisk {
            alloc,
            failing: Failing::new(Vec::new(alloc)),
            start,
            files,
            log: Vec::new(alloc),
        })
    }
}

// The first so many calls.
fn until(log: &[Call], moment: u64) -> &[Call]
    ensures { result.now ≡ take moment log.now }
{
    &log[..(moment as usize).min(log.len())]
}

// Keeps a call if there is memory for it.
fn keep(log: &mut Vec<Call>, call: Call)
    ensures { (log.new.items ≡ log.old.items) ⊎ (log.new.items ≡ log.old.items ++ call ∷ []) }
{
    let _ = log.push(call);
}

// Keeps a call.
fn note(log: &mut Vec<Call>, call: Call) -> Result<(), AllocError>
    ensures kept { OnOk result (log.new.items ≡ log.old.items ++ call ∷ []) }
    ensures not_kept { OnErr result (log.new.items ≡ log.old.items) }
{
    log.push(call)?;
    Ok(())
}

// A call that changes nothing.
fn look(failing: &mut Failing, log: &mut Vec<Call>) -> Result<(), Failed>
    ensures log { (log.new.items ≡ log.old.items) ⊎ (log.new.items ≡ log.old.items ++ Look ∷ []) }
    ensures only { OnOk result (failing.new.faults ≡ failing.old.faults) }
    ensures cause { HasCause failing.old.faults failing.new.faults result }
    ensures fails { IsTrue (fails_next (calls_of failing.old)) → IsErr result }
    ensures calls { calls_of failing.new ≡ one_more (calls_of failing.old) }
{
    if failing.call_fails() {
        keep(log, Call::Look);
        return Err(Failed);
    }
    if log.push(Call::Look).is_err() {
        failing.fault();
        return Err(Failed);
    }
    Ok(())
}

// Writes into a file, and keeps the call.
fn write_kept(
    alloc: Global,
    files: &mut Vec<Vec<u8>>,
    log: &mut Vec<Call>,
    file: u32,
    at: u64,
    piece: &[u8],
) -> Result<(), AllocError>
    ensures kept { OnOk result ((v : _) × (v.items ≡ piece.now) ×
        (log.new.items ≡ log.old.items ++ Write file at v ∷ [])) }
    ensures written { OnOk result ((f : ℕ) →
        contents files.new.items f ≡ put file (written at piece.now (contents files.old.items file)) (contents files.old.items) f) }
    ensures not_kept { OnErr result (log.new.items ≡ log.old.items) }
    ensures same { OnErr result ((f : ℕ) → contents files.new.items f ≡ contents files.old.items f) }
{
    log.reserve(1)?;
    let copy = piece.to_vec(alloc)?;
    write_file(alloc, files, file, at, piece)?;
    let _ = log.push(Call::Write {
        file,
        at,
        piece: copy,
    });
    Ok(())
}

impl Disk for MemoryDisk {
    ghost use Rattle.memory_world.specs.Disk.{is_read, may_be_left, moment_of, left_since, disk_faults, disk_calls};
    ghost use Rattle.memory_world.specs.Laws.{read_now, read_alike, short, image_now, only_now};

    ghost says = { record {
      seen = is_read;
      may_leave = may_be_left;
      moment = moment_of;
      left_since = left_since;
      faults = disk_faults;
      calls = λ d. (disk_calls d).count;
    } };

    ghost reads_an_image = { λ d c read. read_now (contents d.start.items) d.log.items (contents d.files.items) d.sound c read };

    ghost reads_one = { λ d c e one other file. read_alike (contents d.files.items) c e one other file };

    ghost within = { λ d c file read. short d.files.items c file (read file) };

    ghost counts_now = { λ d t c le now. image_now (contents d.start.items) d.log.items t c le now };

    ghost only_now = { λ d c left. only_now (contents d.start.items) d.log.items c left };

    fn length(&mut self, file: u32) -> Result<u64, Failed>
        ensures length { (files : Files) → is_read self.old files → IfOk result (λ n. n ≡ length (files file)) }
        ensures small { IfOk result (λ n. n < 2 ^ 63) }
        ensures same { Same (is_read self.old) (is_read self.new) }
        ensures crash { NoMore (may_be_left self.old) (may_be_left self.new) }
        ensures time { Elapses (moment_of self.old) (moment_of self.new) (left_since self.old) (left_since self.new) (may_be_left self.new) }
        ensures asked { (disk_calls self.new).count ≡ counted 1 (disk_calls self.old).count }
        ensures only { OnOk result (disk_faults self.new ≡ disk_faults self.old) }
        ensures cause { HasCause (disk_faults self.old) (disk_faults self.new) result }
        ensures fails { IsTrue (fails_next (disk_calls self.old)) → IsErr result }
        ensures calls { disk_calls self.new ≡ one_more (disk_calls self.old) }
    {
        look(&mut self.failing, &mut self.log)?;
        Ok(file_bytes(&self.files, file).len() as u64)
    }

    fn read(&mut self, file: u32, at: u64, buffer: &mut [u8]) -> Result<usize, Failed>
        ensures bytes { (files : Files) → is_read self.old files →
            IfOk result (λ n. Reads (files file) at buffer.old n buffer.new) }
        ensures fits { IfOk result (λ n. n ≤ length buffer.old) }
        ensures same { Same (is_read self.old) (is_read self.new) }
        ensures crash { NoMore (may_be_left self.old) (may_be_left self.new) }
        ensures time { Elapses (moment_of self.old) (moment_of self.new) (left_since self.old) (left_since self.new) (may_be_left self.new) }
        ensures asked { (disk_calls self.new).count ≡ counted 1 (disk_calls self.old).count }
        ensures only { OnOk result (disk_faults self.new ≡ disk_faults self.old) }
        ensures cause { HasCause (disk_faults self.old) (disk_faults self.new) result }
        ensures fails { IsTrue (fails_next (disk_calls self.old)) → IsErr result }
        ensures calls { disk_calls self.new ≡ one_more (disk_calls self.old) }
    {
        look(&mut self.failing, &mut self.log)?;
        Ok(copy_from(file_bytes(&self.files, file), at, buffer))
    }

    fn write_at(&mut self, file: u32, at: u64, piece: &[u8]) -> Result<(), Failed>
        requires { (files : Files) → is_read self.old files → at ≤ length (files file) }
        ensures written { OnOk result (Leads (OnFile file (Holds at piece.now)) (is_read self.old) (is_read self.new)) }
        ensures small { OnOk result (at + length piece.now < 2 ^ 63) }
        ensures told { StillTells (is_read self.old) (is_read self.new) }
        ensures crash { Follows (OnFile file (Torn at (length piece.now))) (may_be_left self.old) (may_be_left self.new) }
        ensures time { Elapses (moment_of self.old) (moment_of self.new) (left_since self.old) (left_since self.new) (may_be_left self.new) }
        ensures asked { (disk_calls self.new).count ≡ counted 1 (disk_calls self.old).count }
        ensures only { OnOk result (disk_faults self.new ≡ disk_faults self.old) }
        ensures cause { HasCause (disk_faults self.old) (disk_faults self.new) result }
        ensures fails { IsTrue (fails_next (disk_calls self.old)) → IsErr result }
        ensures calls { disk_calls self.new ≡ one_more (disk_calls self.old) }
    {
        if self.failing.call_fails() {
            let count = piece.len() as u64;
            keep(&mut self.log, Call::BrokenWrite { file, at, count });
            return Err(Failed);
        }
        match write_kept(self.alloc, &mut self.files, &mut self.log, file, at, piece) {
            Ok(()) => Ok(()),
            Err(AllocError) => {
                self.failing.fault();
                Err(Failed)
            }
        }
    }

    fn cut(&mut self, file: u32, length: u64) -> Result<(), Failed>
        requires { (files : Files) → is_read self.old files → length ≤ Rattle.std.specs.Prelude.length (files file) }
        ensures cut { OnOk result (Leads (OnFile file (λ old new. new ≡ take length old)) (is_read self.old) (is_read self.new)) }
        ensures told { StillTells (is_read self.old) (is_read self.new) }
        ensures crash { Follows (OnFile file (Cut length)) (may_be_left self.old) (may_be_left self.new) }
        ensures time { Elapses (moment_of self.old) (moment_of self.new) (left_since self.old) (left_since self.new) (may_be_left self.new) }
        ensures asked { (disk_calls self.new).count ≡ counted 1 (disk_calls self.old).count }
        ensures only { OnOk result (disk_faults self.new ≡ disk_faults self.old) }
        ensures cause { HasCause (disk_faults self.old) (disk_faults self.new) result }
        ensures fails { IsTrue (fails_next (disk_calls self.old)) → IsErr result }
        ensures calls { disk_calls self.new ≡ one_more (disk_calls self.old) }
    {
        if self.failing.call_fails() {
            keep(&mut self.log, Call::BrokenCut { file, length });
            return Err(Failed);
        }
        match note(&mut self.log, Call::Cut { file, length }) {
            Ok(()) => {
                cut_file(&mut self.files, file, length);
                Ok(())
            }
            Err(AllocError) => {
                self.failing.fault();
                Err(Failed)
            }
        }
    }

    fn sync(&mut self) -> Result<(), Failed>
        ensures durable { OnOk result (NoMore (is_read self.new) (may_be_left self.new)) }
        ensures same { OnOk result (Same (is_read self.old) (is_read self.new)) }
        ensures told { StillTells (is_read self.old) (is_read self.new) }
        ensures crash { NoMore (may_be_left self.old) (may_be_left self.new) }
        ensures time { Elapses (moment_of self.old) (moment_of self.new) (left_since self.old) (left_since self.new) (may_be_left self.new) }
        ensures asked { (disk_calls self.new).count ≡ counted 1 (disk_calls self.old).count }
        ensures only { OnOk result (disk_faults self.new ≡ disk_faults self.old) }
        ensures cause { HasCause (disk_faults self.old) (disk_faults self.new) result }
        ensures fails { IsTrue (fails_next (disk_calls self.old)) → IsErr result }
        ensures calls { disk_calls self.new ≡ one_more (disk_calls self.old) }
    {
        if self.failing.call_fails() {
            keep(&mut self.log, Call::Look);
            return Err(Failed);
        }
        match note(&mut self.log, Call::Sync) {
            Ok(()) => Ok(()),
            Err(AllocError) => {
                self.failing.fault();
                Err(Failed)
            }
        }
    }
}

// Copies as many bytes as there are from a place on and as fit.
pub(crate) fn copy_from(bytes: &[u8], at: u64, buffer: &mut [u8]) -> usize
    ensures { Reads bytes.now at buffer.old result buffer.new }
{
    let at = at as usize;
    if at >= bytes.len() {
        return 0;
    }
    let count = buffer.len().min(bytes.len() - at);
    buffer[..count].copy_from_slice(&bytes[at..at + count]);
    count
}
