//! The numbered files of a folder that one program at a time may use.

ghost use Rattle.std.specs.Prelude.{◌<◌, ◌≤◌, IfOk, IfSome, length, vec_len};

use crate::interrupts::read_at;
use crate::paths::Paths;
use crate::regular::{found, make, open_alone};
use std::alloc::{AllocError, Global};
use std::fs::File;
use std::io::ErrorKind;
use std::os::unix::fs::FileExt;
use std::rt::Files;
use std::{fs, io};

/// What is known of the folder.
#[derive(Drop)]
enum Standing {
    /// It wasn't asked for.
    Unasked,
    /// It wasn't there. It is taken not to be there until this program makes it.
    Absent,
    /// It is there, and this handle of it has its lock.
    Locked(File),
}

/// What a file is opened for.
#[derive(Clone, Copy, PartialEq, Eq)]
enum Access {
    Reading,
    Writing,
}

/// A file that is open.
#[derive(Drop)]
struct Handle {
    number: u32,
    access: Access,
    file: File,
    /// Whether it was written since the last sync.
    is_written: bool,
}

/// The numbered files of a folder, the handles of those that were used last, and what the next sync has to bring to
/// the device.
///
/// The folder's advisory lock is taken before the first other call and kept to the end: while another program has it,
/// each call fails and touches nothing. A folder that isn't there is neither made nor looked for again before
/// something is written. It is then made anew: where another program has made it meanwhile, the call fails.
#[derive(Drop)]
pub(crate) struct Folder<'a, R: Files<File = File>> {
    rt: &'a R,
    paths: Paths,
    standing: Standing,
    handles: Vec<Handle>,
    /// Whether an earlier run may have written files that no sync has reached since.
    is_left: bool,
    /// Whether a name of a file, or that of the folder, may have been made since the last sync.
    is_named: bool,
}

/// The most handles.
const MOST: usize = 8;

/// The file that tells the generation of the others by how many bytes of it are open.
const ROOT: u32 = 0;

/// How many bytes the root has.
const ROOT_LENGTH: usize = 4_095;

/// An open byte of the root.
const OPEN: u8 = b'e';

/// Why a file isn't opened.
const REFUSAL: &str =
    "one of its files is a link, has a second name or is no regular file: copy it";

/// Opens a folder and takes its lock, where it is there.
fn lock<R: Files<File = File>>(rt: &R, path: &str) -> io::Result<Option<File>> {
    let Some(seen) = found(fs::metadata(rt, path))? else {
        return Ok(None);
    };
    if !seen.is_dir() {
        return Err(io::Error::from(ErrorKind::NotADirectory));
    }
    let folder = File::open(rt, path)?;
    folder.try_lock()?;
    Ok(Some(folder))
}

/// Opens a file to read it, where it is there. It isn't opened where it is no regular file: to open a pipe would be to
/// wait for its other end.
fn open<R: Files<File = File>>(rt: &R, path: &str) -> io::Result<Option<File>> {
    let Some(seen) = found(fs::metadata(rt, path))? else {
        return Ok(None);
    };
    if !seen.is_file() {
        return Err(io::Error::new(ErrorKind::InvalidInput, REFUSAL));
    }
    found(File::open(rt, path))
}

/// Brings a file to the device where it was written since the last sync.
fn sync_handle(handle: &mut Handle) -> io::Result<()> {
    if handle.is_written {
        handle.file.sync_data()?;
        handle.is_written = false;
    }
    Ok(())
}

/// The generation that a file tells as a root. A file that is shorter than a root tells 0.
fn generation_of(root: &File) -> io::Result<u32>
    ensures { IfOk result (λ generation. generation ≤ 4095) }
{
    let mut bytes = [0u8; ROOT_LENGTH];
    match root.read_exact_at(&mut bytes, 0) {
        Ok(()) => match bytes.iter().position(|byte| *byte != OPEN) {
            Some(generation) => Ok(generation as u32),
            None => Ok(ROOT_LENGTH as u32),
        },
        Err(error) => {
            if error.kind() == ErrorKind::UnexpectedEof {
                Ok(0)
            } else {
                Err(error)
            }
        }
    }
}

impl<'a, R: Files<File = File>> Folder<'a, R> {
    /// The folder of this path.
    pub fn new(rt: &'a R, alloc: Global, path: &str) -> Result<Self, AllocError> {
        Ok(Folder {
            rt,
            paths: Paths::new(alloc, path)?,
            standing: Standing::Unasked,
            handles: Vec::with_capacity(alloc, MOST)?,
            is_left: true,
            is_named: false,
        })
    }

    /// Whether the folder is there, whose lock this program has then.
    fn is_there(&mut self) -> io::Result<bool> {
        if let Standing::Unasked = self.standing {
            self.standing = match lock(self.rt, self.paths.folder())? {
                Some(folder) => Standing::Locked(folder),
                None => Standing::Absent,
            };
        }
        Ok(matches!(self.standing, Standing::Locked(_)))
    }

    /// Makes the folder and takes its lock. Where another program has made a depot in it meanwhile that depot is left
    /// alone.
    fn make_folder(&mut self) -> io::Result<()> {
        fs::create_dir(self.rt, self.paths.folder())?;
        let made = lock(self.rt, self.paths.folder())?;
        if fs::exists(self.rt, self.paths.file(ROOT)?)? {
            return Err(io::Error::from(ErrorKind::AlreadyExists));
        }
        self.standing = match made {
            Some(folder) => Standing::Locked(folder),
            None => return Err(io::Error::from(ErrorKind::NotFound)),
        };
        self.is_named = true;
        Ok(())
    }

    /// The place of a handle of a file that was opened for this, or for more.
    fn kept(&self, number: u32, access: Access) -> Option<usize>
        ensures { IfSome result (λ place. place < vec_len self.now.handles) }
    {
        self.handles.iter().position(|handle| {
            handle.number == number && (handle.access == access || handle.access == Access::Writing)
        })
    }

    /// Keeps the handle of a file, in place of the oldest where there are enough, and answers its place. What was
    /// written by the oldest comes to the device before.
    fn keep(&mut self, number: u32, access: Access, file: File) -> io::Result<usize>
        ensures { IfOk result (λ place. place < vec_len self.new.handles) }
    {
        if self.handles.len() >= MOST {
            sync_handle(&mut self.handles[0])?;
            drop(self.handles.remove(0));
        }
        let place = self.handles.len();
        self.handles.push(Handle {
            number,
            access,
            file,
            is_written: false,
        })?;
        Ok(place)
    }

    /// The place of a handle of a file to read it, where the file is there.
    fn reading(&mut self, number: u32) -> io::Result<Option<usize>>
        ensures { IfOk result (λ place. IfSome place (λ place. place < vec_len self.new.handles)) }
    {
        if !self.is_there()? {
            return Ok(None);
        }
        if let Some(place) = self.kept(number, Access::Reading) {
            return Ok(Some(place));
        }
        match open(self.rt, self.paths.file(number)?)? {
            Some(file) => Ok(Some(self.keep(number, Access::Reading, file)?)),
            None => Ok(None),
        }
    }

    /// The place of a handle of a file to write it. The file is made where it isn't there, and so is the folder.
    fn writing(&mut self, number: u32) -> io::Result<usize>
        ensures { IfOk result (λ place. place < vec_len self.new.handles) }
    {
        if !self.is_there()? {
            self.make_folder()?;
        }
        if let Some(place) = self.kept(number, Access::Writing) {
            return Ok(place);
        }
        let file = match open_alone(self.rt, self.paths.file(number)?, REFUSAL)? {
            Some(file) => file,
            None => {
                self.is_named = true;
                make(self.rt, self.paths.file(number)?)?
            }
        };
        self.keep(number, Access::Writing, file)
    }

    /// The length of a file.
    pub fn length(&mut self, number: u32) -> io::Result<u64> {
        match self.reading(number)? {
            Some(place) => Ok(self.handles[place].file.metadata()?.len()),
            None => Ok(0),
        }
    }

    /// Reads bytes of a file from a place on.
    pub fn read(&mut self, number: u32, at: u64, buffer: &mut [u8]) -> io::Result<usize>
        ensures { IfOk result (λ n. n ≤ length buffer.old) }
    {
        match self.reading(number)? {
            Some(place) => read_at(&self.handles[place].file, buffer, at),
            None => Ok(0),
        }
    }

    /// Writes bytes into a file at a place.
    pub fn write_at(&mut self, number: u32, at: u64, piece: &[u8]) -> io::Result<()> {
        let place = self.writing(number)?;
        let handle = &mut self.handles[place];
        handle.is_written = true;
        handle.file.write_all_at(piece, at)
    }

    /// Gives a file a length.
    pub fn cut(&mut self, number: u32, length: u64) -> io::Result<()> {
        let place = self.writing(number)?;
        let handle = &mut self.handles[place];
        handle.is_written = true;
        handle.file.set_len(length)
    }

    /// Brings a file to the device, where it is there.
    fn sync_file(&mut self, number: u32) -> io::Result<()> {
        match self.reading(number)? {
            Some(place) => self.handles[place].file.sync_data(),
            None => Ok(()),
        }
    }

    /// Brings to the device what earlier runs may have left short of it: the root, and the files of its generation and
    /// of the next one, in which a checkpoint may have been interrupted.
    ///
    /// The files of the generations before are there already. The program that began a generation had begun with such a
    /// sync itself, and so had brought there what earlier programs left in the generation before; what it wrote there
    /// itself it had synced as well before it opened the root's byte, since a generation begins where nothing is in
    /// doubt. Behind that byte nobody writes them.
    fn sync_left(&mut self) -> io::Result<()> {
        let generation = match self.reading(ROOT)? {
            Some(place) => generation_of(&self.handles[place].file)?,
            None => 0,
        };
        self.sync_file(ROOT)?;
        for number in 0..4 {
            self.sync_file(1 + 2 * generation + number)?;
        }
        Ok(())
    }

    /// Brings the names of the files, and that of the folder, to the device.
    fn sync_names(&mut self) -> io::Result<()> {
        if let Standing::Locked(folder) = &self.standing {
            folder.sync_all()?;
            File::open(self.rt, self.paths.parent()?)?.sync_all()?;
        }
        Ok(())
    }

    /// Brings the files to the device that were written since the last sync.
    fn sync_written(&mut self) -> io::Result<()> {
        for handle in self.handles.iter_mut() {
            sync_handle(handle)?;
        }
        Ok(())
    }

    /// Brings to the device what was written since the last sync, and the names of files and of the folder where one
    /// was made.
    ///
    /// The data of a file and its length come there by `sync_data`; POSIX has its name come there by a sync of its
    /// folder alone.
    pub fn sync(&mut self) -> io::Result<()> {
        if self.is_there()? && self.is_left {
            self.is_named = true;
            self.sync_left()?;
        }
        self.is_left = false;
        self.sync_written()?;
        if self.is_named {
            self.sync_names()?;
            self.is_named = false;
        }
        Ok(())
    }
}
