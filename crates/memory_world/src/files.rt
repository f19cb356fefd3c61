//! The bytes of numbered files, in a vector.

ghost use Rattle.std.specs.Prelude.{◌≡◌, ◌<◌, ℕ, length, take, IfOk, OnOk, OnErr};
ghost use Rattle.memory_world.specs.Files.{contents, put, written};

use std::alloc::{AllocError, Global};

/// The bytes of a file, none where it was never written.
pub fn file_bytes(files: &[Vec<u8>], file: u32) -> &[u8]
    ensures { result.now ≡ contents files.now file }
{
    match files.get(file as usize) {
        Some(bytes) => bytes,
        None => &[],
    }
}

/// Adds files of no bytes, up to one of that number.
pub fn make_room(alloc: Global, files: &mut Vec<Vec<u8>>, file: u32) -> Result<(), AllocError>
    ensures room { OnOk result (file < length files.new.items) }
    ensures same { (f : ℕ) → contents files.new.items f ≡ contents files.old.items f }
{
    while files.len() <= file as usize {
        files.push(Vec::new(alloc))?;
    }
    Ok(())
}

/// The same files.
pub fn copy_files(alloc: Global, files: &[Vec<u8>]) -> Result<Vec<Vec<u8>>, AllocError>
    ensures { IfOk result (λ copy. (f : ℕ) → contents copy.items f ≡ contents files.now f) }
{
    let mut copy = Vec::new(alloc);
    for bytes in files {
        copy.push(bytes.to_vec(alloc)?)?;
    }
    Ok(copy)
}

/// Writes a piece over what is there, and past the end. Without memory the bytes stay as they were.
pub fn overwrite(bytes: &mut Vec<u8>, at: usize, piece: &[u8]) -> Result<(), AllocError>
    ensures written { OnOk result (bytes.new.items ≡ written at piece.now bytes.old.items) }
    ensures kept { OnErr result (bytes.new.items ≡ bytes.old.items) }
{
    let front = at.min(bytes.len());
    let over = piece.len().min(bytes.len() - front);
    bytes.extend_from_slice(&piece[over..])?;
    bytes[front..front + over].copy_from_slice(&piece[..over]);
    Ok(())
}

/// Writes a piece into a file. Without memory what the files hold stays as it was.
pub fn write_file(
    alloc: Global,
    files: &mut Vec<Vec<u8>>,
    file: u32,
    at: u64,
    piece: &[u8],
) -> Result<(), AllocError>
    ensures written { OnOk result ((f : ℕ) →
        contents files.new.items f ≡ put file (written at piece.now (contents files.old.items file)) (contents files.old.items) f) }
    ensures kept { OnErr result ((f : ℕ) → contents files.new.items f ≡ contents files.old.items f) }
{
    make_room(alloc, files, file)?;
    let bytes = &mut files[file as usize];
    match overwrite(bytes, at as usize, piece) {
        Ok(()) => Ok(()),
        Err(AllocError) => Err(AllocError),
    }
}

/// Cuts a file to a length.
pub fn cut_file(files: &mut Vec<Vec<u8>>, file: u32, length: u64)
    ensures { (f : ℕ) →
        contents files.new.items f ≡ put file (take length (contents files.old.items file)) (contents files.old.items) f }
{
    if (file as usize) < files.len() {
        let bytes = &mut files[file as usize];
        bytes.truncate(length as usize);
    }
}
