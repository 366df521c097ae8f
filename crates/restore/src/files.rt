// Files by their names, and the folders that files lie in. A name is text in UTF-8; another is refused, and no file is touched.
ghost use Rattle.std.specs.Prelude.{ℕ, ◌≡◌, ◌⊎◌, [], ◌∷◌, take};

use std::fs::{Files, OpenFile, OpenOptions};
use std::{fs, io};

// How many bytes the name of a file has at most.
pub const PATH_ROOM: usize = 4096;

// A place in a file, as the system counts it. One that it does not count so far it refuses.
pub fn place(bytes: usize) -> u64 {
    bytes as u64
}

// The text that a name is. The system's library takes no name that is not text.
fn name_of(path: &[u8]) -> io::Result<&str> {
    str::from_utf8(path).map_err(|_| io::Error::from(io::ErrorKind::InvalidFilename))
}

// The file at a path, open for reading.
pub fn open_read<R: Files>(files: &R, path: &[u8]) -> io::Result<R::File> {
    fs::open(files, name_of(path)?)
}

// The file at a path, open for reading and writing, with its bytes as they are.
pub fn open_update<R: Files>(files: &R, path: &[u8]) -> io::Result<R::File> {
    let name = name_of(path)?;
    OpenOptions::new().read(true).write(true).open(files, name)
}

// A new file at a path, open for writing; none where the name is taken.
pub fn create<R: Files>(files: &R, path: &[u8]) -> io::Result<R::File> {
    let name = name_of(path)?;
    OpenOptions::new()
        .write(true)
        .create_new(true)
        .open(files, name)
}

// A file gets another name.
pub fn rename(files: &impl Files, from: &[u8], to: &[u8]) -> io::Result<()> {
    fs::rename(files, name_of(from)?, name_of(to)?)
}

// There is no such file.
pub fn remove(files: &impl Files, path: &[u8]) -> io::Result<()> {
    fs::remove_file(files, name_of(path)?)
}

// The folder that a path lies in: the path up to its last slash, that one too; with no slash the folder that the program runs in, `.`.
fn folder_of(path: &[u8]) -> &[u8]
    ensures { (result.now ≡ 46 ∷ []) ⊎ ((n : ℕ) × (result.now ≡ take n path.now)) }
{
    match path.iter().rposition(|&b| b == b'/') {
        Some(at) => &path[..=at],
        None => b".",
    }
}

// The folder that a path lies in is on the disk with the names in it, so that a file which was just made or named is found after the power goes.
pub fn sync_folder(files: &impl Files, path: &[u8]) -> io::Result<()> {
    open_read(files, folder_of(path))?.sync_all()
}
