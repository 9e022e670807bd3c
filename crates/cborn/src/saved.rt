//! The file that an answer goes to, in place of standard output.

use std::alloc::Global;
use std::fs::{OpenFile, OpenOptions, Permissions};
use std::io::{ErrorKind, Write};
use std::os::unix::fs::{OpenOptionsExt, PermissionsExt};
use std::path::PathBuf;
use std::rt::Files;
use std::{fs, io};

/// How many symbolic links are followed, one to the next.
const MOST_LINKS: usize = 40;
/// How many names are tried for a new file.
const MOST_NAMES: usize = 1000;
/// The mode of a new file in place of none, before the system takes away what its mask says.
const NEW_MODE: u32 = 0o666;
/// The bits of a mode that a new file takes from the one whose place it takes: who may read, write and
/// run it.
const KEPT_BITS: u32 = 0o777;

/// A writer to a file that is as it was until [`SavedFile::finish`]: what is written goes to a new file
/// beside it, which is made at the first write or flush. A flush has the system store what was written.
#[derive(Drop)]
pub struct SavedFile<'r, 'p, F: Files> {
    files: &'r F,
    alloc: Global,
    name: &'p str,
    new: Option<NewFile<F::File>>,
}

/// A new file, and the paths of itself and of the file whose place it takes.
#[derive(Drop)]
struct NewFile<T> {
    file: T,
    path: PathBuf,
    target: PathBuf,
}

impl<'r, 'p, F: Files> SavedFile<'r, 'p, F> {
    /// A writer to the file of this name. Nothing is made yet.
    pub fn new(files: &'r F, alloc: Global, name: &'p str) -> Self {
        SavedFile {
            files,
            alloc,
            name,
            new: None,
        }
    }

    /// Puts the new file in the place of the one that was named. Where that fails, it is removed.
    #[inline(never)]
    pub fn finish(&mut self) -> io::Result<()> {
        let new = self.taken()?;
        let renamed = fs::rename(self.files, &new.path, &new.target);
        if renamed.is_err() {
            let _ = fs::remove_file(self.files, &new.path);
        }
        renamed
    }

    /// Removes the new file, if there is one.
    #[inline(never)]
    pub fn discard(&mut self) {
        if let Some(new) = self.new.take() {
            let _ = fs::remove_file(self.files, &new.path);
        }
    }

    /// The new file, taken out of `self.new`. It is made if that is empty.
    #[inline(never)]
    fn taken(&mut self) -> io::Result<NewFile<F::File>> {
        match self.new.take() {
            Some(new) => Ok(new),
            None => new_file(self.files, self.alloc, self.name),
        }
    }
}

impl<F: Files> Write for SavedFile<'_, '_, F> {
    fn write(&mut self, piece: &[u8]) -> io::Result<usize> {
        let mut new = self.taken()?;
        let result = new.file.write(piece);
        self.new = Some(new);
        result
    }

    fn flush(&mut self) -> io::Result<()> {
        let new = self.taken()?;
        let result = new.file.sync_all();
        self.new = Some(new);
        result
    }
}

/// Makes a new file beside the one of this name, with the mode of that one, if it is there and regular.
fn new_file<F: Files>(files: &F, alloc: Global, name: &str) -> io::Result<NewFile<F::File>> {
    let target = followed(files, alloc, name)?;
    let mode = mode_of(files, &target)?;
    let (path, file) = opened_beside(files, alloc, &target, mode.unwrap_or(NEW_MODE))?;
    // the mask may have taken something away
    if let Some(mode) = mode
        && let Err(why) = file.set_permissions(Permissions::from_mode(mode))
    {
        let _ = fs::remove_file(files, &path);
        return Err(why);
    }
    Ok(NewFile { file, path, target })
}

/// The path of the file of this name. Where it is a symbolic link, the path that it leads to.
fn followed<F: Files>(files: &F, alloc: Global, name: &str) -> io::Result<PathBuf> {
    let mut path = PathBuf::from_str(alloc, name)?;
    for _ in 0..MOST_LINKS {
        match files.read_link(alloc, path.as_str()) {
            Ok(next) => {
                path.pop();
                path.push(&next)?;
            }
            // the path leads to something else than a link, or to nothing
            Err(why) if matches!(why.kind(), ErrorKind::InvalidInput | ErrorKind::NotFound) => {
                return Ok(path);
            }
            Err(why) => return Err(why),
        }
    }
    Err(io::Error::from(ErrorKind::FilesystemLoop))
}

/// Who may read, write and run the file at a path, if it is a regular one. `None`: there is no such file.
fn mode_of<F: Files>(files: &F, path: &PathBuf) -> io::Result<Option<u32>> {
    match fs::metadata(files, path) {
        Ok(found) if found.is_file() => Ok(Some(found.permissions().mode() & KEPT_BITS)),
        Ok(_) => Err(io::Error::from(ErrorKind::InvalidInput)),
        Err(why) if why.kind() == ErrorKind::NotFound => Ok(None),
        Err(why) => Err(why),
    }
}

/// Makes a file in the folder of `target`, by a name that isn't taken. Answers its path too.
fn opened_beside<F: Files>(
    files: &F,
    alloc: Global,
    target: &PathBuf,
    mode: u32,
) -> io::Result<(PathBuf, F::File)> {
    let mut how = OpenOptions::new();
    how.write(true).create_new(true).mode(mode);
    for number in 0..MOST_NAMES {
        let name = format!(in alloc; ".cborn-{number}")?;
        let path = target.with_file_name(alloc, &name)?;
        match how.open(files, &path) {
            Ok(file) => return Ok((path, file)),
            Err(why) if why.kind() == ErrorKind::AlreadyExists => {}
            Err(why) => return Err(why),
        }
    }
    Err(io::Error::from(ErrorKind::AlreadyExists))
}
