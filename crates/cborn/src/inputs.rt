//! The inputs that the program reads.

use cborn_engine::Kind;
use cborn_explain::Look;
use std::alloc::AllocError;
use std::io::Read;
use std::rt::Files;
use std::{fs, io};

/// A file that is opened at its first read, which fails where it can't be opened.
#[derive(Drop)]
pub struct LateFile<'r, 'p, F: Files> {
    files: &'r F,
    path: &'p str,
    file: Option<F::File>,
}

impl<'r, 'p, F: Files> LateFile<'r, 'p, F> {
    /// The file at `path`, which isn't opened yet.
    pub fn new(files: &'r F, path: &'p str) -> Self {
        LateFile {
            files,
            path,
            file: None,
        }
    }

    /// Whether it isn't open. After a read: whether it can't be opened.
    pub fn is_missing(&self) -> bool {
        self.file.is_none()
    }
}

impl<F: Files> Read for LateFile<'_, '_, F> {
    fn read(&mut self, buf: &mut [u8]) -> io::Result<usize> {
        let mut file = match self.file.take() {
            Some(file) => file,
            None => fs::open(self.files, self.path)?,
        };
        let result = file.read(buf);
        self.file = Some(file);
        result
    }
}

/// A reader, with notes of what was read from it.
#[derive(Drop)]
pub struct Noted<R> {
    pub inner: R,
    pub notes: Notes,
}

impl<R: Read> Read for Noted<R> {
    ghost remaining = { λ n. R.remaining n.inner };

    fn read(&mut self, buf: &mut [u8]) -> io::Result<usize> {
        let result = self.inner.read(buf);
        if let Ok(count) = &result {
            self.notes.kept.see(&buf[..*count]);
        }
        result
    }
}

/// What is known of an input, so that standard error can say more of it.
#[derive(Drop)]
pub struct Notes {
    pub side: Side,
    pub kind: Kind,
    pub kept: Kept,
}

/// Which input of a command it is.
#[derive(Clone, Copy)]
pub enum Side {
    Only,
    First,
    Second,
}

/// What is kept of what was read.
#[derive(Drop)]
pub enum Kept {
    Nothing,
    /// What its bytes look like.
    Look(Look),
    /// All its bytes, or that memory for one of them was refused.
    Whole(Result<Vec<u8>, AllocError>),
}

impl Kept {
    fn see(&mut self, bytes: &[u8]) {
        match self {
            Kept::Look(look) => look.see(bytes),
            Kept::Whole(Ok(kept)) => {
                if let Err(refused) = kept.extend_from_slice(bytes) {
                    *self = Kept::Whole(Err(refused));
                }
            }
            _ => {}
        }
    }
}
