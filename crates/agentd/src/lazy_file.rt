//! A file that is opened at its first read.

use std::fs::Files;
use std::io;
use std::io::Read;

/// The file at a path, not opened before its first read.
#[derive(Drop)]
pub struct LazyFile<'a, R: Files> {
    rt: &'a R,
    path: &'a str,
    file: Option<R::File>,
}

impl<'a, R: Files> LazyFile<'a, R> {
    /// The file at this path. Nothing is opened yet.
    pub fn start(rt: &'a R, path: &'a str) -> LazyFile<'a, R> {
        LazyFile {
            rt,
            path,
            file: None,
        }
    }
}

impl<'a, R: Files> Read for LazyFile<'a, R> {
    fn read(&mut self, into: &mut [u8]) -> io::Result<usize> {
        let mut file = match self.file.take() {
            Some(file) => file,
            None => std::fs::File::open(self.rt, self.path)?,
        };
        let count = file.read(into);
        self.file = Some(file);
        count
    }
}
