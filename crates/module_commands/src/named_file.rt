//! Files of the command line.

use std::fs::File;
use std::io::{self, Read};
use std::rt::Files;

/// A file that is opened when it is first read.
#[derive(Drop)]
pub struct NamedFile<'a, R: Files> {
    runtime: &'a R,
    name: &'a str,
    file: Option<R::File>,
    is_read: bool,
    fault: Option<io::Error>,
}

impl<'a, R: Files> NamedFile<'a, R> {
    /// The file of this name, not opened yet.
    pub fn new(runtime: &'a R, name: &'a str) -> Self {
        NamedFile {
            runtime,
            name,
            file: None,
            is_read: false,
            fault: None,
        }
    }

    /// Its name.
    pub fn name(&self) -> &'a str {
        self.name
    }

    /// Whether it was asked for something.
    pub fn is_read(&self) -> bool {
        self.is_read
    }

    /// Why it was not opened, or not read; none where nothing failed.
    pub fn fault(&self) -> Option<io::Error> {
        self.fault
    }
}

impl<R: Files> Read for NamedFile<'_, R>
where
    R::File: Read,
{
    fn read(&mut self, buf: &mut [u8]) -> io::Result<usize> {
        self.is_read = true;
        let mut file = match self.file.take() {
            Some(file) => file,
            None => match File::open(self.runtime, self.name) {
                Ok(file) => file,
                Err(fault) => {
                    self.fault = Some(fault);
                    return Err(fault);
                }
            },
        };
        match file.read(buf) {
            Ok(count) => {
                self.file = Some(file);
                Ok(count)
            }
            Err(fault) => {
                self.fault = Some(fault);
                Err(fault)
            }
        }
    }
}
