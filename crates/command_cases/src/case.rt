//! What a case has: its files, and which writes and readings fail.
use sim_base::Body;
use sim_io::{MemFile, MemFiles, MemSink};
use std::alloc::{AllocError, Global};
use std::io;
use std::io::ErrorKind;

/// A file of a case.
#[derive(Drop)]
struct Text {
    name: String,
    bytes: Vec<u8>,
}

impl Text {
    fn copy(&self, alloc: Global) -> Result<MemFile, AllocError> {
        Ok(MemFile {
            name: Body::of(Vec::from_slice(alloc, self.name.as_bytes())?),
            bytes: Body::of(Vec::from_slice(alloc, &self.bytes)?),
        })
    }
}

/// The files of a case, of which the first so many are there in all cases, and the numbers of the calls that fail, counted from 1.
#[derive(Drop)]
pub struct Case {
    shared: usize,
    files: Vec<Text>,
    out_fails: Vec<u64>,
    err_fails: Vec<u64>,
    read_fails: Vec<u64>,
}

fn no_such_line() -> io::Error {
    io::Error::from(ErrorKind::InvalidData)
}

fn number(text: &str) -> io::Result<u64> {
    match text.parse::<u64>() {
        Ok(number) => Ok(number),
        Err(_) => Err(no_such_line()),
    }
}

fn bytes_of_digits(alloc: Global, digits: &str) -> io::Result<Vec<u8>> {
    match hex::decode(alloc, digits) {
        Ok(bytes) => Ok(bytes),
        Err(_) => Err(no_such_line()),
    }
}

fn text_line(alloc: Global, line: &str) -> Result<Vec<u8>, AllocError> {
    let mut bytes = Vec::from_slice(alloc, line.as_bytes())?;
    bytes.push(b'\n')?;
    Ok(bytes)
}

impl Case {
    /// A case without files and failures. It takes no memory.
    pub fn new(alloc: Global) -> Self {
        Case {
            shared: 0,
            files: Vec::new(alloc),
            out_fails: Vec::new(alloc),
            err_fails: Vec::new(alloc),
            read_fails: Vec::new(alloc),
        }
    }

    /// Leaves the files that are there in all cases, and nothing else.
    pub fn begin(&mut self) {
        self.files.truncate(self.shared);
        self.out_fails.clear();
        self.err_fails.clear();
        self.read_fails.clear();
    }

    /// The files, with the readings that fail.
    pub fn files(&self, alloc: Global) -> Result<MemFiles, AllocError> {
        let mut files = Vec::new(alloc);
        for file in &self.files {
            files.push(file.copy(alloc)?)?;
        }
        Ok(MemFiles::of(files, Vec::from_slice(alloc, &self.read_fails)?))
    }

    /// An empty standard output, with the writes that fail.
    pub fn out(&self, alloc: Global) -> Result<MemSink, AllocError> {
        let fails = Vec::from_slice(alloc, &self.out_fails)?;
        Ok(MemSink::of(Vec::new(alloc), fails))
    }

    /// An empty standard error, with the writes that fail.
    pub fn err(&self, alloc: Global) -> Result<MemSink, AllocError> {
        let fails = Vec::from_slice(alloc, &self.err_fails)?;
        Ok(MemSink::of(Vec::new(alloc), fails))
    }

    /// Adds an empty file.
    fn add_file(&mut self, alloc: Global, name: &str) -> io::Result<()> {
        let name = String::from_str(alloc, name)?;
        let bytes = Vec::new(alloc);
        self.files.push(Text { name, bytes })?;
        Ok(())
    }

    /// A copy of the bytes of the file of this name.
    fn copy_of(&self, alloc: Global, name: &str) -> io::Result<Vec<u8>> {
        match self.files.iter().find(|file| file.name.as_str() == name) {
            Some(file) => Ok(Vec::from_slice(alloc, &file.bytes)?),
            None => Err(no_such_line()),
        }
    }

    /// The bytes that a line puts at the end of the last file.
    fn piece(&self, alloc: Global, word: &str, rest: &str) -> io::Result<Vec<u8>> {
        match word {
            "|" => Ok(text_line(alloc, rest)?),
            "hex" => bytes_of_digits(alloc, rest),
            "+" => self.copy_of(alloc, rest),
            _ => Err(no_such_line()),
        }
    }

    fn append(&mut self, piece: &[u8]) -> io::Result<()> {
        match self.files.last_mut() {
            Some(file) => Ok(file.bytes.extend_from_slice(piece)?),
            None => Err(no_such_line()),
        }
    }

    /// Cuts the last file to this length, or repeats its last byte.
    fn resize(&mut self, length: u64) -> io::Result<()> {
        match self.files.last_mut() {
            Some(file) => {
                let last = file.bytes.last().copied().unwrap_or(0);
                Ok(file.bytes.resize(length as usize, last)?)
            }
            None => Err(no_such_line()),
        }
    }

    /// Does what a line asks for, whose first word is `word`. An error is that of a line of no form, or want of memory.
    pub fn follow(&mut self, alloc: Global, word: &str, rest: &str) -> io::Result<()> {
        match word {
            "shared" => {
                self.add_file(alloc, rest)?;
                self.shared = self.files.len();
            }
            "file" => self.add_file(alloc, rest)?,
            "length" => self.resize(number(rest)?)?,
            "out" => self.out_fails.push(number(rest)?)?,
            "err" => self.err_fails.push(number(rest)?)?,
            "read" => self.read_fails.push(number(rest)?)?,
            _ => self.append(&self.piece(alloc, word, rest)?)?,
        }
        Ok(())
    }
}
