ghost use Rattle.std.specs.Prelude.{◌≡◌, ◌≢◌, ℕ, ◌+◌, ◌<◌, ◌≤◌, ◌↔◌, List, [], ◌++◌, None, false, Err, IfOk, OnOk, ◌⊎◌, vec_len};
ghost use Rattle.std.specs.Io.KnownBytes.{Consumes, IsAtEnd};
ghost use Rattle.sim_io.specs.Sink.{Rose};
ghost use Rattle.sim_io.specs.HostFiles.{IsReadWhole};

use crate::files::{FileFault, Files};
use std::alloc::Global;
use std::fs;
use std::io::{ErrorKind, Read};

/// How many bytes are asked for at a time.
const CHUNK: usize = 8192;

/// The files of a host, which tells nothing of their contents. Its one count of faults stands for every name.
#[derive(Drop)]
pub struct HostFiles<R> {
    host: R,
    came: usize,
    faults: u64,
}

impl<R: fs::Files + Drop> HostFiles<R> {
    /// The files of this host, with a count of 0.
    pub fn of(host: R) -> Self {
        HostFiles {
            host,
            came: 0,
            faults: 0,
        }
    }
}

/// Appends what one reading gives, at most so many bytes, and answers whether more may come. An interrupted reading gives none.
fn read_some<R: Read>(reader: &mut R, bytes: &mut Vec<u8>, most: usize) -> Result<bool, FileFault>
    requires some { 0 < most }

    ensures few { vec_len bytes.new ≤ vec_len bytes.old + most }
    ensures not_too_long { result ≢ Err FileFault.TooLong }
    ensures got { OnOk result ((got : List ℕ) × (bytes.new.items ≡ bytes.old.items ++ got)
        × Consumes (R.remaining reader.old) (R.remaining reader.new) got) }
    ensures end { IfOk result (λ more. more ≡ false → IsAtEnd (R.remaining reader.new)) }
{
    let mut chunk = [0; CHUNK];
    let room = most.min(CHUNK);
    match reader.read(&mut chunk[..room]) {
        Ok(0) => Ok(false),
        Ok(got) => {
            bytes.extend_from_slice(&chunk[..got])?;
            Ok(true)
        }
        Err(error) if error.kind() == ErrorKind::Interrupted => Ok(true),
        Err(_) => Err(FileFault::Failed),
    }
}

/// Appends all bytes that a reader has left, or one more than the limit where it has more.
fn read_up_to<R: Read>(reader: &mut R, bytes: &mut Vec<u8>, limit: usize) -> Result<(), FileFault>
    requires empty { bytes.now.items ≡ [] }

    ensures few { vec_len bytes.new ≤ limit + 1 }
    ensures not_too_long { result ≢ Err FileFault.TooLong }
    ensures got { OnOk result
        (Consumes (R.remaining reader.old) (R.remaining reader.new) bytes.new.items) }
    ensures end { OnOk result
        ((limit < vec_len bytes.new) ⊎ IsAtEnd (R.remaining reader.new)) }
{
    for _turn in 0..u64::MAX {
        if bytes.len() > limit {
            return Ok(());
        }
        let most = (limit - bytes.len()).saturating_add(1);
        if !read_some(reader, bytes, most)? {
            return Ok(());
        }
    }
    Err(FileFault::Failed)
}

impl<R: fs::Files> HostFiles<R> {
    /// Reads the file into `bytes` and keeps how many came. They are all that some file of the host had left.
    fn read_into(&mut self, bytes: &mut Vec<u8>, name: &str, limit: usize) -> Result<(), FileFault>
        requires empty { bytes.now.items ≡ [] }

        ensures came { self.new.came ≡ vec_len bytes.new }
        ensures few { vec_len bytes.new ≤ limit + 1 }
        ensures too_long { (result ≡ Err FileFault.TooLong) ↔ (limit < vec_len bytes.new) }
        ensures faults { self.new.faults ≡ self.old.faults }
        ensures read { OnOk result ((first : R.File) × (last : R.File)
            × IsReadWhole (R.File.remaining first) (R.File.remaining last) bytes.new.items) }
    {
        self.came = 0;
        let Ok(mut file) = fs::open(&self.host, name) else {
            return Err(FileFault::Failed);
        };
        let end = read_up_to(&mut file, bytes, limit);
        self.came = bytes.len();
        if self.came > limit {
            return Err(FileFault::TooLong);
        }
        end
    }
}

impl<R: fs::Files> Files for HostFiles<R> {
    ghost contents = { λ _ _. None };

    ghost faults = { λ s _. s.faults };

    ghost came = { λ s. s.came };

    /// A file that cannot be opened, or whose reading ends in an error other than an interruption, has failed. At most one byte
    /// beyond the limit is read. What is answered is all that some file of the host had left.
    fn read_file(&mut self, alloc: Global, name: &str, limit: usize) -> Result<Vec<u8>, FileFault>
        ensures whole { IfOk result (λ bytes. vec_len bytes ≡ self.new.came) }
        ensures within { IfOk result (λ bytes. vec_len bytes ≤ limit) }
        ensures too_long { (result ≡ Err FileFault.TooLong) ↔ (limit < self.new.came) }
        ensures failed { result ≡ Err FileFault.Failed → Rose self.old.faults self.new.faults }

        ensures never_falls { self.old.faults ≤ self.new.faults }

        ensures read { IfOk result (λ bytes. (first : R.File) × (last : R.File)
            × IsReadWhole (R.File.remaining first) (R.File.remaining last) bytes.items) }
    {
        let mut bytes = Vec::new(alloc);
        match self.read_into(&mut bytes, name, limit) {
            Ok(()) => Ok(bytes),
            Err(FileFault::Failed) => {
                self.faults = self.faults.saturating_add(1);
                Err(FileFault::Failed)
            }
            Err(fault) => Err(fault),
        }
    }
}

#[cfg(test)]
mod tests {
    use super::*;
    use std::test::Fail;
    use std::{env, io, process};

    /// A reader that gives one byte a reading, is interrupted before the second, and then fails or ends.
    #[derive(Drop)]
    struct Slow {
        readings: u8,
        gives: u8,
        fails: bool,
    }

    impl Read for Slow {
        fn read(&mut self, buf: &mut [u8]) -> io::Result<usize> {
            self.readings = self.readings.saturating_add(1);
            if self.readings == 2 {
                return Err(io::Error::from(ErrorKind::Interrupted));
            }
            if self.gives == 0 && self.fails {
                return Err(io::Error::from(ErrorKind::Other));
            }
            if self.gives == 0 || buf.is_empty() {
                return Ok(0);
            }
            self.gives -= 1;
            buf[0] = b'a';
            Ok(1)
        }
    }

    #[test]
    fn a_reader_is_read_to_its_end_or_one_byte_beyond_the_limit(
        rt: HostRuntime,
    ) -> Result<(), Fail> {
        let rows = [
            (3, false, 3, Ok(()), 3, 5),
            (3, false, 2, Ok(()), 3, 4),
            (9, false, 2, Ok(()), 3, 4),
            (2, true, 3, Err(FileFault::Failed), 2, 4),
            (0, true, 3, Err(FileFault::Failed), 0, 1),
            (0, false, 0, Ok(()), 0, 1),
        ];
        for (gives, fails, limit, answer, came, readings) in rows {
            let mut slow = Slow {
                readings: 0,
                gives,
                fails,
            };
            let mut bytes = Vec::new(rt.alloc());
            assert_eq!(rt; read_up_to(&mut slow, &mut bytes, limit), answer);
            assert_eq!(rt; bytes.len(), came);
            assert_eq!(rt; slow.readings, readings);
        }
        Ok(())
    }

    #[test]
    fn what_is_no_file_that_can_be_read_fails(rt: HostRuntime) -> Result<(), Fail> {
        let mut files = HostFiles::of(&rt);
        // a folder, a missing file, one that opens and does not read, and a name that no file has
        for name in ["/", "/no/such.toml", "/proc/self/mem", "a\0b", ""] {
            let before = files.faults;
            assert_eq!(rt;
                files.read_file(rt.alloc(), name, 9).err(),
                Some(FileFault::Failed)
            );
            assert_eq!(rt; files.faults, before.saturating_add(1));
        }
        Ok(())
    }

    #[test]
    fn a_file_is_read_up_to_the_limit(rt: HostRuntime) -> Result<(), Fail> {
        let alloc = rt.alloc();
        let id = process::id(rt.process());
        let folder = env::temp_dir(&rt)?;
        let path = folder.join(alloc, format!(in alloc; "akita_limit_{id}")?.as_str())?;
        let held: Vec<u8> = vec![in alloc; 7; 1_048_577]?;
        fs::write(&rt, path.as_path(), held.as_slice())?;
        let name = path.as_path().to_string_lossy();
        let mut files = HostFiles::of(&rt);
        let over = files.read_file(alloc, name, 1_048_576);
        let came = files.came;
        let whole = files.read_file(alloc, name, 1_048_577);
        fs::remove_file(&rt, path.as_path())?;
        assert_eq!(rt; over.err(), Some(FileFault::TooLong));
        assert_eq!(rt; came, 1_048_577);
        assert_eq!(rt; whole?.as_slice(), held.as_slice());
        // without an end
        assert_eq!(rt;
            files.read_file(alloc, "/dev/zero", 1_048_576).err(),
            Some(FileFault::TooLong)
        );
        assert_eq!(rt; files.came, 1_048_577);
        assert_eq!(rt;
            files.read_file(alloc, "/dev/null", 0)?.as_slice(),
            b"".as_slice()
        );
        assert_eq!(rt; files.faults, 0);
        Ok(())
    }
}
