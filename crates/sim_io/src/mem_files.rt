ghost use Rattle.std.specs.Prelude.{◌≡◌, ◌≢◌, ℕ, ◌<◌, ◌≤◌, List, [], ◌∷◌, ◌++◌, length, is_ok, IsTrue, Contains, if◌then◌else◌, ◌⊎◌, ◌↔◌, option_copied, OnOk, IsSome, IfOk, IfSome, vec_len};
ghost use Rattle.sim_io.specs.Sink.{Rose};

use crate::files::{FileFault, Files};
use sim_base::{Body, OutOfMemory};
use std::alloc::Global;
use std::marker::Model;

/// A file in memory.
#[derive(Drop)]
pub struct MemFile {
    pub name: Body,
    pub bytes: Body,
}

/// Files in memory, which tell their bytes; the first file of a name counts. Its calls are numbered from 1, and those that are listed fail.
#[derive(Drop)]
pub struct MemFiles {
    files: Vec<MemFile>,
    fails: Vec<u64>,
    calls: u64,
    failed: Vec<Body>,
    came: usize,
}

impl Model for MemFiles {
    ghost use Rattle.sim_io.specs.MemFiles.{FilesView, files_view};

    ghost Value = { FilesView };

    ghost view = { λ s. files_view s.files.items s.fails.items s.calls s.failed.items s.came };
}

impl MemFiles {
    ghost use Rattle.sim_io.specs.MemFiles.{FilesView, files_view, contents_of};

    /// These files, with the numbers of the calls that are to fail. It takes no memory.
    pub fn of(files: Vec<MemFile>, fails: Vec<u64>) -> Self
        ensures { result ≡ files_view files.items fails.items 0 [] 0 }
    {
        let failed = Vec::new(*files.allocator());
        MemFiles {
            files,
            fails,
            calls: 0,
            failed,
            came: 0,
        }
    }
}

/// A copy of these bytes, unless they are too many.
fn copied(alloc: Global, bytes: &[u8], limit: usize) -> Result<Vec<u8>, FileFault>
    ensures ok { IfOk result (λ copy. copy.items ≡ bytes.now) }
    ensures too_long { (result ≡ Err FileFault.TooLong) ↔ (limit < length bytes.now) }
    ensures not_failed { result ≢ Err FileFault.Failed }
{
    if bytes.len() > limit {
        return Err(FileFault::TooLong);
    }
    Ok(Vec::from_slice(alloc, bytes)?)
}

impl MemFiles {
    ghost use Rattle.sim_io.specs.MemFiles.{contents_of, call_after, kept_after};

    /// Counts a call in which nothing came so far, and answers whether it is to fail.
    fn next_is_listed(&mut self) -> bool
        ensures value { IsTrue result ↔ Contains self.old.fails (call_after self.old.calls) }
        ensures calls { self.new.calls ≡ call_after self.old.calls }
        ensures files { self.new.files ≡ self.old.files }
        ensures fails { self.new.fails ≡ self.old.fails }
        ensures failed { self.new.failed ≡ self.old.failed }
        ensures came { self.new.came ≡ 0 }
    {
        self.came = 0;
        self.calls = self.calls.saturating_add(1);
        is_listed(&self.fails, self.calls)
    }

    /// The bytes of the first file of this name.
    fn bytes_named(&self, name: &[u8]) -> Option<&[u8]>
        ensures { option_copied result ≡ contents_of self.now.files name.now }
    {
        let file = self.files.iter().find(|f| f.name.items() == name)?;
        Some(file.bytes.items())
    }

    /// Keeps the name of a call that fails. Where no memory is found for that, the call fails for want of memory.
    fn fail(&mut self, alloc: Global, name: &str) -> FileFault
        ensures fault { (result ≡ FileFault.Failed) ⊎ (result ≡ FileFault.OutOfMemory) }
        ensures kept { self.new.failed ≡ kept_after result self.old.failed name.now }
        ensures files { self.new.files ≡ self.old.files }
        ensures fails { self.new.fails ≡ self.old.fails }
        ensures calls { self.new.calls ≡ self.old.calls }
        ensures came { self.new.came ≡ self.old.came }
    {
        match keep(&mut self.failed, alloc, name.as_bytes()) {
            Ok(()) => FileFault::Failed,
            Err(_) => FileFault::OutOfMemory,
        }
    }
}

fn is_listed(fails: &[u64], call: u64) -> bool
    ensures { IsTrue result ↔ Contains fails.now call }
{
    fails.contains(&call)
}

/// Keeps a copy of this name behind the others.
fn keep(names: &mut Vec<Body>, alloc: Global, name: &[u8]) -> Result<(), OutOfMemory>
    ensures { names.new.items ≡ (if is_ok result then names.old.items ++ name.now ∷ [] else names.old.items) }
{
    let copy = Body::of(Vec::from_slice(alloc, name)?);
    names.push(copy)?;
    Ok(())
}

impl Files for MemFiles {
    ghost use Rattle.sim_io.specs.MemFiles.{contents_of, failures_of, call_after, IsFailure};

    ghost contents = { λ s name. contents_of s.files name };

    ghost faults = { λ s name. failures_of s.failed name };

    ghost came = { λ s. s.came };

    /// A call that is listed, or whose name no file has, fails, and its name is kept. Without memory to keep it, it answers that there is none.
    fn read_file(&mut self, alloc: Global, name: &str, limit: usize) -> Result<Vec<u8>, FileFault>
        ensures all { IfOk result (λ bytes. IfSome (contents_of self.old.files name.now) (λ told. bytes.items ≡ told)) }
        ensures whole { IfOk result (λ bytes. vec_len bytes ≡ self.new.came) }
        ensures within { IfOk result (λ bytes. vec_len bytes ≤ limit) }
        ensures too_long { (result ≡ Err FileFault.TooLong) ↔ (limit < self.new.came) }
        ensures told_too_long { result ≡ Err FileFault.TooLong → IfSome (contents_of self.old.files name.now) (λ told. limit < length told) }
        ensures failed { result ≡ Err FileFault.Failed → Rose (failures_of self.old.failed name.now) (failures_of self.new.failed name.now) }

        ensures never_falls { (other : List ℕ) → failures_of self.old.failed other ≤ failures_of self.new.failed other }
        ensures contents_stay { (other : List ℕ) → contents_of self.new.files other ≡ contents_of self.old.files other }

        ensures fails_as_told { IsFailure self.old name.now → (result ≡ Err FileFault.Failed) ⊎ (result ≡ Err FileFault.OutOfMemory) }
        ensures fails_only_as_told { result ≡ Err FileFault.Failed → IsFailure self.old name.now }
        ensures others_stay { (other : List ℕ) → other ≢ name.now → failures_of self.new.failed other ≡ failures_of self.old.failed other }
        ensures files { self.new.files ≡ self.old.files }
        ensures fails { self.new.fails ≡ self.old.fails }
        ensures calls { self.new.calls ≡ call_after self.old.calls }
    {
        if self.next_is_listed() {
            return Err(self.fail(alloc, name));
        }
        match self.bytes_named(name.as_bytes()) {
            Some(bytes) => {
                let came = bytes.len();
                let copy = copied(alloc, bytes, limit);
                self.came = came;
                copy
            }
            None => Err(self.fail(alloc, name)),
        }
    }
}
