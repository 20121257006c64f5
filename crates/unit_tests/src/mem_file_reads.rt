use sim_base::{Body, OutOfMemory};
use sim_io::{FileFault, Files, MemFile, MemFiles};
use std::alloc::Global;
use std::test::Fail;

fn file(alloc: Global, name: &str, bytes: &[u8]) -> Result<MemFile, OutOfMemory> {
    Ok(MemFile {
        name: Body::of(Vec::from_slice(alloc, name.as_bytes())?),
        bytes: Body::of(Vec::from_slice(alloc, bytes)?),
    })
}

fn three_files(alloc: Global, fails: &[u64]) -> Result<MemFiles, OutOfMemory> {
    let mut files = Vec::new(alloc);
    files.push(file(alloc, "a.toml", b"first")?)?;
    files.push(file(alloc, "b", b"")?)?;
    files.push(file(alloc, "a.toml", b"second")?)?;
    Ok(MemFiles::of(files, Vec::from_slice(alloc, fails)?))
}

#[test]
fn a_file_is_read_up_to_the_limit(rt: HostRuntime) -> Result<(), Fail> {
    let alloc = rt.alloc();
    let mut files = three_files(alloc, &[])?;
    let first = files.read_file(alloc, "a.toml", 5)?;
    assert_eq!(rt; first.as_slice(), b"first".as_slice());
    let empty = files.read_file(alloc, "b", 0)?;
    assert_eq!(rt; empty.as_slice(), b"".as_slice());
    assert_eq!(rt;
        files.read_file(alloc, "a.toml", 4).err(),
        Some(FileFault::TooLong)
    );
    assert_eq!(rt;
        files.read_file(alloc, "a", 99).err(),
        Some(FileFault::Failed)
    );
    Ok(())
}

#[test]
fn a_listed_reading_fails(rt: HostRuntime) -> Result<(), Fail> {
    let alloc = rt.alloc();
    let mut files = three_files(alloc, &[1, 3])?;
    assert_eq!(rt;
        files.read_file(alloc, "b", 9).err(),
        Some(FileFault::Failed)
    );
    assert_eq!(rt; files.read_file(alloc, "b", 9).err(), None);
    assert_eq!(rt;
        files.read_file(alloc, "a.toml", 0).err(),
        Some(FileFault::Failed)
    );
    Ok(())
}
