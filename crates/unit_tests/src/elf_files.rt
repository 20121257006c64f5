mod made;

use byteorder::{ByteOrder, LittleEndian};
use elf_load::{ElfFault, ElfRule, LONGEST_FILE, Segment, Segments, load};
use made::MADE;
use std::alloc::{AllocError, Global};
use std::test::Fail;

/// Appends the words, the lowest byte of each first.
fn put(file: &mut Vec<u8>, words: &[u32]) -> Result<(), AllocError> {
    for word in words {
        file.extend_from_slice(&word.to_le_bytes())?;
    }
    Ok(())
}

/// A program of 4144 bytes with four program headers: attributes that take no memory, two loads, of which the second
/// has 8 bytes of zeros behind its 4, and a stack.
fn nine(alloc: Global) -> Result<Vec<u8>, AllocError> {
    let mut file = Vec::new(alloc);
    put(&mut file, &[0x464C_457F, 0x0001_0101, 0, 0])?;
    put(
        &mut file,
        &[243 << 16 | 2, 1, 0x1_0000, 52, 0, 0, 32 << 16 | 52, 4, 0],
    )?;
    put(&mut file, &[0x7000_0003, 4116, 0, 0, 28, 0, 0, 0])?;
    put(&mut file, &[1, 4096, 0x1_0000, 0, 16, 16, 0, 0])?;
    put(&mut file, &[1, 4112, 0x1_1000, 0, 4, 12, 0, 0])?;
    put(&mut file, &[0x6474_E551, 0, 0, 0, 0, 0, 0, 0])?;
    file.resize(4096, 0)?;
    put(
        &mut file,
        &[0x0001_12B7, 0x0002_A503, 0x05D0_0893, 0x0000_0073, 9],
    )?;
    file.resize(4144, 0)?;
    Ok(file)
}

fn broken(rule: ElfRule, at: u32) -> Option<ElfFault> {
    Some(ElfFault::Broken { rule, at })
}

#[test]
fn a_load_gives_a_segment_and_other_headers_none(rt: HostRuntime) -> Result<(), Fail> {
    let image = load(rt.alloc(), nine(rt.alloc())?)?;
    assert_eq!(rt; image.entry, 0x1_0000);
    assert_eq!(rt; image.file.items(), nine(rt.alloc())?.as_slice());
    let code = Segment {
        vaddr: 0x1_0000,
        mem_size: 16,
        from: 4096,
        file_size: 16,
        header: 84,
    };
    let number = Segment {
        vaddr: 0x1_1000,
        mem_size: 12,
        from: 4112,
        file_size: 4,
        header: 116,
    };
    assert_eq!(rt; image.segments.items(), [code, number].as_slice());
    let again = Segments::of(image.segments.into_vec());
    assert_eq!(rt; again.items(), [code, number].as_slice());
    Ok(())
}

/// The segments as `riscv64-unknown-elf-readelf -l` prints them.
#[test]
fn a_file_of_the_gnu_tools_has_the_segments_that_readelf_prints(
    rt: HostRuntime,
) -> Result<(), Fail> {
    let image = load(rt.alloc(), MADE.to_vec(rt.alloc())?)?;
    assert_eq!(rt; image.entry, 0x1_0094);
    let code = Segment {
        vaddr: 0x1_0000,
        mem_size: 0xb0,
        from: 0,
        file_size: 0xb0,
        header: 84,
    };
    let number = Segment {
        vaddr: 0x1_00b0,
        mem_size: 0xc,
        from: 0xb0,
        file_size: 0x4,
        header: 116,
    };
    assert_eq!(rt; image.segments.items(), [code, number].as_slice());
    Ok(())
}

/// What is told of the first `n` bytes of `nine`.
fn fault_of_cut(n: u32) -> Option<ElfFault> {
    match n {
        0..=51 => broken(ElfRule::Short, n),
        52..=179 => broken(ElfRule::TableOutside, 28),
        180..=4111 => broken(ElfRule::SegmentOutside, 88),
        4112..=4115 => broken(ElfRule::SegmentOutside, 120),
        _ => None,
    }
}

#[test]
fn a_file_that_was_cut_is_refused_until_its_last_segment_is_whole(
    rt: HostRuntime,
) -> Result<(), Fail> {
    for n in 0..=4144 {
        let mut file = nine(rt.alloc())?;
        file.truncate(n as usize);
        assert_eq!(rt;
            load(rt.alloc(), file).err(),
            fault_of_cut(n),
            "cut to {n} bytes"
        );
    }
    Ok(())
}

#[test]
fn one_wrong_word_breaks_one_rule_at_its_place(rt: HostRuntime) -> Result<(), Fail> {
    let rows = [
        (0u16, 0x464C_457E, broken(ElfRule::Magic, 0)),
        (4, 0x0001_0102, broken(ElfRule::Class, 4)),
        (4, 0x0001_0201, broken(ElfRule::DataOrder, 5)),
        (4, 0x0000_0101, broken(ElfRule::Version, 6)),
        (20, 2, broken(ElfRule::Version, 20)),
        (16, 243 << 16 | 3, broken(ElfRule::FileType, 16)),
        (16, 62 << 16 | 2, broken(ElfRule::Machine, 18)),
        (40, 32 << 16 | 64, broken(ElfRule::HeaderSize, 40)),
        (40, 56 << 16 | 52, broken(ElfRule::HeaderSize, 42)),
        (28, 4016, None),
        (28, 4017, broken(ElfRule::TableOutside, 28)),
        (44, 0, None),
        (88, 4128, None),
        (88, 4129, broken(ElfRule::SegmentOutside, 88)),
        (100, 17, broken(ElfRule::FileOverMemory, 100)),
        (104, 0, None),
        (92, 0xFFFF_FFF0, None),
        (92, 0xFFFF_FFF1, broken(ElfRule::AddressWraps, 92)),
    ];
    for (place, word, want) in rows {
        let mut file = nine(rt.alloc())?;
        let from = place as usize;
        assert!(rt; from + 4 <= file.len());
        LittleEndian::write_u32(&mut file[from..], word);
        assert_eq!(rt; load(rt.alloc(), file).err(), want, "{word} at {place}");
    }
    Ok(())
}

#[test]
fn a_file_has_at_most_8_mib(rt: HostRuntime) -> Result<(), Fail> {
    let mut file = nine(rt.alloc())?;
    file.resize(LONGEST_FILE + 1, 0)?;
    assert_eq!(rt;
        load(rt.alloc(), file).err(),
        broken(ElfRule::TooLong, 8_388_608)
    );
    let mut file = nine(rt.alloc())?;
    file.resize(8_388_608, 0)?;
    assert_eq!(rt; load(rt.alloc(), file).err(), None);
    Ok(())
}

#[test]
fn a_rule_is_told_by_its_word(rt: HostRuntime) -> Result<(), Fail> {
    let rows = [
        (ElfRule::TooLong, "too-long"),
        (ElfRule::Short, "short"),
        (ElfRule::Magic, "magic"),
        (ElfRule::Class, "class"),
        (ElfRule::DataOrder, "data"),
        (ElfRule::Version, "version"),
        (ElfRule::FileType, "type"),
        (ElfRule::Machine, "machine"),
        (ElfRule::HeaderSize, "header-size"),
        (ElfRule::TableOutside, "table-outside"),
        (ElfRule::SegmentOutside, "segment-outside"),
        (ElfRule::FileOverMemory, "file-over-memory"),
        (ElfRule::AddressWraps, "address-wraps"),
    ];
    for (rule, word) in rows {
        assert_eq!(rt; rule.to_string(rt.alloc())?.as_str(), word);
    }
    let fault = ElfFault::Broken {
        rule: ElfRule::Short,
        at: 51,
    };
    assert_eq!(rt; fault.to_string(rt.alloc())?.as_str(), "short at 51");
    Ok(())
}
