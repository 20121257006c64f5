//! The bytes of memories at first, with those of programs in their places.
ghost use Rattle.std.specs.Prelude.{◌≡◌, ◌+◌, ◌*◌, ◌^◌, ◌<◌, ◌≤◌, ◌==◌, None, length, if◌then◌else◌, IfOk};
ghost use Rattle.plan_check.specs.Programs as spec;

use crate::bytes::word_bytes;
use crate::caches::CacheMap;
use crate::load::Load;
use crate::programs::Programs;
use addr_map::AddrMap;
use elf_load::Image;
use sim_base::{Body, OutOfMemory, PortNo};
use std::alloc::Global;

/// Puts a byte at an address, if there is one, among bytes that begin at a base.
fn put(bytes: &mut [u8], base: u32, addr: u32, byte: Option<u8>)
    requires from { base ≤ addr }
    requires below { addr < base + length bytes.old }

    ensures { bytes.new ≡ spec.written_over base (λ a. if a == addr then byte else None) bytes.old }
{
    if let Some(byte) = byte {
        bytes[(addr - base) as usize] = byte;
    }
}

/// Puts the bytes of a segment into the memory of a port, whose bytes begin at a base.
fn place_load(bytes: &mut [u8], base: u32, port: PortNo, load: &Load)
    requires { base + length bytes.old ≤ 2 ^ 32 }
    ensures { bytes.new ≡ spec.written_over base (spec.byte_for port load.now) bytes.old }
{
    let segment = &load.segment;
    let segment_end = u64::from(segment.vaddr) + u64::from(segment.mem_size);
    let end = segment_end.min(u64::from(base) + bytes.len() as u64);
    let first = u64::from(segment.vaddr.max(base));
    for addr in first..end {
        put(bytes, base, addr as u32, load.byte_for(port, addr as u32));
    }
}

/// Puts the bytes of a program into the memory of a port, the segments in their order.
fn place_program(
    bytes: &mut [u8],
    base: u32,
    port: PortNo,
    map: &AddrMap,
    caches: &[CacheMap],
    image: &Image,
)
    requires { base + length bytes.old ≤ 2 ^ 32 }
    ensures { bytes.new ≡ spec.written_over base
        (spec.last_byte port (spec.program_loads (record { map = map.now; caches = caches.now })
        image.now.file image.now.segments)) bytes.old }
{
    let file = image.file.items();
    for segment in image.segments.items() {
        let load = Load {
            map,
            caches,
            file,
            segment: *segment,
        };
        place_load(bytes, base, port, &load);
    }
}

/// Puts the bytes of all programs into the memory of a port, the programs in their order.
fn place_all(bytes: &mut [u8], base: u32, port: PortNo, programs: &Programs)
    requires fits { base + length bytes.old ≤ 2 ^ 32 }
    requires count { length programs.now.images.now ≡ length programs.now.maps.now }

    ensures { bytes.new ≡ spec.written_over base
        (spec.last_byte port (spec.loads_of programs.now.caches.now programs.now.maps.now programs.now.images.now)) bytes.old }
{
    for no in 0..programs.images.len() {
        let map = &programs.maps[no];
        place_program(
            bytes,
            base,
            port,
            map,
            programs.caches,
            &programs.images[no],
        );
    }
}

/// The bytes of the memory of a port at first: of programs, else of words, else zeros.
pub(crate) fn opening_bytes(
    alloc: Global,
    programs: &Programs,
    port: PortNo,
    base: u32,
    size: u32,
    words: &[u32],
) -> Result<Body, OutOfMemory>
    requires words { 4 * length words.now ≤ size }
    requires fits { base + size ≤ 2 ^ 32 }
    requires count { length programs.now.images.now ≡ length programs.now.maps.now }

    ensures bytes { IfOk result (λ bytes. bytes
        ≡ spec.opening_bytes (spec.loads_of programs.now.caches.now programs.now.maps.now programs.now.images.now) port base size words.now) }
    ensures count { IfOk result (λ bytes. length bytes ≡ size) }
{
    let mut bytes = word_bytes(alloc, size, words)?;
    place_all(&mut bytes, base, port, programs);
    Ok(Body::of(bytes))
}
