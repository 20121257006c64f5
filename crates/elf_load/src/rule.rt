ghost use Rattle.std.specs.Prelude.{◌≡◌};
ghost use Rattle.elf_load.specs.Rule.{word_of};

use std::fmt;

/// A rule of the format that a file may break, in the order in which the rules are tried.
///
/// The last three are tried header by header, in this order at each, of the headers that are loads: those of type
/// PT_LOAD that take more than 0 bytes of memory. Other headers may hold anything.
#[derive(Clone, Copy, Debug, PartialEq, Eq)]
pub enum ElfRule {
    /// The file has at most 8388608 bytes.
    TooLong,
    /// The file has room for the ELF header, 52 bytes.
    Short,
    /// The file begins with the bytes 7F 45 4C 46.
    Magic,
    /// The file is of class ELFCLASS32.
    Class,
    /// The numbers stand with their lowest byte first, ELFDATA2LSB.
    DataOrder,
    /// Both fields of the version are EV_CURRENT.
    Version,
    /// The file is executable, ET_EXEC.
    FileType,
    /// The machine is RISC-V, EM_RISCV.
    Machine,
    /// The ELF header has 52 bytes, and an entry of the program header table has 32. The second is not asked of a file
    /// without program headers.
    HeaderSize,
    /// The program header table ends within the file. It is not asked of a file without program headers, whose table
    /// may be said to stand anywhere.
    TableOutside,
    /// The bytes of a segment end within the file. A segment without bytes in the file may have any offset.
    SegmentOutside,
    /// A segment has no more bytes in the file than in memory.
    FileOverMemory,
    /// The memory of a segment ends at 2^32 at the latest: its address plus its size may be 2^32.
    AddressWraps,
}

impl ElfRule {
    /// The word by which a message tells of the rule.
    pub fn word(&self) -> &'static str
        ensures { result.now ≡ word_of self.now }
    {
        match self {
            ElfRule::TooLong => "too-long",
            ElfRule::Short => "short",
            ElfRule::Magic => "magic",
            ElfRule::Class => "class",
            ElfRule::DataOrder => "data",
            ElfRule::Version => "version",
            ElfRule::FileType => "type",
            ElfRule::Machine => "machine",
            ElfRule::HeaderSize => "header-size",
            ElfRule::TableOutside => "table-outside",
            ElfRule::SegmentOutside => "segment-outside",
            ElfRule::FileOverMemory => "file-over-memory",
            ElfRule::AddressWraps => "address-wraps",
        }
    }
}

impl fmt::Display for ElfRule {
    ghost use Rattle.std.specs.Prelude.{Some};

    ghost output = { λ rule. Some (word_of rule) };

    fn fmt<W: fmt::Write>(&self, f: &mut fmt::Formatter<W>) -> fmt::Result {
        f.write_str(self.word())
    }
}
