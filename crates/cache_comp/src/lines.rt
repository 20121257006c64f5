ghost use Rattle.std.specs.Prelude.{◌≡◌, ◌*◌, ◌+◌, ◌<◌, ◌≤◌, length, map, take, position, IsTrue, IfOk, IfSome};
ghost use Rattle.port_msg.specs.Kinds.{is_write};
ghost use Rattle.cache_comp.specs.Lines.{unused_lines, places, put_over, written, begin_of, invalid_tag, line_address, ways_of, hit_place, victim_way, victim_place, holds, is_vacant, is_least, least_use, first_place, first_dirty, tag_at, line_bytes, filled, accepts, LiesInLine, read, note_use, access, SameSizes, invalidate, invalidate_all, reserve, clean, put_line, byte_at};

use crate::line_tag::LineTag;
use port_msg::{DATA_BYTES, Msg, MsgKind};
use sim_base::OutOfMemory;
use std::alloc::Global;
use std::marker::Model;

/// The lines of a cache: their tags by set and then by way, and their bytes in the same order.
#[derive(Drop)]
pub struct Lines {
    line: u32,
    sets: u32,
    ways: u32,
    tags: Vec<LineTag>,
    bytes: Vec<u8>,
    greatest: u64,
}

impl Model for Lines {
    ghost use Rattle.cache_comp.specs.Lines.{LinesState, IsLines};

    ghost Value = { LinesState };

    ghost view = { λ l. record { line = l.line; sets = l.sets; ways = l.ways; tags = l.tags.items; bytes = l.bytes.items; greatest = l.greatest } };

    ghost invariant = { λ l. IsLines (record { line = l.line; sets = l.sets; ways = l.ways; tags = l.tags.items; bytes = l.bytes.items; greatest = l.greatest }) };
}

/// The least use number of the free lines among these.
fn least_use(ways: &[LineTag]) -> u64
    ensures { result ≡ least_use ways.now }
{
    ways.iter().fold(u64::MAX, |least, tag| tag.lesser(least))
}

/// The first of these ways that holds the line of this address.
fn held_way(ways: &[LineTag], line: u32) -> Option<usize>
    ensures way { result ≡ position (holds line) ways.now }
    ensures within { IfSome result (λ way. way < length ways.now) }
{
    ways.iter().position(|tag| tag.holds(line))
}

/// The free and invalid way of least number.
fn vacant_way(ways: &[LineTag]) -> Option<usize>
    ensures way { result ≡ position is_vacant ways.now }
    ensures within { IfSome result (λ way. way < length ways.now) }
{
    ways.iter().position(|tag| tag.is_vacant())
}

/// The first free way of least use number.
fn least_way(ways: &[LineTag]) -> Option<usize>
    ensures way { result ≡ position (is_least (least_use ways.now)) ways.now }
    ensures within { IfSome result (λ way. way < length ways.now) }
{
    let least = least_use(ways);
    ways.iter().position(|tag| tag.is_least(least))
}

/// The victim among the ways of a set: the free and invalid one of least number, else the first free one of least use
/// number.
fn victim_way(ways: &[LineTag]) -> Option<usize>
    ensures way { result ≡ victim_way ways.now }
    ensures within { IfSome result (λ way. way < length ways.now) }
{
    match vacant_way(ways) {
        Some(way) => Some(way),
        None => least_way(ways),
    }
}

/// These lines become invalid.
fn invalidate_tags(tags: &mut [LineTag])
    ensures { tags.new ≡ map invalid_tag tags.old }
{
    for tag in tags.iter_mut() {
        *tag = tag.invalid();
    }
}

/// Puts bytes over others from a place on.
fn put_over(bytes: &mut [u8], at: usize, others: &[u8])
    requires { at + length others.now ≤ length bytes.old }
    ensures { bytes.new ≡ put_over bytes.old at others.now }
{
    bytes[at..at + others.len()].copy_from_slice(others);
}

/// Whether a message brings bytes.
fn is_write(kind: MsgKind) -> bool
    ensures { result ≡ is_write kind }
{
    matches!(kind, MsgKind::Write)
}

/// These bytes with zeros behind them.
#[tactic(auto, using(crate::specs::LinesLaws::filled_from))]
fn filled(bytes: &[u8]) -> [u8; DATA_BYTES]
    requires { length bytes.now ≤ 64 }
    ensures { result ≡ filled bytes.now }
{
    let mut all = [0; DATA_BYTES];
    all[..bytes.len()].copy_from_slice(bytes);
    all
}

impl Lines {
    /// Lines of 1 to 64 bytes, in 1 to 1024 sets of 1 to 16 ways, none of which was used.
    #[tactic(auto, using(crate::specs::LinesLaws::places_most, crate::specs::LinesLaws::bytes_most))]
    pub fn open(alloc: Global, line: u32, sets: u32, ways: u32) -> Result<Lines, OutOfMemory>
        requires line_some { 0 < line }
        requires line_most { line ≤ 64 }
        requires sets_some { 0 < sets }
        requires sets_most { sets ≤ 1024 }
        requires ways_some { 0 < ways }
        requires ways_most { ways ≤ 16 }

        ensures { IfOk result (λ lines. lines ≡ unused_lines line sets ways) }
    {
        let places = sets as usize * ways as usize;
        let tags = vec![in alloc; LineTag::unused(); places]?;
        let bytes = vec![in alloc; 0; places * line as usize]?;
        Ok(Lines {
            line,
            sets,
            ways,
            tags,
            bytes,
            greatest: 0,
        })
    }

    /// How many bytes a line has.
    pub fn line(&self) -> u32
        ensures line { result ≡ self.now.line }
        ensures some { 0 < result }
        ensures most { result ≤ 64 }
    {
        self.line
    }

    /// The address of the line that an address lies in.
    pub fn line_address(&self, addr: u32) -> u32
        ensures { result ≡ line_address self.now.line addr }
    {
        addr - addr % self.line
    }

    /// Where the ways of the set of an address begin.
    #[tactic(auto, using(crate::specs::LinesLaws::line_end, crate::specs::LinesLaws::places_most))]
    fn first_place(&self, addr: u32) -> usize
        ensures first { result ≡ first_place self.now addr }
        ensures within { result + self.now.ways ≤ places self.now }
        ensures short { result + self.now.ways ≤ 65536 }
    {
        (addr / self.line % self.sets) as usize * self.ways as usize
    }

    /// The place of a way of the set of an address.
    fn place_of(&self, addr: u32, way: usize) -> usize
        requires { way < self.now.ways }
        ensures place { result ≡ first_place self.now addr + way }
        ensures within { result < places self.now }
    {
        self.first_place(addr) + way
    }

    /// The ways of the set of an address.
    fn ways_of(&self, addr: u32) -> &[LineTag]
        ensures ways { result.now ≡ ways_of self.now addr }
        ensures long { length result.now ≡ self.now.ways }
    {
        let first = self.first_place(addr);
        &self.tags[first..first + self.ways as usize]
    }

    /// Where the valid line of an address stands, or None where there is none. It looks at the ways of one set.
    pub fn hit_place(&self, addr: u32) -> Option<usize>
        ensures place { result ≡ hit_place self.now addr }
        ensures within { IfSome result (λ place. place < places self.now) }
    {
        let way = held_way(self.ways_of(addr), self.line_address(addr))?;
        Some(self.place_of(addr, way))
    }

    /// Where the line of an address can be put, or None where each way of its set is reserved.
    pub fn victim_place(&self, addr: u32) -> Option<usize>
        ensures place { result ≡ victim_place self.now addr }
        ensures within { IfSome result (λ place. place < places self.now) }
    {
        let way = victim_way(self.ways_of(addr))?;
        Some(self.place_of(addr, way))
    }

    /// The first line, by set and then by way, that has to be written down, or None where there is none.
    pub fn first_dirty(&self) -> Option<usize>
        ensures place { result ≡ first_dirty self.now }
        ensures within { IfSome result (λ place. place < places self.now) }
    {
        self.tags.iter().position(|tag| tag.is_dirty())
    }

    /// What is kept of the line at a place.
    pub fn tag(&self, place: usize) -> LineTag
        requires { place < places self.now }
        ensures { result ≡ tag_at self.now place }
    {
        self.tags[place]
    }

    /// Where the bytes of the line at a place begin.
    #[tactic(auto, using(crate::specs::LinesLaws::line_end, crate::specs::LinesLaws::bytes_most))]
    fn first_byte(&self, place: usize) -> usize
        requires { place < places self.now }
        ensures first { result ≡ place * self.now.line }
        ensures within { result + self.now.line ≤ length self.now.bytes }
    {
        place * self.line as usize
    }

    /// Where the bytes that a message is about begin, at the line of this place.
    fn begin_of(&self, place: usize, request: &Msg) -> usize
        requires within { place < places self.now }
        requires lies { LiesInLine self.now.line request.now }
        ensures first { result ≡ begin_of self.now place request.now }
        ensures within { result + request.now.len ≤ length self.now.bytes }
        ensures short { request.now.len ≤ 64 }
    {
        self.first_byte(place) + (request.addr % self.line) as usize
    }

    /// The bytes of the line at a place, and zeros behind them.
    pub fn line_bytes(&self, place: usize) -> [u8; DATA_BYTES]
        requires { place < places self.now }
        ensures { result ≡ filled (line_bytes self.now place) }
    {
        let first = self.first_byte(place);
        filled(&self.bytes[first..first + self.line as usize])
    }

    /// Whether a message is a read or a write of 1 to 64 bytes that all lie in one line.
    pub fn accepts(&self, msg: &Msg) -> bool
        ensures test { result ≡ accepts self.now.line msg.now }
        ensures lies { IsTrue result → LiesInLine self.now.line msg.now }
    {
        matches!(msg.kind, MsgKind::Read | MsgKind::Write)
            && msg.len > 0
            && msg.len <= 64
            && msg.addr % self.line + u32::from(msg.len) <= self.line
    }

    /// The bytes that a message is about, at the line of this place, and zeros behind them.
    pub fn read(&self, place: usize, request: &Msg) -> [u8; DATA_BYTES]
        requires within { place < places self.now }
        requires lies { LiesInLine self.now.line request.now }
        ensures { result ≡ filled (read self.now place request.now) }
    {
        let first = self.begin_of(place, request);
        filled(&self.bytes[first..first + request.len as usize])
    }

    /// Puts the bytes of a message into the line at a place.
    fn store(&mut self, place: usize, request: &Msg)
        requires within { place < places self.old }
        requires lies { LiesInLine self.old.line request.now }
        ensures { self.new ≡ record self.old { bytes = written self.old place request.now } }
    {
        let first = self.begin_of(place, request);
        put_over(
            &mut self.bytes,
            first,
            &request.bytes[..request.len as usize],
        );
    }

    /// The line at a place is used: a write marks it dirty, and it gets the greatest use number.
    fn note_use(&mut self, place: usize, writes: bool)
        requires { place < places self.old }
        ensures used { self.new ≡ note_use place writes self.old }
        ensures sizes { SameSizes self.old self.new }
    {
        let tag = self.tags[place];
        self.greatest = self.greatest.saturating_add(1);
        self.tags[place] = LineTag {
            dirty: writes || tag.dirty,
            used: self.greatest,
            ..tag
        };
    }

    /// Reads or writes the line at a place, which is used.
    pub fn access(&mut self, place: usize, request: &Msg)
        requires within { place < places self.old }
        requires lies { LiesInLine self.old.line request.now }
        ensures accessed { self.new ≡ access place request.now self.old }
        ensures sizes { SameSizes self.old self.new }
    {
        let writes = is_write(request.kind);
        self.note_use(place, writes);
        if writes {
            self.store(place, request);
        }
    }

    /// The line at a place becomes invalid.
    pub fn invalidate(&mut self, place: usize)
        requires { place < places self.old }
        ensures invalid { self.new ≡ invalidate place self.old }
        ensures sizes { SameSizes self.old self.new }
    {
        self.tags[place] = self.tags[place].invalid();
    }

    /// All lines become invalid.
    pub fn invalidate_all(&mut self)
        ensures invalid { self.new ≡ invalidate_all self.old }
        ensures sizes { SameSizes self.old self.new }
    {
        invalidate_tags(&mut self.tags);
    }

    /// The line at a place becomes invalid, and its place is reserved.
    pub fn reserve(&mut self, place: usize)
        requires { place < places self.old }
        ensures reserved { self.new ≡ reserve place self.old }
        ensures sizes { SameSizes self.old self.new }
    {
        let mut tag = self.tags[place].invalid();
        tag.reserved = true;
        self.tags[place] = tag;
    }

    /// The line at a place becomes clean.
    pub fn clean(&mut self, place: usize)
        requires { place < places self.old }
        ensures clean { self.new ≡ clean place self.old }
        ensures sizes { SameSizes self.old self.new }
    {
        self.tags[place].dirty = false;
    }

    /// The line of this address is put at a place, with these bytes: it is valid and clean.
    pub fn put_line(&mut self, place: usize, addr: u32, bytes: &[u8; DATA_BYTES])
        requires { place < places self.old }
        ensures put { self.new ≡ put_line place addr bytes.now self.old }
        ensures sizes { SameSizes self.old self.new }
    {
        self.tags[place] = self.tags[place].came(addr);
        let first = self.first_byte(place);
        put_over(&mut self.bytes, first, &bytes[..self.line as usize]);
    }

    /// The byte of an address, or None where no valid line holds it.
    pub fn byte(&self, addr: u32) -> Option<u8>
        ensures { result ≡ byte_at self.now addr }
    {
        let place = self.hit_place(addr)?;
        let at = self.first_byte(place) + (addr % self.line) as usize;
        self.bytes.get(at).copied()
    }
}
