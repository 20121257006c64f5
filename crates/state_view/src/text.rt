ghost use Rattle.std.specs.Prelude.{◌≡◌, ◌≤◌, [], ◌++◌, length, OnOk};
ghost use Rattle.std.specs.Fmt.{decimal};
ghost use Rattle.hex.specs.Hex.{encode_lower};

use sim_base::{Body, OutOfMemory};
use std::alloc::Global;
use std::marker::Model;

/// The most bytes that are written in digits at a time.
const MOST_BYTES: usize = 16;

/// A text that grows at its end.
#[derive(Drop)]
pub struct Text {
    alloc: Global,
    bytes: Vec<u8>,
}

impl Model for Text {
    ghost use Rattle.std.specs.Prelude.{ℕ, List};

    ghost Value = { List ℕ };

    ghost view = { λ t. t.bytes.items };
}

impl Text {
    pub fn new(alloc: Global) -> Self
        ensures { result ≡ [] }
    {
        Text {
            alloc,
            bytes: Vec::new(alloc),
        }
    }

    /// Appends these bytes.
    pub fn put(&mut self, bytes: &[u8]) -> Result<(), OutOfMemory>
        ensures { OnOk result (self.new ≡ self.old ++ bytes.now) }
    {
        self.bytes.extend_from_slice(bytes)?;
        Ok(())
    }

    /// Appends a number in decimal digits.
    pub fn number(&mut self, n: u64) -> Result<(), OutOfMemory>
        ensures { OnOk result (self.new ≡ self.old ++ decimal n) }
    {
        let digits = format!(in self.alloc; "{n}")?;
        self.put(digits.as_bytes())
    }

    /// Appends a number in decimal digits.
    pub fn small_number(&mut self, n: u32) -> Result<(), OutOfMemory>
        ensures { OnOk result (self.new ≡ self.old ++ decimal n) }
    {
        self.number(u64::from(n))
    }

    /// Appends a number of up to 128 bits in decimal digits.
    pub fn big_number(&mut self, n: u128) -> Result<(), OutOfMemory>
        ensures { OnOk result (self.new ≡ self.old ++ decimal n) }
    {
        let digits = format!(in self.alloc; "{n}")?;
        self.put(digits.as_bytes())
    }

    /// Appends bytes, each as two lower-case hexadecimal digits.
    pub fn hex(&mut self, bytes: &[u8]) -> Result<(), OutOfMemory>
        requires { length bytes.now ≤ MOST_BYTES }
        ensures { OnOk result (self.new ≡ self.old ++ encode_lower bytes.now) }
    {
        let mut digits = [0; 2 * MOST_BYTES];
        let digits = &mut digits[..2 * bytes.len()];
        let encoded = hex::encode_to_slice(bytes, digits);
        prove!(encoded.is_ok());
        self.put(digits)
    }

    pub fn into_body(self) -> Body
        ensures { result ≡ self }
    {
        Body::of(self.bytes)
    }
}
