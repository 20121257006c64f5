ghost use Rattle.std.specs.Prelude.{◌≡◌, IfOk};
ghost use Rattle.world_query.specs.Directory.{number_of, number_in};

use sim_base::{Name, OutOfMemory};
use std::alloc::Global;
use std::collections::BTreeMap;
use std::marker::Model;

/// Which number each of some names has, in an ordered map. Of equal names the first one counts.
#[derive(Drop)]
pub struct NameTable {
    numbers: BTreeMap<Vec<u8>, u32>,
}

impl Model for NameTable {
    ghost use Rattle.std.specs.Prelude.{ℕ, List};
    ghost use Rattle.world_query.specs.Table.{entries_of};

    ghost Value = { List (List ℕ × ℕ) };

    ghost view = { λ t. entries_of t.numbers.entries };
}

impl NameTable {
    /// The table of these names, which are numbered from 0 in their order.
    pub fn of(alloc: Global, names: &[Name]) -> Result<NameTable, OutOfMemory>
        ensures { IfOk result (λ t. number_in t ≡ number_of names.now) }
    {
        if names.len() > u32::MAX as usize {
            return Err(OutOfMemory);
        }
        let mut numbers = BTreeMap::new(alloc);
        let mut left = names.len();
        while left > 0 {
            left -= 1;
            let name = Vec::from_slice(alloc, names[left].text())?;
            drop(numbers.insert(name, left as u32)?);
        }
        Ok(NameTable { numbers })
    }

    /// The number of a name, or None where there is none. It takes time that grows with the length of the name and the logarithm
    /// of the number of names.
    pub fn number(&self, name: &[u8]) -> Option<u32>
        ensures { result ≡ number_in self.now name.now }
    {
        self.numbers.get(name).copied()
    }
}
