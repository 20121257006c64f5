ghost use Rattle.std.specs.Prelude.{◌≡◌, ◌∷◌, ◌++◌, IfOk, string_bytes};

use sim_base::{Name, OutOfMemory};
use std::alloc::Global;
use std::marker::Model;

/// A name as text.
#[derive(Drop)]
pub struct Word {
    text: String,
}

impl Model for Word {
    ghost use Rattle.std.specs.Prelude.{ℕ, List, string_bytes};

    ghost Value = { List ℕ };

    ghost view = { λ w. string_bytes w.text };
}

/// The text of a name.
fn text_of(alloc: Global, name: &Name) -> Result<String, OutOfMemory>
    ensures { IfOk result (λ text. string_bytes text ≡ name.now) }
{
    Ok(String::from_utf8_lossy(alloc, name.text())?)
}

impl Word {
    pub fn of(alloc: Global, name: &Name) -> Result<Word, OutOfMemory>
        ensures { IfOk result (λ word. word ≡ name.now) }
    {
        let text = text_of(alloc, name)?;
        Ok(Word { text })
    }

    /// `PART.PORT`: the name of a part, a full stop, and the word of a port there.
    pub fn of_port(alloc: Global, part: &Word, port: &Name) -> Result<Word, OutOfMemory>
        ensures { IfOk result (λ word. word ≡ part.now ++ 46 ∷ port.now) }
    {
        let mut text = String::from_str(alloc, part.as_str())?;
        text.push('.')?;
        text.push_str(text_of(alloc, port)?.as_str())?;
        Ok(Word { text })
    }

    pub fn as_str(&self) -> &str
        ensures { result.now ≡ self.now }
    {
        self.text.as_str()
    }
}
