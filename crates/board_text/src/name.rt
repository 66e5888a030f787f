// LayerNames of layers, and stamps.
ghost use Rattle.std.specs.Prelude.{◌≡◌, IfOk};

use grid_num::Memory;
use std::alloc::Global;
use std::marker::Model;

/// The name of a layer, or a stamp. Contracts see its bytes.
#[derive(Debug, Drop)]
pub struct Name {
    bytes: Vec<u8>,
}

impl Model for Name {
    ghost use Rattle.std.specs.Prelude.{ℕ, List};

    ghost Value = { List ℕ };

    ghost view = { λ n. n.bytes.items };
}

impl Name {
    /// The name of these bytes.
    ///
    /// # Errors
    ///
    /// Want of memory.
    pub fn of(alloc: Global, bytes: &[u8]) -> Result<Name, Memory>
        ensures { IfOk result (λ name. name ≡ bytes.now) }
    {
        let mut own = Vec::new(alloc);
        own.extend_from_slice(bytes)?;
        Ok(Name { bytes: own })
    }

    /// Its bytes.
    pub fn bytes(&self) -> &[u8]
        ensures { result.now ≡ self.now }
    {
        self.bytes.as_slice()
    }
}
