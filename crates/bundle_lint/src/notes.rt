//! Notes, a line each.
use net_base::Octets;
use std::alloc::{AllocError, Global};
use words::{put_address, put_decimal};

/// The notes so far.
#[derive(Drop)]
pub struct Notes {
    alloc: Global,
    text: Octets,
}

impl Notes {
    /// No notes.
    pub fn new(alloc: Global) -> Notes {
        Notes {
            alloc,
            text: Octets::new(alloc),
        }
    }

    /// Adds a note on a line: these texts, one after the other.
    pub fn add(&mut self, line: u64, texts: &[&[u8]]) -> Result<(), AllocError> {
        put_decimal(&mut self.text, line)?;
        self.text.push(b' ')?;
        for text in texts {
            self.text.append(text)?;
        }
        self.text.push(b'\n')
    }

    /// The allocator.
    pub fn allocator(&self) -> Global {
        self.alloc
    }

    /// The text of all notes.
    pub fn into_text(self) -> Octets {
        let Notes { text, .. } = self;
        text
    }
}

/// An address, as four numbers.
pub fn address_text(alloc: Global, ip: u32) -> Result<Octets, AllocError> {
    let mut out = Octets::new(alloc);
    put_address(&mut out, ip)?;
    Ok(out)
}

/// A number in decimal.
pub fn number_text(alloc: Global, number: u64) -> Result<Octets, AllocError> {
    let mut out = Octets::new(alloc);
    put_decimal(&mut out, number)?;
    Ok(out)
}
