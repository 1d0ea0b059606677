ghost use Rattle.std.specs.Prelude.{◌≡◌, ◌↔◌, [], ◌∷◌, ◌++◌, length, take, decimal, IsTrue, IfOk, OnOk, OnErr};
ghost use Rattle.std.specs.Str.{bytes_eq};

use itoa::Buffer;
use std::alloc::{AllocError, Global};
use std::marker::Model;

/// A text: any bytes, in order.
#[derive(Debug, Drop)]
pub struct Text {
    bytes: Vec<u8>,
}

impl Model for Text {
    ghost use Rattle.std.specs.Prelude.{List, ℕ};

    ghost Value = { List ℕ };

    ghost view = { λ t. t.bytes.items };
}

impl Text {
    /// The empty text. It allocates no memory.
    pub fn new(alloc: Global) -> Self
        ensures { result ≡ [] }
    {
        Text {
            bytes: Vec::new(alloc),
        }
    }

    /// A text with a copy of these bytes.
    pub fn of(alloc: Global, bytes: &[u8]) -> Result<Self, AllocError>
        ensures { IfOk result (λ text. text ≡ bytes.now) }
    {
        Ok(Text {
            bytes: Vec::from_slice(alloc, bytes)?,
        })
    }

    /// The bytes, in order.
    pub fn bytes(&self) -> &[u8]
        ensures { result.now ≡ self.now }
    {
        self.bytes.as_slice()
    }

    /// Turns the text into the vector of its bytes.
    pub fn into_bytes(self) -> Vec<u8>
        ensures { result.items ≡ self }
    {
        self.bytes
    }

    /// How many bytes there are.
    pub fn len(&self) -> usize
        ensures { result ≡ length self.now }
    {
        self.bytes.len()
    }

    /// Whether there are no bytes.
    pub fn is_empty(&self) -> bool
        ensures { IsTrue result ↔ (self.now ≡ []) }
    {
        self.bytes.is_empty()
    }

    /// Keeps the first `len` bytes, or all bytes if there are fewer.
    pub fn truncate(&mut self, len: usize)
        ensures { self.new ≡ take len self.old }
    {
        self.bytes.truncate(len);
    }

    /// Appends a byte. If out of memory, the text doesn't change.
    pub fn push(&mut self, byte: u8) -> Result<(), AllocError>
        ensures ok { OnOk result (self.new ≡ self.old ++ byte ∷ []) }
        ensures err { OnErr result (self.new ≡ self.old) }
    {
        self.bytes.push(byte)?;
        Ok(())
    }

    /// Appends bytes. If out of memory, the text doesn't change.
    pub fn append(&mut self, bytes: &[u8]) -> Result<(), AllocError>
        ensures ok { OnOk result (self.new ≡ self.old ++ bytes.now) }
        ensures err { OnErr result (self.new ≡ self.old) }
    {
        self.bytes.extend_from_slice(bytes)
    }

    /// Appends a number in decimal digits. If out of memory, the text doesn't change.
    pub fn append_number(&mut self, number: u64) -> Result<(), AllocError>
        ensures ok { OnOk result (self.new ≡ self.old ++ decimal number) }
        ensures err { OnErr result (self.new ≡ self.old) }
    {
        let mut buffer = Buffer::new();
        self.append(buffer.format(number).as_bytes())
    }

    /// A copy of the text, with bytes of its own.
    pub fn copy(&self, alloc: Global) -> Result<Self, AllocError>
        ensures { IfOk result (λ text. text ≡ self.now) }
    {
        Text::of(alloc, self.bytes())
    }
}

// Texts of at most so many bytes are compared byte by byte: most names are so short.
const SHORT_TEXT: usize = 16;

// Whether two texts of the same length are the same. Paths that differ mostly do so at their ends, so the last bytes are compared first.
fn are_same_bytes(one: &[u8], other: &[u8]) -> bool
    requires { length one.now ≡ length other.now }
    ensures { result ≡ bytes_eq one.now other.now }
{
    let mut left = one.len();
    while left > 0 {
        left -= 1;
        if one[left] != other[left] {
            return false;
        }
    }
    true
}

/// Whether two texts are the same. Mostly the lengths decide.
#[inline]
pub fn is_same_text(one: &[u8], other: &[u8]) -> bool
    ensures { result ≡ bytes_eq one.now other.now }
{
    if one.len() > SHORT_TEXT {
        return one == other;
    }
    one.len() == other.len() && are_same_bytes(one, other)
}
