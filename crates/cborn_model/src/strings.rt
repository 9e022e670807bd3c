//! Byte strings as values.

ghost use Rattle.std.specs.Prelude.{◌≡◌};
ghost use Rattle.cborn_model.specs.Bytes.{AreBytes};

use std::marker::Model;

/// A list of bytes. Contracts see no capacity.
#[derive(Drop)]
pub struct ByteString {
    bytes: Vec<u8>,
}

impl Model for ByteString {
    ghost use Rattle.std.specs.Prelude.{List, ℕ};

    ghost Value = { List ℕ };

    ghost view = { λ b. b.bytes.items };
}

impl ByteString {
    /// Wraps these bytes. Takes no memory.
    pub fn new(bytes: Vec<u8>) -> ByteString
        ensures { result ≡ bytes.items }
    {
        ByteString { bytes }
    }

    /// The bytes.
    pub fn as_slice(&self) -> &[u8]
        ensures same { result.now ≡ self.now }
        ensures bytes { AreBytes self.now }
    {
        let bytes = self.bytes.as_slice();
        bytes
    }

    /// Unwraps the bytes. Takes no memory.
    pub fn into_vec(self) -> Vec<u8>
        ensures { result.items ≡ self }
    {
        self.bytes
    }
}
