//! The bytes of an instruction, one after the other.

ghost use Rattle.std.specs.Prelude.{◌≡◌, ◌+◌, ◌<◌, ◌≤◌, ◌++◌, ◌∷◌, [], length};
ghost use Rattle.std.specs.Option.{option_to_list};
ghost use Rattle.x86_encode.specs.Bytes.{bytes_of, four_bytes, with_displacement, with_immediate};

/// The bytes of an instruction: the first `len` of `bytes`, at most 15. The others are 0.
#[derive(Clone, Copy)]
pub struct Code {
    pub bytes: [u8; 15],
    pub len: u8,
}

impl Code {
    /// No byte.
    pub(crate) fn empty() -> Code
        ensures bytes { bytes_of result ≡ [] }
        ensures len { result.len ≡ 0 }
    {
        Code {
            bytes: [0; 15],
            len: 0,
        }
    }

    /// One more byte.
    pub(crate) fn with(self, byte: u8) -> Code
        requires { self.len < 15 }
        ensures bytes { bytes_of result ≡ bytes_of self ++ byte ∷ [] }
        ensures len { result.len ≡ self.len + 1 }
    {
        let mut bytes = self.bytes;
        bytes[usize::from(self.len)] = byte;
        Code {
            bytes,
            len: self.len + 1,
        }
    }

    /// One more byte, where there is one.
    pub(crate) fn with_some(self, byte: Option<u8>) -> Code
        requires { self.len < 15 }
        ensures bytes { bytes_of result ≡ bytes_of self ++ option_to_list byte }
        ensures len { result.len ≤ self.len + 1 }
    {
        match byte {
            None => self,
            Some(byte) => self.with(byte),
        }
    }

    /// Two more bytes.
    pub(crate) fn with_two(self, first: u8, second: u8) -> Code
        requires { self.len < 14 }
        ensures bytes { bytes_of result ≡ bytes_of self ++ first ∷ second ∷ [] }
        ensures len { result.len ≡ self.len + 2 }
    {
        self.with(first).with(second)
    }

    /// A number of four bytes, the low byte first.
    pub(crate) fn with_word(self, n: u32) -> Code
        requires { self.len < 12 }
        ensures bytes { bytes_of result ≡ bytes_of self ++ four_bytes n }
        ensures len { result.len ≡ self.len + 4 }
    {
        let low = self.with_two((n % 256) as u8, (n / 256 % 256) as u8);
        low.with_two((n / 65_536 % 256) as u8, (n / 16_777_216 % 256) as u8)
    }

    /// The displacement of a mod: one byte for 1, four for 2, and else none.
    pub(crate) fn with_displacement(self, md: u8, disp: u32) -> Code
        requires { self.len < 12 }
        ensures bytes { bytes_of result ≡ with_displacement (bytes_of self) md disp }
        ensures len { result.len ≤ self.len + 4 }
    {
        match md {
            1 => self.with((disp % 256) as u8),
            2 => self.with_word(disp),
            _ => self,
        }
    }

    /// An immediate of no, one, two or four bytes.
    pub(crate) fn with_immediate(self, width: usize, n: u32) -> Code
        requires { self.len < 12 }
        ensures bytes { bytes_of result ≡ with_immediate (bytes_of self) width n }
        ensures len { result.len ≤ self.len + 4 }
    {
        match width {
            0 => self,
            1 => self.with((n % 256) as u8),
            2 => self.with_two((n % 256) as u8, (n / 256 % 256) as u8),
            _ => self.with_word(n),
        }
    }

    /// The bytes alone.
    pub fn as_slice(&self) -> &[u8]
        requires { self.now.len ≤ 15 }
        ensures bytes { result.now ≡ bytes_of self.now }
        ensures len { length result.now ≡ self.now.len }
    {
        &self.bytes[..usize::from(self.len)]
    }
}
