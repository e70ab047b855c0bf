//! The parts of a machine's state that are words.

ghost use Rattle.std.specs.Prelude.{◌≡◌};

/// The width of an access to memory: 1, 2 or 4 bytes.
#[derive(Clone, Copy, Debug, PartialEq, Eq)]
pub enum Width {
    /// One byte.
    B,
    /// Two bytes.
    H,
    /// Four bytes.
    W,
}

impl Width {
    ghost use Rattle.dream_words.specs.Memory.{bytes_of};

    /// How many bytes an access takes.
    pub fn bytes(self) -> usize
        ensures { result ≡ bytes_of self }
    {
        match self {
            Width::B => 1,
            Width::H => 2,
            Width::W => 4,
        }
    }
}

/// What a statement reads or sets.
///
/// Registers 0 to 7 are eax, ecx, edx, ebx, esp, ebp, esi and edi, in the order of Intel's encoding;
/// flags 0 to 4 are the carry, parity, zero, sign and overflow flag. A register or a flag with
/// another number stands in no text: it is 0, and to set it changes nothing.
#[derive(Clone, Copy, Debug, PartialEq, Eq)]
pub enum Name {
    Reg(u8),
    Flag(u8),
    /// The base of the segment FS.
    Fs,
    /// The base of the segment GS.
    Gs,
    /// A local for words.
    T(u32),
    /// A local for the outcome of a test.
    B(u32),
    /// A local that selects where a loop goes on.
    S(u32),
}

/// The eight general registers (Intel SDM vol. 1, 3.4.1).
#[derive(Clone, Copy, Debug, PartialEq, Eq)]
pub struct Regs {
    pub eax: u32,
    pub ecx: u32,
    pub edx: u32,
    pub ebx: u32,
    pub esp: u32,
    pub ebp: u32,
    pub esi: u32,
    pub edi: u32,
}

impl Regs {
    ghost use Rattle.dream_words.specs.Registers.{reg_of, with_reg};

    /// The register of a number, or 0 past the last.
    pub fn get(&self, n: u8) -> u32
        ensures { result ≡ reg_of self.now n }
    {
        match n {
            0 => self.eax,
            1 => self.ecx,
            2 => self.edx,
            3 => self.ebx,
            4 => self.esp,
            5 => self.ebp,
            6 => self.esi,
            7 => self.edi,
            _ => 0,
        }
    }

    /// Sets the register of a number, and none past the last.
    pub fn set(&mut self, n: u8, v: u32)
        ensures { self.new ≡ with_reg self.old n v }
    {
        match n {
            0 => self.eax = v,
            1 => self.ecx = v,
            2 => self.edx = v,
            3 => self.ebx = v,
            4 => self.esp = v,
            5 => self.ebp = v,
            6 => self.esi = v,
            7 => self.edi = v,
            _ => {}
        }
    }
}

/// A flag, which some instructions leave undefined.
#[derive(Clone, Copy, Debug, PartialEq, Eq)]
pub enum Bit {
    Zero,
    One,
    Undefined,
}

/// The carry, parity, zero, sign and overflow flag (Intel SDM vol. 1, 3.4.3.1).
#[derive(Clone, Copy, Debug, PartialEq, Eq)]
pub struct Flags {
    pub c: Bit,
    pub p: Bit,
    pub z: Bit,
    pub s: Bit,
    pub o: Bit,
}
