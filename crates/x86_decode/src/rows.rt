//! What a row of the opcode table says.

ghost use Rattle.std.specs.Prelude.{◌≡◌, ◌≤◌, ◌<◌, IfSome};
ghost use Rattle.x86_inst.specs.Rows.{takes, width, allows_repeat};
ghost use Rattle.x86_inst.specs.Spelling.{allows};
ghost use Rattle.x86_decode.specs.View.{mode_of, width_of, repeats_of, prefixes_of, row_of, place, place_in, opens, opens_at};

use crate::forms::Form;
use x86_inst::Size;

/// The prefix bytes of an instruction, at most one of each group.
#[derive(Clone, Copy)]
pub struct Prefixes {
    /// 66.
    pub size: Option<u8>,
    /// 26, 2E, 36, 3E, 64 or 65.
    pub segment: Option<u8>,
    /// F2 or F3.
    pub repeat: Option<u8>,
}

/// Which repeat prefixes may stand on a row: none, F3, F3 and F2, or always F3.
#[derive(Clone, Copy)]
pub enum Repeats {
    Never,
    F3Allowed,
    F2F3Allowed,
    F3Needed,
}

/// Which ModRM bytes a row takes.
#[derive(Clone, Copy)]
pub enum Mode {
    AnyModRm,
    /// Any of memory.
    MemoryOnly,
    /// Any of a register, which are those with mod 3.
    RegisterOnly,
    /// Those with a digit in the reg field.
    Digit(u8),
    /// Those with at least a digit in the reg field.
    DigitFrom(u8),
    /// Those with a shift's digit in the reg field.
    ShiftDigit,
    /// One byte alone.
    Exactly(u8),
}

/// The immediate of a row.
#[derive(Clone, Copy)]
pub enum Width {
    NoImm,
    Imm8,
    Imm16,
    /// 32 bits, or 16 with the prefix 66.
    ImmV,
    Imm32,
}

/// A row of the opcode table.
#[derive(Clone, Copy)]
pub struct Row {
    /// Whether 0F stands before the opcode.
    pub escape: bool,
    /// The opcodes are first, first + step, .., and there are count of them.
    pub first: u8,
    pub step: u8,
    pub count: u8,
    /// Whether 66 may stand.
    pub sized: bool,
    pub repeats: Repeats,
    pub modrm: Option<Mode>,
    pub imm: Width,
    pub form: Form,
}

impl Repeats {
    pub fn allows(self, repeat: Option<u8>) -> bool
        ensures { result ≡ allows_repeat (repeats_of self) repeat }
    {
        match (self, repeat) {
            (Repeats::Never, o) => o.is_none(),
            (Repeats::F3Allowed, None) => true,
            (Repeats::F3Allowed, Some(b)) => b == 0xF3,
            (Repeats::F2F3Allowed, _) => true,
            (Repeats::F3Needed, None) => false,
            (Repeats::F3Needed, Some(b)) => b == 0xF3,
        }
    }
}

impl Mode {
    pub fn takes(self, modrm: u8) -> bool
        ensures { result ≡ takes (mode_of self) modrm }
    {
        match self {
            Mode::AnyModRm => true,
            Mode::MemoryOnly => modrm < 192,
            Mode::RegisterOnly => 192 <= modrm,
            Mode::Digit(d) => modrm / 8 % 8 == d,
            Mode::DigitFrom(d) => d <= modrm / 8 % 8,
            Mode::ShiftDigit => matches!(modrm / 8 % 8, 0 | 1 | 4 | 5 | 7),
            Mode::Exactly(b) => modrm == b,
        }
    }
}

impl Width {
    /// How many bytes the immediate has.
    pub fn len(self, size: Size) -> usize
        ensures value { result ≡ width (width_of self) size }
        ensures bound { result ≤ 4 }
    {
        match (self, size) {
            (Width::NoImm, _) => 0,
            (Width::Imm8, _) => 1,
            (Width::Imm16, _) => 2,
            (Width::ImmV, Size::B) => 1,
            (Width::ImmV, Size::H) => 2,
            (Width::ImmV, Size::W) => 4,
            (Width::Imm32, _) => 4,
        }
    }
}

impl Row {
    /// The place of an opcode in the row.
    pub fn place(&self, op: u8) -> Option<u8>
        ensures value { result ≡ place (row_of self.now) op }
        ensures bound { IfSome result (λ n. n < 255) }
    {
        place_in(self.first, self.step, self.count, op)
    }

    /// Whether these prefixes may stand on the row.
    pub fn allows(&self, p: &Prefixes) -> bool
        ensures { result ≡ allows (row_of self.now) (prefixes_of p.now) }
    {
        (self.sized || p.size.is_none()) && self.repeats.allows(p.repeat)
    }

    /// Whether the row has this opcode, and these prefixes may stand on it.
    pub fn opens(&self, p: &Prefixes, escape: bool, op: u8) -> bool
        ensures { result ≡ opens (prefixes_of p.now) escape op (row_of self.now) }
    {
        self.escape == escape && self.place(op).is_some() && self.allows(p)
    }

    /// Whether the row takes the ModRM byte, too.
    pub fn opens_at(&self, p: &Prefixes, escape: bool, op: u8, modrm: u8) -> bool
        ensures { result ≡ opens_at (prefixes_of p.now) escape op modrm (row_of self.now) }
    {
        let takes = match self.modrm {
            None => false,
            Some(mode) => mode.takes(modrm),
        };
        self.opens(p, escape, op) && takes
    }
}

/// The place of a number in first, first + step, .., of which there are count.
fn place_in(first: u8, step: u8, count: u8, op: u8) -> Option<u8>
    ensures value { result ≡ place_in first step count op }
    ensures bound { IfSome result (λ n. n < 255) }
{
    if step == 0 || op < first {
        return None;
    }
    let distance = op - first;
    if distance % step == 0 && distance / step < count {
        Some(distance / step)
    } else {
        None
    }
}
