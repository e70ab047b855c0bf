//! The registers and the flags that are live somewhere.

ghost use Rattle.std.specs.Prelude.{◌≡◌, ◌+◌, ℕ, Bool, true, false, not, ◌||◌, ◌<◌, length, count_by, slice_index_or, IsTrue, nat_eq, if◌then◌else◌};
ghost use Rattle.dream_words.specs.declared.machine.Name.{Name as AnyName};
ghost use Rattle.flow_passes.specs.Uses.{same_name, is_register};
ghost use Rattle.flag_liveness.specs.Rows.{row_names, unset, SameRow};

use dream_words::Name;

/// How many registers there are.
const REGISTERS: usize = 8;

/// How many flags there are.
const FLAGS: usize = 5;

/// For each register and each flag, whether it is live.
#[derive(Clone, Copy)]
pub struct Row {
    pub regs: [bool; REGISTERS],
    pub flags: [bool; FLAGS],
}

impl Row {
    /// No register and no flag is live.
    pub fn none() -> Row
        ensures { SameRow (row_names result) (λ n. false) }
    {
        Row {
            regs: [false; REGISTERS],
            flags: [false; FLAGS],
        }
    }

    /// The registers are live, and no flag.
    pub fn registers() -> Row
        ensures { SameRow (row_names result) is_register }
    {
        Row {
            regs: [true; REGISTERS],
            flags: [false; FLAGS],
        }
    }

    /// All registers and flags are live.
    pub fn all() -> Row
        ensures { (n : AnyName) → row_names result n ≡ true }
    {
        Row {
            regs: [true; REGISTERS],
            flags: [true; FLAGS],
        }
    }

    /// Whether a name is live. All names but registers and flags count as live.
    pub fn has(&self, n: Name) -> bool
        ensures { result ≡ row_names self.now n }
    {
        match n {
            Name::Reg(k) => at(&self.regs, k),
            Name::Flag(k) => at(&self.flags, k),
            _ => true,
        }
    }

    /// Makes a register or a flag live, or not.
    pub fn set(&mut self, n: Name, live: bool)
        ensures { SameRow (row_names self.new) (λ m. if same_name n m then live else row_names self.old m) }
    {
        match n {
            Name::Reg(k) => put(&mut self.regs, k, live),
            Name::Flag(k) => put(&mut self.flags, k, live),
            _ => {}
        }
    }

    /// Adds what is live in another row. The answer is whether that is more.
    pub fn add(&mut self, other: &Row) -> bool
        ensures each { SameRow (row_names self.new) (λ n. row_names self.old n || row_names other.now n) }
        ensures same { result ≡ false → self.new ≡ self.old }
        ensures fewer { result ≡ true → unset self.new < unset self.old }
    {
        let more_registers = add_all(&mut self.regs, &other.regs);
        let more_flags = add_all(&mut self.flags, &other.flags);
        more_registers || more_flags
    }
}

/// What is at a place; true past the end.
fn at(all: &[bool], k: u8) -> bool
    ensures { result ≡ slice_index_or all.now k true }
{
    all.get(k as usize).copied().unwrap_or(true)
}

/// Puts what is at a place, if there is that place.
fn put(all: &mut [bool], k: u8, live: bool)
    ensures { (j : ℕ) → j < length all.old → slice_index_or all.new j true ≡ (if nat_eq k j then live else slice_index_or all.old j true) }
{
    if (k as usize) < all.len() {
        all[k as usize] = live;
    }
}

/// Makes true what is true in another list. The answer is whether something was made so.
fn add_all(all: &mut [bool], other: &[bool]) -> bool
    requires { length other.now ≡ length all.old }
    ensures each { (k : ℕ) → slice_index_or all.new k true ≡ (slice_index_or all.old k true || slice_index_or other.now k true) }
    ensures same { result ≡ false → all.new ≡ all.old }
    ensures fewer { result ≡ true → count_by not all.new < count_by not all.old }
{
    let mut more = false;
    for k in 0..all.len() {
        if other[k] && !all[k] {
            all[k] = true;
            more = true;
        }
    }
    more
}
