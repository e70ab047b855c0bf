//! What a register holds, as the spelling of the instructions before shows it.

ghost use Rattle.std.specs.Prelude.{◌≡◌};
ghost use Rattle.jump_tables.specs.Forms.{plus, times, both, table_at, entry_of};

/// What is known of a register, or of an address, in terms of the index that is compared.
#[derive(Clone, Copy, PartialEq, Eq)]
pub enum Form {
    /// The first number times the index, plus the second, modulo 2^32.
    Scaled(u32, u32),
    /// The word at this address plus four times the index.
    Entry(u32),
    /// Nothing.
    Unknown,
}

impl Form {
    /// The form with a number added.
    pub(crate) fn plus(self, k: u32) -> Form
        ensures { result ≡ plus k self }
    {
        match self {
            Form::Scaled(a, c) => Form::Scaled(a, c.wrapping_add(k)),
            Form::Entry(_) => Form::Unknown,
            Form::Unknown => Form::Unknown,
        }
    }

    /// The form taken so many times.
    pub(crate) fn times(self, n: u32) -> Form
        ensures { result ≡ times n self }
    {
        match self {
            Form::Scaled(a, c) => Form::Scaled(a.wrapping_mul(n), c.wrapping_mul(n)),
            Form::Entry(_) => Form::Unknown,
            Form::Unknown => Form::Unknown,
        }
    }

    /// The sum of two forms.
    pub(crate) fn both(self, other: Form) -> Form
        ensures { result ≡ both self other }
    {
        match (self, other) {
            (Form::Scaled(a, c), Form::Scaled(b, d)) => {
                Form::Scaled(a.wrapping_add(b), c.wrapping_add(d))
            }
            _ => Form::Unknown,
        }
    }

    /// The table that an address of this form leads through, which is four times the index from it.
    pub(crate) fn table(self) -> Option<u32>
        ensures { result ≡ table_at self }
    {
        match self {
            Form::Scaled(4, c) => Some(c),
            _ => None,
        }
    }

    /// The form of the word at an address that leads through a table, or not.
    pub(crate) fn entry(table: Option<u32>) -> Form
        ensures { result ≡ entry_of table }
    {
        match table {
            Some(t) => Form::Entry(t),
            None => Form::Unknown,
        }
    }
}
