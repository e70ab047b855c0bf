//! The addresses of a function.

ghost use Rattle.std.specs.Prelude.{◌≡◌};
ghost use Rattle.elf_image.specs.Range.{range, is_inside};

/// The addresses from `entry` on, `size` of them, in whole numbers: a range may pass 0xffffffff.
#[derive(Clone, Copy, Debug, PartialEq, Eq)]
pub struct Range {
    pub entry: u32,
    pub size: u32,
}

impl Range {
    pub fn new(entry: u32, size: u32) -> Range
        ensures { result ≡ range entry size }
    {
        Range { entry, size }
    }

    /// Whether an address lies in the range.
    pub fn is_inside(&self, a: u32) -> bool
        ensures { result ≡ is_inside self.now a }
    {
        self.entry <= a && u64::from(a) < u64::from(self.entry) + u64::from(self.size)
    }
}
