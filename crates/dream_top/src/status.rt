//! How the program ends.

ghost use Rattle.std.specs.Prelude.{◌≡◌};
ghost use Rattle.dream_top.specs.Statuses.{code_of};

use elf_image::ElfFault;
use flow_graph::Place;

/// How the program ends.
#[derive(Clone, Copy, PartialEq, Eq)]
pub enum Status {
    /// All of the output was written.
    Done,
    /// The words are no command.
    Usage,
    /// The file can't be opened, or not be read to its end.
    ReadFault,
    /// The output can't be written to its end.
    WriteFault,
    /// There isn't enough memory.
    NoMemory,
    /// The file isn't accepted.
    NotElf(ElfFault),
    /// The file has no function of the name.
    NoFunction,
    /// The function has a place that is outside the profile.
    Outside(Place),
    /// The file has more than 67,108,864 bytes.
    FileTooLarge,
    /// The text stands for no function of the profile, from this byte on.
    NotProfile(u64),
}

impl Status {
    /// The exit status of the program.
    pub fn code(&self) -> u8
        ensures { result ≡ code_of self.now }
    {
        match self {
            Status::Done => 0,
            Status::Usage => 1,
            Status::ReadFault => 2,
            Status::WriteFault => 3,
            Status::NoMemory => 4,
            Status::NotElf(_) => 5,
            Status::NoFunction => 6,
            Status::Outside(_) => 7,
            Status::FileTooLarge => 8,
            Status::NotProfile(_) => 9,
        }
    }
}
