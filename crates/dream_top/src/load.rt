//! Reading a file whole.

ghost use Rattle.std.specs.Prelude.{◌≡◌, ◌≤◌, length, IfOk, IfErr, OnOk};
ghost use Rattle.dream_top.specs.Answers.{reading_of, Loads};
ghost use Rattle.dream_top.specs.Loading.{TakesPiece, StopsPiece, TakesAll, StopsTaking, StopsLoading};

use dream_outside::Files;
use std::alloc::Global;

// The most bytes that a file may have.
const LIMIT: usize = 67_108_864;

// How many bytes are taken at once.
const BUFFER: usize = 65_536;

/// Why a file could not be loaded.
#[derive(Clone, Copy, Drop)]
pub enum LoadFault {
    /// It can't be opened, or not be read to its end.
    Fault,
    /// It has more bytes than a file may have.
    TooLarge,
    /// There isn't enough memory.
    Memory,
}

// Adds the next bytes of the file, and says whether there were any.
fn take_piece<F: Files>(
    files: &mut F,
    buffer: &mut [u8],
    bytes: &mut Vec<u8>,
) -> Result<bool, LoadFault>
    requires { 1 ≤ length buffer.old }
    ensures ok { IfOk result (TakesPiece bytes.old.items bytes.new.items
        (F.left files.old) (F.left files.new) (F.got files.old) (F.got files.new)) }
    ensures err { IfErr result (λ e. StopsPiece e
        (F.faults files.old) (F.faults files.new) (F.got files.old) (F.got files.new)) }
    ensures quiet { OnOk result (F.faults files.new ≡ F.faults files.old) }
    ensures later { F.faults files.old ≤ F.faults files.new }
    ensures held { F.held files.new ≡ F.held files.old }
{
    match files.take(buffer) {
        Err(_) => Err(LoadFault::Fault),
        Ok(count) => match bytes.extend_from_slice(&buffer[..count]) {
            Err(_) => Err(LoadFault::Memory),
            Ok(()) => Ok(count > 0),
        },
    }
}

// Takes the rest of the opened file, unless that is more than the limit.
fn take_all<F: Files>(alloc: Global, files: &mut F) -> Result<Vec<u8>, LoadFault>
    requires { F.got files.old ≡ 0 }
    ensures ok { IfOk result (λ v. TakesAll v.items (F.left files.old) (F.got files.new)) }
    ensures err { IfErr result (λ e. StopsTaking e
        (F.left files.old) (F.got files.new) (F.faults files.old) (F.faults files.new)) }
    ensures later { F.faults files.old ≤ F.faults files.new }
    ensures held { F.held files.new ≡ F.held files.old }
{
    let mut buffer = [0; BUFFER];
    let mut bytes = Vec::new(alloc);
    while take_piece(files, &mut buffer, &mut bytes)? {
        if bytes.len() > LIMIT {
            return Err(LoadFault::TooLarge);
        }
    }
    Ok(bytes)
}

/// The bytes of the file at a path, of which there may be at most 67,108,864.
pub fn load<F: Files>(alloc: Global, files: &mut F, path: &str) -> Result<Vec<u8>, LoadFault>
    ensures ok { IfOk result (λ v. Loads
        (reading_of (F.held files.old) (F.faults files.old) (F.faults files.new) (F.got files.old) (F.got files.new))
        path.now (λ bytes. bytes ≡ v.items)) }
    ensures err { IfErr result (λ e. StopsLoading e
        (reading_of (F.held files.old) (F.faults files.old) (F.faults files.new) (F.got files.old) (F.got files.new))
        path.now) }
{
    match files.open_file(path) {
        Err(_) => Err(LoadFault::Fault),
        Ok(()) => take_all(alloc, files),
    }
}
