//! Runs of the machine.

ghost use Rattle.std.specs.Prelude.{◌≡◌, ℕ, IfOk, Option};
ghost use Rattle.x86_inst.specs.declared.Inst.{Inst};
ghost use Rattle.machine.specs.Code.{Decodes};
ghost use Rattle.machine.specs.Run.{machine_run};

use crate::settings::Setting;
use crate::states::{Led, Machine};
use dream_words::{Answer, Outcome, Start};
use elf_image::{Image, Range};
use std::alloc::{AllocError, Global};

/// The outcome of at most `steps` steps of a range, an instruction a step. The return address lies at
/// the start's ESP. The k-th call takes the k-th of the answers.
pub fn run(
    alloc: Global,
    image: &Image,
    range: &Range,
    start: &Start,
    answers: &[Answer],
    steps: u64,
) -> Result<Outcome, AllocError>
    ensures { IfOk result (λ o. (decoded : ℕ → Option (Inst × ℕ)) → Decodes image.now range.now decoded
        → o ≡ machine_run image.now range.now decoded start.now answers.now steps) }
{
    let setting = Setting {
        image,
        range: *range,
        slot: start.regs.esp,
        pages: &start.pages,
        answers,
    };
    let mut machine = Machine::new(alloc, start)?;
    let mut at = range.entry;
    for _step in 0..steps {
        match machine.step(alloc, &setting, at)? {
            Led::To(a) => at = a,
            led => return Ok(machine.outcome(led)),
        }
    }
    Ok(machine.outcome(Led::To(at)))
}
