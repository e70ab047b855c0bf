//! What is known at a place of a path.

ghost use Rattle.std.specs.Prelude.{◌≡◌, ◌<◌, ℕ, true, false, IfSome};
ghost use Rattle.x86_inst.specs.declared.Size.TheVariants.{W};
ghost use Rattle.x86_inst.specs.declared.Inst.TheVariants as inst;
ghost use Rattle.x86_formed.specs.Formed.{is_formed, is_formed_operand};
ghost use Rattle.jump_tables.specs.Known.{forms_of, known_of};
ghost use Rattle.jump_tables.specs.Forms.{form_or_zero, address_form, memory_table, reads_again, moved_form, form_after, with_form, at_first, after, table_of};

use crate::forms::Form;
use crate::path::{is_part_of, written};
use std::marker::Model;
use x86_inst::{AluOp, Count, Inst, Mem, Operand, Seg, ShiftOp, Size};

/// The index: an operand of a size.
#[derive(Drop)]
pub(crate) struct Index {
    pub(crate) size: Size,
    pub(crate) operand: Operand,
}

impl Model for Index {
    ghost use Rattle.jump_tables.specs.Forms.{Index};

    ghost Value = { Index };

    ghost view = { λ x. record { size = x.size; operand = x.operand } };
}

/// What is known at a place of a path: the form of each 32-bit register, and whether no part of the index's register, or
/// of a register of its address, has been written.
#[derive(Clone, Copy)]
pub(crate) struct Known {
    forms: [Form; 8],
    is_kept: bool,
}

impl Known {
    // The form of a register.
    fn form(&self, n: u8) -> Form
        ensures { result ≡ (forms_of self.now.forms) n }
    {
        self.forms
            .get(usize::from(n))
            .copied()
            .unwrap_or(Form::Unknown)
    }

    // That of a part of an address, which may be missing.
    fn form_or_zero(&self, register: Option<u8>) -> Form
        ensures { result ≡ form_or_zero (forms_of self.now.forms) register }
    {
        match register {
            None => Form::Scaled(0, 0),
            Some(r) => self.form(r),
        }
    }

    // The form of an address, without a base of a segment.
    fn address_form(&self, m: &Mem) -> Form
        ensures { result ≡ address_form (forms_of self.now.forms) m.now }
    {
        let index = self.form_or_zero(m.index).times(u32::from(m.scale));
        self.form_or_zero(m.base).both(index).plus(m.disp)
    }

    // The table that an operand of memory leads through.
    fn memory_table(&self, m: &Mem) -> Option<u32>
        ensures { result ≡ memory_table (forms_of self.now.forms) m.now }
    {
        match m.seg {
            Seg::None => self.address_form(m).table(),
            Seg::Fs | Seg::Gs => None,
        }
    }

    /// The table that a jump by a word goes through.
    pub(crate) fn table(&self, goal: &Operand) -> Option<u32>
        ensures { result ≡ table_of (forms_of self.now.forms) goal.now }
    {
        match goal {
            Operand::Reg(r) => match self.form(*r) {
                Form::Scaled(_, _) => None,
                Form::Entry(table) => Some(table),
                Form::Unknown => None,
            },
            Operand::Mem(m) => self.memory_table(m),
            Operand::Imm(_) => None,
        }
    }

    // An operand of a size reads the index again.
    fn reads_again(&self, index: &Index, size: Size, operand: &Operand) -> bool
        ensures { result ≡ reads_again index.now (known_of self.now) size operand.now }
    {
        self.is_kept && size == index.size && *operand == index.operand
    }

    // The form of a register after MOV of 32 bits.
    fn moved_form(&self, index: &Index, s: &Operand) -> Form
        ensures { result ≡ moved_form index.now (known_of self.now) s.now }
    {
        match s {
            Operand::Imm(v) => Form::Scaled(0, *v),
            Operand::Reg(s) => self.form(*s),
            Operand::Mem(m) => {
                if self.reads_again(index, Size::W, s) {
                    Form::Scaled(1, 0)
                } else {
                    Form::entry(self.memory_table(m))
                }
            }
        }
    }

    // The form of the register that MOVZX writes.
    fn widened_form(&self, index: &Index, from: Size, s: &Operand) -> Form
        ensures { result ≡ form_after index.now (known_of self.now) (inst.Movx false from W 0 s.now) }
    {
        if self.reads_again(index, from, s) {
            Form::Scaled(1, 0)
        } else {
            Form::Unknown
        }
    }

    // The form of the register that an instruction of a path writes.
    fn form_after(&self, index: &Index, inst: Inst) -> Form
        ensures { result ≡ form_after index.now (known_of self.now) inst }
    {
        match inst {
            Inst::Mov(Size::W, _, s) => self.moved_form(index, &s),
            Inst::Movx(false, from, Size::W, _, s) => self.widened_form(index, from, &s),
            Inst::Lea(Size::W, _, m) => self.address_form(&m),
            Inst::Shift(ShiftOp::Shl, Size::W, Operand::Reg(d), Count::Imm(n)) => {
                self.form(d).times(1 << (n % 32))
            }
            Inst::Alu(AluOp::Add, Size::W, Operand::Reg(d), Operand::Imm(v)) => {
                self.form(d).plus(v)
            }
            _ => Form::Unknown,
        }
    }

    // The registers' forms with another one of a register, if one is written.
    fn with_form(&self, register: Option<u8>, form: Form) -> [Form; 8]
        requires { IfSome register (λ r. r < 8) }
        ensures { forms_of result ≡ with_form (forms_of self.now.forms) register form }
    {
        let mut forms = self.forms;
        if let Some(r) = register {
            forms[usize::from(r)] = form;
        }
        forms
    }

    /// What is known after an instruction of a path.
    pub(crate) fn after(&self, index: &Index, inst: Inst) -> Known
        requires { is_formed inst ≡ true }
        ensures { known_of result ≡ after index.now (known_of self.now) inst }
    {
        let register = written(inst);
        Known {
            forms: self.with_form(register, self.form_after(index, inst)),
            is_kept: self.is_kept && !is_part_of(index.size, &index.operand, register),
        }
    }

    /// What is known at first: the index, where it is a 32-bit register.
    pub(crate) fn at_first(index: &Index) -> Known
        requires { is_formed_operand index.now.operand ≡ true }
        ensures { known_of result ≡ at_first index.now }
    {
        let nothing = Known {
            forms: [Form::Unknown; 8],
            is_kept: true,
        };
        match (index.size, index.operand) {
            (Size::W, Operand::Reg(r)) => Known {
                forms: nothing.with_form(Some(r), Form::Scaled(1, 0)),
                is_kept: true,
            },
            _ => nothing,
        }
    }
}
