//! Operators with a number, in plainer forms.

ghost use Rattle.std.specs.Prelude.{◌≡◌, ◌^◌, ◌<◌, IfSome};
ghost use Rattle.word_rules.specs.Operators.{commutes as commutes_of, gives_first as gives_first_of, gives_nought as gives_nought_of, cancels as cancels_of, absorbs as absorbs_of, opposite as opposite_of, twice as twice_of};
ghost use Rattle.word_rules.specs.Turns.{TurnsTo, Merges};

use c_syntax::CBin;

/// The greatest number that stays beside `+` and `-`.
const HALF: u32 = 0x8000_0000;

/// Whether two words may be exchanged.
pub(crate) fn commutes(op: CBin) -> bool
    ensures { result ≡ commutes_of op }
{
    match op {
        CBin::Add => true,
        CBin::Sub => false,
        CBin::Mul => true,
        CBin::And => true,
        CBin::Or => true,
        CBin::Xor => true,
        CBin::Shl => false,
        CBin::Shr => false,
    }
}

/// Whether the number on the right changes nothing.
pub(crate) fn gives_first(op: CBin, k: u32) -> bool
    ensures { result ≡ gives_first_of op k }
{
    match op {
        CBin::Add => k == 0,
        CBin::Sub => k == 0,
        CBin::Mul => k == 1,
        CBin::And => k == 0xffff_ffff,
        CBin::Or => k == 0,
        CBin::Xor => k == 0,
        CBin::Shl => k == 0,
        CBin::Shr => k == 0,
    }
}

/// Whether the number on the right leaves 0.
pub(crate) fn gives_nought(op: CBin, k: u32) -> bool
    ensures { result ≡ gives_nought_of op k }
{
    match op {
        CBin::Add => false,
        CBin::Sub => false,
        CBin::Mul => k == 0,
        CBin::And => k == 0,
        CBin::Or => false,
        CBin::Xor => false,
        CBin::Shl => false,
        CBin::Shr => false,
    }
}

/// Whether one word on both sides leaves 0.
pub(crate) fn cancels(op: CBin) -> bool
    ensures { result ≡ cancels_of op }
{
    match op {
        CBin::Add => false,
        CBin::Sub => true,
        CBin::Mul => false,
        CBin::And => false,
        CBin::Or => false,
        CBin::Xor => true,
        CBin::Shl => false,
        CBin::Shr => false,
    }
}

/// Whether one word on both sides is left.
pub(crate) fn absorbs(op: CBin) -> bool
    ensures { result ≡ absorbs_of op }
{
    match op {
        CBin::Add => false,
        CBin::Sub => false,
        CBin::Mul => false,
        CBin::And => true,
        CBin::Or => true,
        CBin::Xor => false,
        CBin::Shl => false,
        CBin::Shr => false,
    }
}

/// The other one of `+` and `-` with the negative number.
fn opposite(op: CBin, k: u32) -> (CBin, u32)
    ensures { result ≡ opposite_of op k }
{
    match op {
        CBin::Add => (CBin::Sub, k.wrapping_neg()),
        CBin::Sub => (CBin::Add, k.wrapping_neg()),
        CBin::Mul => (CBin::Mul, k),
        CBin::And => (CBin::And, k),
        CBin::Or => (CBin::Or, k),
        CBin::Xor => (CBin::Xor, k),
        CBin::Shl => (CBin::Shl, k),
        CBin::Shr => (CBin::Shr, k),
    }
}

/// The other one of `+` and `-`, where its number is smaller.
pub(crate) fn turned(op: CBin, k: u32) -> (CBin, u32)
    ensures { TurnsTo op k result }
{
    if k <= HALF {
        return (op, k);
    }
    opposite(op, k)
}

/// The number that does at once what two do, one after the other.
fn twice(op: CBin, j: u32, k: u32) -> Option<u32>
    ensures { result ≡ twice_of op j k }
{
    match op {
        CBin::Add => Some(j.wrapping_add(k)),
        CBin::Sub => Some(j.wrapping_add(k)),
        CBin::Mul => Some(j.wrapping_mul(k)),
        CBin::And => Some(j & k),
        CBin::Or => Some(j | k),
        CBin::Xor => Some(j ^ k),
        CBin::Shl => None,
        CBin::Shr => None,
    }
}

/// One operator with a number in the place of two, one after the other, where there is one.
pub(crate) fn merged(inner: CBin, j: u32, op: CBin, k: u32) -> Option<(CBin, u32)>
    ensures { IfSome result (λ m. Merges inner j op k m) }
{
    if inner == op {
        return match twice(op, j, k) {
            Some(m) => Some((op, m)),
            None => None,
        };
    }
    if inner == CBin::Add && op == CBin::Sub {
        return Some((CBin::Add, j.wrapping_sub(k)));
    }
    if inner == CBin::Sub && op == CBin::Add {
        return Some((CBin::Add, k.wrapping_sub(j)));
    }
    None
}
