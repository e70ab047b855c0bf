//! The tokens of the C profile.

use crate::syntax::{CBin, CCmp, CFn1, CFn2, CFn3};
use dream_words::{Name, Width};

/// A token that some text of the profile has (C99 6.4).
#[derive(Clone, Copy)]
pub enum Token {
    /// `(`
    Open,
    /// `)`
    Close,
    /// `{`
    Begin,
    /// `}`
    End,
    /// `;`
    Semicolon,
    /// `:`
    Colon,
    /// `,`
    Comma,
    /// `?`
    Question,
    /// `=`
    Assign,
    /// `~`
    Tilde,
    /// `!`
    Bang,
    /// `&&`
    Both,
    /// `||`
    Either,
    Op(CBin),
    Compare(CCmp),
    /// A number, as `0x1fu`.
    Num(u32),
    /// A register, a flag, the base of a segment or a local.
    Name(Name),
    Fn1(CFn1),
    Fn2(CFn2),
    Fn3(CFn3),
    /// `ld1`, `ld2` or `ld4`
    Ld(Width),
    /// `st1`, `st2` or `st4`
    St(Width),
    Ext,
    Trap,
    If,
    Else,
    Switch,
    Case,
    Default,
    While,
    Do,
    Break,
    Return,
    Void,
    /// `uint32_t`
    Uint32,
    /// `0u`, the value of a declared local.
    Zero,
    /// `1`, the test of an endless loop.
    One,
    /// `f_` and the address of the function, as `f_08048100`.
    Function(u32),
}
