//! Runs of functions from their texts, with outcomes that are worked out by hand from the C.

use c_read::read;
use c_run::run_c;
use c_syntax::{CFun, CStmt};
use dream_words::{Answer, Bit, Flags, Memory, Outcome, Pages, Regs, Start, Width};
use sqlite_items::Items;
use std::alloc::{AllocError, Global};
use std::test::Fail;

const ESP: u32 = 0xbfff_0000;

// The head of a function, with locals. The statements and `}` follow.
const HEAD: &str = r#"#include "dream386.h"
void f_08048100(void) {
uint32_t t0 = 0u; uint32_t t1 = 0u; uint32_t b0 = 0u; uint32_t b1 = 0u; uint32_t s0 = 0u; uint32_t s1 = 0u; "#;

// eax is 7, ecx is given, the argument is 3, and the carry is set.
fn start(alloc: Global, ecx: u32) -> Result<Start, AllocError> {
    let mut mem = Memory::new(alloc);
    mem.store(ESP + 4, Width::W, 3)?;
    Ok(Start {
        regs: regs(7, ecx),
        flags: flags(),
        fs: 0,
        gs: 0,
        mem,
        pages: Pages::all(alloc)?,
    })
}

fn regs(eax: u32, ecx: u32) -> Regs {
    Regs {
        eax,
        ecx,
        edx: 0,
        ebx: 0,
        esp: ESP,
        ebp: 0,
        esi: 0,
        edi: 0,
    }
}

fn flags() -> Flags {
    Flags {
        c: Bit::One,
        p: Bit::Undefined,
        z: Bit::Zero,
        s: Bit::Zero,
        o: Bit::Zero,
    }
}

// The function of some statements.
fn function(alloc: Global, stmts: &str) -> Result<CFun, Fail> {
    let mut text = Vec::from_slice(alloc, HEAD.as_bytes())?;
    text.extend_from_slice(stmts.as_bytes())?;
    text.push(b'}')?;
    match read(alloc, &text) {
        Ok(f) => Ok(f),
        Err(_) => Err(Fail::from("a text of the profile was refused")),
    }
}

// The kind of an outcome; its register eax, its vector or the target of its last call; its calls.
fn told(o: &Outcome) -> (&'static str, u32, usize) {
    match o {
        Outcome::Returned { regs, calls, .. } => ("returned", regs.eax, calls.len()),
        Outcome::Faulted { vector, calls, .. } => ("faulted", *vector, calls.len()),
        Outcome::Asking { calls } => {
            let target = calls.as_slice().last().map_or(0, |call| call.target);
            ("asking", target, calls.len())
        }
        Outcome::Strayed => ("strayed", 0, 0),
        Outcome::Undecoded => ("undecoded", 0, 0),
        Outcome::Stuck => ("stuck", 0, 0),
        Outcome::Going { calls } => ("going", 0, calls.len()),
    }
}

// What the run of some statements tells.
fn ending(
    alloc: Global,
    stmts: &str,
    ecx: u32,
    turns: u64,
    answers: &[Answer],
) -> Result<(&'static str, u32, usize), Fail> {
    let f = function(alloc, stmts)?;
    let start = start(alloc, ecx)?;
    let outcome = run_c(alloc, &f, &start, answers, turns)?;
    Ok(told(&outcome))
}

const CHOICE: &str =
    "if ((ecx == 0x1u)) { eax = 0xau; } else if ((ecx == 0x2u)) { eax = 0x14u; } else { eax = 0x1eu; }";

const LONE: &str = "if ((ecx == 0x1u)) { eax = 0xau; }";

const CASES: &str =
    "switch (ecx) { case 0x1u: case 0x2u: { eax = 0xau; } break; case 0x3u: { eax = 0x14u; break; eax = 0x1eu; } break; default: { eax = 0x28u; } break; }";

#[test]
fn the_first_that_holds_is_taken(rt: HostRuntime) -> Result<(), Fail> {
    let rows = [
        (CHOICE, 1, 0, ("returned", 10, 0)),
        (CHOICE, 2, 0, ("returned", 20, 0)),
        (CHOICE, 3, 0, ("returned", 30, 0)),
        (LONE, 1, 0, ("returned", 10, 0)),
        (LONE, 2, 0, ("returned", 7, 0)),
        (CASES, 1, 0, ("returned", 10, 0)),
        (CASES, 2, 0, ("returned", 10, 0)),
        (CASES, 3, 0, ("returned", 20, 0)),
        (CASES, 4, 0, ("returned", 40, 0)),
    ];
    for (stmts, ecx, turns, want) in rows {
        let got = ending(rt.alloc(), stmts, ecx, turns, &[])?;
        assert_eq!(rt; got, want, "{stmts} of {ecx} in {turns} turns");
    }
    Ok(())
}

const SUM: &str =
    "eax = 0x0u; ecx = ld4((esp + 0x4u)); do { eax = (eax + ecx); ecx = (ecx - 0x1u); } while ((ecx != 0x0u)); return; eax = 0x9u;";

const DOWN: &str = "while ((ecx != 0x0u)) { ecx = (ecx - 0x1u); eax = (eax + 0x2u); }";

const UP: &str =
    "while (1) { ecx = (ecx + 0x1u); if ((ecx == 0x3u)) { break; } eax = (eax + 0x2u); }";

const LOOP_IN_SWITCH: &str =
    "switch (ecx) { case 0x1u: { while (1) { eax = 0x5u; break; } eax = (eax + 0x1u); } break; default: { } break; }";

const SWITCH_IN_LOOP: &str =
    "while (1) { ecx = (ecx + 0x1u); switch (ecx) { case 0x1u: { break; } break; default: { return; } break; } eax = (eax + 0x2u); }";

#[test]
fn loops_take_their_turns(rt: HostRuntime) -> Result<(), Fail> {
    let rows = [
        (SUM, 0, 0, ("going", 0, 0)),
        (SUM, 0, 2, ("going", 0, 0)),
        (SUM, 0, 3, ("returned", 6, 0)),
        (SUM, 0, 100, ("returned", 6, 0)),
        (DOWN, 0, 0, ("returned", 7, 0)),
        (DOWN, 3, 2, ("going", 0, 0)),
        (DOWN, 3, 3, ("returned", 13, 0)),
        (UP, 0, 2, ("going", 0, 0)),
        (UP, 0, 3, ("returned", 11, 0)),
        (LOOP_IN_SWITCH, 1, 0, ("going", 0, 0)),
        (LOOP_IN_SWITCH, 1, 1, ("returned", 6, 0)),
        (LOOP_IN_SWITCH, 2, 0, ("returned", 7, 0)),
        (SWITCH_IN_LOOP, 0, 1, ("going", 0, 0)),
        (SWITCH_IN_LOOP, 0, 2, ("returned", 9, 0)),
    ];
    for (stmts, ecx, turns, want) in rows {
        let got = ending(rt.alloc(), stmts, ecx, turns, &[])?;
        assert_eq!(rt; got, want, "{stmts} of {ecx} in {turns} turns");
    }
    Ok(())
}

#[test]
fn accesses_have_widths(rt: HostRuntime) -> Result<(), Fail> {
    let rows = [
        (
            "st4(0x100u, 0x81828384u); st1(0x100u, 0xf1f2f3f4u); eax = ld4(0x100u);",
            0x8182_83f4,
        ),
        (
            "st4(0x100u, 0x81828384u); st2(0x100u, 0xf1f2f3f4u); eax = ld4(0x100u);",
            0x8182_f3f4,
        ),
        ("st4(0x100u, 0xf1f2f3f4u); eax = ld1(0x100u);", 0xf4),
        ("st4(0x100u, 0xf1f2f3f4u); eax = ld2(0x100u);", 0xf3f4),
        (
            "st4(0xfffffffeu, 0x81828384u); st2(0xfffffffeu, 0xf1f2f3f4u); eax = ld4(0xfffffffeu);",
            0x8182_f3f4,
        ),
    ];
    for (stmts, want) in rows {
        let got = ending(rt.alloc(), stmts, 0, 0, &[])?;
        assert_eq!(rt; got, ("returned", want, 0), "{stmts}");
    }
    Ok(())
}

const BOTH: &str = "if (((ecx == 0x1u) && ((ecx << 0x20u) == 0x0u))) { eax = 0xau; }";

const EITHER: &str = "if (((ecx == 0x1u) || ((ecx << 0x20u) == 0x0u))) { eax = 0xau; }";

const PICKED: &str = "eax = ((ecx == 0x1u) ? 0xau : (ecx << 0x20u));";

#[test]
fn what_is_not_needed_is_not_evaluated(rt: HostRuntime) -> Result<(), Fail> {
    let rows = [
        (BOTH, 0, 0, ("returned", 7, 0)),
        (BOTH, 1, 0, ("stuck", 0, 0)),
        (EITHER, 0, 0, ("stuck", 0, 0)),
        (EITHER, 1, 0, ("returned", 10, 0)),
        (PICKED, 0, 0, ("stuck", 0, 0)),
        (PICKED, 1, 0, ("returned", 10, 0)),
        ("eax = (eax << 0x1fu);", 0, 0, ("returned", 0x8000_0000, 0)),
        ("eax = (eax << 0x20u);", 0, 0, ("stuck", 0, 0)),
        ("trap(0xdu, cf);", 0, 0, ("faulted", 13, 0)),
        ("trap(0xdu, pf);", 0, 0, ("returned", 7, 0)),
        ("trap(0xdu, zf);", 0, 0, ("returned", 7, 0)),
        ("ext(0x5u);", 0, 0, ("asking", 5, 1)),
        ("t1 = 0x9u; eax = t1;", 0, 0, ("returned", 9, 0)),
        ("b1 = 0x9u; eax = b0;", 0, 0, ("returned", 0, 0)),
        ("s0 = 0x9u; eax = s1;", 0, 0, ("returned", 0, 0)),
        ("of = 0x9u; eax = of;", 0, 0, ("returned", 9, 0)),
    ];
    for (stmts, ecx, turns, want) in rows {
        let got = ending(rt.alloc(), stmts, ecx, turns, &[])?;
        assert_eq!(rt; got, want, "{stmts} of {ecx} in {turns} turns");
    }
    Ok(())
}

/// Each operator, and each function of `dream386.h`, from its C.
#[test]
fn words_have_values(rt: HostRuntime) -> Result<(), Fail> {
    let rows = [
        ("(0xfffffffeu + 0x3u)", 1),
        ("(0x1u - 0x2u)", 0xffff_ffff),
        ("(0x10001u * 0x10001u)", 0x2_0001),
        ("((0xcu & 0xau) + ((0xcu | 0xau) * 0x10u))", 0xe8),
        ("(0xcu ^ 0xau)", 6),
        ("(0x80000000u >> 0x1fu)", 1),
        ("(~0xfu)", 0xffff_fff0),
        ("sx1(0x1280u)", 0xffff_ff80),
        ("sx2(0x17fffu)", 0x7fff),
        ("((par(0x103u) * 0x2u) + par(0x101u))", 2),
        ("((bsf(0x18u) * 0x100u) + bsf(0x0u))", 0x31f),
        ("((bsr(0x18u) * 0x100u) + bsr(0x0u))", 0x400),
        ("sar(0x80000000u, 0x4u)", 0xf800_0000),
        ("sar(0x80000000u, 0x28u)", 0xffff_ffff),
        (
            "((lts(0xffffffffu, 0x0u) * 0x2u) + lts(0x0u, 0xffffffffu))",
            2,
        ),
        ("mulhu(0xffffffffu, 0xffffffffu)", 0xffff_fffe),
        ("mulhs(0xffffffffu, 0xffffffffu)", 0),
        ("divubad(0xffffffffu, 0xfffffff9u, 0xffffffffu)", 1),
        ("divuq(0xffffffffu, 0xfffffff9u, 0xffffffffu)", 0),
        ("divsbad(0xffffffffu, 0xfffffff9u, 0x0u)", 1),
        ("divsbad(0xffffffffu, 0xfffffff9u, 0x2u)", 0),
        ("divsq(0xffffffffu, 0xfffffff9u, 0x2u)", 0xffff_fffd),
        ("divsr(0xffffffffu, 0xfffffff9u, 0x2u)", 0xffff_ffff),
        ("divuq(0x1u, 0x7u, 0x10u)", 0x1000_0000),
        ("divur(0x1u, 0x7u, 0x10u)", 7),
        ("((0x2u < 0x2u) ? 0x1u : 0x0u)", 0),
        ("(((0x2u <= 0x2u) && (!(0x2u != 0x2u))) ? 0x1u : 0x0u)", 1),
    ];
    for (word, want) in rows {
        let stmts = format!(in rt.alloc(); "eax = {word};")?;
        let got = ending(rt.alloc(), &stmts, 0, 0, &[])?;
        assert_eq!(rt; got, ("returned", want, 0), "{word}");
    }
    Ok(())
}

#[test]
fn a_call_takes_its_answer(rt: HostRuntime) -> Result<(), Fail> {
    let answer = Answer {
        regs: regs(9, 0),
        flags: flags(),
        mem: Memory::new(rt.alloc()),
    };
    let got = ending(rt.alloc(), "ext(0x5u);", 0, 0, &[answer])?;
    assert_eq!(rt; got, ("returned", 9, 1));
    Ok(())
}

/// No text has such a `break`.
#[test]
fn a_break_out_of_the_function_is_stuck(rt: HostRuntime) -> Result<(), Fail> {
    let mut f = function(rt.alloc(), "return;")?;
    f.body = Items::from_vec(Vec::from_array(rt.alloc(), [CStmt::Break])?);
    let outcome = run_c(rt.alloc(), &f, &start(rt.alloc(), 0)?, &[], 0)?;
    assert_eq!(rt; told(&outcome), ("stuck", 0, 0));
    Ok(())
}
