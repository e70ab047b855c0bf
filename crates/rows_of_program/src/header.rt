//! The header that each text includes.

use crate::calls::{call, files, sink};
use dream_outside::MemSink;
use dream_top::Status;
use row_files::{MOVE, elf};
use std::test::Fail;

// The text of the header, with its line ends as they are written here.
const HEADER_TEXT: &str = r"#ifndef DREAM386_H
#define DREAM386_H
#include <stdint.h>
extern uint32_t eax, ecx, edx, ebx, esp, ebp, esi, edi;
extern uint32_t cf, pf, zf, sf, of, fsbase, gsbase;
uint32_t ld1(uint32_t a);
uint32_t ld2(uint32_t a);
uint32_t ld4(uint32_t a);
void st1(uint32_t a, uint32_t v);
void st2(uint32_t a, uint32_t v);
void st4(uint32_t a, uint32_t v);
void ext(uint32_t target);
void trap(uint32_t vector, uint32_t when);
static inline uint32_t sx1(uint32_t a) { return ((a & 0xffu) ^ 0x80u) - 0x80u; }
static inline uint32_t sx2(uint32_t a) { return ((a & 0xffffu) ^ 0x8000u) - 0x8000u; }
static inline uint32_t par(uint32_t a) { a &= 0xffu; a ^= a >> 4; a ^= a >> 2; a ^= a >> 1; return (a & 1u) ^ 1u; }
static inline uint32_t bsf(uint32_t a) { uint32_t n = 0u; while (n < 31u && !((a >> n) & 1u)) n++; return n; }
static inline uint32_t bsr(uint32_t a) { uint32_t n = 31u; while (n > 0u && !((a >> n) & 1u)) n--; return n; }
static inline uint32_t sar(uint32_t a, uint32_t n) { uint32_t m = 0u - (a >> 31); return ((a ^ m) >> (n > 31u ? 31u : n)) ^ m; }
static inline uint32_t lts(uint32_t a, uint32_t b) { return (a ^ 0x80000000u) < (b ^ 0x80000000u); }
static inline uint32_t mulhu(uint32_t a, uint32_t b) { return (uint32_t)(((uint64_t)a * b) >> 32); }
static inline uint32_t mulhs(uint32_t a, uint32_t b) { return mulhu(a, b) - (a >> 31) * b - (b >> 31) * a; }
static inline uint64_t wide(uint32_t h, uint32_t l) { return ((uint64_t)h << 32) | l; }
static inline uint64_t magw(uint32_t h, uint32_t l) { return (h >> 31) ? 0u - wide(h, l) : wide(h, l); }
static inline uint32_t mag(uint32_t a) { return (a >> 31) ? 0u - a : a; }
static inline uint32_t divubad(uint32_t h, uint32_t l, uint32_t d) { (void)l; return h >= d; }
static inline uint32_t divuq(uint32_t h, uint32_t l, uint32_t d) { return h >= d ? 0u : (uint32_t)(wide(h, l) / d); }
static inline uint32_t divur(uint32_t h, uint32_t l, uint32_t d) { return h >= d ? 0u : (uint32_t)(wide(h, l) % d); }
static inline uint32_t divsbad(uint32_t h, uint32_t l, uint32_t d) { return d == 0u || magw(h, l) / mag(d) > 0x7fffffffu + ((h ^ d) >> 31); }
static inline uint32_t divsq(uint32_t h, uint32_t l, uint32_t d) { uint32_t q; if (divsbad(h, l, d)) return 0u; q = (uint32_t)(magw(h, l) / mag(d)); return ((h ^ d) >> 31) ? 0u - q : q; }
static inline uint32_t divsr(uint32_t h, uint32_t l, uint32_t d) { uint32_t r; if (divsbad(h, l, d)) return 0u; r = (uint32_t)(magw(h, l) % mag(d)); return (h >> 31) ? 0u - r : r; }
#endif
";

#[test]
fn writes_the_header(rt: HostRuntime) -> Result<(), Fail> {
    let alloc = rt.alloc();
    let mut files = files(alloc, elf(alloc, &MOVE)?, Vec::new(alloc))?;
    let ran = call(alloc, &mut files, &["prelude"], sink(alloc)?)?;
    assert!(rt; ran.status == Status::Done);
    assert_eq!(rt; ran.status.code(), 0);
    assert_eq!(rt; ran.out.bytes(), HEADER_TEXT.as_bytes());
    assert_eq!(rt; ran.notes.bytes().len(), 0);
    // The second put on the output fails.
    let narrow = MemSink::new(alloc, 67_108_864, 10, vec![in alloc; 2]?)?;
    let ran = call(alloc, &mut files, &["prelude"], narrow)?;
    assert!(rt; ran.status == Status::WriteFault);
    assert_eq!(rt; ran.notes.bytes(), b"dream: write fault\n".as_slice());
    assert_eq!(rt; ran.out.bytes(), b"#ifndef DR".as_slice());
    Ok(())
}
