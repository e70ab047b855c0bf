//! Texts that are read and printed again, byte for byte. They are worked out by hand.

use c_print::{eight_digits, exact_len, print};
use c_read::read;
use c_syntax::CFun;
use std::alloc::Global;
use std::test::Fail;

// The function of a text.
fn function(alloc: Global, text: &str) -> Result<CFun, Fail> {
    match read(alloc, text.as_bytes()) {
        Ok(f) => Ok(f),
        Err(_) => Err(Fail::from("a text of the profile was refused")),
    }
}

const FIVE: &str = r#"#include "dream386.h"

void f_08048100(void)
{
  eax = 0x5u;
  esp = (esp + 0x4u);
  return;
}
"#;

// The text, as it stands in tools/every_statement.c.
const EVERY_STATEMENT: &str = r#"#include "dream386.h"

void f_0000beef(void)
{
  uint32_t t0 = 0u;
  uint32_t b0 = 0u;
  uint32_t b1 = 0u;
  uint32_t s0 = 0u;
  t0 = ld2((ebp - 0x10u));
  if ((t0 < 0x2u)) {
    st4(esp, (~t0));
  } else if ((!((cf == 0x0u) || (zf != 0x0u)))) {
    ext(0x8049000u);
  } else {
    trap(0x0u, divubad(edx, b0, ecx));
  }
  do {
    b1 = ((t0 <= 0x3u) ? sar(eax, 0x1u) : (~par(ecx)));
    switch (s0) {
    case 0x1u: case 0xau: {
      while (1) {
        break;
      }
    } break;
    case 0x2u: {
      s0 = 0x0u;
    } break;
    default: {
    } break;
    }
  } while (((b1 != 0x0u) && (t0 < 0x10u)));
  while ((fsbase == (gsbase >> 0x1fu))) {
    eax = (ebx + ecx);
    eax = (ebx - ecx);
    eax = (ebx * ecx);
    eax = (ebx & ecx);
    eax = (ebx | ecx);
    eax = (ebx ^ ecx);
    eax = (ebx << ecx);
    eax = (ebx >> ecx);
    pf = sx1(esi);
    pf = sx2(esi);
    pf = par(esi);
    pf = bsf(esi);
    pf = bsr(esi);
    sf = sar(edi, 0xffffffffu);
    sf = lts(edi, 0xffffffffu);
    sf = mulhu(edi, 0xffffffffu);
    sf = mulhs(edi, 0xffffffffu);
    of = divubad(edx, eax, ebp);
    of = divuq(edx, eax, ebp);
    of = divur(edx, eax, ebp);
    of = divsbad(edx, eax, ebp);
    of = divsq(edx, eax, ebp);
    of = divsr(edx, eax, ebp);
    zf = ld1(esp);
    st1(esp, zf);
    zf = ld2(esp);
    st2(esp, zf);
    zf = ld4(esp);
    st4(esp, zf);
  }
  if ((!(t0 != b1))) {
    cf = fsbase;
  }
  return;
}
"#;

#[test]
fn prints_each_statement(rt: HostRuntime) -> Result<(), Fail> {
    for (text, address) in [(FIVE, 0x0804_8100), (EVERY_STATEMENT, 0xbeef)] {
        let f = function(rt.alloc(), text)?;
        assert_eq!(rt; f.address, address);
        let printed = print(rt.alloc(), &f)?;
        assert_eq!(rt; printed.as_slice(), text.as_bytes());
        assert_eq!(rt; exact_len(&f), text.len() as u64);
    }
    assert_eq!(rt; eight_digits(0xbeef), *b"0000beef");
    Ok(())
}

// The function of bodies of `while (1)`, one in the other.
fn nested(alloc: Global, depth: usize) -> Result<CFun, Fail> {
    let mut text = String::from_str(alloc, "#include \"dream386.h\"\nvoid f_00000000(void) {")?;
    for _level in 0..depth {
        text.push_str("while (1) {")?;
    }
    if depth > 0 {
        text.push_str("break;")?;
    }
    for _level in 0..depth {
        text.push_str("}")?;
    }
    text.push_str("}")?;
    function(alloc, &text)
}

/// 49 bytes stand round the statements. At level n a `while (1)` has two lines, of 2 n + 12 and
/// 2 n + 2 bytes, and a `break;` one of 2 n + 7 bytes, where n counts as 32 at most.
#[test]
fn indents_by_64_blanks_at_most(rt: HostRuntime) -> Result<(), Fail> {
    for (depth, want) in [(0, 49), (1, 78), (40, 3816)] {
        let f = nested(rt.alloc(), depth)?;
        let text = print(rt.alloc(), &f)?;
        assert_eq!(rt; text.len(), want, "at depth {depth}");
    }
    Ok(())
}
