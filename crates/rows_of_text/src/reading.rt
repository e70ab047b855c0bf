//! Refused texts, with their places worked out by hand from the grammar, and texts at the limits. A
//! row has what comes before the refused token, and what begins with that token.

use c_print::print;
use c_read::{TextFault, read};
use std::alloc::Global;
use std::test::Fail;

const LINE: &str = "#include \"dream386.h\"\n";

// The head of a function; its statements and `}` follow.
const HEAD: &str = "void f_08048100(void) { ";

// The first line, a piece, and other pieces, each so many times.
fn text_of(alloc: Global, first: &str, pieces: &[(&str, usize)]) -> Result<Vec<u8>, Fail> {
    let mut text = Vec::from_slice(alloc, LINE.as_bytes())?;
    text.extend_from_slice(first.as_bytes())?;
    for &(piece, times) in pieces {
        for _ in 0..times {
            text.extend_from_slice(piece.as_bytes())?;
        }
    }
    Ok(text)
}

// Where a text is refused; nowhere if it is read.
fn place(alloc: Global, text: &[u8]) -> Result<Option<u64>, Fail> {
    match read(alloc, text) {
        Ok(_) => Ok(None),
        Err(TextFault::At(at)) => Ok(Some(at)),
        Err(TextFault::Memory) => Err(Fail::from("no memory")),
    }
}

// How far from the end of the first line a text of three pieces is refused.
fn place_after_line(
    alloc: Global,
    first: &str,
    second: &str,
    third: &str,
) -> Result<Option<u64>, Fail> {
    let text = text_of(alloc, first, &[(second, 1), (third, 1)])?;
    let at = place(alloc, &text)?;
    Ok(at.map(|at| at.saturating_sub(22)))
}

// The first line, and fronts of it.
#[test]
fn asks_for_the_first_line(rt: HostRuntime) -> Result<(), Fail> {
    let alloc = rt.alloc();
    let rows = [
        ("", 0),
        ("#", 1),
        ("#include \"drea", 14),
        ("#include \"dream386.h\"", 21),
        ("#include \"dream386.h\" ", 0),
        (" #include \"dream386.h\"\n", 0),
        ("void f_08048100(void) {}", 0),
        ("#include \"dream386.h\"\n", 22),
    ];
    for (text, at) in rows {
        assert_eq!(rt; place(alloc, text.as_bytes())?, Some(at), "{text}");
    }
    Ok(())
}

// The head and what comes after the end.
#[test]
fn refuses_heads(rt: HostRuntime) -> Result<(), Fail> {
    let alloc = rt.alloc();
    let rows = [
        ("\n", "int f_08048100(void) {}"),
        ("", "@"),
        ("void ", "main(void) {}"),
        ("void ", "f_8048100(void) {}"),
        ("void ", "f_0804810A(void) {}"),
        ("void f_08048100", "{}"),
        ("void f_08048100(", ") {}"),
        ("void f_08048100(void", "{}"),
        ("void f_08048100(void) ", ";"),
        ("void f_08048100(void) {} ", ";"),
        ("void f_08048100(void) {} ", "void f_08048100(void) {}"),
        ("void f_08048100(void) { return; ", ""),
        ("void", ""),
    ];
    for (front, rest) in rows {
        let at = place_after_line(alloc, front, rest, "")?;
        assert_eq!(rt; at, Some(front.len() as u64), "{front}{rest}");
    }
    Ok(())
}

// Declarations, and the names of locals.
#[test]
fn refuses_declarations(rt: HostRuntime) -> Result<(), Fail> {
    let alloc = rt.alloc();
    let rows = [
        ("uint32_t ", "t1 = 0u; }"),
        ("uint32_t ", "t00 = 0u; }"),
        ("uint32_t ", "eax = 0u; }"),
        ("uint32_t t0 = 0u; uint32_t ", "t0 = 0u; }"),
        ("uint32_t b0 = 0u; uint32_t ", "t0 = 0u; }"),
        ("uint32_t s0 = 0u; uint32_t ", "b0 = 0u; }"),
        ("uint32_t t0", "; }"),
        ("uint32_t t0 = ", "0x0u; }"),
        ("uint32_t t0 = 0u", ", b0 = 0u; }"),
        ("return; ", "uint32_t t0 = 0u; }"),
        ("uint32_t t0 = 0u; t0 = ", "t1; }"),
        ("uint32_t t0 = 0u; ", "b0 = 0x0u; }"),
        ("", "t0 = 0x0u; }"),
        ("", "fsbase = 0x0u; }"),
        ("", "gsbase = 0x0u; }"),
    ];
    for (front, rest) in rows {
        let at = place_after_line(alloc, HEAD, front, rest)?;
        let wanted = HEAD.len().saturating_add(front.len()) as u64;
        assert_eq!(rt; at, Some(wanted), "{front}{rest}");
    }
    Ok(())
}

// Statements, one production after another.
#[test]
fn refuses_statements(rt: HostRuntime) -> Result<(), Fail> {
    let alloc = rt.alloc();
    let rows = [
        ("", "goto x; }"),
        ("", "x: return; }"),
        ("", "case 0x0u: return; }"),
        ("while (1) { ", "continue; } }"),
        ("", "break; }"),
        ("if ((eax == ecx)) { ", "break; } }"),
        ("do {} while ((eax == ecx)); ", "break; }"),
        ("return ", "0x0u; }"),
        ("eax ", "+ 0x1u; }"),
        ("eax = eax", ", ecx; }"),
        ("eax = ld4 ", "eax; }"),
        ("eax = ld4(eax ", "+ ecx); }"),
        ("eax = ld4(eax)", "}"),
        ("st4(eax", "); }"),
        ("st1(eax, ecx", ", edx); }"),
        ("st2(eax, ecx) ", "}"),
        ("ext(", "); }"),
        ("ext ", "; }"),
        ("trap(", "eax, 0x1u); }"),
        ("trap(0x3u", "); }"),
        ("if ", "eax; }"),
        ("if (", "eax) {} }"),
        ("if ((eax == ecx)) ", "return; }"),
        ("if ((eax == ecx)) {} else ", "while (1) {} }"),
        ("if ((eax == ecx)) {} else {} ", "else {} }"),
        ("", "else {} }"),
        ("switch (eax) { ", "} }"),
        ("switch (eax) { case ", "eax: {} break; } }"),
        (
            "switch (eax) { case 0x1u: {} break; case ",
            "0x1u: {} break; } }",
        ),
        ("switch (eax) { case 0x1u: case ", "0x1u: {} break; } }"),
        ("switch (eax) { case 0x1u: {} ", "case 0x2u: {} break; } }"),
        ("switch (eax) { case 0x1u: ", "default: {} break; } }"),
        ("switch (eax) { default: {} ", "} }"),
        (
            "switch (eax) { default: {} break; ",
            "case 0x1u: {} break; } }",
        ),
        ("while (1) ", "; }"),
        ("while (", "0x1u) {} }"),
        ("do {} ", "return; }"),
        ("do {} while (", "1); }"),
        ("do {} while ((eax == ecx)) ", "{} }"),
    ];
    for (front, rest) in rows {
        let at = place_after_line(alloc, HEAD, front, rest)?;
        let wanted = HEAD.len().saturating_add(front.len()) as u64;
        assert_eq!(rt; at, Some(wanted), "{front}{rest}");
    }
    Ok(())
}

// Words and Conds, one production after another.
#[test]
fn refuses_words(rt: HostRuntime) -> Result<(), Fail> {
    let alloc = rt.alloc();
    let rows = [
        ("eax = ", "0x01u; }"),
        ("eax = ", "0x123456789u; }"),
        ("eax = ", "0xAu; }"),
        ("eax = ", "0x1; }"),
        ("eax = ", "0u; }"),
        ("eax = ", "1; }"),
        ("eax = ", "; }"),
        ("eax = (", "ld4(eax) + eax); }"),
        ("eax = (eax", "); }"),
        ("eax = (eax ", "== ecx); }"),
        ("eax = (eax + ecx ", "+ edx); }"),
        ("eax = (eax ", "> ecx); }"),
        ("eax = (~(eax ", "== ecx)); }"),
        ("eax = ((eax == ecx) ", "&& (eax == edx)); }"),
        ("eax = ((eax == ecx)", "); }"),
        ("eax = ((eax == ecx) ? eax", "); }"),
        ("eax = ((eax == ecx) ? (eax ", "< ecx) : eax); }"),
        ("eax = (", "! eax); }"),
        ("eax = par(eax", ", ecx); }"),
        ("eax = sar(eax", "); }"),
        ("eax = divuq(eax, ecx", "); }"),
        ("eax = lts ", "eax; }"),
        ("if ((eax ", "+ ecx)) {} }"),
        ("if ((eax == ecx ", "== edx)) {} }"),
        ("if ((", "~ eax)) {} }"),
        ("if ((!", "eax)) {} }"),
        ("if (((eax == ecx) && ", "eax)) {} }"),
        (
            "if (((eax == ecx) || (eax != ecx) ",
            "|| (eax < ecx))) {} }",
        ),
        ("if (((eax == ecx) ", "? eax : ecx)) {} }"),
        ("while ((eax <= ecx) ", "{} }"),
    ];
    for (front, rest) in rows {
        let at = place_after_line(alloc, HEAD, front, rest)?;
        let wanted = HEAD.len().saturating_add(front.len()) as u64;
        assert_eq!(rt; at, Some(wanted), "{front}{rest}");
    }
    Ok(())
}

// A text that opens so many times, and closes as often.
fn nested(
    alloc: Global,
    front: &str,
    open: &str,
    times: usize,
    inside: &str,
    close: &str,
) -> Result<Vec<u8>, Fail> {
    text_of(
        alloc,
        HEAD,
        &[(front, 1), (open, times), (inside, 1), (close, times)],
    )
}

// Texts at the limits of depth.
#[test]
fn reads_at_the_limits(rt: HostRuntime) -> Result<(), Fail> {
    let alloc = rt.alloc();
    let rows = [
        // A Num is the 256th Word.
        ("eax = ", "(~", 255, "0x0u", ")", "; }"),
        // The argument of a function is the 256th.
        ("eax = ", "(~", 254, "par(eax)", ")", "; }"),
        // The Words of a comparison are the 256th.
        ("if (", "(!", 254, "(eax == ecx)", ")", ") {} }"),
        // 512 Bodies of each kind.
        ("", "while (1) {", 512, "break;", "}", "}"),
        ("", "if ((eax == ecx)) {", 512, "", "}", "}"),
        ("", "do {", 512, "", "} while ((eax == ecx));", "}"),
        ("", "switch (eax) { default: {", 512, "", "} break; }", "}"),
    ];
    for (front, open, times, inside, close, end) in rows {
        let mut text = nested(alloc, front, open, times, inside, close)?;
        text.extend_from_slice(end.as_bytes())?;
        assert_eq!(rt; place(alloc, &text)?, None, "{open}");
    }
    Ok(())
}

// Texts one deeper: what stands before the refused token, and what begins with it.
#[test]
fn refuses_past_the_limits(rt: HostRuntime) -> Result<(), Fail> {
    let alloc = rt.alloc();
    let rows = [
        ("eax = ", "(~", 255, "", "(~0x0u)"),
        ("eax = ", "(~", 254, "(", "(eax == ecx) ? eax : ecx)"),
        ("eax = ", "(~", 255, "", "par(eax)"),
        ("eax = ", "(~", 255, "", "sar(eax, ecx)"),
        ("eax = ", "(~", 255, "", "divuq(eax, ecx, edx)"),
        ("eax = ", "(~", 254, "(", "par(eax) + ecx)"),
        ("if (", "(!", 254, "(", "!(eax == ecx))"),
        ("if (", "(!", 254, "(", "(eax == ecx) && (eax == ecx))"),
        ("", "while (1) {", 512, "", "while (1) {}"),
        ("", "while (1) {", 512, "", "if ((eax == ecx)) {}"),
        ("", "while (1) {", 512, "", "do {} while ((eax == ecx));"),
        (
            "",
            "while (1) {",
            512,
            "",
            "switch (eax) { default: {} break; }",
        ),
    ];
    for (front, open, times, inside, rest) in rows {
        let mut text = nested(alloc, front, open, times, inside, "")?;
        let before = text.len();
        text.extend_from_slice(rest.as_bytes())?;
        assert_eq!(rt; place(alloc, &text)?, Some(before as u64), "{open}{rest}");
    }
    Ok(())
}

// A text of 67,108,864 bytes: statements, and blanks up to the last byte.
#[test]
fn reads_the_longest_text(rt: HostRuntime) -> Result<(), Fail> {
    let alloc = rt.alloc();
    let mut text = text_of(alloc, HEAD, &[("eax=0x0u;", 7_000_000), ("}", 1)])?;
    text.resize(67_108_864, b' ')?;
    let function = read(alloc, &text).map_err(|_| "refused")?;
    assert_eq!(rt; function.body.len(), 7_000_000);
    Ok(())
}

// A text in another layout is printed in the canonical one.
#[test]
fn reads_any_layout(rt: HostRuntime) -> Result<(), Fail> {
    let alloc = rt.alloc();
    let text = text_of(
        alloc,
        "\r\n\tvoid f_08048100 ( void){uint32_t t0=0u;eax=((~t0)<<0x1u) ;}",
        &[],
    )?;
    let function = read(alloc, &text).map_err(|_| "refused")?;
    let printed = print(alloc, &function)?;
    let canonical = text_of(
        alloc,
        "\nvoid f_08048100(void)\n{\n  uint32_t t0 = 0u;\n  eax = ((~t0) << 0x1u);\n}\n",
        &[],
    )?;
    assert_eq!(rt; printed.as_slice(), canonical.as_slice());
    Ok(())
}
