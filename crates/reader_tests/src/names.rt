// Texts with their faults of names, whose places the texts bear themselves, and texts with none.
use crate::answer::Answer::{Classes, DoubleName, UnknownLabel, UnknownLocal};
use crate::answer::{Row, is_answered, repeated};
use std::test::Fail;

/// Files.
static FILES: [Row; 22] = [
    (b"", Classes(0)),
    (b"class A { } class A { }", Classes(2)),
    (b"class A { int f; int `f; }", DoubleName),
    (b"class A { int f; long f; int[] f; void f(); }", Classes(1)),
    (b"class A { int 'f'; int `f; }", DoubleName),
    (b"class A { A f; 'A' `f; }", DoubleName),
    (
        b"class A { void m(int); void m(); void `m(int); }",
        DoubleName,
    ),
    (
        b"class A { void m(int); int m(int); void m(int,int); void m(int[]); void n(int); }",
        Classes(1),
    ),
    (
        b"class A { void m('A',int[]); void `m(A,int[]); }",
        DoubleName,
    ),
    (b"class A { int f; } class B { int f; int `f; }", DoubleName),
    (b"class A { int m; int m(); int `m; }", DoubleName),
    (
        b"class A { static void m() { int x, y; int `x; return; } }",
        DoubleName,
    ),
    (
        b"class A { static void m() { int x, `x; y = 0; } }",
        DoubleName,
    ),
    (
        b"class A { static void m() { int 'x', `x; return; } }",
        DoubleName,
    ),
    (b"class A { static void m() { goto `x; } }", UnknownLabel),
    (b"class A { static void m() { `x = 0; } }", UnknownLocal),
    (
        b"class A { static void m() { `x = 0; } static void m() { return; } }",
        UnknownLocal,
    ),
    (
        b"class A { static void m() { return; } static void `m() { x = 0; } }",
        DoubleName,
    ),
    (
        b"class A { int f; int `f; static void m() { x = 0; } }",
        DoubleName,
    ),
    (
        b"class A { static void m() { int x; x = 1; return; } static void n() { `x = 1; } }",
        UnknownLocal,
    ),
    (
        b"class A { static void m() { l: return; } static void n() { goto `l; } }",
        UnknownLabel,
    ),
    (
        b"class A { static void m() { int x; 'x' = 1; 'l': goto l; } }",
        Classes(1),
    ),
];

/// The body between these is a text of its own.
const HEAD: &[u8] = b"class A { static void m() { int x; ";

const FOOT: &[u8] = b"} }";

/// Bodies, in which `x` is a local.
static BODIES: [Row; 21] = [
    (b"l: m: return;", Classes(1)),
    (b"l: `l: return;", DoubleName),
    (b"l: return; `l: return;", DoubleName),
    (b"l: return; m: return; n: `m: goto q;", DoubleName),
    (b"l: return; `'l': return;", DoubleName),
    (b"x: return; goto x;", Classes(1)),
    (b"return; l: goto l;", Classes(1)),
    (b"goto `l; l:", UnknownLabel),
    (b"l: return; m: catch E from l to m with l;", Classes(1)),
    (b"l: return; m: catch E from l to l with l;", Classes(1)),
    (b"l: return; m: catch E from `m to m with l;", UnknownLabel),
    (b"l: return; m: catch E from l to m with `m;", UnknownLabel),
    (b"l: return; catch E from l to `m with n;", UnknownLabel),
    (
        b"l: return; m: catch E from l to m with l; catch E from `n to n with n;",
        UnknownLabel,
    ),
    (b"x = `y; goto l;", UnknownLocal),
    (b"`y = z;", UnknownLocal),
    (b"x[`y] = z;", UnknownLocal),
    (
        b"x = staticinvoke <S: int s(int,int)>(x, `y);",
        UnknownLocal,
    ),
    (b"if x == `y goto l;", UnknownLocal),
    (
        b"lookupswitch(x) { case 1: goto l; case 2: goto `m; default: goto n; }; l: return;",
        UnknownLabel,
    ),
    (b"l: `y = 0; l: return;", UnknownLocal),
];

#[test]
fn named_files(rt: HostRuntime) -> Result<(), Fail> {
    for (text, answer) in &FILES {
        assert!(rt; is_answered(rt.alloc(), text, *answer)?, "{text:?}");
    }
    Ok(())
}

#[test]
fn named_bodies(rt: HostRuntime) -> Result<(), Fail> {
    let alloc = rt.alloc();
    for (body, answer) in &BODIES {
        let text = repeated(alloc, HEAD, body, 1, FOOT)?;
        assert!(rt; is_answered(alloc, text.as_slice(), *answer)?, "{body:?}");
    }
    Ok(())
}
