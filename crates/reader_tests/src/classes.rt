// Texts with how many classes they give, or with their first fault, whose place the texts bear themselves.
use crate::answer::Answer::{
    BadByte, Classes, DoubleName, OpenText, Syntax, TooMany, UnknownLabel, UnknownLocal,
    Unsupported,
};
use crate::answer::{Row, is_answered, repeated};
use clean_base::Form;
use std::test::Fail;

/// The body between these is a text of its own.
const HEAD: &[u8] = b"class A { void m() { ";

const FOOT: &[u8] = b"} }";

/// Files.
static FILES: [Row; 34] = [
    (b"", Classes(0)),
    (b"class A { } class A { }", Classes(2)),
    (b"class A extends A { }", Classes(1)),
    (b"public annotation interface N { }", Classes(1)),
    (b"class A { } // the end", Classes(1)),
    (b"class <init> extends 'int' { }", Classes(1)),
    (b"class A `~", BadByte),
    (b"class A { `# }", BadByte),
    (b"class A `~ '", BadByte),
    (b"class A { `/* ", OpenText),
    (b"class A { `/*/ }", OpenText),
    (b"class a.`'b { }", OpenText),
    (b"class `~", BadByte),
    (
        b"class A { static void m() { staticinvoke <S: void s(`",
        Syntax,
    ),
    (b"class a`'b' { }", Syntax),
    (b"class <init>`.x { }", Syntax),
    (b"class A { synthetic f`; }", Syntax),
    (b"synthetic `", Syntax),
    (b"class A { int f; int `f; }", DoubleName),
    (b"class A { int f; 'int' `'f'; }", DoubleName),
    (b"class A { int f; int[] f; long f; int g; }", Classes(1)),
    (
        b"class A { int f; int f(); int f(int); long f(); }",
        Classes(1),
    ),
    (b"class A { void m(); int m(); void `m(); }", DoubleName),
    (
        b"class A { void m(int, a.b[]) { nop; } static void `m(int, 'a'.'b'[]); }",
        DoubleName,
    ),
    (
        b"class A { void m() { nop; } private void `m() { x = 0; } }",
        DoubleName,
    ),
    (
        b"class A { void m() { `x = 0; } void m() { nop; } }",
        UnknownLocal,
    ),
    (b"class A { int f; int f; } class B { `", Syntax),
    (b"class A { int f; int f; } class B { } `x", Syntax),
    (
        b"class A { void m() { x = 0; } } class B { void m() { `ret; } }",
        Unsupported(Form::Ret),
    ),
    (
        b"class A { void m() { x = 0; goto y; } } class B { void m() { x := @`parameter255: int; } }",
        TooMany,
    ),
    (b"class A { static void m() { goto `x; } }", UnknownLabel),
    (b"class A { static void m() { `x = 0; } }", UnknownLocal),
    (
        b"class A { static void m() { `dynamicinvoke \"f\" <int ()>(); } }",
        Unsupported(Form::Dynamic),
    ),
    (b"interface A extends A, B implements A { }", Classes(1)),
];

/// Bodies.
static BODIES: [Row; 46] = [
    (b"`", Syntax),
    (b"x: `", Syntax),
    (b"`catch E from a to b with c; ", Syntax),
    (b"int x; x := @ /* a space */ this: A;", Classes(1)),
    (b"int x; x := @`'this': A;", Syntax),
    (b"int x; x := @parameter007: int;", Classes(1)),
    (b"int x; x := @`parameter0000000000255: int;", TooMany),
    (
        b"int x; x := @`parameter99999999999999999999999999: int;",
        TooMany,
    ),
    (b"`ret; ", Unsupported(Form::Ret)),
    (b"`breakpoint; ", Unsupported(Form::Breakpoint)),
    (b"x = `dynamicinvoke ", Unsupported(Form::Dynamic)),
    (
        b"int x; x = `methodhandle: \"m\"; ",
        Unsupported(Form::MethodConst),
    ),
    (
        b"int x; x = `methodtype: \"m\"; ",
        Unsupported(Form::MethodConst),
    ),
    (
        b"throw `methodhandle /* */ : x; ",
        Unsupported(Form::MethodConst),
    ),
    (b"int x; x = 'methodhandle'`: \"m\"; ", Syntax),
    (b"throw `methodhandle; ", UnknownLocal),
    (b"int methodhandle; throw methodhandle; ", Classes(1)),
    (b"methodhandle: goto methodhandle; ", Classes(1)),
    (b"virtualinvoke `methodtype.<S: void s()>(); ", UnknownLocal),
    (b"staticinvoke <S: void s()>(`methodhandle: x); ", Syntax),
    (b"staticinvoke <S: void s(int)>(`); ", Syntax),
    (b"staticinvoke <S: void s(int)>(1`, 2); ", Syntax),
    (b"staticinvoke <S: void s(int,int)>(1, `y); ", UnknownLocal),
    (b"specialinvoke `r.<S: void s(int)>(y); ", UnknownLocal),
    (b"int x, `x; nop; ", DoubleName),
    (b"int x; nop; `'x; ", OpenText),
    (b"int x; long y, `'x'; y = z; ", DoubleName),
    (b"x: nop; `x: nop; ", DoubleName),
    (b"x: `x: nop; ", DoubleName),
    (b"int x; x: x = 0; goto x; ", Classes(1)),
    (b"goto `x; nop; x: ", UnknownLabel),
    (b"goto x; x: nop; ", Classes(1)),
    (b"a: nop; b: catch E from a to b with a; ", Classes(1)),
    (b"a: nop; b: catch E from `b to b with a; ", UnknownLabel),
    (b"a: nop; b: catch E from a to b with `b; ", UnknownLabel),
    (b"a: nop; b: catch E from a to `c with b; ", UnknownLabel),
    (b"a: nop; catch E from `c to c with d; ", UnknownLabel),
    (b"if `x == y goto z; ", UnknownLocal),
    (b"int x; if x == `y goto z; ", UnknownLocal),
    (b"if 0 == 1 goto `z; x = 0; ", UnknownLabel),
    (
        b"a: lookupswitch(0) { case 1: goto a; case #NaN: goto `b; default: goto c; } ",
        UnknownLabel,
    ),
    (
        b"a: tableswitch(0) { case -1: goto a; default: goto `b; }; ",
        UnknownLabel,
    ),
    (b"int x; x = newmultiarray (A)[x][`y][]; ", UnknownLocal),
    (b"int x; x[`i] = j; ", UnknownLocal),
    (b"int x, i; x[i] = `j; ", UnknownLocal),
    (b"<A: int f> = `x; ", UnknownLocal),
];

#[test]
fn answered_files(rt: HostRuntime) -> Result<(), Fail> {
    for (text, answer) in &FILES {
        assert!(rt; is_answered(rt.alloc(), text, *answer)?, "{text:?}");
    }
    Ok(())
}

#[test]
fn answered_bodies(rt: HostRuntime) -> Result<(), Fail> {
    let alloc = rt.alloc();
    for (body, answer) in &BODIES {
        let text = repeated(alloc, HEAD, body, 1, FOOT)?;
        assert!(rt; is_answered(alloc, text.as_slice(), *answer)?, "{body:?}");
    }
    Ok(())
}
