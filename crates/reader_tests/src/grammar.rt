// Texts with how many classes they spell, or with their fault of grammar, whose place the texts bear themselves.
use crate::answer::Answer::{Classes, Syntax, TooMany, UnsupportedWord, WordBefore};
use crate::answer::{Answer, Row, is_spelled, repeated};
use std::test::Fail;

/// The body between these is a text of its own.
const HEAD: &[u8] = b"class A { void m() { ";

const FOOT: &[u8] = b"} }";

/// Files.
static FILES: [Row; 48] = [
    (b"", Classes(0)),
    (b" /* no class */ ", Classes(0)),
    (b"class A { } // the end", Classes(1)),
    (
        b"class A { } interface B extends C, D implements E, F { } public enum class G { }",
        Classes(3),
    ),
    (
        b"final annotation interface A implements B { int f; } synthetic bridge class C { }",
        Classes(2),
    ),
    (b"class A { } class A { }", Classes(2)),
    (b"class A extends A { }", Classes(1)),
    (b"class A { int f; int f; }", Classes(1)),
    (
        b"class <init> extends 'class'.'int' implements synthetic { }",
        Classes(1),
    ),
    (b"`x", Syntax),
    (b"class `", Syntax),
    (b"class A `", Syntax),
    (b"class A { `", Syntax),
    (b"class A { } `x", Syntax),
    (b"class A { } `}", Syntax),
    (b"class A { } public `", Syntax),
    (b"class `class { }", Syntax),
    (
        b"class A { static void m() { staticinvoke <S: void s(`",
        Syntax,
    ),
    (b"synthetic `", Syntax),
    (b"synthetic `{ }", Syntax),
    (b"synthetic `x class A { }", Syntax),
    (b"`'synthetic' class A { }", Syntax),
    (b"class A extends B`, C { }", Syntax),
    (b"class A extends B `extends C { }", Syntax),
    (b"class A implements B `extends C { }", Syntax),
    (b"class A extends `{ }", Syntax),
    (b"class A extends `int { }", Syntax),
    (b"interface A extends B, `{ }", Syntax),
    (b"interface A extends B, C `D { }", Syntax),
    (
        b"class A { synthetic int f; bridge varargs x g; constructor[] constructor; }",
        Classes(1),
    ),
    (
        b"class A { declared_synchronized void synthetic(); }",
        Classes(1),
    ),
    (b"class A { synthetic f`; }", Syntax),
    (b"class A { synthetic`; }", Syntax),
    (b"class A { public constructor `}", Syntax),
    (b"class A { varargs `class; }", Syntax),
    (b"class A { bridge[]`; }", Syntax),
    (b"class A { 'bridge' x; }", Classes(1)),
    (b"class A { public `", Syntax),
    (
        b"class A { int class; 'int' f; void <clinit>(); void goto(long,A[][]) throws B, C; }",
        Classes(1),
    ),
    (b"class A { int f`, g; }", Syntax),
    (b"class A { int[`5] f; }", Syntax),
    (b"class A { static int `}", Syntax),
    (b"class A { void m(`,int); }", Syntax),
    (b"class A { void m(int,`); }", Syntax),
    (b"class A { void m(int `x); }", Syntax),
    (b"class A { void m() throws `; }", Syntax),
    (b"class A { void m() `}", Syntax),
    (b"class A { void m() { return; }`; }", Syntax),
];

/// Bodies.
static BODIES: [Row; 102] = [
    (b"`", Syntax),
    (b"x: `", Syntax),
    (b"int x; `", Syntax),
    (b"`catch E from a to b with c; ", Syntax),
    (b"x: `catch E from a to b with c; ", Syntax),
    (b"nop; x: ", Classes(1)),
    (
        b"x: y: nop; z: catch E from x to z with y; catch F from a to b with c; ",
        Classes(1),
    ),
    (b"nop; catch E from a to b with c; `nop; ", Syntax),
    (b"nop; catch E from a to b `; ", Syntax),
    (b"nop; catch `int from a to b with c; ", Syntax),
    (b"T[] x; a[i] = x; ", Classes(1)),
    (b"a[] `= x; ", Syntax),
    (b"a[i] = x; T[`] y; ", Syntax),
    (b"a[i]`; ", Syntax),
    (b"int x, `; nop; ", Syntax),
    (b"int[`5] x; nop; ", Syntax),
    (b"int `nop; ", Syntax),
    (b"T x `y; ", Syntax),
    (b"T `int; ", Syntax),
    (b"T `", Syntax),
    (b"nop; `int x; ", Syntax),
    (b"nop; T `x; ", Syntax),
    (b"int'x'; 'a''b'; <init>y; nop; ", Classes(1)),
    (b"<init>.`x = 0; ", Syntax),
    (b"x = y`'z'; ", Syntax),
    (
        b"x := @parameter254: int; y := @ this: A; z := @ /* of a handler */ caughtexception; ",
        Classes(1),
    ),
    (
        b"x := @parameter007: int; y := @parameter000000000000000000000000254: int; ",
        Classes(1),
    ),
    (b"x := @`parameter255: int; ", TooMany),
    (b"x := @`parameter000255: int; ", TooMany),
    (
        b"x := @`parameter99999999999999999999999999: int; ",
        TooMany,
    ),
    (b"parameter255 = parameter7; ", Classes(1)),
    (b"x := @`'parameter255': int; ", Syntax),
    (b"x := @`'this': A; ", Syntax),
    (b"x := @`parameter: int; ", Syntax),
    (b"x := @`parameter1x: int; ", Syntax),
    (b"x := @this`; ", Syntax),
    (b"x := @caughtexception`: int; ", Syntax),
    (b"x = `@this: A; ", Syntax),
    (
        b"staticinvoke <S: void f()>(); staticinvoke <S: void f(int,T)>(x, 1); ",
        Classes(1),
    ),
    (
        b"interfaceinvoke x.<S: int[][] f(int[])>(null); specialinvoke x.<S: void <init>()>(); ",
        Classes(1),
    ),
    (b"staticinvoke <S: void f(int)>(`); ", Syntax),
    (b"staticinvoke <S: void f(int,int)>(x`); ", Syntax),
    (b"staticinvoke <S: void f(int)>(x`, y); ", Syntax),
    (b"staticinvoke <S: void f(int)>(x `y); ", Syntax),
    (b"x = staticinvoke <S: int f(int,int)>(x, y`, z); ", Syntax),
    (b"staticinvoke <S: void f()>(`x); ", Syntax),
    (b"staticinvoke <S: void f()>(`1); ", Syntax),
    (b"staticinvoke `<<init>: void f()>(); ", Syntax),
    (b"virtualinvoke `<S: void f()>(); ", Syntax),
    (b"x = methodhandle`: \"f\"; ", WordBefore),
    (b"x = 1 + methodtype`: y; ", WordBefore),
    (b"return methodhandle`: y; ", WordBefore),
    (b"if methodhandle`: x == y goto a; ", WordBefore),
    (b"x[methodtype`: y] = 0; ", WordBefore),
    (
        b"staticinvoke <S: void f(int)>(methodhandle`: y); ",
        WordBefore,
    ),
    (b"staticinvoke <S: void f()>(`methodhandle: y); ", Syntax),
    (b"methodhandle: nop; goto methodhandle; ", Classes(1)),
    (b"goto methodhandle`: ", Syntax),
    (
        b"virtualinvoke methodtype.<S: void f()>(); x = methodhandle; ",
        Classes(1),
    ),
    (b"virtualinvoke methodhandle`: x; ", Syntax),
    (b"x = new methodhandle`: y; ", Syntax),
    (b"x = 'methodhandle'`: y; ", Syntax),
    (b"x = y`: z; ", Syntax),
    (b"`dynamicinvoke \"f\" <int ()>(); ", UnsupportedWord),
    (b"x = `dynamicinvoke \"f\" <int ()>(); ", UnsupportedWord),
    (b"x: `ret y; ", UnsupportedWord),
    (b"nop; `breakpoint; ", UnsupportedWord),
    (b"'ret': nop; goto 'ret'; ", Classes(1)),
    (b"goto `ret; ", Syntax),
    (b"x = `breakpoint; ", Syntax),
    (b"if `dynamicinvoke == x goto a; ", Syntax),
    (
        b"lookupswitch(x) { case 1: goto a; case -1: goto b; default: goto c; } nop; ",
        Classes(1),
    ),
    (
        b"tableswitch(1) { case #NaN: goto a; default: goto c; }; ",
        Classes(1),
    ),
    (b"tableswitch(x) { default: goto c; };`; ", Syntax),
    (b"lookupswitch(x) { case 1: goto a; `}; ", Syntax),
    (b"lookupswitch(x) { `} ", Syntax),
    (
        b"lookupswitch(x) { default: goto a; `case 1: goto b; } ",
        Syntax,
    ),
    (
        b"lookupswitch(x) { case `y: goto a; default: goto b; } ",
        Syntax,
    ),
    (b"lookupswitch `x { default: goto b; } ", Syntax),
    (
        b"x = newmultiarray (int)[3][y][][]; y = newmultiarray (T[])[3]; x = newarray (T)[n]; x = new T; ",
        Classes(1),
    ),
    (b"x = newmultiarray (int)[`]; ", Syntax),
    (b"x = newmultiarray (int)[3][][`4]; ", Syntax),
    (b"x = newmultiarray (int)[3][`; ", Syntax),
    (b"x = newmultiarray (int)`; ", Syntax),
    (b"x = newarray (int)[3]`[]; ", Syntax),
    (
        b"x = (int[]) y; y = class \"LA;\"; z = y instanceof T[]; z = neg 1; z = lengthof x; z = x >>> 2; ",
        Classes(1),
    ),
    (
        b"<S: int f> = x; x = <S: int f>; y.<S: int f> = null; x = y.<S: int f>; x = y[0]; ",
        Classes(1),
    ),
    (
        b"entermonitor \"x\"; exitmonitor y; throw null; return; return 1; if x != null goto a; ",
        Classes(1),
    ),
    (b"x = y + z `+ 1; ", Syntax),
    (b"x = -5`-3; ", Syntax),
    (b"x = (int) `(int) y; ", Syntax),
    (b"x = <S: int f`(); ", Syntax),
    (b"x = y.<S: int f> `+ 1; ", Syntax),
    (b"y.<S: int f> = `(int) x; ", Syntax),
    (b"<S: int f>`; ", Syntax),
    (b"x = class `y; ", Syntax),
    (b"x = new `int; ", Syntax),
    (b"return x `+ y; ", Syntax),
    (b"throw `; ", Syntax),
    (b"if x `goto a; ", Syntax),
    (b"if x < y goto `; ", Syntax),
    (b"x `", Syntax),
];

/// A text in which a piece is repeated.
struct Long {
    head: &'static [u8],
    piece: &'static [u8],
    count: usize,
    foot: &'static [u8],
    answer: Answer,
}

static LIMITS: [Long; 9] = [
    Long {
        head: b"class A { void m(int",
        piece: b",int",
        count: 254,
        foot: b"); }",
        answer: Classes(1),
    },
    Long {
        head: b"class A { void m(int",
        piece: b",int",
        count: 254,
        foot: b",`int); }",
        answer: TooMany,
    },
    Long {
        head: b"class A { void m(int",
        piece: b",int",
        count: 254,
        foot: b",`T[]); }",
        answer: TooMany,
    },
    Long {
        head: b"class A { void m(int",
        piece: b",int",
        count: 254,
        foot: b",`); }",
        answer: Syntax,
    },
    Long {
        head: b"class A { void m() { staticinvoke <S: void f(int",
        piece: b",int",
        count: 255,
        foot: b")>(0`); } }",
        answer: Syntax,
    },
    Long {
        head: b"class A { void m() { int x",
        piece: b",x",
        count: 65534,
        foot: b"; nop; } }",
        answer: Classes(1),
    },
    Long {
        head: b"class A { void m() { int x",
        piece: b",x",
        count: 65534,
        foot: b",`x; nop; } }",
        answer: TooMany,
    },
    Long {
        head: b"class A { void m() { int x",
        piece: b",x",
        count: 65534,
        foot: b"; T[] `y; nop; } }",
        answer: TooMany,
    },
    Long {
        head: b"class A { void m() { int x",
        piece: b",x",
        count: 65534,
        foot: b",`int; nop; } }",
        answer: Syntax,
    },
];

#[test]
fn spelled_files(rt: HostRuntime) -> Result<(), Fail> {
    for (text, answer) in &FILES {
        assert!(rt; is_spelled(rt.alloc(), text, *answer)?, "{text:?}");
    }
    Ok(())
}

#[test]
fn spelled_bodies(rt: HostRuntime) -> Result<(), Fail> {
    let alloc = rt.alloc();
    for (body, answer) in &BODIES {
        let text = repeated(alloc, HEAD, body, 1, FOOT)?;
        assert!(rt; is_spelled(alloc, text.as_slice(), *answer)?, "{body:?}");
    }
    Ok(())
}

#[test]
fn spelled_at_limits(rt: HostRuntime) -> Result<(), Fail> {
    let alloc = rt.alloc();
    for long in &LIMITS {
        let text = repeated(alloc, long.head, long.piece, long.count, long.foot)?;
        let foot = long.foot;
        assert!(rt;
            is_spelled(alloc, text.as_slice(), long.answer)?,
            "{foot:?}"
        );
    }
    Ok(())
}
