// Worked command lines over files and sinks in memory: what is written, to which sink, and the code.
use crate::clean_plain;
use clean_base::{MemFile, MemShelf, MemSink, Name, Seq, Word};
use std::alloc::{AllocError, Global};
use std::process::Abort;
use std::test::Fail;

const LIST: &[u8] = b"<S: int src()> -> _SOURCE_\n<S: void snk(int)> -> _SINK_\n";

const BAD_LIST: &[u8] = b"<S: int src()> => _SOURCE_\n";

const LEAK: &str =
    "public class A extends java.lang.Object { public static void m() { int i0; i0 = staticinvoke <S: int src()>(); staticinvoke <S: void snk(int)>(i0); return; } }";

const WORDS: [&str; 6] = [
    "serial",
    "--entry",
    "<A: void m()>",
    "--lists",
    "L",
    "A.jimple",
];

const REPORT_OF_TWO: &[&str] = &[
    "serial",
    "--entry",
    "<A: void m()>",
    "--lists",
    "L",
    "A.jimple",
    "B.jimple",
];

const GRAPH: &[&str] = &[
    "graph",
    "--entry",
    "<A: void m()>",
    "--lists",
    "L",
    "A.jimple",
];

const GRAPH_TWICE: &[&str] = &[
    "graph",
    "--entry",
    "<A: void m()>",
    "--lists",
    "L",
    "A.jimple",
    "A.jimple",
];

const GRAPH_OF_TWO: &[&str] = &[
    "graph",
    "--entry",
    "<A: void m()>",
    "--lists",
    "L",
    "A.jimple",
    "B.jimple",
];

const GRAPH_OF_FOUR: &[&str] = &[
    "graph",
    "--entry",
    "<A: void m()>",
    "--lists",
    "L",
    "A.jimple",
    "B.jimple",
    "C.jimple",
    "D.jimple",
];

// A call: its words, the files `A.jimple` and `L` and others, which calls of the shelf fail, and the room on the output and
// on the error sink. And what should come.
#[derive(Clone, Copy)]
struct Row<'a> {
    words: &'a [&'a str],
    class: &'a str,
    list: &'a [u8],
    others: &'a [(&'a str, &'a str)],
    fail: &'a [u64],
    room: u64,
    err_room: u64,
    out: &'a str,
    err: &'a str,
    code: u8,
}

fn file_of(alloc: Global, name: &str, bytes: &[u8]) -> Result<MemFile, AllocError> {
    Ok(MemFile {
        name: Name::from_vec(Vec::from_slice(alloc, name.as_bytes())?),
        bytes: Seq::from_vec(Vec::from_slice(alloc, bytes)?),
    })
}

fn words_of(alloc: Global, texts: &[&str]) -> Result<Vec<Word>, AllocError> {
    let mut words = Vec::new(alloc);
    for text in texts {
        words.push(Word::new(String::from_str(alloc, text)?))?;
    }
    Ok(words)
}

// Serves the words of a row, and compares.
fn expect(rt: &impl Abort, alloc: Global, row: &Row<'_>) -> Result<(), AllocError> {
    let words = words_of(alloc, row.words)?;
    let mut files = Vec::new(alloc);
    files.push(file_of(alloc, "A.jimple", row.class.as_bytes())?)?;
    files.push(file_of(alloc, "L", row.list)?)?;
    for (name, text) in row.others {
        files.push(file_of(alloc, name, text.as_bytes())?)?;
    }
    let mut shelf = MemShelf::new(files, Vec::from_slice(alloc, row.fail)?);
    let mut out = MemSink::new(alloc, row.room)?;
    let mut err = MemSink::new(alloc, row.err_room)?;
    let status = clean_plain(alloc, words.as_slice(), &mut shelf, &mut out, &mut err);
    assert_eq!(rt; out.bytes(), row.out.as_bytes());
    assert_eq!(rt; err.bytes(), row.err.as_bytes());
    assert_eq!(rt; status.code(), row.code);
    Ok(())
}

const PLAIN: Row<'static> = Row {
    words: &WORDS,
    class: LEAK,
    list: LIST,
    others: &[],
    fail: &[],
    room: 4096,
    err_room: 4096,
    out: "",
    err: "",
    code: 0,
};

#[test]
fn smallest_leak(rt: HostRuntime) -> Result<(), Fail> {
    let row = Row {
        out: "leak <A: void m()>#1 from <A: void m()>#0 at i0\nedges 5\ncontexts 1\n",
        code: 1,
        ..PLAIN
    };
    expect(&rt, rt.alloc(), &row)?;
    Ok(())
}

#[test]
fn reports(rt: HostRuntime) -> Result<(), Fail> {
    // The class file and the output. The numbers of edges are counted by hand: for each context how many statements each
    // fact reaches.
    let rows = [
        (
            "public class A extends java.lang.Object { public static void m() { return; } }",
            "edges 1\ncontexts 1\n",
        ),
        (
            "public class A extends java.lang.Object { public static void m() { int i0; i0 = staticinvoke <S: int src()>(); i0 = 0; staticinvoke <S: void snk(int)>(i0); return; } }",
            "edges 5\ncontexts 1\n",
        ),
        (
            "public class A extends java.lang.Object { public static void m() { int i0, i1; i0 = staticinvoke <S: int src()>(); i1 = i0; staticinvoke <S: void snk(int)>(i1); return; } }",
            "leak <A: void m()>#2 from <A: void m()>#0 at i1\nedges 9\ncontexts 1\n",
        ),
        (
            "public class A extends java.lang.Object { public static void m() { int b, a; b = staticinvoke <S: int src()>(); b = b; a = staticinvoke <T: int f(int,int)>(b, 1); staticinvoke <S: void snk(int)>(b); staticinvoke <S: void snk(int)>(a); return; } }",
            "leak <A: void m()>#3 from <A: void m()>#0 at b\nleak <A: void m()>#4 from <A: void m()>#0 at a\nedges 14\ncontexts 1\n",
        ),
        (
            "public class A extends java.lang.Object { public static void m() { throw 1; return; } }",
            "edges 1\ncontexts 1\n",
        ),
        // Zero 5, i0 4, i1 3; `id` from zero 2, and from its parameter 3.
        (
            "public class A extends java.lang.Object { public static void m() { int i0, i1, i2; i0 = staticinvoke <S: int src()>(); i1 = staticinvoke <A: int id(int)>(i0); i2 = staticinvoke <A: int id(int)>(0); staticinvoke <S: void snk(int)>(i2); return; } public static int id(int) { int x; x := @parameter0: int; return x; } }",
            "edges 17\ncontexts 3\n",
        ),
        // Zero 11, i0 10, i1 9, i2 2; `id` as before.
        (
            "public class A extends java.lang.Object { public static void m() { int i0, i1, i2; i0 = staticinvoke <S: int src()>(); i1 = staticinvoke <A: int id(int)>(i0); nop; nop; nop; nop; nop; nop; i2 = staticinvoke <A: int id(int)>(i1); staticinvoke <S: void snk(int)>(i2); return; } public static int id(int) { int x; x := @parameter0: int; return x; } }",
            "leak <A: void m()>#9 from <A: void m()>#0 at i2\nedges 37\ncontexts 3\n",
        ),
        // Zero 3, i0 2; `n` from zero 3, and from its parameter 3 and 2.
        (
            "public class A extends java.lang.Object { public static void m() { int i0; i0 = staticinvoke <S: int src()>(); staticinvoke <A: void n(int)>(i0); return; } public static void n(int) { int x; x := @parameter0: int; staticinvoke <S: void snk(int)>(x); return; } }",
            "leak <A: void n(int)>#1 from <A: void m()>#0 at x\nedges 13\ncontexts 3\n",
        ),
        // A sink of the class that is extended: Zero 3, i0 2, and `snk` is not entered.
        (
            "public class A extends S { public static void m() { int i0; i0 = staticinvoke <S: int src()>(); staticinvoke <A: void snk(int)>(i0); return; } public static void snk(int) { int x; x := @parameter0: int; return; } }",
            "leak <A: void m()>#1 from <A: void m()>#0 at i0\nedges 5\ncontexts 1\n",
        ),
        // Mutual recursion: in `m` 9, in `f` 5 and 10, in `g` 3 and 6.
        (
            "public class A extends java.lang.Object { public static void m() { int i0, i1; i0 = staticinvoke <S: int src()>(); i1 = staticinvoke <A: int f(int)>(i0); staticinvoke <S: void snk(int)>(i1); return; } public static int f(int) { int x, y; x := @parameter0: int; if x == 0 goto end; y = staticinvoke <A: int g(int)>(x); return y; end: return x; } public static int g(int) { int x, y; x := @parameter0: int; y = staticinvoke <A: int f(int)>(x); return y; } }",
            "leak <A: void m()>#2 from <A: void m()>#0 at i1\nedges 33\ncontexts 5\n",
        ),
        // A handler: Zero 6, i0 5, i1 4.
        (
            "public class A extends java.lang.Object { public static void m() { int i0, i1; E r0; i0 = staticinvoke <S: int src()>(); a: i1 = i0; b: return; c: r0 := @caughtexception; staticinvoke <S: void snk(int)>(i0); return; catch E from a to b with c; } }",
            "leak <A: void m()>#4 from <A: void m()>#0 at i0\nedges 15\ncontexts 1\n",
        ),
        // A switch past a kill: Zero 5, i0 4.
        (
            "public class A extends java.lang.Object { public static void m() { int i0; i0 = staticinvoke <S: int src()>(); lookupswitch(i0) { case 1: goto one; default: goto all; } one: i0 = 0; all: staticinvoke <S: void snk(int)>(i0); return; } }",
            "leak <A: void m()>#3 from <A: void m()>#0 at i0\nedges 9\ncontexts 1\n",
        ),
        // A store into a field, read through another name of the object.
        (
            "public class A extends java.lang.Object { public int f; public static void m() { A a, b; int i0, i1; a = new A; b = a; i0 = staticinvoke <S: int src()>(); a.<A: int f> = i0; i1 = b.<A: int f>; staticinvoke <S: void snk(int)>(i1); return; } }",
            "leak <A: void m()>#5 from <A: void m()>#2 at i1\nedges 27\ncontexts 1\n",
        ),
        // A store in a method that was called, found in its caller.
        (
            "public class A extends java.lang.Object { public int f; public static void m() { A a, b; int i1; a = new A; b = a; staticinvoke <A: void fill(A)>(a); i1 = b.<A: int f>; staticinvoke <S: void snk(int)>(i1); return; } public static void fill(A) { A p; int i0; p := @parameter0: A; i0 = staticinvoke <S: int src()>(); p.<A: int f> = i0; return; } }",
            "leak <A: void m()>#4 from <A: void fill(A)>#1 at i1\nedges 44\ncontexts 3\n",
        ),
        // Elements of an array.
        (
            "public class A extends java.lang.Object { public static void m() { int[] a; int i0, i1; a = newarray (int)[2]; i0 = staticinvoke <S: int src()>(); a[0] = i0; i1 = a[1]; staticinvoke <S: void snk(int)>(i1); return; } }",
            "leak <A: void m()>#4 from <A: void m()>#1 at i1\nedges 19\ncontexts 1\n",
        ),
        // A static field.
        (
            "public class A extends java.lang.Object { public static int s; public static void m() { int i0, i1; i0 = staticinvoke <S: int src()>(); <A: int s> = i0; i1 = <A: int s>; staticinvoke <S: void snk(int)>(i1); return; } }",
            "leak <A: void m()>#3 from <A: void m()>#0 at i1\nedges 14\ncontexts 1\n",
        ),
        // An exception whose field is stored through another name.
        (
            "public class A extends java.lang.Object { public int f; public static void m() { A a, b; int i0, i1; a = new A; l1: throw a; l2: b := @caughtexception; i0 = staticinvoke <S: int src()>(); b.<A: int f> = i0; i1 = a.<A: int f>; staticinvoke <S: void snk(int)>(i1); return; catch java.lang.Throwable from l1 to l2 with l2; } }",
            "leak <A: void m()>#6 from <A: void m()>#3 at i1\nedges 31\ncontexts 1\n",
        ),
    ];
    for (class, out) in rows {
        let code = if out.starts_with("leak") { 1 } else { 0 };
        let row = Row {
            class,
            out,
            code,
            ..PLAIN
        };
        expect(&rt, rt.alloc(), &row)?;
    }
    Ok(())
}

#[test]
fn report_of_two_files(rt: HostRuntime) -> Result<(), Fail> {
    // A source of the class that is extended, in another file: Zero 3, i0 2.
    let row = Row {
        words: REPORT_OF_TWO,
        class: "public class A extends java.lang.Object { public static void m() { int i0; i0 = staticinvoke <C: int src()>(); staticinvoke <S: void snk(int)>(i0); return; } }",
        others: &[("B.jimple", "class C extends S { }")],
        out: "leak <A: void m()>#1 from <A: void m()>#0 at i0\nedges 5\ncontexts 1\n",
        code: 1,
        ..PLAIN
    };
    expect(&rt, rt.alloc(), &row)?;
    Ok(())
}

#[test]
fn refusals(rt: HostRuntime) -> Result<(), Fail> {
    // The class file, the list, the entry, and the line on the error sink.
    let rows = [
        (
            "public class A extends java.lang.Object { public static void m() { return; } }",
            BAD_LIST,
            "<A: void n()>",
            "clean: L: line 1 not understood\n",
        ),
        (
            "public class A extends java.lang.Object { public static void m() { return; } }",
            LIST,
            "<A: void n()>",
            "clean: entry method not found\n",
        ),
        (
            "class A { static void m() { staticinvoke <S: void s(",
            LIST,
            "<A: void m()>",
            "clean: A.jimple: syntax at 52\n",
        ),
        (
            "class A ~",
            LIST,
            "<A: void m()>",
            "clean: A.jimple: byte not allowed at 8\n",
        ),
        (
            "class A { /* ",
            LIST,
            "<A: void m()>",
            "clean: A.jimple: text not ended at 10\n",
        ),
        (
            "class A { int f; int f; }",
            LIST,
            "<A: void m()>",
            "clean: A.jimple: name given twice at 21\n",
        ),
        (
            "class A { static void m() { goto x; } }",
            LIST,
            "<A: void m()>",
            "clean: A.jimple: unknown label at 33\n",
        ),
        (
            "class A { static void m() { x = 0; } }",
            LIST,
            "<A: void m()>",
            "clean: A.jimple: unknown local at 28\n",
        ),
        (
            "class A { static void m() { dynamicinvoke \"f\" <int ()>(); } }",
            LIST,
            "<A: void m()>",
            "clean: A.jimple: dynamicinvoke not supported at 28\n",
        ),
        (
            "class A { void m() { throw methodtype: 1; } }",
            LIST,
            "<A: void m()>",
            "clean: A.jimple: methodhandle not supported at 27\n",
        ),
        (
            "class A { void m() { int i; i := @parameter255: int; } }",
            LIST,
            "<A: void m()>",
            "clean: A.jimple: too many names at 34\n",
        ),
        (
            "class A { } class A { }",
            LIST,
            "<A: void m()>",
            "clean: class A given twice\n",
        ),
        (
            "class A { void m(); }",
            LIST,
            "<A: void m()>",
            "clean: entry method not found\n",
        ),
    ];
    for (class, list, entry, err) in rows {
        let words = ["serial", "--entry", entry, "--lists", "L", "A.jimple"];
        let row = Row {
            words: &words,
            class,
            list,
            err,
            code: 3,
            ..PLAIN
        };
        expect(&rt, rt.alloc(), &row)?;
    }
    Ok(())
}

#[test]
fn graphs(rt: HostRuntime) -> Result<(), Fail> {
    // The words, the class file, the others, and the graph.
    let rows: [(&[&str], &str, &[(&str, &str)], &str); 5] = [
        (
            GRAPH_OF_FOUR,
            "public class A extends java.lang.Object { public static void m() { B b; int i0; b = new D; i0 = virtualinvoke b.<B: int v()>(); return; } }",
            &[
                (
                    "B.jimple",
                    "public abstract class B extends java.lang.Object { public int v() { return 0; } }",
                ),
                ("C.jimple", "public class C extends B { }"),
                (
                    "D.jimple",
                    "public class D extends B { public int v() { return 0; } }",
                ),
            ],
            "call <A: void m()>#1 to <B: int v()>\ncall <A: void m()>#1 to <D: int v()>\nmethods 3\n",
        ),
        // A source of the class that is extended, in another file.
        (
            GRAPH_OF_TWO,
            "public class A extends java.lang.Object { public static void m() { int i0; i0 = staticinvoke <C: int src()>(); staticinvoke <S: void snk(int)>(i0); return; } }",
            &[("B.jimple", "class C extends S { }")],
            "methods 1\n",
        ),
        (
            GRAPH_OF_TWO,
            "public class A extends java.lang.Object { public static void m() { int i0; i0 = staticinvoke <C: int src()>(); staticinvoke <S: void snk(int)>(i0); return; } }",
            &[(
                "B.jimple",
                "class C extends S { static int src() { return 0; } }",
            )],
            "methods 1\n",
        ),
        (
            GRAPH_OF_TWO,
            "public class A extends java.lang.Object { public static void m() { int i0; i0 = staticinvoke <C: int src()>(); staticinvoke <S: void snk(int)>(i0); return; } }",
            &[("B.jimple", "class C { static int src() { return 0; } }")],
            "call <A: void m()>#0 to <C: int src()>\nmethods 2\n",
        ),
        // A method that nothing calls isn't reached, and one that calls itself is reached once.
        (
            GRAPH,
            "class A { void n() { return; } static void m() { staticinvoke <A: void m()>(); return; } }",
            &[],
            "call <A: void m()>#0 to <A: void m()>\nmethods 1\n",
        ),
    ];
    for (words, class, others, out) in rows {
        let row = Row {
            words,
            class,
            others,
            out,
            ..PLAIN
        };
        expect(&rt, rt.alloc(), &row)?;
    }
    Ok(())
}

#[test]
fn refused_graphs(rt: HostRuntime) -> Result<(), Fail> {
    // The words, the class file, the list, the file `B.jimple`, the line on the error sink and the code.
    let rows = [
        (GRAPH, "", LIST, "", "clean: entry method not found\n", 3),
        (
            GRAPH,
            "class A { static void m(); }",
            LIST,
            "",
            "clean: entry method not found\n",
            3,
        ),
        (
            GRAPH,
            "class A { } class A { }",
            LIST,
            "",
            "clean: class A given twice\n",
            3,
        ),
        (
            GRAPH_OF_TWO,
            "class A { static void m() { return; } }",
            LIST,
            "class A { }",
            "clean: class A given twice\n",
            3,
        ),
        (
            GRAPH_TWICE,
            LEAK,
            LIST,
            "",
            "clean: class A given twice\n",
            3,
        ),
        (
            GRAPH,
            "class A extends A { }",
            LIST,
            "",
            "clean: class A is its own supertype\n",
            3,
        ),
        (
            GRAPH_OF_TWO,
            "class A extends B { }",
            LIST,
            "class B extends A { }",
            "clean: class A is its own supertype\n",
            3,
        ),
        (
            GRAPH_OF_TWO,
            "class A extends A { }",
            BAD_LIST,
            "class B ~",
            "clean: B.jimple: byte not allowed at 8\n",
            3,
        ),
        (
            GRAPH,
            "class A extends A { }",
            BAD_LIST,
            "",
            "clean: L: line 1 not understood\n",
            3,
        ),
        // A file that isn't there.
        (
            GRAPH_OF_FOUR,
            "class A ~",
            LIST,
            "",
            "clean: C.jimple: read fault\n",
            4,
        ),
    ];
    for (words, class, list, other, err, code) in rows {
        let others = [("B.jimple", other)];
        let row = Row {
            words,
            class,
            list,
            others: &others,
            err,
            code,
            ..PLAIN
        };
        expect(&rt, rt.alloc(), &row)?;
    }
    Ok(())
}

#[test]
fn words_of_no_form(rt: HostRuntime) -> Result<(), Fail> {
    let shapes: [&[&str]; 7] = [
        &["serial"],
        &[
            "serial",
            "--entry",
            "<A: void m( )>",
            "--lists",
            "L",
            "A.jimple",
        ],
        &[
            "solve",
            "--entry",
            "<A: void m()>",
            "--lists",
            "L",
            "A.jimple",
        ],
        &[
            "serial",
            "--entry",
            "<A: void m()>",
            "--lists",
            "L",
            "-A.jimple",
        ],
        &[
            "serial",
            "--entry",
            "<A: void m()>",
            "--lists",
            "",
            "A.jimple",
        ],
        &["graph", "--entry", "<A: void m()>", "--lists", "L"],
        &["main", "--components", "L", "A.jimple"],
    ];
    for words in shapes {
        let row = Row {
            words,
            err: "clean: usage: clean check, main, graph, serial, replay, solve or big, with its options and files\n",
            code: 2,
            ..PLAIN
        };
        expect(&rt, rt.alloc(), &row)?;
    }
    Ok(())
}

#[test]
fn components(rt: HostRuntime) -> Result<(), Fail> {
    let receiver =
        "class com.R { void <init>() { return; } void onReceive(android.content.Context,android.content.Intent) { com.R t; t := @this: com.R; staticinvoke <A: void m()>(); return; } }";
    // The words, the component list, the output, the line on the error sink and the code. Edges from zero alone: in the
    // generated method 7, in `<init>` 1, in `onReceive` 3, in `m` 3, and there 2 from i0.
    let rows: [(&[&str], &str, &str, &str, u8); 6] = [
        (
            &["main", "--components", "F"],
            "",
            "public class dummyMainClass extends java.lang.Object\n{\n    public static void dummyMainMethod()\n    {\n        int i0;\n        i0 = 0;\n        return;\n    }\n}\n",
            "",
            0,
        ),
        (
            &[
                "serial",
                "--components",
                "F",
                "--lists",
                "L",
                "A.jimple",
                "B.jimple",
            ],
            "% the app\nreceiver com.R\n",
            "leak <A: void m()>#1 from <A: void m()>#0 at i0\nedges 16\ncontexts 4\n",
            "",
            1,
        ),
        (
            &[
                "graph",
                "--components=F",
                "B.jimple",
                "--lists=L",
                "--",
                "A.jimple",
            ],
            "receiver com.R",
            "call <com.R: void onReceive(android.content.Context,android.content.Intent)>#1 to <A: void m()>\ncall <dummyMainClass: void dummyMainMethod()>#4 to <com.R: void <init>()>\ncall <dummyMainClass: void dummyMainMethod()>#5 to <com.R: void onReceive(android.content.Context,android.content.Intent)>\nmethods 4\n",
            "",
            0,
        ),
        (
            &["graph", "--components", "F", "--lists", "L", "A.jimple"],
            "receiver com.R",
            "",
            "clean: component com.R not found\n",
            3,
        ),
        (
            &["main", "--components", "F"],
            "receiver com.R\nservice com.R",
            "",
            "clean: F: component given twice in line 2\n",
            3,
        ),
        (
            &["check", "A.jimple", "B.jimple"],
            "",
            "classes 2\nmethods 3\nstatements 7\n",
            "",
            0,
        ),
    ];
    for (words, list, out, err, code) in rows {
        let others = [("B.jimple", receiver), ("F", list)];
        let row = Row {
            words,
            others: &others,
            out,
            err,
            code,
            ..PLAIN
        };
        expect(&rt, rt.alloc(), &row)?;
    }
    Ok(())
}

#[test]
fn numbers(rt: HostRuntime) -> Result<(), Fail> {
    // The further words, the output, the line on the error sink and the code.
    let rows: [(&[&str], &str, &str, u8); 4] = [
        (
            &["--max-edges", "5"],
            "leak <A: void m()>#1 from <A: void m()>#0 at i0\nedges 5\ncontexts 1\n",
            "",
            1,
        ),
        (
            &["--max-edges=4", "--period=1"],
            "",
            "clean: edge limit 4 passed, 5 found\n",
            3,
        ),
        (
            &["--k", "01"],
            "leak <A: void m()>#1 from <A: void m()>#0 at i0\nedges 5\ncontexts 1\n",
            "",
            1,
        ),
        (
            &["--k", "9"],
            "",
            "clean: usage: clean check, main, graph, serial, replay, solve or big, with its options and files\n",
            2,
        ),
    ];
    for (further, out, err, code) in rows {
        let mut words = Vec::from_slice(rt.alloc(), &WORDS)?;
        words.extend_from_slice(further)?;
        let row = Row {
            words: words.as_slice(),
            out,
            err,
            code,
            ..PLAIN
        };
        expect(&rt, rt.alloc(), &row)?;
    }
    Ok(())
}

#[test]
fn failing_devices(rt: HostRuntime) -> Result<(), Fail> {
    // Which call of the shelf fails, the rooms, the output, the line and the code. The third call is the first read of the
    // list. A failure of the error sink is passed over.
    let rows = [
        (3, 4096, 4096, "", "clean: L: read fault\n", 4),
        (
            99,
            10,
            4096,
            "leak <A: v",
            "clean: write fault after 10 bytes\n",
            5,
        ),
        (1, 4096, 7, "", "clean: ", 4),
    ];
    for (call, room, err_room, out, err, code) in rows {
        let row = Row {
            fail: &[call],
            room,
            err_room,
            out,
            err,
            code,
            ..PLAIN
        };
        expect(&rt, rt.alloc(), &row)?;
    }
    Ok(())
}

// A list of so many bytes.
fn long_list(alloc: Global, n: usize) -> Result<Vec<u8>, AllocError> {
    vec![in alloc; b'\n'; n]
}

#[test]
fn a_list_past_its_room(rt: HostRuntime) -> Result<(), Fail> {
    let list = long_list(rt.alloc(), 16_777_217)?;
    let row = Row {
        list: list.as_slice(),
        err: "clean: L: longer than 16777216 bytes\n",
        code: 3,
        ..PLAIN
    };
    expect(&rt, rt.alloc(), &row)?;
    Ok(())
}
