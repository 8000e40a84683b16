// Kinds and targets of calls, and the graph of the open ones.
use super::texts::{method_of, table_of};
use call_graph::{CallEdge, CallGraph, graph, kind_of};
use class_table::ClassTable;
use clean_base::MethodId;
use source_sink::{Kind, Lists, read_lists, read_sig};
use std::alloc::{AllocError, Global};
use std::test::Fail;

const CLASSES: &[u8] = b"
public class A extends java.lang.Object
{
    public static void m()
    {
        B b;
        int i0;
        b = new D;
        i0 = virtualinvoke b.<B: int v()>();
        return;
    }
    public static void n()
    {
        staticinvoke <A: void o()>();
        staticinvoke <A: void m()>();
        return;
    }
    public static void o()
    {
        staticinvoke <A: void n()>();
        return;
    }
}
public abstract class B extends java.lang.Object { public int v() { return 0; } }
public class C extends B { }
public class D extends B { public int v() { return 0; } }
public class E extends S { }
";

const NONE: &[u8] = b"";

const SINK: &[u8] = b"<B: int v()> -> _SINK_\n";

const SOURCE: &[u8] = b"<S: int src()> -> _SOURCE_\n";

// The kind of the signature of this text.
fn kind(alloc: Global, table: &ClassTable, lists: &Lists, sig: &[u8]) -> Result<Kind, AllocError> {
    match read_sig(alloc, sig)? {
        Some(sig) => kind_of(alloc, table, lists, &sig),
        None => Ok(Kind {
            source: true,
            sink: true,
        }),
    }
}

#[test]
fn lists_say_the_same_of_a_class_below(rt: HostRuntime) -> Result<(), Fail> {
    let (Ok(table), Ok(lists)) = (
        table_of(rt.alloc(), CLASSES),
        read_lists(rt.alloc(), SOURCE, 1),
    ) else {
        assert!(rt; false, "no table or no list");
        return Ok(());
    };
    let wants: [(&[u8], bool); 4] = [
        (b"<S: int src()>", true),
        (b"<E: int src()>", true),
        (b"<A: int src()>", false),
        (b"<E: int src(int)>", false),
    ];
    for (sig, source) in wants {
        let want = Kind {
            source,
            sink: false,
        };
        assert_eq!(rt; kind(rt.alloc(), &table, &lists, sig)?, want);
    }
    Ok(())
}

// The call graph of the classes with a list, from the method of a signature on; none where one of these has a fault.
fn graph_of(alloc: Global, list: &[u8], root: &[u8]) -> Result<Option<CallGraph>, AllocError> {
    let (Ok(table), Ok(lists)) = (table_of(alloc, CLASSES), read_lists(alloc, list, 1)) else {
        return Ok(None);
    };
    match method_of(alloc, &table, root)? {
        Some(root) if root.0 < table.methods() => Ok(Some(graph(alloc, &table, &lists, root)?)),
        _ => Ok(None),
    }
}

fn edge(caller: u32, place: u32, target: u32) -> CallEdge {
    CallEdge {
        caller: MethodId(caller),
        place,
        target: MethodId(target),
    }
}

// Whether the graph has these calls and these methods.
fn is_graph(found: &Option<CallGraph>, calls: &[CallEdge], reached: &[MethodId]) -> bool {
    match found {
        Some(found) => found.calls.as_slice() == calls && found.reached.as_slice() == reached,
        None => false,
    }
}

#[test]
fn open_calls_come_to_each_concrete_class_below(rt: HostRuntime) -> Result<(), Fail> {
    let found = graph_of(rt.alloc(), NONE, b"<A: void m()>")?;
    let calls = [edge(0, 1, 3), edge(0, 1, 4)];
    assert!(rt; is_graph(&found, &calls, &[MethodId(0), MethodId(3), MethodId(4)]));
    let found = graph_of(rt.alloc(), SINK, b"<A: void m()>")?;
    assert!(rt; is_graph(&found, &[], &[MethodId(0)]));
    Ok(())
}

#[test]
fn methods_that_call_each_other_are_reached_once(rt: HostRuntime) -> Result<(), Fail> {
    let found = graph_of(rt.alloc(), SINK, b"<A: void o()>")?;
    let calls = [edge(1, 0, 2), edge(1, 1, 0), edge(2, 0, 1)];
    assert!(rt; is_graph(&found, &calls, &[MethodId(0), MethodId(1), MethodId(2)]));
    Ok(())
}
