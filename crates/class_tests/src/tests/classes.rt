// Subtypes, resolution and the faults of classes.
use super::texts::{class_of, method_of, name as name_of, table_of};
use class_table::ClassTable;
use clean_base::{InputFault, Stop};
use source_sink::read_sig;
use std::alloc::{AllocError, Global};
use std::test::Fail;

const CLASSES: &[u8] = b"
interface I { abstract int v(); }
interface J extends I { public int v() { return 1; } public int w() { return 1; } }
abstract class B implements I { public int v() { return 0; } abstract int u(); }
class C extends B { }
class D extends B { public int v() { return 2; } int u() { return 2; } }
class E implements I, J { }
class F extends E { native int w(); }
class G extends F { }
class K extends Missing implements J { }
interface P { public int x() { return 0; } }
interface Q extends P { }
interface R extends P { public int x() { return 1; } }
class S implements Q, R { }
class U { public int x() { return 2; } }
class T extends U implements R { }
class X implements R { }
class Y extends X implements P { }
";

// Whether the one class is a subtype of the other; none where the table knows one of them not.
fn is_subtype(
    alloc: Global,
    table: &ClassTable,
    sub: &[u8],
    class: &[u8],
) -> Result<Option<bool>, AllocError> {
    let sub = class_of(alloc, table, sub)?;
    let class = class_of(alloc, table, class)?;
    match (sub, class) {
        (Some(sub), Some(class)) => Ok(Some(table.subtype(alloc, sub, class)?)),
        _ => Ok(None),
    }
}

#[test]
fn subtypes_are_reached_along_headings(rt: HostRuntime) -> Result<(), Fail> {
    let wants: [(&[u8], &[u8], Option<bool>); 11] = [
        (b"C", b"C", Some(true)),
        (b"C", b"B", Some(true)),
        (b"C", b"I", Some(true)),
        (b"G", b"I", Some(true)),
        (b"K", b"I", Some(true)),
        (b"K", b"Missing", Some(true)),
        (b"S", b"P", Some(true)),
        (b"B", b"C", Some(false)),
        (b"I", b"J", Some(false)),
        (b"C", b"J", Some(false)),
        (b"C", b"Other", None),
    ];
    let Ok(table) = table_of(rt.alloc(), CLASSES) else {
        assert!(rt; false, "no table");
        return Ok(());
    };
    for (sub, class, want) in wants {
        assert_eq!(rt; is_subtype(rt.alloc(), &table, sub, class)?, want);
    }
    Ok(())
}

// Whether a call of the signature on the class comes to the method of that signature, or to none.
fn comes_to(
    alloc: Global,
    table: &ClassTable,
    class: &[u8],
    call: &[u8],
    want: Option<&[u8]>,
) -> Result<bool, AllocError> {
    let (Some(class), Some(call)) = (class_of(alloc, table, class)?, read_sig(alloc, call)?) else {
        return Ok(false);
    };
    let found = table.resolve(alloc, class, &call)?;
    match want {
        None => Ok(found.is_none()),
        Some(want) => {
            let declared = method_of(alloc, table, want)?;
            Ok(declared.is_some() && found == declared)
        }
    }
}

#[test]
fn calls_come_to_the_first_method_that_may_be_called(rt: HostRuntime) -> Result<(), Fail> {
    let wants: [(&[u8], &[u8], Option<&[u8]>); 16] = [
        (b"C", b"<C: int v()>", Some(b"<B: int v()>")),
        (b"D", b"<B: int v()>", Some(b"<D: int v()>")),
        (b"C", b"<B: int u()>", None),
        (b"D", b"<B: int u()>", Some(b"<D: int u()>")),
        (b"D", b"<D: int v(int)>", None),
        (b"D", b"<D: long v()>", None),
        (b"E", b"<I: int v()>", Some(b"<J: int v()>")),
        (b"E", b"<E: int w()>", Some(b"<J: int w()>")),
        (b"G", b"<E: int w()>", None),
        (b"K", b"<K: int v()>", Some(b"<J: int v()>")),
        (b"I", b"<I: int v()>", None),
        (b"Missing", b"<Missing: int v()>", None),
        (b"S", b"<S: int x()>", Some(b"<P: int x()>")),
        (b"R", b"<P: int x()>", Some(b"<R: int x()>")),
        (b"T", b"<T: int x()>", Some(b"<U: int x()>")),
        (b"Y", b"<Y: int x()>", Some(b"<P: int x()>")),
    ];
    let Ok(table) = table_of(rt.alloc(), CLASSES) else {
        assert!(rt; false, "no table");
        return Ok(());
    };
    for (class, call, want) in wants {
        assert!(rt; comes_to(rt.alloc(), &table, class, call, want)?);
    }
    Ok(())
}

// The fault of the classes of a text.
fn fault_of(alloc: Global, text: &[u8]) -> Option<InputFault> {
    match table_of(alloc, text) {
        Err(Stop::Fault(fault)) => Some(fault),
        _ => None,
    }
}

#[test]
fn the_first_fault_of_classes_is_named(rt: HostRuntime) -> Result<(), Fail> {
    let doubles: [&[u8]; 2] = [
        b"class A { } class A { }",
        b"class A { } class B extends B { } class A { }",
    ];
    for text in doubles {
        let name = name_of(rt.alloc(), b"A")?;
        assert!(rt; fault_of(rt.alloc(), text) == Some(InputFault::DoubleClass { name }));
    }
    let cycles: [(&[u8], &[u8]); 3] = [
        (b"class A extends A { }", b"A"),
        (
            b"class A extends B { } class B extends C { } class C implements B { }",
            b"B",
        ),
        (
            b"interface I extends J { } interface J extends K, I { }",
            b"I",
        ),
    ];
    for (text, class) in cycles {
        let name = name_of(rt.alloc(), class)?;
        assert!(rt; fault_of(rt.alloc(), text) == Some(InputFault::Cycle { name }));
    }
    Ok(())
}
