// Texts with the signatures that they spell, texts that spell none, and lists with what they say of methods.
use clean_base::{InputFault, Name, Stop};
use jimple_tree::{JType, Sig};
use source_sink::{Kind, read_lists, read_sig};
use std::alloc::Global;
use std::test::Fail;

struct Row {
    text: &'static [u8],
    class: &'static [u8],
    result: (&'static [u8], u64),
    name: &'static [u8],
    params: &'static [(&'static [u8], u64)],
}

static SPELLED: [Row; 11] = [
    Row {
        text: b"<A: void m()>",
        class: b"A",
        result: (b"void", 0),
        name: b"m",
        params: &[],
    },
    Row {
        text: b"<S: int src()>",
        class: b"S",
        result: (b"int", 0),
        name: b"src",
        params: &[],
    },
    Row {
        text: b"<android.telephony.SmsManager: void sendTextMessage(java.lang.String,int[][])>",
        class: b"android.telephony.SmsManager",
        result: (b"void", 0),
        name: b"sendTextMessage",
        params: &[(b"java.lang.String", 0), (b"int", 2)],
    },
    Row {
        text: b"<A:  void m()>",
        class: b"A",
        result: (b"void", 0),
        name: b"m",
        params: &[],
    },
    Row {
        text: b"<A: void   m()>",
        class: b"A",
        result: (b"void", 0),
        name: b"m",
        params: &[],
    },
    Row {
        text: b"<A: int[] m(B,  C, D[])>",
        class: b"A",
        result: (b"int", 1),
        name: b"m",
        params: &[(b"B", 0), (b"C", 0), (b"D", 1)],
    },
    Row {
        text: b"<A: void <init>()>",
        class: b"A",
        result: (b"void", 0),
        name: b"<init>",
        params: &[],
    },
    Row {
        text: b"<A: void <clinit>()>",
        class: b"A",
        result: (b"void", 0),
        name: b"<clinit>",
        params: &[],
    },
    Row {
        text: b"<<init>: <init> m(<clinit>[])>",
        class: b"<init>",
        result: (b"<init>", 0),
        name: b"m",
        params: &[(b"<clinit>", 1)],
    },
    Row {
        text: b"<'a'.b: c' m(d$1)>",
        class: b"'a'.b",
        result: (b"c'", 0),
        name: b"m",
        params: &[(b"d$1", 0)],
    },
    Row {
        text: b"<\xc3\xa9: int m(int)>",
        class: b"\xc3\xa9",
        result: (b"int", 0),
        name: b"m",
        params: &[(b"int", 0)],
    },
];

static REFUSED: [&[u8]; 24] = [
    b"",
    b"<",
    b"A: void m()",
    b" <A: void m()>",
    b"<A: void m()> ",
    b"<A: void m()>>",
    b"<A:void m()>",
    b"<A:\tvoid m()>",
    b"<A: void\tm()>",
    b"<A : void m()>",
    b"<: void m()>",
    b"<A:  m()>",
    b"<A: void ()>",
    b"<A: void m>",
    b"<A: void m( )>",
    b"<A: void m(int ,int)>",
    b"<A: void m(int,)>",
    b"<A: void m(,int)>",
    b"<A: void m(int[)>",
    b"<A: void m(int[ ])>",
    b"<A: void m(int)",
    b"<A: void <m>()>",
    b"<A: void <init>x()>",
    b"<A: void m()\n>",
];

fn is_type(ty: &JType, told: &(&[u8], u64)) -> bool {
    ty.base.bytes() == told.0 && ty.dims == told.1
}

fn are_types(types: &[JType], told: &[(&[u8], u64)]) -> bool {
    types.len() == told.len() && types.iter().zip(told).all(|(ty, t)| is_type(ty, t))
}

fn is_told(sig: &Sig, row: &Row) -> bool {
    sig.class.bytes() == row.class
        && is_type(&sig.result, &row.result)
        && sig.name.bytes() == row.name
        && are_types(sig.params.as_slice(), row.params)
}

#[test]
fn signatures_of_texts(rt: HostRuntime) -> Result<(), Fail> {
    for row in &SPELLED {
        match read_sig(rt.alloc(), row.text)? {
            Some(sig) => assert!(rt; is_told(&sig, row), "{:?} {sig:?}", row.text),
            None => assert!(rt; false, "{:?}", row.text),
        }
    }
    Ok(())
}

#[test]
fn texts_without_a_signature(rt: HostRuntime) -> Result<(), Fail> {
    for text in &REFUSED {
        assert!(rt; read_sig(rt.alloc(), text)?.is_none(), "{text:?}");
    }
    Ok(())
}

struct Asked {
    list: &'static [u8],
    class: &'static [u8],
    sig: &'static [u8],
    source: bool,
    sink: bool,
}

const TWO: &[u8] = b"<S: int src()> -> _SOURCE_\n<S: void snk(int)> -> _SINK_\n";

const SUM: &[u8] =
    b"<S: int m()> -> _SOURCE_\n<S: int n()> -> _SINK_\n<S: int m(int,  int)> -> _SOURCE_\n<S: int m()> -> _SINK_\n";

const BRACKETS: &[u8] = b"<S: int[] m(int[][],  T)> -> _SINK_\n";

static KINDS: [Asked; 13] = [
    Asked {
        list: b"",
        class: b"S",
        sig: b"<S: int src()>",
        source: false,
        sink: false,
    },
    Asked {
        list: TWO,
        class: b"S",
        sig: b"<S: int src()>",
        source: true,
        sink: false,
    },
    Asked {
        list: TWO,
        class: b"S",
        sig: b"<S: void snk(int)>",
        source: false,
        sink: true,
    },
    Asked {
        list: TWO,
        class: b"S",
        sig: b"<T: int src()>",
        source: true,
        sink: false,
    },
    Asked {
        list: TWO,
        class: b"T",
        sig: b"<S: int src()>",
        source: false,
        sink: false,
    },
    Asked {
        list: TWO,
        class: b"S",
        sig: b"<S: long src()>",
        source: false,
        sink: false,
    },
    Asked {
        list: TWO,
        class: b"S",
        sig: b"<S: void snk(int[])>",
        source: false,
        sink: false,
    },
    Asked {
        list: TWO,
        class: b"S",
        sig: b"<S: void snk()>",
        source: false,
        sink: false,
    },
    Asked {
        list: SUM,
        class: b"S",
        sig: b"<S: int m()>",
        source: true,
        sink: true,
    },
    Asked {
        list: SUM,
        class: b"S",
        sig: b"<S: int m(int,int)>",
        source: true,
        sink: false,
    },
    Asked {
        list: SUM,
        class: b"S",
        sig: b"<S: int n()>",
        source: false,
        sink: true,
    },
    Asked {
        list: BRACKETS,
        class: b"S",
        sig: b"<S: int[] m(int[][],T)>",
        source: false,
        sink: true,
    },
    Asked {
        list: BRACKETS,
        class: b"S",
        sig: b"<S: int m(int[][],T)>",
        source: false,
        sink: false,
    },
];

const NOTHING: Kind = Kind {
    source: false,
    sink: false,
};

const SOURCE: Kind = Kind {
    source: true,
    sink: false,
};

const SINK: Kind = Kind {
    source: false,
    sink: true,
};

const BOTH: Kind = Kind {
    source: true,
    sink: true,
};

// Lists with what they say of `<S: int m()>`, or with their first line that isn't understood.
static LISTS: [(&[u8], Result<Kind, u64>); 39] = [
    (b"", Ok(NOTHING)),
    (b"\n", Ok(NOTHING)),
    (b"\n \t\r\n<S: int m()> -> _SINK_\n\n", Ok(SINK)),
    (b"<S: int m()> -> _SOURCE_\n\r\n", Ok(SOURCE)),
    (b"<S: int m()> -> _SOURCE_\n\r", Err(2)),
    (
        b"% <S: int m()> -> _SOURCE_\n<S: int m()> -> _SINK_\n",
        Ok(SINK),
    ),
    (b" \t% no entry ->\n", Ok(NOTHING)),
    (b"<S: int m()> -> _SOURCE_", Ok(SOURCE)),
    (
        b"<S: int m()> -> _SOURCE_\n<S: int m()> -> _SINK_",
        Ok(BOTH),
    ),
    (b"<S: int m()> -> _BOTH_\n", Ok(BOTH)),
    (
        b"<S: int m()> -> _SOURCE_\r\n<S: int m()> -> _SINK_\r\n",
        Ok(BOTH),
    ),
    (b"<S: int m()> -> _SOURCE_\r", Err(1)),
    (b"<S: int m()> -> _SOURCE_\r\r\n", Err(1)),
    (b"<S: int m()> -> _SOURCE_ \r\n", Ok(SOURCE)),
    (b"<S: int m()> -> _SOURCE_\r \n", Err(1)),
    (b"\t <S: int m()>\t -> \t_SOURCE_ \t\n", Ok(SOURCE)),
    (b"<S:  int   m()> -> _SOURCE_\n", Ok(SOURCE)),
    (b"<S:int m()> -> _SOURCE_\n", Err(1)),
    (b"<S: int m()> p.READ_SMS q -> _SOURCE_\n", Ok(SOURCE)),
    (b"<S: int m()> - > => _SOURCE_ % -> _SINK_\n", Ok(SINK)),
    (b"<S: int m()> p\rq -> _SOURCE_\n", Err(1)),
    (b"<S: int m()>\r -> _SOURCE_\n", Err(1)),
    (b"<S: int m()> -> -> _SOURCE_\n", Err(1)),
    (b"<S: int m()> p -> q -> _SOURCE_\n", Err(1)),
    (b"<S: int m()> => _SOURCE_\n", Err(1)),
    (b"<S: int m()> _SOURCE_\n", Err(1)),
    (b"<S: int m()> ->\n", Err(1)),
    (b"<S: int m()>\n", Err(1)),
    (b"-> _SOURCE_\n", Err(1)),
    (b"<S: int m()> -> _SOURCE_ p\n", Err(1)),
    (b"<S: int m()> -> _SOURCE_ _SINK_\n", Err(1)),
    (b"<S: int m()> -> _source_\n", Err(1)),
    (b"<S: int m()> -> _SOURCE\n", Err(1)),
    (b"<S: int m()>-> _SOURCE_\n", Err(1)),
    (b"<S: int m()> ->_SOURCE_\n", Err(1)),
    (b"<S: int m()>p -> _SOURCE_\n", Err(1)),
    (b"<S: int m()> -> _SOURCE_ % no comment\n", Err(1)),
    (b"<S: int m()> -> _SOURCE_\nx\ny\n", Err(2)),
    (
        b"% a\n\n<S: int m()> -> _SOURCE_\n<S: int m(> -> _SINK_\n",
        Err(4),
    ),
];

#[test]
fn kinds_of_methods(rt: HostRuntime) -> Result<(), Fail> {
    for asked in &KINDS {
        let lists = read_lists(rt.alloc(), asked.list, 0)?;
        let class = Name::from_vec(Vec::from_slice(rt.alloc(), asked.class)?);
        match read_sig(rt.alloc(), asked.sig)? {
            Some(sig) => {
                let told = Kind {
                    source: asked.source,
                    sink: asked.sink,
                };
                assert_eq!(rt; lists.kind(&class, &sig), told, "{:?} {sig:?}", asked.list);
            }
            None => assert!(rt; false, "{:?}", asked.sig),
        }
    }
    Ok(())
}

fn kind_in(alloc: Global, list: &[u8], class: &Name, sig: &Sig) -> Result<Kind, Stop> {
    let lists = read_lists(alloc, list, 3)?;
    Ok(lists.kind(class, sig))
}

fn is_told_of(found: &Result<Kind, Stop>, told: &Result<Kind, u64>) -> bool {
    match told {
        Ok(kind) => *found == Ok(*kind),
        Err(line) => {
            *found
                == Err(Stop::Fault(InputFault::BadLine {
                    file: 3,
                    line: *line,
                }))
        }
    }
}

#[test]
fn forms_of_lists(rt: HostRuntime) -> Result<(), Fail> {
    let class = Name::from_vec(Vec::from_slice(rt.alloc(), b"S")?);
    match read_sig(rt.alloc(), b"<S: int m()>")? {
        Some(sig) => {
            for (list, told) in &LISTS {
                let found = kind_in(rt.alloc(), list, &class, &sig);
                assert!(rt; is_told_of(&found, told), "{list:?} {found:?}");
            }
        }
        None => assert!(rt; false, "no signature"),
    }
    Ok(())
}
