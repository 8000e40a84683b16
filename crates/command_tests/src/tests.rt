// Lines of words, and what they ask for. In a row's text bars stand between the words.
use clean_base::{Seq, Word};
use command_line::{Input, Root, read_check, read_graph, read_main, read_replay, read_serial};
use std::alloc::{AllocError, Global};
use std::test::Fail;

const MOST: u64 = 18_446_744_073_709_551_614;

// Words of `check`, and its files.
static CHECKS: [(&str, &str); 8] = [
    ("check|A", "A"),
    ("check|A|B|A", "A|B|A"),
    ("check|check|help", "check|help"),
    ("check|--|A", "A"),
    ("check|A|--|B", "A|B"),
    ("check|A|B|--|-C|--|--k=1", "A|B|-C|--|--k=1"),
    ("check|é|a=b|a b", "é|a=b|a b"),
    ("check|a-|.-", "a-|.-"),
];

// Words of `main`, and its list.
static MAINS: [(&str, &str); 5] = [
    ("main|--components|C", "C"),
    ("main|--components=C", "C"),
    ("main|--components=-c", "-c"),
    ("main|--components=a=b", "a=b"),
    ("main|--components|C|--", "C"),
];

// Words of `graph`: the method's name or the list of components, the list, and the files.
static GRAPHS: [(&str, &str, &str, &str); 4] = [
    ("graph|--entry|<A: void m()>|--lists|L|A", "m", "L", "A"),
    (
        "graph|A|--lists=-L|B|--entry=<A: void n(int)>|C",
        "n",
        "-L",
        "A|B|C",
    ),
    ("graph|--components|C|--lists|L|A|B", "C", "L", "A|B"),
    ("graph|--components=C|--lists|L|--|-A", "C", "L", "-A"),
];

// Words of `serial`: the same, and its three numbers.
static SERIALS: [(&str, &str, &str, (u8, u64, u64)); 8] = [
    (
        "serial|--entry|<A: void m()>|--lists|L|A",
        "m",
        "A",
        (5, 256, MOST),
    ),
    (
        "serial|A|--lists|L|--entry|<A: void m()>",
        "m",
        "A",
        (5, 256, MOST),
    ),
    (
        "serial|--lists|L|A|--entry|<A: void m()>|B",
        "m",
        "A|B",
        (5, 256, MOST),
    ),
    (
        "serial|--entry|<A: void m()>|--lists=L|--|A",
        "m",
        "A",
        (5, 256, MOST),
    ),
    (
        "serial|--components|C|--lists|L|A",
        "C",
        "A",
        (5, 256, MOST),
    ),
    (
        "serial|--components|C|--lists|L|A|--k|1|--period|1|--max-edges|1",
        "C",
        "A",
        (1, 1, 1),
    ),
    (
        "serial|--components|C|--lists|L|--k=08|--period=1000000|--max-edges=18446744073709551614|A",
        "C",
        "A",
        (8, 1_000_000, MOST),
    ),
    (
        "serial|--components|C|--lists|L|--max-edges=00000000000000000007|A",
        "C",
        "A",
        (5, 256, 7),
    ),
];

// Words of `replay`: the root, the schedule, the files, the number of workers, and the three numbers.
static REPLAYS: [(&str, &str, &str, &str, u32, (u8, u64, u64)); 4] = [
    (
        "replay|--entry|<A: void m()>|--lists|L|--schedule|S|A",
        "m",
        "S",
        "A",
        1,
        (5, 256, MOST),
    ),
    (
        "replay|A|--schedule=-s|--components|C|--workers|64|--lists|L|B",
        "C",
        "-s",
        "A|B",
        64,
        (5, 256, MOST),
    ),
    (
        "replay|--components|C|--lists|L|--schedule|S|--workers=02|--k|1|--period=2|--max-edges|3|A",
        "C",
        "S",
        "A",
        2,
        (1, 2, 3),
    ),
    (
        "replay|--components|C|--lists=L|--schedule|L|--|A|--workers",
        "C",
        "L",
        "A|--workers",
        1,
        (5, 256, MOST),
    ),
];

// Words of no command.
static REFUSED: [&str; 61] = [
    "",
    "check",
    "check|--",
    "check|",
    "check|A|",
    "check|-",
    "check|A|--|-",
    "check|A|--|",
    "check|-A",
    "check|-é",
    "check|A|--help",
    "check|A|-h",
    "check|A|--version",
    "check|A|-V",
    "check|A|--=A",
    "check|A|--k|1",
    "A|check",
    "--|check|A",
    "checks|A",
    "main",
    "main|--components",
    "main|--components=",
    "main|--components=-",
    "main|--components|-c",
    "main|--components|--|C",
    "main|--components|C|A",
    "main|--components|C|--|A",
    "main|--components|C|--components|C",
    "main|--component|C",
    "graph|--entry|<A: void m()>|A",
    "graph|--lists|L|A",
    "graph|--entry|<A: void m()>|--lists|L",
    "graph|--entry|<A: void m()>|--components|C|--lists|L|A",
    "graph|--entry|<A: void m()> |--lists|L|A",
    "graph|--entry|m|--lists|L|A",
    "graph|--entry|<A: void m()>|--lists|L|--k|1|A",
    "serial",
    "serial|--entry|<A: void m()>|--components|C|--lists|L|A",
    "serial|--components|C|--lists|L|--lists|L|A",
    "serial|--components|C|--lists|L|--lists=L|A",
    "serial|--components|C|--lists|L|--k|9|A",
    "serial|--components|C|--lists|L|--k|0|A",
    "serial|--components|C|--lists|L|--k|+1|A",
    "serial|--components|C|--lists|L|--k=-1|A",
    "serial|--components|C|--lists|L|--k=1 |A",
    "serial|--components|C|--lists|L|--k=0x1|A",
    "serial|--components|C|--lists|L|--period|0|A",
    "serial|--components|C|--lists|L|--period|1000001|A",
    "serial|--components|C|--lists|L|--max-edges|0|A",
    "serial|--components|C|--lists|L|--max-edges|18446744073709551615|A",
    "serial|--components|C|--lists|L|--max-edges|000000000000000000001|A",
    "serial|--components|C|--lists|L|--workers|1|A",
    "serial|--components|C|--lists|L|--|A|--k|1|",
    "serial|--components|C|--lists|L|--schedule|S|A",
    "replay|--components|C|--lists|L|A",
    "replay|--components|C|--schedule|S|A",
    "replay|--components|C|--lists|L|--schedule|S",
    "replay|--components|C|--lists|L|--schedule|S|--workers|0|A",
    "replay|--components|C|--lists|L|--schedule|S|--workers|65|A",
    "replay|--components|C|--lists|L|--schedule|S|--schedule|S|A",
    "replay|--components|C|--lists|L|--schedule|-|A",
];

fn words_of(alloc: Global, row: &str) -> Result<Vec<Word>, AllocError> {
    let mut words = Vec::new(alloc);
    for text in row.split("|") {
        words.push(Word::new(String::from_str(alloc, text)?))?;
    }
    Ok(words)
}

// Whether the files are those of the text.
fn are_files(files: &Seq<Word>, text: &str) -> bool {
    let mut left = files.as_slice();
    for name in text.split("|") {
        let [first, rest @ ..] = left else {
            return false;
        };
        if first.as_str() != name {
            return false;
        }
        left = rest;
    }
    left.is_empty()
}

// Whether the root is the method of that name, or the list of components.
fn is_root(root: &Root, text: &str) -> bool {
    match root {
        Root::Entry(sig) => sig.name.bytes() == text.as_bytes(),
        Root::Components(file) => file.as_str() == text,
    }
}

fn is_input(input: &Input, root: &str, lists: &str, files: &str) -> bool {
    is_root(&input.root, root) && input.lists.as_str() == lists && are_files(&input.classes, files)
}

fn checks(alloc: Global, row: (&str, &str)) -> Result<bool, AllocError> {
    let words = words_of(alloc, row.0)?;
    Ok(match read_check(alloc, words.as_slice())? {
        Some(files) => are_files(&files, row.1),
        None => false,
    })
}

fn mains(alloc: Global, row: (&str, &str)) -> Result<bool, AllocError> {
    let words = words_of(alloc, row.0)?;
    Ok(match read_main(alloc, words.as_slice())? {
        Some(components) => components.as_str() == row.1,
        None => false,
    })
}

fn graphs(alloc: Global, row: (&str, &str, &str, &str)) -> Result<bool, AllocError> {
    let words = words_of(alloc, row.0)?;
    Ok(match read_graph(alloc, words.as_slice())? {
        Some(input) => is_input(&input, row.1, row.2, row.3),
        None => false,
    })
}

fn serials(alloc: Global, row: (&str, &str, &str, (u8, u64, u64))) -> Result<bool, AllocError> {
    let words = words_of(alloc, row.0)?;
    Ok(match read_serial(alloc, words.as_slice())? {
        Some(serial) => {
            let tuning = serial.tuning;
            is_input(&serial.input, row.1, "L", row.2)
                && (tuning.k, tuning.period, tuning.max_edges) == row.3
        }
        None => false,
    })
}

fn replays(
    alloc: Global,
    row: (&str, &str, &str, &str, u32, (u8, u64, u64)),
) -> Result<bool, AllocError> {
    let words = words_of(alloc, row.0)?;
    Ok(match read_replay(alloc, words.as_slice())? {
        Some(replay) => {
            let tuning = replay.tuning;
            is_input(&replay.input, row.1, "L", row.3)
                && replay.schedule.as_str() == row.2
                && replay.workers == row.4
                && (tuning.k, tuning.period, tuning.max_edges) == row.5
        }
        None => false,
    })
}

fn are_refused(alloc: Global, row: &str) -> Result<bool, AllocError> {
    let words = words_of(alloc, row)?;
    let words = words.as_slice();
    Ok(
        read_check(alloc, words)?.is_none()
            && read_main(alloc, words)?.is_none()
            && read_graph(alloc, words)?.is_none()
            && read_serial(alloc, words)?.is_none()
            && read_replay(alloc, words)?.is_none(),
    )
}

// `check` with so many files.
fn takes_files(alloc: Global, count: usize) -> Result<bool, AllocError> {
    let mut words = words_of(alloc, "check")?;
    for _file in 0..count {
        words.push(Word::new(String::from_str(alloc, "A")?))?;
    }
    Ok(read_check(alloc, words.as_slice())?.is_some())
}

#[test]
fn lines_of_words(rt: HostRuntime) {
    let alloc = rt.alloc();
    for row in &CHECKS {
        assert!(rt; checks(alloc, *row).expect(&rt, "memory"), "{}", row.0);
    }
    for row in &MAINS {
        assert!(rt; mains(alloc, *row).expect(&rt, "memory"), "{}", row.0);
    }
    for row in &GRAPHS {
        assert!(rt; graphs(alloc, *row).expect(&rt, "memory"), "{}", row.0);
    }
    for row in &SERIALS {
        assert!(rt; serials(alloc, *row).expect(&rt, "memory"), "{}", row.0);
    }
    for row in &REPLAYS {
        assert!(rt; replays(alloc, *row).expect(&rt, "memory"), "{}", row.0);
    }
    for row in &REFUSED {
        assert!(rt; are_refused(alloc, *row).expect(&rt, "memory"), "{}", *row);
    }
    assert!(rt; takes_files(alloc, 4096).expect(&rt, "memory"));
    assert!(rt; !takes_files(alloc, 4097).expect(&rt, "memory"));
}
