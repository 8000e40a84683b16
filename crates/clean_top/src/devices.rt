// The real shelf and the real sinks, whose contents no clause tells.
use clean_base::{StdShelf, StdSink, put_all, read_all};
use std::fs;
use std::test::Fail;

#[test]
fn a_real_file(rt: HostRuntime) -> Result<(), Fail> {
    let name = "real-shelf.txt";
    fs::write(&rt, name, "some bytes")?;
    let mut shelf = StdShelf::new(&rt);
    let read = read_all(rt.alloc(), &mut shelf, name, 10);
    let long = read_all(rt.alloc(), &mut shelf, name, 9);
    fs::remove_file(&rt, name)?;
    let missing = read_all(rt.alloc(), &mut shelf, name, 10);
    assert_eq!(rt; read?.as_slice(), b"some bytes".as_slice());
    assert!(rt; long.is_err());
    assert!(rt; missing.is_err());
    Ok(())
}

#[test]
fn real_streams(rt: HostRuntime) {
    let mut out = StdSink::output(rt.stdout());
    let mut err = StdSink::error(rt.stderr());
    assert!(rt; put_all(&mut out, b"written to the output\n").is_ok());
    assert!(rt; put_all(&mut err, b"written to the error output\n").is_ok());
}
