//! Sources and sinks in memory, and the loop that gives a whole text.
use dk_store::{MemSink, MemSource, Source, give_all};
use std::test::Fail;

#[test]
fn a_failing_call_leaves_the_bytes(rt: HostRuntime) -> Result<(), Fail> {
    let alloc = rt.alloc();
    let mut input = MemSource::new(b"abcde".to_vec(alloc)?, vec![in alloc; 2]?);
    let mut buf = [0; 3];
    for (want, left) in [
        (Some(3), b"abc"),
        (None, b"abc"),
        (Some(2), b"dec"),
        (Some(0), b"dec"),
    ] {
        assert_eq!(rt; input.take(&mut buf).ok(), want);
        assert_eq!(rt; &buf, left);
    }
    let mut out = MemSink::new(alloc, vec![in alloc; 2]?);
    for (text, is_given) in [("one", true), ("two", false), ("three", true)] {
        assert_eq!(rt; give_all(&mut out, text.as_bytes()).is_ok(), is_given);
    }
    assert_eq!(rt; out.taken(), b"onethree".as_slice());
    Ok(())
}
