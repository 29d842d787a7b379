use cj_io::{
    CalmShelf, MemShelf, MemSource, PartSource, PutError, StreamShelf, all_parts, join_parts,
};
use std::alloc::Global;
use std::panic::Expect;
use std::thread::Threads;

/// Bytes that are put in parts of so many.
fn put<R: Threads + Sync, S: StreamShelf>(
    rt: &R,
    alloc: Global,
    shelf: &mut S,
    name: &[u8],
    bytes: &[u8],
    part: usize,
) -> Result<(), PutError> {
    shelf.put_made(rt, alloc, name, &mut MemSource::new(bytes, part))
}

#[test]
fn parts_come_two_at_a_time(rt: HostRuntime) {
    let alloc = rt.alloc();
    let mut source = MemSource::new(b"abcdefg", 3);
    let first = source.next_parts(&rt, alloc).expect(&rt, "no fault");
    assert_eq!(rt; first.len(), 2);
    assert_eq!(rt; first[0].as_slice(), b"abc".as_slice());
    assert_eq!(rt; first[1].as_slice(), b"def".as_slice());
    let last = source.next_parts(&rt, alloc).expect(&rt, "no fault");
    assert_eq!(rt;
        join_parts(alloc, &last).expect(&rt, "no fault").as_slice(),
        b"g".as_slice()
    );
    assert_eq!(rt;
        source.next_parts(&rt, alloc).expect(&rt, "no fault").len(),
        0
    );
}

#[test]
fn all_parts_are_what_is_left(rt: HostRuntime) {
    let alloc = rt.alloc();
    let mut source = MemSource::new(b"abcdefg", 1);
    let first = source.next_parts(&rt, alloc).expect(&rt, "no fault");
    assert_eq!(rt;
        join_parts(alloc, &first).expect(&rt, "no fault").as_slice(),
        b"ab".as_slice()
    );
    let rest = all_parts(&rt, alloc, &mut source).expect(&rt, "no fault");
    assert_eq!(rt; rest.len(), 6);
    assert_eq!(rt;
        join_parts(alloc, &rest).expect(&rt, "no fault").as_slice(),
        b"cdefg".as_slice()
    );
    assert_eq!(rt;
        all_parts(&rt, alloc, &mut source)
            .expect(&rt, "no fault")
            .len(),
        0
    );
}

#[test]
fn outputs_are_put_whole(rt: HostRuntime) {
    let alloc = rt.alloc();
    let mut shelf = CalmShelf::new(alloc);
    put(&rt, alloc, &mut shelf, b"long", b"abcdefg", 2).expect(&rt, "no fault");
    put(&rt, alloc, &mut shelf, b"empty", b"", 2).expect(&rt, "no fault");
    let written = shelf.written();
    assert_eq!(rt; written.len(), 2);
    assert_eq!(rt; written[0].name.as_slice(), b"long".as_slice());
    assert_eq!(rt; written[0].bytes.as_slice(), b"abcdefg".as_slice());
    assert_eq!(rt; written[1].name.as_slice(), b"empty".as_slice());
    assert_eq!(rt; written[1].bytes.as_slice(), b"".as_slice());
}

#[test]
fn a_put_that_fails_leaves_the_outputs_before_it(rt: HostRuntime) {
    let alloc = rt.alloc();
    let mut shelf = MemShelf::new(alloc, vec![in alloc; 2u64].expect(&rt, "no fault"));
    put(&rt, alloc, &mut shelf, b"a", b"first", 4).expect(&rt, "no fault");
    assert_eq!(rt;
        put(&rt, alloc, &mut shelf, b"b", b"second", 4),
        Err(PutError::Failed)
    );
    put(&rt, alloc, &mut shelf, b"c", b"third", 1).expect(&rt, "no fault");
    let written = shelf.written();
    assert_eq!(rt; written.len(), 2);
    assert_eq!(rt; written[0].bytes.as_slice(), b"first".as_slice());
    assert_eq!(rt; written[1].name.as_slice(), b"c".as_slice());
    assert_eq!(rt; written[1].bytes.as_slice(), b"third".as_slice());
}
