ghost use Rattle.std.specs.Prelude.{◌≡◌, length, IfOk};

use cj_io::{
    Bytes, CalmFolder, CalmShelf, Failed, FileBytes, Folder, FolderError, MemFolder, MemShelf,
    Name, PutError, ReadError, Shelf, read_whole,
};
use std::alloc::{AllocError, Global};
use std::panic::Expect;

fn one_file(alloc: Global, bytes: Bytes) -> Result<Vec<FileBytes>, AllocError>
    ensures { IfOk result (λ files. length files.items ≡ 1) }
{
    let name = Name::copy_of(alloc, b"a.oem")?;
    let mut files = Vec::new(alloc);
    files.push(FileBytes { name, bytes })?;
    Ok(files)
}

#[test]
fn a_file_is_read_up_to_its_limit(rt: HostRuntime) {
    let alloc = rt.alloc();
    let mut folder = CalmFolder::new(one_file(
        alloc,
        Bytes::copy_of(alloc, b"abcd").expect(&rt, "no fault"),
    )
    .expect(&rt, "no fault"));
    let names = folder.names(alloc).expect(&rt, "no fault");
    assert_eq!(rt; names.len(), 1);
    assert_eq!(rt; names[0].as_slice(), b"a.oem".as_slice());
    assert_eq!(rt;
        read_whole(alloc, &mut folder, 0, 4)
            .expect(&rt, "no fault")
            .as_slice(),
        b"abcd".as_slice()
    );
    assert_eq!(rt;
        read_whole(alloc, &mut folder, 0, 3),
        Err(ReadError::TooLarge)
    );
}

#[test]
fn a_long_file_is_read_in_parts(rt: HostRuntime) {
    let alloc = rt.alloc();
    let long = vec![in alloc; 7u8; 200_000].expect(&rt, "no fault");
    let mut folder = MemFolder::new(
        one_file(alloc, Bytes::copy_of(alloc, &long).expect(&rt, "no fault")).expect(
            &rt, "no fault",
        ),
        Vec::new(alloc),
    );
    assert_eq!(rt;
        read_whole(alloc, &mut folder, 0, 200_000)
            .expect(&rt, "no fault")
            .as_slice(),
        long.as_slice()
    );
    assert!(rt; folder.calls() > 2);
    assert_eq!(rt;
        read_whole(alloc, &mut folder, 0, 199_999),
        Err(ReadError::TooLarge)
    );
}

#[test]
fn a_folder_fails_at_its_listed_call(rt: HostRuntime) {
    let alloc = rt.alloc();
    let mut folder = MemFolder::new(
        one_file(
            alloc,
            Bytes::copy_of(alloc, b"abcd").expect(&rt, "no fault"),
        )
        .expect(&rt, "no fault"),
        vec![in alloc; 2u64, 5].expect(&rt, "no fault"),
    );
    assert_eq!(rt; folder.names(alloc).expect(&rt, "no fault").len(), 1);
    assert_eq!(rt;
        read_whole(alloc, &mut folder, 0, 4),
        Err(ReadError::Failed)
    );
    assert_eq!(rt; folder.calls(), 2);
    let mut buf = [0u8; 3];
    assert_eq!(rt; folder.read(0, 1, &mut buf), Ok(3));
    assert_eq!(rt; buf, [b'b', b'c', b'd']);
    assert_eq!(rt; folder.read(0, 4, &mut buf), Ok(0));
    assert_eq!(rt; folder.names(alloc).err(), Some(FolderError::Failed));
}

#[test]
fn a_shelf_fails_at_its_listed_call(rt: HostRuntime) {
    let alloc = rt.alloc();
    let mut shelf = MemShelf::new(alloc, vec![in alloc; 2u64].expect(&rt, "no fault"));
    shelf.put(alloc, b"a", b"first").expect(&rt, "no fault");
    assert_eq!(rt; shelf.put(alloc, b"b", b"second"), Err(PutError::Failed));
    shelf.put(alloc, b"c", b"third").expect(&rt, "no fault");
    let written = shelf.written();
    assert_eq!(rt; written.len(), 2);
    assert_eq!(rt; written[1].name.as_slice(), b"c".as_slice());
    assert_eq!(rt; written[1].bytes.as_slice(), b"third".as_slice());
}

#[test]
fn a_calm_shelf_keeps_its_outputs(rt: HostRuntime) {
    let alloc = rt.alloc();
    let mut shelf = CalmShelf::new(alloc);
    shelf
        .put(alloc, b"screen.report", b"text")
        .expect(&rt, "no fault");
    let output = FileBytes {
        name: Name::new(b"screen.report".to_vec(alloc).expect(&rt, "no fault")),
        bytes: Bytes::new(b"text".to_vec(alloc).expect(&rt, "no fault")),
    };
    assert_eq!(rt; shelf.written().len(), 1);
    assert!(rt; shelf.written()[0] == output);
    assert_eq!(rt; output.name.into_vec().len(), 13);
    assert_eq!(rt; output.bytes.into_vec().len(), 4);
}

#[test]
fn names_are_ordered_by_their_bytes(rt: HostRuntime) {
    let alloc = rt.alloc();
    let capital = Name::copy_of(alloc, b"B.oem").expect(&rt, "no fault");
    let short = Name::copy_of(alloc, b"a").expect(&rt, "no fault");
    let long = Name::copy_of(alloc, b"a.oem").expect(&rt, "no fault");
    assert!(rt; capital < short);
    assert!(rt; short < long);
    assert!(rt; long == Name::copy_of(alloc, b"a.oem").expect(&rt, "no fault"));
}
