ghost use Rattle.std.specs.Prelude.{[], ◌∷◌, if◌then◌else◌};

use crate::telling::is_told;
use cj_host::{DirFolder, DirShelf};
use cj_io::{Folder, FolderError, MemSource, PartSource, PutError, Shelf, StreamShelf, read_whole};
use std::alloc::{AllocError, Global};
use std::fs;
use std::panic::Expect;
use std::thread::Threads;

#[test]
fn files_of_a_directory_are_read(rt: HostRuntime) {
    let alloc = rt.alloc();
    fs::create_dir(&rt, "read_here").expect(&rt, "no fault");
    fs::create_dir(&rt, "read_here/within").expect(&rt, "no fault");
    fs::write(&rt, "read_here/a.oem", "abcd").expect(&rt, "no fault");
    let mut folder = DirFolder::new(&rt, "read_here");
    let names = folder.names(alloc).expect(&rt, "no fault");
    assert_eq!(rt; names.len(), 1);
    assert_eq!(rt; names[0].as_slice(), b"a.oem".as_slice());
    assert_eq!(rt;
        read_whole(alloc, &mut folder, 0, 4)
            .expect(&rt, "no fault")
            .as_slice(),
        b"abcd".as_slice()
    );
    fs::remove_dir_all(&rt, "read_here").expect(&rt, "no fault");
    assert_eq!(rt; folder.names(alloc).err(), Some(FolderError::Failed));
    assert!(rt;
        is_told(
            alloc,
            folder.last_fault(),
            b"conj: read_here: No such file or directory (os error 2)\n"
        )
    );
}

#[test]
fn outputs_are_written_to_a_directory(rt: HostRuntime) {
    let alloc = rt.alloc();
    fs::create_dir(&rt, "written_here").expect(&rt, "no fault");
    fs::write(
        &rt,
        "written_here/screen.report",
        "an older and longer text",
    )
    .expect(&rt, "no fault");
    let mut shelf = DirShelf::new(&rt, &rt, "written_here");
    shelf
        .put(alloc, b"screen.report", b"text")
        .expect(&rt, "no fault");
    assert_eq!(rt;
        fs::read_to_string(&rt, "written_here/screen.report")
            .expect(&rt, "no fault")
            .as_str(),
        "text"
    );
    fs::remove_dir_all(&rt, "written_here").expect(&rt, "no fault");
    assert_eq!(rt;
        shelf.put(alloc, b"screen.report", b"text"),
        Err(PutError::Failed)
    );
    assert!(rt;
        is_told(
            alloc,
            shelf.last_fault(),
            b"conj: written_here/.screen.report.part: No such file or directory (os error 2)\n"
        )
    );
}

#[test]
fn an_output_that_cannot_take_its_name_leaves_nothing(rt: HostRuntime) {
    let alloc = rt.alloc();
    fs::create_dir(&rt, "taken_here").expect(&rt, "no fault");
    fs::create_dir(&rt, "taken_here/screen.report").expect(&rt, "no fault");
    let mut shelf = DirShelf::new(&rt, &rt, "taken_here");
    assert_eq!(rt;
        shelf.put(alloc, b"screen.report", b"text"),
        Err(PutError::Failed)
    );
    assert!(rt;
        is_told(
            alloc,
            shelf.last_fault(),
            b"conj: taken_here/screen.report: Is a directory (os error 21)\n"
        )
    );
    assert_eq!(rt;
        fs::exists(&rt, "taken_here/.screen.report.part").expect(&rt, "no fault"),
        false
    );
    fs::remove_dir_all(&rt, "taken_here").expect(&rt, "no fault");
}

#[test]
fn an_output_is_written_while_it_is_made(rt: HostRuntime) {
    let alloc = rt.alloc();
    fs::create_dir(&rt, "made_here").expect(&rt, "no fault");
    let mut shelf = DirShelf::new(&rt, &rt, "made_here");
    shelf
        .put_made(
            &rt,
            alloc,
            b"screen.cert",
            &mut MemSource::new(b"abcdefghi", 2),
        )
        .expect(&rt, "no fault");
    shelf
        .put_made(&rt, alloc, b"empty", &mut MemSource::new(b"", 2))
        .expect(&rt, "no fault");
    assert_eq!(rt;
        fs::read_to_string(&rt, "made_here/screen.cert")
            .expect(&rt, "no fault")
            .as_str(),
        "abcdefghi"
    );
    assert_eq!(rt;
        fs::read_to_string(&rt, "made_here/empty")
            .expect(&rt, "no fault")
            .as_str(),
        ""
    );
    assert_eq!(rt;
        fs::exists(&rt, "made_here/.screen.cert.part").expect(&rt, "no fault"),
        false
    );
    fs::remove_dir_all(&rt, "made_here").expect(&rt, "no fault");
    assert_eq!(rt;
        shelf.put_made(&rt, alloc, b"screen.cert", &mut MemSource::new(b"abc", 2)),
        Err(PutError::Failed)
    );
    assert!(rt;
        is_told(
            alloc,
            shelf.last_fault(),
            b"conj: made_here/.screen.cert.part: No such file or directory (os error 2)\n"
        )
    );
}

/// A source of one part, and behind it no memory.
#[derive(Drop)]
struct Starved {
    made: bool,
}

impl PartSource for Starved {
    ghost rest = { λ s. if s.made then [] else 120 ∷ [] };

    ghost left = { λ s. if s.made then 0 else 1 };

    fn next_parts<R: Threads + Sync>(
        &mut self,
        _rt: &R,
        alloc: Global,
    ) -> Result<Vec<Vec<u8>>, AllocError> {
        if self.made {
            return Err(AllocError);
        }
        let mut parts = Vec::new(alloc);
        parts.push(Vec::from_slice(alloc, b"x")?)?;
        self.made = true;
        Ok(parts)
    }

    fn is_shared(&self) -> bool {
        true
    }
}

#[test]
fn an_output_that_wants_memory_while_it_is_made_leaves_nothing(rt: HostRuntime) {
    let alloc = rt.alloc();
    fs::create_dir(&rt, "starved_here").expect(&rt, "no fault");
    fs::write(&rt, "starved_here/screen.cert", "older").expect(&rt, "no fault");
    let mut shelf = DirShelf::new(&rt, &rt, "starved_here");
    assert_eq!(rt;
        shelf.put_made(&rt, alloc, b"screen.cert", &mut Starved { made: false }),
        Err(PutError::Memory)
    );
    assert!(rt; shelf.last_fault().is_none());
    assert_eq!(rt;
        fs::read_to_string(&rt, "starved_here/screen.cert")
            .expect(&rt, "no fault")
            .as_str(),
        "older"
    );
    assert_eq!(rt;
        fs::exists(&rt, "starved_here/.screen.cert.part").expect(&rt, "no fault"),
        false
    );
    fs::remove_dir_all(&rt, "starved_here").expect(&rt, "no fault");
}

#[test]
fn a_fault_is_told_before_a_later_want_of_memory(rt: HostRuntime) {
    let alloc = rt.alloc();
    let mut shelf = DirShelf::new(&rt, &rt, "nowhere_here");
    assert_eq!(rt;
        shelf.put_made(&rt, alloc, b"screen.cert", &mut Starved { made: false }),
        Err(PutError::Failed)
    );
    assert!(rt;
        is_told(
            alloc,
            shelf.last_fault(),
            b"conj: nowhere_here/.screen.cert.part: No such file or directory (os error 2)\n"
        )
    );
}
