use cj_threads::{Nobody, map_parts};
use std::alloc::{AllocError, Global};
use std::panic::Expect;

/// A copy of some elements.
fn copy_of(alloc: Global, part: &[u64]) -> Result<Vec<u64>, AllocError> {
    let mut copy = Vec::with_capacity(alloc, part.len())?;
    copy.extend_from_slice(part)?;
    Ok(copy)
}

#[test]
fn parts_come_in_order_whoever_takes_them(rt: HostRuntime) {
    let alloc = rt.alloc();
    let mut list = Vec::new(alloc);
    for element in 0..1000 {
        list.push(element).expect(&rt, "no fault");
    }
    for size in [1usize, 7, 999, 1000, 2000] {
        for workers in [0usize, 1, 2, 4, 16] {
            let copies = map_parts(
                &rt,
                alloc,
                &list,
                size.max(1),
                workers,
                &Nobody,
                &|part| copy_of(alloc, part),
            )
            .expect(&rt, "no fault");
            let mut all = Vec::new(alloc);
            for copy in &copies {
                all.extend_from_slice(copy).expect(&rt, "no fault");
            }
            assert!(rt; all.as_slice() == list.as_slice());
        }
    }
}
