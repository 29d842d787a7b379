use cj_threads::{Nobody, Told, map_dealt, map_parts};
use std::alloc::AllocError;
use std::panic::Expect;
use std::sync::atomic::{AtomicUsize, Ordering};

/// Counts the numbers of which it is told.
#[derive(Drop)]
struct Counting {
    numbers: AtomicUsize,
}

impl Told for Counting {
    fn done(&self, _number: usize) {
        self.numbers.fetch_add(1, Ordering::Relaxed);
    }
}

#[test]
fn outputs_come_in_order_and_each_number_is_told_once(rt: HostRuntime) {
    let alloc = rt.alloc();
    for count in [0usize, 1, 2, 7, 1000] {
        for workers in [0usize, 1, 2, 4, 16] {
            let counting = Counting {
                numbers: AtomicUsize::new(0),
            };
            let outputs = map_dealt(
                &rt,
                alloc,
                count,
                workers,
                &counting,
                &|number| number / 3,
            ).expect(&rt, "no fault");
            assert!(rt; outputs.len() == count);
            for number in 0..count {
                assert!(rt; outputs[number] == number / 3);
            }
            assert!(rt; counting.numbers.load(Ordering::Relaxed) == count);
        }
    }
}

/// The first element of a part and how many it has; memory is wanting where the part begins with a given element.
fn look_at(part: &[u64], wanting: u64) -> Result<(u64, usize), AllocError> {
    let first = part.first().copied().unwrap_or(0);
    if first == wanting {
        return Err(AllocError);
    }
    Ok((first, part.len()))
}

#[test]
fn parts_of_a_list_come_in_order_and_the_last_may_have_fewer(rt: HostRuntime) {
    let alloc = rt.alloc();
    let list = [11u64, 12, 13, 14, 15, 16, 17];
    for workers in [1usize, 2, 16] {
        let parts = map_parts(
            &rt,
            alloc,
            &list,
            3,
            workers,
            &Nobody,
            &|part| look_at(part, 99),
        )
        .expect(&rt, "no fault");
        assert!(rt; parts.as_slice() == [(11, 3), (14, 3), (17, 1)].as_slice());
        let whole = map_parts(
            &rt,
            alloc,
            &list,
            7,
            workers,
            &Nobody,
            &|part| look_at(part, 99),
        )
        .expect(&rt, "no fault");
        assert!(rt; whole.as_slice() == [(11, 7)].as_slice());
        let none = map_parts(
            &rt,
            alloc,
            &list[..0],
            3,
            workers,
            &Nobody,
            &|part| look_at(part, 99),
        )
        .expect(&rt, "no fault");
        assert!(rt; none.as_slice() == [(0, 0)].as_slice());
    }
}

#[test]
fn want_of_memory_in_a_part_is_passed_on(rt: HostRuntime) {
    let alloc = rt.alloc();
    let list = [11u64, 12, 13, 14, 15, 16, 17];
    for workers in [1usize, 2, 16] {
        let made = map_parts(
            &rt,
            alloc,
            &list,
            3,
            workers,
            &Nobody,
            &|part| look_at(part, 14),
        );
        assert!(rt; made.is_err());
    }
}
