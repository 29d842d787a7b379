ghost use Rattle.std.specs.Prelude.{◌≡◌, [], ◌∷◌, IfOk};

use cj_case::BySlot;
use std::alloc::{AllocError, Global};
use std::panic::Expect;

/// Numbers of two objects in three slots.
fn numbers(alloc: Global) -> Result<BySlot<u32>, AllocError>
    ensures { IfOk result (λ table. table ≡ record { rows = (1 ∷ 2 ∷ 3 ∷ []) ∷ (4 ∷ 5 ∷ 6 ∷ []) ∷ []; slots = 3 }) }
{
    let mut table = BySlot::new(alloc, 3);
    table.push(Vec::from_slice(alloc, &[1, 2, 3])?)?;
    table.push(Vec::from_slice(alloc, &[4, 5, 6])?)?;
    Ok(table)
}

#[test]
fn a_table_tells_its_rows_and_values(rt: HostRuntime) {
    let table = numbers(rt.alloc()).expect(&rt, "no fault");
    assert_eq!(rt; table.objects(), 2);
    assert_eq!(rt; table.slots(), 3);
    assert_eq!(rt; table.of_object(1), [4u32, 5, 6].as_slice());
    assert_eq!(rt; table.at(0, 2), 3);
}

#[test]
fn slots_of_one_object_are_filled(rt: HostRuntime) {
    let mut table = numbers(rt.alloc()).expect(&rt, "no fault");
    table.fill(1, 1, 2, 9);
    assert_eq!(rt; table.of_object(0), [1u32, 2, 3].as_slice());
    assert_eq!(rt; table.of_object(1), [4u32, 9, 9].as_slice());
    table.fill(0, 3, 0, 9);
    assert_eq!(rt; table.of_object(0), [1u32, 2, 3].as_slice());
}

#[test]
fn a_slot_has_a_value_of_each_object(rt: HostRuntime) {
    let alloc = rt.alloc();
    let table = numbers(alloc).expect(&rt, "no fault");
    let mut here = Vec::new(alloc);
    here.push(7u32).expect(&rt, "no fault");
    table.in_slot(1, &mut here).expect(&rt, "no fault");
    assert_eq!(rt; here.as_slice(), [2u32, 5].as_slice());
    let same = table.copied(alloc).expect(&rt, "no fault");
    assert_eq!(rt; same.of_object(0), table.of_object(0));
}

#[test]
fn a_table_begins_with_one_value(rt: HostRuntime) {
    let table = BySlot::of_one(rt.alloc(), 2, 2, 8u32).expect(&rt, "no fault");
    assert_eq!(rt; table.objects(), 2);
    assert_eq!(rt; table.of_object(1), [8u32, 8].as_slice());
    let bare = BySlot::of_one(rt.alloc(), 1, 0, 8u32).expect(&rt, "no fault");
    assert!(rt; bare.of_object(0).is_empty());
}
