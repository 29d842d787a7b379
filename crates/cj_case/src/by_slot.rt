//! Values by object and slot.
ghost use Rattle.std.specs.Prelude.{◌≡◌, ◌+◌, ◌<◌, ◌≤◌, [], Some, All, IfOk, OnOk, length, map, replicate, slice_get};
ghost use Rattle.cj_case.specs.Tables.{IsEven, even_table, filled, filled_row, value_at, with_row};

use std::alloc::{AllocError, Global};
use std::marker::Model;

/// A value for each object in each slot: a row for each object, so that a row can be made, kept or written by itself.
#[derive(Debug, Drop)]
pub struct BySlot<T> {
    rows: Vec<Vec<T>>,
    slots: u32,
}

impl<T> Model for BySlot<T> {
    ghost use Rattle.std.specs.Prelude.{◌≡◌, All, length, map};
    ghost use Rattle.cj_case.specs.Tables.{Table};

    ghost Value = { Table T };

    ghost view = { λ t. record { rows = map (λ row. row.items) t.rows.items; slots = t.slots } };

    ghost invariant = { λ t. All (λ row. length row.items ≡ t.slots) t.rows.items };
}

impl<T: Copy> BySlot<T> {
    /// No objects yet, and so many slots.
    pub fn new(alloc: Global, slots: u32) -> Self
        ensures { result ≡ record { rows = []; slots = slots } }
    {
        BySlot {
            rows: Vec::new(alloc),
            slots,
        }
    }

    /// One value for so many objects in so many slots.
    pub fn of_one(alloc: Global, objects: u32, slots: u32, value: T) -> Result<Self, AllocError>
        ensures { IfOk result (λ table. table ≡ even_table objects slots value) }
    {
        let rows = even_rows(alloc, objects, slots, value)?;
        Ok(BySlot { rows, slots })
    }

    /// How many objects there are.
    pub fn objects(&self) -> usize
        ensures value { result ≡ length self.now.rows }
        ensures even { IsEven self.now }
    {
        self.rows.len()
    }

    /// How many slots there are.
    pub fn slots(&self) -> u32
        ensures value { result ≡ self.now.slots }
        ensures even { IsEven self.now }
    {
        self.slots
    }

    /// Takes the row of the next object.
    pub fn push(&mut self, row: Vec<T>) -> Result<(), AllocError>
        requires { length row.items ≡ self.old.slots }
        ensures { OnOk result (self.new ≡ with_row row.items self.old) }
    {
        self.rows.push(row)?;
        Ok(())
    }

    /// The values of an object, slot by slot.
    pub fn of_object(&self, object: u32) -> &[T]
        requires { object < length self.now.rows }
        ensures row { slice_get self.now.rows object ≡ Some result.now }
        ensures len { length result.now ≡ self.now.slots }
    {
        &self.rows[object as usize]
    }

    /// The value of an object in a slot.
    pub fn at(&self, object: u32, slot: u32) -> T
        requires object { object < length self.now.rows }
        requires slot { slot < self.now.slots }
        ensures { value_at self.now.rows object slot ≡ Some result }
    {
        self.of_object(object)[slot as usize]
    }

    /// Gives an object one value in so many slots from a first one on.
    pub fn fill(&mut self, object: u32, first: u32, count: u32, value: T)
        requires object { object < length self.old.rows }
        requires within { first + count ≤ self.old.slots }
        ensures value { self.new ≡ filled object first count value self.old }
        ensures even { IsEven self.old }
    {
        let row = &mut self.rows[object as usize];
        fill_row(row, first as usize, count as usize, value);
    }

    /// The values in a slot, object by object, in place of what is in a list.
    pub fn in_slot(&self, slot: u32, here: &mut Vec<T>) -> Result<(), AllocError>
        requires { slot < self.now.slots }
        ensures { OnOk result (map Some here.new.items ≡ map (λ row. slice_get row slot) self.now.rows) }
    {
        list_slot(&self.rows, slot as usize, here)?;
        Ok(())
    }

    /// The same values once more.
    pub fn copied(&self, alloc: Global) -> Result<Self, AllocError>
        ensures { IfOk result (λ table. table ≡ self.now) }
    {
        let rows = copies_of(alloc, &self.rows)?;
        Ok(BySlot {
            rows,
            slots: self.slots,
        })
    }
}

/// A row with one value in so many slots.
fn even_row<T: Copy>(alloc: Global, slots: u32, value: T) -> Result<Vec<T>, AllocError>
    ensures { IfOk result (λ row. row.items ≡ replicate slots value) }
{
    let mut row = Vec::with_capacity(alloc, slots as usize)?;
    for _ in 0..slots {
        row.push(value)?;
    }
    Ok(row)
}

/// So many rows with one value in so many slots.
fn even_rows<T: Copy>(
    alloc: Global,
    objects: u32,
    slots: u32,
    value: T,
) -> Result<Vec<Vec<T>>, AllocError>
    ensures { IfOk result (λ rows. map (λ row. row.items) rows.items ≡ replicate objects (replicate slots value)) }
{
    let mut rows = Vec::with_capacity(alloc, objects as usize)?;
    for _ in 0..objects {
        let row = even_row(alloc, slots, value)?;
        rows.push(row)?;
    }
    Ok(rows)
}

/// Writes one value into so many places of a row from a first one on.
fn fill_row<T: Copy>(row: &mut Vec<T>, first: usize, count: usize, value: T)
    requires { first + count ≤ length row.old.items }
    ensures { row.new.items ≡ filled_row first count value row.old.items }
{
    for slot in first..first + count {
        row[slot] = value;
    }
}

/// The values of all rows in a slot, in place of what is in a list.
fn list_slot<T: Copy>(rows: &[Vec<T>], slot: usize, here: &mut Vec<T>) -> Result<(), AllocError>
    requires { All (λ row. slot < length row.items) rows.now }
    ensures { OnOk result (map Some here.new.items ≡ map (λ row. slice_get row.items slot) rows.now) }
{
    here.clear();
    for row in rows {
        here.push(row[slot])?;
    }
    Ok(())
}

/// The same rows once more.
fn copies_of<T: Copy>(alloc: Global, rows: &[Vec<T>]) -> Result<Vec<Vec<T>>, AllocError>
    ensures { IfOk result (λ copies. map (λ row. row.items) copies.items ≡ map (λ row. row.items) rows.now) }
{
    let mut copies = Vec::with_capacity(alloc, rows.len())?;
    for row in rows {
        let copy = Vec::from_slice(alloc, row)?;
        copies.push(copy)?;
    }
    Ok(copies)
}
