//! Tests of how much a heap takes.

use obj_heap::{Address, Heap, HeapFault, ObjRef, PlaceKind};
use std::alloc::Global;
use std::test::Fail;

// What an array of so many elements of four bytes has at its bytes 16,777,212 to 16,777,215 and, where that
// is all of a heap, what becomes of an object of one byte more.
fn last_bytes(alloc: Global, length: u32) -> Result<(PlaceKind, Option<ObjRef>), HeapFault> {
    let Ok(mut heap) = Heap::<u32>::open(alloc) else {
        return Err(HeapFault::Memory);
    };
    let object = heap.new_array(7, 4, length, &[])?;
    let offset = 16_777_212;
    let kind = heap.kind_at(Address { object, offset }, 4);
    Ok((kind, heap.new_object(7, 1, &[]).ok()))
}

#[test]
fn an_array_of_16777216_bytes(rt: HostRuntime) -> Result<(), Fail> {
    assert!(rt; last_bytes(rt.alloc(), 4_194_300) == Ok((PlaceKind::Numbers, None)));
    Ok(())
}

#[test]
fn an_array_of_one_element_more(rt: HostRuntime) -> Result<(), Fail> {
    assert!(rt; last_bytes(rt.alloc(), 4_194_301) == Err(HeapFault::HeapFull));
    Ok(())
}
