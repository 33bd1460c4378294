//! The heap of a job.

ghost use Rattle.std.specs.Prelude.{◌≡◌, ◌+◌, ◌*◌, ◌^◌, ◌<◌, ◌≤◌, ◌↔◌, false, [], ◌++◌, length, replicate, Some, Err, IfOk, IfSome, OnErr, IsTrue};
ghost use Rattle.std.specs.List.{repeat};
ghost use Rattle.obj_heap.specs.Calls as spec;
ghost use Rattle.obj_heap.specs.Calls.{Makes};
ghost use Rattle.obj_heap.specs.Objects.{words, blank, array_size, string_size};

use crate::address::{Address, ObjRef, PlaceKind};
use crate::fault::HeapFault;
use crate::kinds::kind_of;
use crate::made::{Made, noted};
use crate::numbers::{push_units, read_number, write_number};
use crate::room::{HEAP_LIMIT, begin, push_numbers, push_refs, push_zeros, words_of};
use clr_base::Memory;
use std::alloc::Global;
use std::marker::Model;

/// The objects of a job. `H` is the name of an exact type, which a heap keeps for each object and never
/// looks at. Contracts see the list of the objects, in the order of making.
#[derive(Drop)]
pub struct Heap<H> {
    made: Vec<Made<H>>,
    bytes: Vec<u8>,
    /// For each eight bytes, whether they are a reference's.
    refs: Vec<bool>,
}

impl<H> Model for Heap<H> {
    ghost use Rattle.std.specs.Prelude.{List};
    ghost use Rattle.obj_heap.specs.Objects.{Object};

    ghost Value = { List (Object H) };

    ghost use Rattle.obj_heap.specs.Laying.{objects_of, IsLaid};

    ghost view = { λ h. objects_of h.made.items h.bytes.items h.refs.items };

    ghost invariant = { λ h. IsLaid H h.made.items h.bytes.items h.refs.items };
}

impl<H: Copy> Heap<H> {
    /// A heap without objects.
    pub fn open(alloc: Global) -> Result<Heap<H>, Memory>
        ensures { IfOk result (λ h. h ≡ []) }
    {
        Ok(Heap {
            made: Vec::new(alloc),
            bytes: Vec::new(alloc),
            refs: Vec::new(alloc),
        })
    }

    /// Makes an object whose bytes are 0: `lead` words of numbers, then equal elements, then numbers.
    #[tactic(none)]
    fn add(
        &mut self,
        of: H,
        count: u32,
        size: u64,
        lead: usize,
        element: &[bool],
        times: u32,
    ) -> Result<ObjRef, HeapFault>
        requires some { 0 < size }
        requires fits { size + 7 < 2 ^ 64 }
        requires refs { 8 * (lead + length element.now * times) ≤ size }
        ensures made { Makes result self.new (spec.added (blank of count size (replicate lead false ++ repeat times element.now)) self.old) }
        ensures full { (result ≡ Err HeapFault.HeapFull) ↔ (HEAP_LIMIT < spec.total self.old + 8 * words size) }
        ensures kept { OnErr result (self.new ≡ self.old) }
    {
        let words = words_of(size);
        begin(
            &mut self.made,
            &mut self.bytes,
            &mut self.refs,
            of,
            count,
            words,
        )?;
        push_zeros(&mut self.bytes, 8 * words);
        push_refs(&mut self.refs, lead, element, times, words);
        Ok(ObjRef(self.made.as_slice().len() as u32))
    }

    /// Makes an object of so many bytes, rounded up to eight, all 0. `refs` says for each eight of its
    /// bytes, from the first on, whether they are a reference's; those behind are numbers.
    #[tactic(none)]
    pub fn new_object(&mut self, handle: H, size: u32, refs: &[bool]) -> Result<ObjRef, HeapFault>
        requires some { 0 < size }
        requires refs { 8 * length refs.now ≤ size }
        ensures made { Makes result self.new (spec.new_object handle size refs.now self.old) }
        ensures full { (result ≡ Err HeapFault.HeapFull) ↔ (HEAP_LIMIT < spec.total self.old + 8 * words size) }
        ensures kept { OnErr result (self.new ≡ self.old) }
    {
        self.add(handle, 0, u64::from(size), 0, refs, 1)
    }

    /// Makes an array of so many elements, all 0, behind 16 bytes. `refs` says for each eight bytes of an
    /// element whether they are a reference's; it is empty where an element is numbers alone.
    #[tactic(none)]
    pub fn new_array(
        &mut self,
        handle: H,
        element_size: u32,
        length: u32,
        refs: &[bool],
    ) -> Result<ObjRef, HeapFault>
        requires { IsTrue (spec.are_whole element_size refs.now) }
        ensures made { Makes result self.new (spec.new_array handle element_size length refs.now self.old) }
        ensures full { (result ≡ Err HeapFault.HeapFull) ↔ (HEAP_LIMIT < spec.total self.old + 8 * words (array_size element_size length)) }
        ensures kept { OnErr result (self.new ≡ self.old) }
    {
        let size = 16 + u64::from(element_size) * u64::from(length);
        self.add(handle, length, size, 2, refs, length)
    }

    /// Makes a string of these units, two bytes each, behind 16 bytes.
    #[tactic(none)]
    pub fn new_string(&mut self, handle: H, units: &[u16]) -> Result<ObjRef, HeapFault>
        ensures made { Makes result self.new (spec.new_string handle units.now self.old) }
        ensures full { (result ≡ Err HeapFault.HeapFull) ↔ (HEAP_LIMIT < spec.total self.old + 8 * words (string_size units.now)) }
        ensures kept { OnErr result (self.new ≡ self.old) }
    {
        if units.len() > HEAP_LIMIT {
            return Err(HeapFault::HeapFull);
        }
        let words = words_of(16 + 2 * units.len() as u64);
        let count = units.len() as u32;
        begin(
            &mut self.made,
            &mut self.bytes,
            &mut self.refs,
            handle,
            count,
            words,
        )?;
        push_zeros(&mut self.bytes, 16);
        push_units(&mut self.bytes, units);
        push_zeros(&mut self.bytes, 8 * words - 16 - 2 * units.len());
        push_numbers(&mut self.refs, words);
        Ok(ObjRef(self.made.as_slice().len() as u32))
    }

    /// The reference that a number spells; none for 0, which is null, and for a number that no object has.
    pub fn find(&self, number: u64) -> Option<ObjRef>
        ensures value { result ≡ spec.find self.now number }
        ensures made { IfSome result (λ r. IsTrue (spec.is_made self.now r)) }
    {
        if number > self.made.as_slice().len() as u64 {
            return None;
        }
        let object = ObjRef(number as u32);
        match noted(&self.made, object) {
            Some(_) => Some(object),
            None => None,
        }
    }

    /// The name that the object was made with.
    pub fn handle_of(&self, object: ObjRef) -> H
        requires { IsTrue (spec.is_made self.now object) }
        ensures { spec.handle_of self.now object ≡ Some result }
    {
        noted(&self.made, object).unwrap().of
    }

    /// The number of an array's elements or of a string's units; 0 for any other object.
    pub fn length_of(&self, object: ObjRef) -> u32
        requires { IsTrue (spec.is_made self.now object) }
        ensures { result ≡ spec.length_of self.now object }
    {
        noted(&self.made, object).unwrap().count
    }

    /// What so many bytes from a place on are. The width is 1, 2, 4 or 8.
    pub fn kind_at(&self, place: Address, width: u8) -> PlaceKind
        requires { IsTrue (spec.is_width width) }
        ensures { result ≡ spec.kind_at self.now place width }
    {
        let Some(made) = noted(&self.made, place.object) else {
            return PlaceKind::Outside;
        };
        if u64::from(place.offset) + u64::from(width) > 8 * u64::from(made.words) {
            return PlaceKind::Outside;
        }
        let first = made.first as usize;
        let refs = &self.refs[first..first + made.words as usize];
        kind_of(refs, place.offset, width)
    }

    /// The number in so many bytes from a place on, the lowest first. The width is 1, 2, 4 or 8.
    pub fn read_at(&self, place: Address, width: u8) -> u64
        requires width { IsTrue (spec.is_width width) }
        requires inside { IsTrue (spec.is_inside self.now place width) }
        ensures value { result ≡ spec.read_at self.now place width }
        ensures narrow { result < 256 ^ width }
    {
        let made = noted(&self.made, place.object).unwrap();
        let at = 8 * made.first as usize + place.offset as usize;
        read_number(&self.bytes, at, width)
    }

    /// Writes a number, modulo what the width holds, to so many bytes from a place on, the lowest first. The
    /// width is 1, 2, 4 or 8.
    pub fn write_at(&mut self, place: Address, width: u8, value: u64)
        requires width { IsTrue (spec.is_width width) }
        requires inside { IsTrue (spec.is_inside self.old place width) }
        ensures { self.new ≡ spec.write_at self.old place width value }
    {
        let made = noted(&self.made, place.object).unwrap();
        let at = 8 * made.first as usize + place.offset as usize;
        write_number(self.bytes.as_mut_slice(), at, width, value)
    }
}
