//! The numbers of slots that the methods of a definition take.

ghost use Rattle.std.specs.Prelude.{◌≡◌, ◌<◌, ◌+◌, ◌^◌, ◌++◌, ◌∷◌, [], nat_eq, cond, None, Some, length, unwrap_or, IfOk, OnOk};
ghost use Rattle.std.specs.HashMap.{get, Updates};
ghost use Rattle.method_slots.specs.Virtuals.{numbers, opened, AreLast};

use clr_base::Memory;
use sqlite_items::Items;
use std::alloc::Global;
use std::collections::HashMap;

/// A virtual instance method of a definition.
#[derive(Clone, Copy)]
pub struct Virtual {
    /// The number of its name and signature: methods that match have one number.
    pub key: u32,
    /// Whether it has newslot (ECMA-335 II.23.1.10).
    pub newslot: bool,
}

/// Notes the place of the last slot of each number.
fn note_last(places: &mut HashMap<u32, u32>, key: u32, place: u32) -> Result<(), Memory>
    ensures { OnOk result (Updates nat_eq places.old places.new key (Some place)) }
{
    match places.insert(key, place) {
        Ok(_) => Ok(()),
        Err(_) => Err(Memory),
    }
}

/// Where the last slot of each number stands.
fn last_places(alloc: Global, inherited: &[u32]) -> Result<HashMap<u32, u32>, Memory>
    requires { length inherited.now < 2 ^ 32 }
    ensures { IfOk result (λ places. AreLast places inherited.now) }
{
    let mut places = HashMap::new(alloc);
    for (i, key) in inherited.iter().enumerate() {
        note_last(&mut places, *key, i as u32)?;
    }
    Ok(places)
}

/// The slot that a method overrides.
fn slot_of(places: &HashMap<u32, u32>, method: Virtual) -> Option<u32>
    ensures { result ≡ cond method.newslot None (get nat_eq places.now method.key) }
{
    if method.newslot {
        return None;
    }
    match places.get(&method.key) {
        Some(place) => Some(*place),
        None => None,
    }
}

/// The number that a method takes which overrides this slot, or opens one.
fn number_of(keys: &mut Items<u32>, key: u32, overrides: Option<u32>) -> Result<u32, Memory>
    requires { length keys.old < 2 ^ 32 }
    ensures number { IfOk result (λ n. n ≡ unwrap_or overrides (length keys.old)) }
    ensures opened { OnOk result (keys.new ≡ elim overrides [ Some n ↦ keys.old | None ↦ keys.old ++ key ∷ [] ]) }
{
    match overrides {
        Some(place) => Ok(place),
        None => {
            let free = keys.len() as u32;
            keys.push(key)?;
            Ok(free)
        }
    }
}

/// The numbers of the slots that methods of a definition take, in order (ECMA-335 II.10.3): a method
/// with newslot, and one that matches no inherited slot, the next free number; another that of the
/// last inherited slot that it matches; None for a method that isn't virtual. `keys` has the number of
/// the name and signature of each slot of the parent, and gains those of the slots that are opened. In
/// linear time.
pub fn slot_numbers(
    alloc: Global,
    keys: &mut Items<u32>,
    methods: &[Option<Virtual>],
) -> Result<Items<Option<u32>>, Memory>
    requires few { length keys.old + length methods.now < 2 ^ 32 }
    ensures numbers { IfOk result (λ ns. ns ≡ numbers keys.old methods.now) }
    ensures opened { OnOk result (keys.new ≡ opened keys.old methods.now) }
{
    let places = last_places(alloc, keys.as_slice())?;
    let mut done = Items::new(alloc);
    for method in methods {
        match method {
            Some(method) => {
                let number = number_of(keys, method.key, slot_of(&places, *method))?;
                done.push(Some(number))?;
            }
            None => done.push(None)?,
        }
    }
    Ok(done)
}
