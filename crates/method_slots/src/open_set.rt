//! Names and signatures that stand once, each with a number.

ghost use Rattle.std.specs.Prelude.{◌≡◌, ◌<◌, [], Some, slice_get, length, fold, IfOk, OnErr};
ghost use Rattle.type_pool.specs.Fed.{ids_input};
ghost use Rattle.type_pool.specs.Trees.{AddsAtMost};
ghost use Rattle.method_slots.specs.OpenSame.{open_input};
ghost use Rattle.method_slots.specs.OpenSets.{OpensOnce, OpensGrow, OpenPut};

use crate::opens::{OpenMethod, same_numbers};
use clr_base::Memory;
use indexmap::IndexSet;
use std::alloc::Global;
use std::hash::{Hash, Hasher};
use std::marker::Model;
use type_pool::Id;

impl PartialEq for OpenMethod {
    ghost use Rattle.method_slots.specs.OpenSame.{same_numbers, same_numbers_laws};

    ghost eq = { same_numbers };

    ghost laws = { same_numbers_laws };

    fn eq(&self, other: &OpenMethod) -> bool {
        same_numbers(self, other)
    }
}

impl Eq for OpenMethod {
    ghost use Rattle.method_slots.specs.OpenSame.{same_numbers_equiv};

    ghost laws = { same_numbers_equiv };
}

fn feed_ids<H: Hasher>(ids: &[Id], state: &mut H)
    ensures { state.new ≡ fold H.write state.old (ids_input ids.now) }
{
    for id in ids {
        state.write_u32(id.0);
    }
}

fn feed_open<H: Hasher>(open: &OpenMethod, state: &mut H)
    ensures { state.new ≡ fold H.write state.old (open_input open.now) }
{
    state.write_u32(open.name.0);
    state.write_u32(open.ret.0);
    feed_ids(open.params.as_slice(), state);
}

impl Hash for OpenMethod {
    ghost use Rattle.method_slots.specs.OpenSame.{open_input, open_respects};

    ghost hash_input = { open_input };

    ghost respects_eq = { open_respects };

    fn hash<H: Hasher>(&self, state: &mut H) {
        feed_open(self, state);
    }
}

/// Names and signatures over one pool, each once. Contracts see the list of them, in the order in
/// which they were put in; their numbers count from 0.
#[derive(Drop)]
pub struct OpenSet {
    opens: IndexSet<OpenMethod>,
}

impl Model for OpenSet {
    ghost use Rattle.std.specs.Prelude.{List};
    ghost use Rattle.std.specs.Coded.{coded_list};
    ghost use Rattle.method_slots.specs.declared.opens.OpenMethod.{OpenMethod};
    ghost use Rattle.method_slots.specs.contracts.opens.OpenMethod as row;
    ghost use Rattle.method_slots.specs.OpenSets.{OpensOnce};

    ghost Value = { List OpenMethod };

    ghost coded = { coded_list row.the_row.coded };

    ghost view = { λ s. s.opens.keys };

    ghost invariant = { λ s. OpensOnce s.opens.keys };
}

impl OpenSet {
    /// None.
    pub fn new(alloc: Global) -> OpenSet
        ensures { result ≡ [] }
    {
        OpenSet {
            opens: IndexSet::new(alloc),
        }
    }

    /// How many there are.
    pub fn len(&self) -> usize
        ensures { result ≡ length self.now }
    {
        self.opens.len()
    }

    /// The one with a number.
    pub fn get(&self, number: u32) -> &OpenMethod
        requires { number < length self.now }
        ensures { slice_get self.now number ≡ Some result.now }
    {
        &self.opens.as_slice()[number as usize]
    }

    /// A law: each has one number.
    pub fn each_once(&self)
        ensures { OpensOnce self.now }
    {
        let _ = &self.opens;
    }

    /// The number of this one, which is put in where it is new. Memory also where there are 2^32 - 1.
    pub fn intern(&mut self, method: OpenMethod) -> Result<u32, Memory>
        ensures grows { OpensGrow self.old self.new }
        ensures adds { IfOk result (λ _. AddsAtMost self.old self.new method) }
        ensures err { OnErr result (self.new ≡ self.old) }
        ensures named { IfOk result (λ number. slice_get self.new number ≡ Some method) }
    {
        if self.opens.len() >= u32::MAX as usize {
            return Err(Memory);
        }
        put_open(&mut self.opens, method)
    }
}

/// The index of this one: it is there, or is put last.
fn put_open(opens: &mut IndexSet<OpenMethod>, method: OpenMethod) -> Result<u32, Memory>
    requires once { OpensOnce opens.old.keys }
    requires room { length opens.old.keys < 4294967295 }
    ensures ok { IfOk result (λ i. OpenPut opens.old.keys opens.new.keys i method) }
    ensures err { OnErr result (opens.new.keys ≡ opens.old.keys) }
{
    match opens.insert_full(method) {
        Ok((index, _)) => Ok(index as u32),
        Err(_) => Err(Memory),
    }
}
