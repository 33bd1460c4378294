//! The table of all bodies of a world.

ghost use Rattle.std.specs.Prelude.{◌≡◌, ◌<◌, [], None, length, unwrap_or, IfOk, IsSome};
ghost use Rattle.cil_code.specs.Reading.{Gives};
ghost use Rattle.cil_code.specs.Decoding.{body_of};
ghost use Rattle.code_table.specs.Lent.{lent_body};
ghost use Rattle.code_table.specs.Table.{bytes_of, table_of};

use crate::lent::Lent;
use crate::place::{Place, Slot, slot_of};
use cil_code::CodeFault;
use clr_base::{Memory, MethId};
use std::alloc::Global;
use std::marker::Model;
use type_tree::World;

/// The bodies of all methods of a world, each decoded at its first call and kept for all threads. Contracts
/// see the bytes of each method's body, in the order of the methods.
#[derive(Drop)]
pub struct CodeTable {
    slots: Vec<Slot>,
}

impl Model for CodeTable {
    ghost use Rattle.std.specs.Prelude.{List, Option, ℕ, map};

    ghost Value = { List (Option (List ℕ)) };

    ghost view = { λ t. map (λ s. s.bytes) t.slots.items };
}

impl CodeTable {
    /// The table of a world, with a copy of each body's bytes. Nothing is decoded yet.
    pub fn open(alloc: Global, world: &World) -> Result<CodeTable, Memory>
        ensures { IfOk result (λ t. t ≡ table_of world.now) }
    {
        let count = world.method_count();
        let mut slots = Vec::with_capacity(alloc, count as usize)?;
        for method in 0..count {
            slots.push(slot_of(alloc, world.body(MethId(method)))?)?;
        }
        Ok(CodeTable { slots })
    }

    /// The place of a method, of which nothing was learned yet.
    pub fn place(&self, method: MethId) -> Place<'_>
        requires { method.0 < length self.now }
        ensures { result ≡ record { bytes = bytes_of self.now method.0; kept = None } }
    {
        Place::of(&self.slots[method.0 as usize])
    }

    /// The body of a method that has one, or its first fault, which `decode` tells. Never waits: threads that
    /// ask at once for a method that nobody asked for may each decode it, and all get the same.
    pub fn body(&self, alloc: Global, method: MethId) -> Result<Lent<'_>, CodeFault>
        requires { IsSome (bytes_of self.now method.0) }
        ensures { Gives lent_body result (body_of (unwrap_or (bytes_of self.now method.0) [])) }
    {
        self.place(method).body(alloc)
    }
}
