//! Where each part of a record stands among its words: a function of the counts.

ghost use Rattle.std.specs.Prelude.{◌≡◌, ℕ, ◌+◌, List, Option, Some, take, slice_get};
ghost use Rattle.type_record.specs.Records.{entries, entry, arg_entry, field_entry, slot_entry, choice_entry, method_count, IsCounted};
ghost use Rattle.type_record.specs.Sections.{interfaces_at, fields_at, slots_at, interface_slots_at};
ghost use Rattle.type_record.specs.declared.loaded.FieldOf.{FieldOf};
ghost use Rattle.type_record.specs.declared.loaded.SlotOf.{SlotOf};
ghost use Rattle.type_record.specs.declared.loaded.TypeRecord.{TypeRecord};

/// The word of an argument: the eight in front come first.
pub fn place_of_argument<K>()
    ensures { (r : TypeRecord K) → IsCounted r → (n : ℕ) (k : K) → slice_get r.args n ≡ Some k
        → slice_get (entries r) (8 + n) ≡ Some (arg_entry k) }
{}

/// The word of an interface, whose number is that of the methods of the interfaces before it.
pub fn place_of_interface<K>()
    ensures { (r : TypeRecord K) → IsCounted r → (n : ℕ) (k : K) → slice_get r.interfaces n ≡ Some k
        → slice_get (entries r) (interfaces_at r.shape + n) ≡ Some (entry (method_count (take n r.interface_slots)) (Some k)) }
{}

/// The word of an own field.
pub fn place_of_field<K>()
    ensures { (r : TypeRecord K) → IsCounted r → (n : ℕ) (f : FieldOf K) → slice_get r.fields n ≡ Some f
        → slice_get (entries r) (fields_at r.shape + n) ≡ Some (field_entry f) }
{}

/// The word of a slot.
pub fn place_of_slot<K>()
    ensures { (r : TypeRecord K) → IsCounted r → (n : ℕ) (s : SlotOf K) → slice_get r.slots n ≡ Some s
        → slice_get (entries r) (slots_at r.shape + n) ≡ Some (slot_entry s) }
{}

/// The word of an interface's method, behind those of the interfaces before it.
pub fn place_of_interface_slot<K>()
    ensures { (r : TypeRecord K) → IsCounted r → (i n : ℕ) (list : List (Option (SlotOf K))) (c : Option (SlotOf K))
        → slice_get r.interface_slots i ≡ Some list → slice_get list n ≡ Some c
        → slice_get (entries r) (interface_slots_at r.shape + method_count (take i r.interface_slots) + n) ≡ Some (choice_entry c) }
{}
