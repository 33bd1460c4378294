//! What holds of the objects of every heap. Each is a function that does nothing and whose clause is the law.

ghost use Rattle.std.specs.Prelude.{◌≡◌, ◌+◌, ◌*◌, ◌%◌, ◌^◌, ◌<◌, ◌≤◌, ℕ, Bool, List, slice_get, Some, Ok, IsTrue};
ghost use Rattle.std.specs.Option.{option_map};
ghost use Rattle.obj_heap.specs.declared.address.Address.{Address};
ghost use Rattle.obj_heap.specs.declared.address.ObjRef.{ObjRef};
ghost use Rattle.obj_heap.specs.declared.address.PlaceKind.TheVariants.{Numbers};
ghost use Rattle.obj_heap.specs.Objects.{Object, kind_in, blank, string_object, string_size, array_size, array_refs, map_objects};
ghost use Rattle.obj_heap.specs.Calls as spec;
ghost use Rattle.obj_heap.specs.Laws.{Step, AreApart, MayFollow, Leave, IsMade, after, map_made};

/// A place reads what was last written there, modulo what the width holds: whatever objects were made since,
/// and whatever was written to other places.
pub fn last_written<H>()
    ensures { (s : List (Object H)) (p : Address) (width value : ℕ) (steps : List (Step H))
        → IsTrue (spec.is_inside s p width) → MayFollow (spec.write_at s p width value) steps → Leave steps p width
        → spec.read_at (after steps (spec.write_at s p width value)) p width ≡ value % 256 ^ width }
{}

/// A write leaves all other places: those that have no byte in common with its own.
pub fn others_stay<H>()
    ensures { (s : List (Object H)) (p q : Address) (m n value : ℕ)
        → IsTrue (spec.is_inside s p m) → AreApart p m q n
        → spec.read_at (spec.write_at s p m value) q n ≡ spec.read_at s q n }
{}

/// An object keeps what it was made with: a write leaves all that is told of an object but its bytes.
pub fn made_once<H>()
    ensures find { (s : List (Object H)) (p : Address) (width value : ℕ) (n : ℕ)
        → IsTrue (spec.is_inside s p width) → spec.find (spec.write_at s p width value) n ≡ spec.find s n }
    ensures handle_of { (s : List (Object H)) (p : Address) (width value : ℕ) (r : ObjRef)
        → IsTrue (spec.is_inside s p width) → spec.handle_of (spec.write_at s p width value) r ≡ spec.handle_of s r }
    ensures length_of { (s : List (Object H)) (p : Address) (width value : ℕ) (r : ObjRef)
        → IsTrue (spec.is_inside s p width) → spec.length_of (spec.write_at s p width value) r ≡ spec.length_of s r }
    ensures is_inside { (s : List (Object H)) (p : Address) (width value : ℕ) (q : Address) (n : ℕ)
        → IsTrue (spec.is_inside s p width) → spec.is_inside (spec.write_at s p width value) q n ≡ spec.is_inside s q n }
    ensures kind_at { (s : List (Object H)) (p : Address) (width value : ℕ) (q : Address) (n : ℕ)
        → IsTrue (spec.is_inside s p width) → spec.kind_at (spec.write_at s p width value) q n ≡ spec.kind_at s q n }
{}

/// A call that makes an object gives a number that no object had, and leaves those before as they were.
pub fn one_more<H>()
    ensures object { (h : H) (size : ℕ) (refs : List Bool) (s t : List (Object H)) (r : ObjRef)
        → spec.new_object h size refs s ≡ Ok (r, t) → IsMade (blank h 0 size refs) s r t }
    ensures array { (h : H) (element n : ℕ) (refs : List Bool) (s t : List (Object H)) (r : ObjRef)
        → spec.new_array h element n refs s ≡ Ok (r, t)
        → IsMade (blank h n (array_size element n) (array_refs refs n)) s r t }
    ensures string { (h : H) (units : List ℕ) (s t : List (Object H)) (r : ObjRef)
        → spec.new_string h units s ≡ Ok (r, t) → IsMade (string_object h units) s r t }
{}

/// A new object reads 0 at each place, and a new string its units.
pub fn made_of<H>()
    ensures object { (h : H) (size : ℕ) (refs : List Bool) (s t : List (Object H)) (r : ObjRef) (offset width : ℕ)
        → spec.new_object h size refs s ≡ Ok (r, t)
        → spec.read_at t (record { object = r; offset = offset }) width ≡ 0 }
    ensures array { (h : H) (element n : ℕ) (refs : List Bool) (s t : List (Object H)) (r : ObjRef) (offset width : ℕ)
        → spec.new_array h element n refs s ≡ Ok (r, t)
        → spec.read_at t (record { object = r; offset = offset }) width ≡ 0 }
    ensures string { (h : H) (units : List ℕ) (s t : List (Object H)) (r : ObjRef) (k u : ℕ)
        → spec.new_string h units s ≡ Ok (r, t) → slice_get units k ≡ Some u → u < 2 ^ 16
        → spec.read_at t (record { object = r; offset = 16 + 2 * k }) 2 ≡ u }
{}

/// The places of a new object are what was said of it, those of each element of a new array what was said of
/// one element, and those of a new string numbers.
pub fn kinds_as_said<H>()
    ensures object { (h : H) (size : ℕ) (refs : List Bool) (s t : List (Object H)) (r : ObjRef) (offset width : ℕ)
        → spec.new_object h size refs s ≡ Ok (r, t) → offset + width ≤ size
        → spec.kind_at t (record { object = r; offset = offset }) width ≡ kind_in refs offset width }
    ensures array { (h : H) (element n : ℕ) (refs : List Bool) (s t : List (Object H)) (r : ObjRef) (k offset width : ℕ)
        → spec.new_array h element n refs s ≡ Ok (r, t)
        → IsTrue (spec.are_whole element refs) → k < n → offset + width ≤ element
        → spec.kind_at t (record { object = r; offset = 16 + element * k + offset }) width ≡ kind_in refs offset width }
    ensures string { (h : H) (units : List ℕ) (s t : List (Object H)) (r : ObjRef) (offset width : ℕ)
        → spec.new_string h units s ≡ Ok (r, t) → offset + width ≤ string_size units
        → spec.kind_at t (record { object = r; offset = offset }) width ≡ Numbers }
{}

/// A heap never looks at the names of types: each call gives the same whether names are changed before it or
/// after it.
pub fn names_unseen<A, B>()
    ensures new_object { (f : A → B) (h : A) (size : ℕ) (refs : List Bool) (s : List (Object A))
        → spec.new_object (f h) size refs (map_objects f s) ≡ map_made f (spec.new_object h size refs s) }
    ensures new_array { (f : A → B) (h : A) (element n : ℕ) (refs : List Bool) (s : List (Object A))
        → spec.new_array (f h) element n refs (map_objects f s) ≡ map_made f (spec.new_array h element n refs s) }
    ensures new_string { (f : A → B) (h : A) (units : List ℕ) (s : List (Object A))
        → spec.new_string (f h) units (map_objects f s) ≡ map_made f (spec.new_string h units s) }
    ensures find { (f : A → B) (s : List (Object A)) (n : ℕ) → spec.find (map_objects f s) n ≡ spec.find s n }
    ensures handle_of { (f : A → B) (s : List (Object A)) (r : ObjRef)
        → spec.handle_of (map_objects f s) r ≡ option_map f (spec.handle_of s r) }
    ensures length_of { (f : A → B) (s : List (Object A)) (r : ObjRef)
        → spec.length_of (map_objects f s) r ≡ spec.length_of s r }
    ensures is_inside { (f : A → B) (s : List (Object A)) (p : Address) (width : ℕ)
        → spec.is_inside (map_objects f s) p width ≡ spec.is_inside s p width }
    ensures kind_at { (f : A → B) (s : List (Object A)) (p : Address) (width : ℕ)
        → spec.kind_at (map_objects f s) p width ≡ spec.kind_at s p width }
    ensures read_at { (f : A → B) (s : List (Object A)) (p : Address) (width : ℕ)
        → spec.read_at (map_objects f s) p width ≡ spec.read_at s p width }
    ensures write_at { (f : A → B) (s : List (Object A)) (p : Address) (width value : ℕ)
        → spec.write_at (map_objects f s) p width value ≡ map_objects f (spec.write_at s p width value) }
{}
