//! What holds of every instruction. Each is a function that does nothing and whose clause is the law.

ghost use Rattle.std.specs.Prelude.{◌≡◌, ℕ, ◌%◌, ◌^◌, Bool, List, Option, Ok, FitsSigned};
ghost use Rattle.std.specs.Int.{w64};
ghost use Rattle.std.specs.Option.{option_map};
ghost use Rattle.cil_ops.specs.declared.number.Num.{Num};
ghost use Rattle.cil_ops.specs.Number.{integer_of};
ghost use Rattle.obj_heap.specs.declared.address.ObjRef.{ObjRef};
ghost use Rattle.obj_heap.specs.Objects.{Object, map_objects};
ghost use Rattle.cil_state.specs.declared.form.IntKind.{IntKind};
ghost use Rattle.cil_state.specs.declared.form.Scalar.{Scalar};
ghost use Rattle.cil_state.specs.declared.form.Scalar.TheVariants as scalar;
ghost use Rattle.cil_state.specs.declared.operand.Operands.{Operands};
ghost use Rattle.cil_state.specs.declared.state.State.{State};
ghost use Rattle.cil_state.specs.declared.value.Value.{Value};
ghost use Rattle.cil_state.specs.declared.value.Value.TheVariants as value;
ghost use Rattle.cil_state.specs.Forms.{int_width, width, kept};
ghost use Rattle.cil_state.specs.Maps.{map_values, map_state};
ghost use Rattle.cil_state.specs.Meets.{on_ok};
ghost use Rattle.cil_state.specs.State.{pushed};
ghost use Rattle.cil_plain.specs.declared.op.Plain.{Plain as PlainOf};
ghost use Rattle.cil_plain.specs.Access.{type_of, held, int_bits};
ghost use Rattle.cil_plain.specs.Elements as element;
ghost use Rattle.cil_plain.specs.Fields as field;
ghost use Rattle.cil_plain.specs.Plain as spec;

/// A field or an element gives back what was stored there, cut to its width: of a number the integer of the place's kind
/// that its lowest bits stand for.
pub fn stored_is_loaded<H>()
    ensures field { (t : Scalar) (offset n : ℕ) (r : Option ObjRef) (s u : State H)
        → field.store_field t offset (record { upper = n; lower = r }) s ≡ Ok u
        → field.load_field t offset r u ≡ Ok (pushed u (held u.heap t (n % 256 ^ width t))) }
    ensures element { (e : Option Scalar) (t : Scalar) (fits : Bool) (n : ℕ) (o : Operands Num (Option ObjRef)) (s u : State H)
        → element.store_element e t fits (record { upper = n; lower = o }) s ≡ Ok u
        → element.load_element e t o u ≡ Ok (pushed u (held u.heap t (n % 256 ^ width t))) }
    ensures number { (k : IntKind) (given cut : Num) (n : ℕ) (s : List (Object H)) → FitsSigned w64 (integer_of given)
        → int_bits k given ≡ Ok n → kept k given ≡ Ok cut
        → held s (scalar.Int k) (n % 256 ^ int_width k) ≡ value.Number cut }
{}

/// Whether names are changed before an instruction or after it, it does the same: where names that are changed keep
/// equality.
pub fn instructions_see_no_name<A, B>()
    ensures { (f : A → B) (equal : A → A → Bool) (same : B → B → Bool) → ((x y : A) → same (f x) (f y) ≡ equal x y)
        → (op : PlainOf) (s : State A) → spec.plain same op (map_state f s) ≡ on_ok (map_state f) (spec.plain equal op s) }
{}

/// Whether names are changed before an access to an object or after it, it does the same.
pub fn accesses_see_no_name<A, B>()
    ensures type_of { (f : A → B) (s : List (Object A)) (r : Option ObjRef)
        → type_of (map_objects f s) r ≡ option_map f (type_of s r) }
    ensures pop_object { (f : A → B) (stack : List (Value A))
        → field.pop_object (map_values f stack) ≡ on_ok (λ t. (t.0, map_values f t.1)) (field.pop_object stack) }
    ensures pop_store { (f : A → B) (t : Scalar) (stack : List (Value A))
        → field.pop_store t (map_values f stack) ≡ on_ok (λ t. (t.0, map_values f t.1)) (field.pop_store t stack) }
    ensures load_field { (f : A → B) (t : Scalar) (offset : ℕ) (r : Option ObjRef) (s : State A)
        → field.load_field t offset r (map_state f s) ≡ on_ok (map_state f) (field.load_field t offset r s) }
    ensures store_field { (f : A → B) (t : Scalar) (offset : ℕ) (o : Operands ℕ (Option ObjRef)) (s : State A)
        → field.store_field t offset o (map_state f s) ≡ on_ok (map_state f) (field.store_field t offset o s) }
    ensures pop_element { (f : A → B) (stack : List (Value A))
        → element.pop_element (map_values f stack) ≡ on_ok (λ t. (t.0, map_values f t.1)) (element.pop_element stack) }
    ensures pop_element_store { (f : A → B) (t : Scalar) (stack : List (Value A))
        → element.pop_element_store t (map_values f stack)
        ≡ on_ok (λ t. (t.0, map_values f t.1)) (element.pop_element_store t stack) }
    ensures load_element { (f : A → B) (e : Option Scalar) (t : Scalar) (o : Operands Num (Option ObjRef)) (s : State A)
        → element.load_element e t o (map_state f s) ≡ on_ok (map_state f) (element.load_element e t o s) }
    ensures store_element { (f : A → B) (e : Option Scalar) (t : Scalar) (fits : Bool)
        (o : Operands ℕ (Operands Num (Option ObjRef))) (s : State A)
        → element.store_element e t fits o (map_state f s)
        ≡ on_ok (map_state f) (element.store_element e t fits o s) }
    ensures load_length { (f : A → B) (is_array : Bool) (r : Option ObjRef) (s : State A)
        → element.load_length is_array r (map_state f s) ≡ on_ok (map_state f) (element.load_length is_array r s) }
{}
