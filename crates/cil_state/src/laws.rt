//! What holds of every state, whatever names the types. Each is a function that does nothing and whose clause is the
//! law.

ghost use Rattle.std.specs.Prelude.{◌≡◌, ℕ, Bool, List, map};
ghost use Rattle.cil_state.specs.declared.form.Form.{Form as FormOf};
ghost use Rattle.cil_state.specs.declared.form.Variable.{Variable};
ghost use Rattle.cil_state.specs.declared.state.Frame.{Frame};
ghost use Rattle.cil_state.specs.declared.state.Run.{Run};
ghost use Rattle.cil_state.specs.declared.state.State.{State};
ghost use Rattle.cil_state.specs.declared.value.Value.{Value};
ghost use Rattle.cil_state.specs.Forms as form;
ghost use Rattle.cil_state.specs.Maps.{map_value, map_values, map_form, map_variable, map_variables, map_frame, map_state, map_run};
ghost use Rattle.cil_state.specs.Meets.{on_ok};
ghost use Rattle.cil_state.specs.Operands as operand;
ghost use Rattle.cil_state.specs.State as spec;

/// Names that are changed twice are changed once, to what they are changed to in the end.
pub fn names_compose<A, B, C>()
    ensures { (g : B → C) (f : A → B) (r : Run A) → map_run g (map_run f r) ≡ map_run (λ x. g (f x)) r }
{}

/// Where each name stays, the state does.
pub fn names_kept<A>()
    ensures { (r : Run A) → map_run (λ x. x) r ≡ r }
{}

/// Two states that agree, name by name, under what names stand for, go on to agree when the names of the one come to
/// stand for something else, where each name that agreed goes on to.
pub fn names_agree<A, B, C>()
    ensures { (old new : A → C) (h : B → C) → ((x : A) (y : B) → old x ≡ h y → new x ≡ h y)
        → (s : State A) (u : State B) → map_state old s ≡ map_state h u → map_state new s ≡ map_state h u }
{}

/// Whether names are changed before a call or after it, the call gives the same. Where equality of names is asked for,
/// names that are changed are to keep it.
pub fn names_unseen<A, B>()
    ensures top { (f : A → B) (stack : List (Value A)) → operand.top (map_values f stack) ≡ operand.top stack }
    ensures below { (f : A → B) (stack : List (Value A))
        → operand.below (map_values f stack) ≡ map_values f (operand.below stack) }
    ensures zeroed { (f : A → B) (forms : List (FormOf A))
        → form.zeroed (map (map_form f) forms) ≡ map_variables f (form.zeroed forms) }
    ensures variable { (f : A → B) (variables : List (Variable A)) (n : ℕ)
        → form.variable (map_variables f variables) n ≡ on_ok (map_variable f) (form.variable variables n) }
    ensures loaded { (f : A → B) (variable : Variable A)
        → form.loaded (map_variable f variable) ≡ on_ok (map_value f) (form.loaded variable) }
    ensures assigned { (f : A → B) (equal : A → A → Bool) (same : B → B → Bool)
        → ((x y : A) → same (f x) (f y) ≡ equal x y) → (t : FormOf A) (v : Value A)
        → form.assigned same (map_form f t) (map_value f v) ≡ on_ok (map_value f) (form.assigned equal t v) }
    ensures enter { (f : A → B) (x : Frame A) (s : State A)
        → spec.enter (map_frame f x) (map_state f s) ≡ on_ok (map_state f) (spec.enter x s) }
    ensures leave { (f : A → B) (s : State A)
        → spec.leave (map_state f s) ≡ ((spec.leave s).0, map_state f (spec.leave s).1) }
{}
