//! Type trees, the keys of what is loaded, and the world whose types they are.
#![tactic(auto)]

mod canonical;
mod context;
mod copying;
mod counts;
mod definition;
mod equality;
mod kinds;
mod laws;
mod lookup;
mod measure;
mod parts;
mod read_text;
mod room;
mod subst_measure;
mod substitution;
mod text;
mod tokens;
mod tree;
mod user_strings;
mod whole;
mod world;

pub use canonical::{canon, canon_ty, is_pointer_free, shared_form, shared_forms};
pub use context::key_of;
pub use copying::{copy, copy_all, copy_key};
pub use counts::{Counts, all_fit, fits, key_fits};
pub use definition::{Def, Field, Formal, Impl, Method};
pub use equality::{same, same_all, same_key};
pub use kinds::{is_reference, is_value};
pub use laws::{
    canonical_form_fits, canonical_of_canonical, key_of_fits, nothing_put_in, one_tree_of_a_text,
    printed_tree_is_read_back, shared_form_of_substituted, substituted_fits, text_of_a_named_tree,
    two_substitutions,
};
pub use measure::{depth, depth_of_all, depth_of_key, weight, weight_of_all, weight_of_key};
pub use parts::{BodyPlace, Locals, Member, Root, Token, WorldFile, WorldParts};
pub use read_text::read_type_text;
pub use room::with_room;
pub use subst_measure::{subst_depth, subst_weight};
pub use substitution::{subst, subst_all, subst_ty};
pub use text::type_text;
pub use tree::{Key, KeyList, MethKey, Ty, TyList};
pub use world::World;
