//! A world: the definitions, members, names and signatures of a program, each at its number.

ghost use Rattle.std.specs.Prelude.{◌≡◌, ◌<◌, ◌^◌, length, slice_get, IfSome, IsTrue};
ghost use Rattle.std.specs.Option.{option_copied};
ghost use Rattle.type_tree.specs.Bodies as bodies;
ghost use Rattle.type_tree.specs.Fits.{def_fits, field_fits, key_fits, method_fits, is_within};
ghost use Rattle.type_tree.specs.Tokens as tokens;
ghost use Rattle.type_tree.specs.UserStrings as strings;
ghost use Rattle.type_tree.specs.Whole.{IsWhole, counts, place_fits, root_fits, token_fits};

use crate::definition::{Def, Field, Method};
use crate::parts::{BodyPlace, Locals, Root, Token, WorldFile, WorldParts};
use crate::tokens::{nth, row_locals, row_token};
use crate::tree::Key;
use crate::user_strings::text_in;
use crate::whole::{bytes_of, file_at};
use clr_base::{DefId, FieldId, MethId, NameId, SigId};
use std::marker::Model;

/// The bytes at the place of a body.
fn bytes_at<'a>(files: &'a [WorldFile], place: &BodyPlace) -> &'a [u8]
    requires { IsTrue (place_fits files.now (Some place.now)) }
    ensures value { result.now ≡ bodies.bytes_at files.now place.now }
    ensures short { length result.now < 2 ^ 32 }
{
    let bytes = bytes_of(files, place.file);
    let start = place.start as usize;
    &bytes[start..start + place.len as usize]
}

/// A world. Contracts see it as its parts.
#[derive(Drop)]
pub struct World {
    parts: WorldParts,
}

impl Model for World {
    ghost use Rattle.std.specs.Coded.{codes};
    ghost use Rattle.type_tree.specs.World.{Facts};
    ghost use Rattle.type_tree.specs.contracts.tree.Ty as ty;

    ghost Value = { Facts };

    ghost coded = { Prim.hlevel (codes, ty.the_row.coded) };

    ghost use Rattle.type_tree.specs.Whole.{IsWhole};

    ghost view = { λ w. w.parts };

    ghost invariant = { λ w. IsWhole w.parts };
}

impl World {
    /// The world of some parts, which `is_whole` judges.
    pub fn new(parts: WorldParts) -> World
        requires { IsWhole parts }
        ensures { result ≡ parts }
    {
        World { parts }
    }

    /// The parts of the world, which are whole.
    pub fn into_parts(self) -> WorldParts
        ensures value { result ≡ self }
        ensures whole { IsWhole result }
    {
        let World { parts } = self;
        parts
    }

    /// How many definitions there are.
    #[tactic(auto, using(crate::proofs::Bounds::defs_few))]
    pub fn def_count(&self) -> u32
        ensures { result ≡ length self.now.defs }
    {
        self.parts.defs.len() as u32
    }

    /// How many methods there are.
    #[tactic(auto, using(crate::proofs::Bounds::methods_few))]
    pub fn method_count(&self) -> u32
        ensures { result ≡ length self.now.methods }
    {
        self.parts.methods.len() as u32
    }

    /// How many fields there are.
    #[tactic(auto, using(crate::proofs::Bounds::fields_few))]
    pub fn field_count(&self) -> u32
        ensures { result ≡ length self.now.fields }
    {
        self.parts.fields.len() as u32
    }

    /// How many signatures there are.
    #[tactic(auto, using(crate::proofs::Bounds::sigs_few))]
    pub fn sig_count(&self) -> u32
        ensures { result ≡ length self.now.sigs }
    {
        self.parts.sigs.len() as u32
    }

    /// How many roots there are.
    #[tactic(auto, using(crate::proofs::Bounds::roots_few))]
    pub fn root_count(&self) -> u32
        ensures { result ≡ length self.now.roots }
    {
        self.parts.roots.len() as u32
    }

    /// How many names there are.
    #[tactic(auto, using(crate::proofs::Bounds::names_few))]
    pub fn name_count(&self) -> u32
        ensures { result ≡ length self.now.names }
    {
        self.parts.names.len() as u32
    }
}

impl World {
    /// The definition with a number.
    pub fn def(&self, id: DefId) -> &Def
        requires { id.0 < length self.now.defs }
        ensures value { slice_get self.now.defs id.0 ≡ Some result.now }
        ensures fits { IsTrue (def_fits (counts self.now) result.now) }
    {
        nth(self.parts.defs.as_slice(), id.0 as usize)
    }

    /// The method with a number.
    pub fn method(&self, id: MethId) -> &Method
        requires { id.0 < length self.now.methods }
        ensures value { slice_get self.now.methods id.0 ≡ Some result.now }
        ensures fits { IsTrue (method_fits (counts self.now) result.now) }
    {
        nth(self.parts.methods.as_slice(), id.0 as usize)
    }

    /// The field with a number.
    pub fn field(&self, id: FieldId) -> &Field
        requires { id.0 < length self.now.fields }
        ensures value { slice_get self.now.fields id.0 ≡ Some result.now }
        ensures fits { IsTrue (field_fits (counts self.now) result.now) }
    {
        nth(self.parts.fields.as_slice(), id.0 as usize)
    }

    /// The signature with a number.
    pub fn sig(&self, id: SigId) -> &Key
        requires { id.0 < length self.now.sigs }
        ensures value { slice_get self.now.sigs id.0 ≡ Some result.now }
        ensures fits { IsTrue (key_fits (counts self.now) result.now) }
    {
        nth(self.parts.sigs.as_slice(), id.0 as usize)
    }

    /// The text of a name.
    pub fn name(&self, id: NameId) -> &str
        requires { id.0 < length self.now.names }
        ensures { slice_get self.now.names id.0 ≡ Some result.now }
    {
        nth(self.parts.names.as_slice(), id.0 as usize).as_str()
    }

    /// The root with a number, from 0.
    pub fn root(&self, n: u32) -> Root
        requires { n < length self.now.roots }
        ensures value { slice_get self.now.roots n ≡ Some result }
        ensures fits { IsTrue (root_fits (counts self.now) result) }
    {
        *nth(self.parts.roots.as_slice(), n as usize)
    }

    /// The header and the code of a method's body. None where its RVA is 0, and empty where the RVA
    /// names no body in its file.
    pub fn body(&self, id: MethId) -> Option<&[u8]>
        requires { id.0 < length self.now.methods }
        ensures value { option_copied result ≡ bodies.body self.now id.0 }
        ensures short { IfSome result (λ bytes. length bytes.now < 2 ^ 32) }
    {
        let place = *nth(self.parts.bodies.as_slice(), id.0 as usize);
        match place {
            Some(place) => Some(bytes_at(self.parts.files.as_slice(), &place)),
            None => None,
        }
    }

    /// What a token of a file names (III.1.9): its signature, for a type's row also that of its array,
    /// and its member. None where there is no such file, where the table is none of TypeDef, TypeRef,
    /// TypeSpec, Field, MethodDef, MemberRef and MethodSpec, and where the row doesn't exist.
    pub fn token(&self, file: u32, token: u32) -> Option<Token>
        ensures value { result ≡ tokens.token self.now file token }
        ensures fits { IfSome result (λ found. IsTrue (token_fits (counts self.now) found)) }
    {
        let file = file_at(self.parts.files.as_slice(), file)?;
        row_token(file, token / 0x100_0000, token % 0x100_0000)
    }

    /// The local variables that a StandAloneSig row of a file lists. None where the row doesn't exist
    /// and where its blob isn't a list of local variables.
    pub fn locals(&self, file: u32, row: u32) -> Option<Locals>
        ensures value { result ≡ tokens.locals self.now file row }
        ensures fits { IfSome result (λ found. IsTrue (is_within found.first.0 found.count (length self.now.sigs))) }
    {
        let file = file_at(self.parts.files.as_slice(), file)?;
        row_locals(file, row)
    }

    /// The text at an index of a file's user strings, two bytes a character. None where there is no
    /// such file, where the content is outside the heap, and where its length is even and not 0.
    pub fn text(&self, file: u32, index: u32) -> Option<&[u8]>
        ensures { option_copied result ≡ strings.text self.now file index }
    {
        let file = file_at(self.parts.files.as_slice(), file)?;
        text_in(file.users.as_slice(), index)
    }

    /// A law: the parts of a world are whole, so whatever `WorldParts::is_whole` tests holds of them.
    pub fn whole(&self)
        ensures { IsWhole self.now }
    {
        let _ = &self.parts;
    }

    /// System.ValueType.
    #[tactic(auto, using(crate::proofs::Bounds::value_type_exists))]
    pub fn value_type(&self) -> DefId
        ensures value { result ≡ self.now.value_type }
        ensures exists { result.0 < length self.now.defs }
    {
        self.parts.value_type
    }

    /// System.Enum.
    #[tactic(auto, using(crate::proofs::Bounds::enumeration_exists))]
    pub fn enumeration(&self) -> DefId
        ensures value { result ≡ self.now.enumeration }
        ensures exists { result.0 < length self.now.defs }
    {
        self.parts.enumeration
    }

    /// System.__Canon, which stands for every reference type.
    #[tactic(auto, using(crate::proofs::Bounds::canon_exists))]
    pub fn canon(&self) -> DefId
        ensures value { result ≡ self.now.canon }
        ensures exists { result.0 < length self.now.defs }
    {
        self.parts.canon
    }

    /// The definitions, each at its number.
    pub(crate) fn defs(&self) -> &[Def]
        ensures { result.now ≡ self.now.defs }
    {
        self.parts.defs.as_slice()
    }
}
