//! Whether parts make a world.

ghost use Rattle.std.specs.Prelude.{◌≡◌, ◌<◌, ◌^◌};
ghost use Rattle.std.specs.Option.{option_copied};
ghost use Rattle.type_tree.specs.Bodies as bodies;
ghost use Rattle.type_tree.specs.Fits.{is_within as run_within};
ghost use Rattle.type_tree.specs.Tokens as tokens;
ghost use Rattle.type_tree.specs.Whole as spec;

use crate::counts::{
    Counts, def_fits, field_fits, is_within, key_fits, method_fits, method_is_below,
};
use crate::definition::{Def, Field, Method};
use crate::parts::{BodyPlace, Locals, Member, Root, WorldFile, WorldParts};
use crate::tree::Key;
use sqlite_items::at;

/// The greatest row number (ECMA-335 II.22), which bounds how many things of a kind there are.
const MOST: usize = 16_777_215;

/// How many roots there are at most.
const MOST_ROOTS: usize = 256;

/// How many numbers of names there are.
const NAMES: usize = 0x1_0000_0000;

/// Whether the definitions stand in the order of their files, the core library's first.
fn are_in_order(defs: &[Def]) -> bool
    ensures { result ≡ spec.are_in_order 0 defs.now }
{
    let mut last = 0;
    for def in defs {
        if def.file < last {
            return false;
        }
        last = def.file;
    }
    true
}

fn root_fits(counts: &Counts, root: &Root) -> bool
    ensures { result ≡ spec.root_fits counts.now root.now }
{
    (root.sig.0 as usize) < counts.sigs && method_is_below(counts, root.method)
}

fn member_fits(counts: &Counts, member: &Member) -> bool
    ensures { result ≡ spec.member_fits counts.now member.now }
{
    match member {
        Member::Field(field) => (field.0 as usize) < counts.fields,
        Member::Method(method) => (method.0 as usize) < counts.methods,
        Member::NoMember | Member::Lost => true,
    }
}

fn members_fit(counts: &Counts, members: &[Member]) -> bool
    ensures { result ≡ spec.members_fit counts.now members.now }
{
    members.iter().all(|member| member_fits(counts, member))
}

fn locals_fit(counts: &Counts, locals: &Option<Locals>) -> bool
    ensures { result ≡ spec.locals_fit counts.now locals.now }
{
    match locals {
        Some(locals) => is_within(locals.first.0, locals.count, counts.sigs),
        None => true,
    }
}

fn lists_fit(counts: &Counts, lists: &[Option<Locals>]) -> bool
    ensures { result ≡ spec.lists_fit counts.now lists.now }
{
    lists.iter().all(|locals| locals_fit(counts, locals))
}

/// Whether the signatures of a file's rows are within their count.
fn rows_fit(counts: &Counts, file: &WorldFile) -> bool
    requires { counts.now.sigs < 2 ^ 32 }
    ensures { result ≡ run_within file.now.first_sig.0 (tokens.row_sigs file.now) counts.now.sigs }
{
    let member_refs = file.member_refs.len();
    let method_specs = file.method_specs.len();
    if member_refs > counts.sigs || method_specs > counts.sigs {
        return false;
    }
    let types = file.type_defs as usize + file.type_refs as usize + file.type_specs as usize;
    let members = file.fields as usize + file.methods as usize + member_refs + method_specs;
    file.first_sig.0 as usize + 2 * types + members <= counts.sigs
}

fn file_fits(counts: &Counts, file: &WorldFile) -> bool
    requires { counts.now.sigs < 2 ^ 32 }
    ensures { result ≡ spec.file_fits counts.now file.now }
{
    rows_fit(counts, file)
        && is_within(file.first_field.0, file.fields, counts.fields)
        && is_within(file.first_method.0, file.methods, counts.methods)
        && members_fit(counts, file.member_refs.as_slice())
        && members_fit(counts, file.method_specs.as_slice())
        && lists_fit(counts, file.locals.as_slice())
}

fn files_fit(counts: &Counts, files: &[WorldFile]) -> bool
    requires { counts.now.sigs < 2 ^ 32 }
    ensures { result ≡ spec.files_fit counts.now files.now }
{
    files.iter().all(|file| file_fits(counts, file))
}

/// The file with a number, from 1.
pub(crate) fn file_at(files: &[WorldFile], number: u32) -> Option<&WorldFile>
    ensures { option_copied result ≡ tokens.file_at files.now number }
{
    if number == 0 {
        return None;
    }
    at(files, number as usize - 1)
}

/// The bytes in which the bodies of a file stand, none where there is no such file.
pub(crate) fn bytes_of(files: &[WorldFile], number: u32) -> &[u8]
    ensures { result.now ≡ bodies.bytes_of (tokens.file_at files.now number) }
{
    match file_at(files, number) {
        Some(file) => file.bytes.as_slice(),
        None => &[],
    }
}

/// Whether a body's place is within the bytes of its file.
fn place_fits(files: &[WorldFile], place: &Option<BodyPlace>) -> bool
    ensures { result ≡ spec.place_fits files.now place.now }
{
    let Some(place) = place else {
        return true;
    };
    let bytes = bytes_of(files, place.file);
    match (place.start as usize).checked_add(place.len as usize) {
        Some(end) => end <= bytes.len(),
        None => false,
    }
}

fn places_fit(files: &[WorldFile], places: &[Option<BodyPlace>]) -> bool
    ensures { result ≡ spec.places_fit files.now places.now }
{
    places.iter().all(|place| place_fits(files, place))
}

fn defs_fit(counts: &Counts, defs: &[Def]) -> bool
    ensures { result ≡ spec.defs_fit counts.now defs.now }
{
    defs.iter().all(|def| def_fits(counts, def))
}

fn methods_fit(counts: &Counts, methods: &[Method]) -> bool
    ensures { result ≡ spec.methods_fit counts.now methods.now }
{
    methods.iter().all(|method| method_fits(counts, method))
}

fn fields_fit(counts: &Counts, fields: &[Field]) -> bool
    ensures { result ≡ spec.fields_fit counts.now fields.now }
{
    fields.iter().all(|field| field_fits(counts, field))
}

fn keys_fit(counts: &Counts, keys: &[Key]) -> bool
    ensures { result ≡ spec.keys_fit counts.now keys.now }
{
    keys.iter().all(|key| key_fits(counts, key))
}

fn roots_fit(counts: &Counts, roots: &[Root]) -> bool
    ensures { result ≡ spec.roots_fit counts.now roots.now }
{
    roots.iter().all(|root| root_fits(counts, root))
}

impl WorldParts {
    /// How many things of each kind there are.
    pub fn counts(&self) -> Counts
        ensures { result ≡ spec.counts self.now }
    {
        Counts {
            names: self.names.len(),
            defs: self.defs.len(),
            methods: self.methods.len(),
            fields: self.fields.len(),
            sigs: self.sigs.len(),
            files: self.files.len(),
        }
    }

    /// Whether no more things of a kind stand here than a world may have.
    fn has_few(&self) -> bool
        ensures { result ≡ spec.has_few self.now }
    {
        let roots = self.roots.len();
        self.defs.len() <= MOST
            && self.methods.len() <= MOST
            && self.fields.len() <= MOST
            && roots <= MOST_ROOTS
            && self.sigs.len() <= MOST + roots
            && self.names.len() < NAMES
    }

    /// Whether the definitions that rules name exist.
    fn named_fit(&self) -> bool
        ensures { result ≡ spec.named_fit self.now }
    {
        let count = self.defs.len();
        (self.value_type.0 as usize) < count
            && (self.enumeration.0 as usize) < count
            && (self.canon.0 as usize) < count
    }

    /// Whether each number in the definitions, methods, fields, signatures and roots stands for a
    /// thing that is here.
    fn things_fit(&self) -> bool
        ensures { result ≡ spec.things_fit self.now }
    {
        let counts = self.counts();
        defs_fit(&counts, self.defs.as_slice())
            && methods_fit(&counts, self.methods.as_slice())
            && fields_fit(&counts, self.fields.as_slice())
            && keys_fit(&counts, self.sigs.as_slice())
            && roots_fit(&counts, self.roots.as_slice())
    }

    /// Whether each method has its place, or none.
    fn bodies_fit(&self) -> bool
        ensures { result ≡ spec.bodies_fit self.now }
    {
        self.bodies.len() == self.methods.len()
            && places_fit(self.files.as_slice(), self.bodies.as_slice())
    }

    /// Whether these parts make a world: there are few enough of each kind, the definitions stand in
    /// the order of their files, the core library's first, and each number stands for a thing that is
    /// here. Takes no memory, and time in the size of the parts.
    #[tactic(auto, unfolding(crate::specs::Whole::is_whole))]
    pub fn is_whole(&self) -> bool
        ensures { result ≡ spec.is_whole self.now }
    {
        if !self.has_few() {
            return false;
        }
        self.named_fit()
            && are_in_order(self.defs.as_slice())
            && self.things_fit()
            && files_fit(&self.counts(), self.files.as_slice())
            && self.bodies_fit()
    }
}
