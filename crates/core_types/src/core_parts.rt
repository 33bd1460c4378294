//! The core library as definitions, methods and names.

ghost use Rattle.std.specs.Prelude.{◌≡◌, [], ◌∷◌, ◌++◌, ◌<◌, IfOk, OnOk};
ghost use Rattle.core_types.specs.CoreLibrary as spec;
ghost use Rattle.core_types.specs.CoreTable as table;

use crate::core_rows::{core_name, def_row, method_count, method_rows};
use crate::core_table::{
    CoreMethod, DEF_COUNT, FormalKind, MemberName, NAME_COUNT, Params, SigType,
};
use crate::core_type::CoreType;
use crate::names::Names;
use clr_base::{DefId, Memory, NameId};
use sqlite_items::Items;
use std::alloc::Global;
use type_tree::{Def, Field, Formal, Method, Ty, TyList};

/// The parts of a world that are the core library's.
#[derive(Drop)]
pub struct CoreParts {
    /// Its names.
    pub names: Names,
    /// Its definitions, each at its number.
    pub defs: Items<Def>,
    /// Its methods, in the order of the definitions.
    pub methods: Items<Method>,
    /// Its fields: none.
    pub fields: Items<Field>,
}

/// The number of a method's name.
fn member_name(name: MemberName) -> NameId
    ensures { result ≡ spec.name_id (table.member_text name) }
{
    NameId(DEF_COUNT as u32 + name.number())
}

/// The tree of a type of the core without arguments. Takes no memory.
pub fn plain(alloc: Global, t: CoreType) -> Ty
    ensures { result ≡ spec.plain t }
{
    Ty::Inst(t.def(), Items::new(alloc))
}

/// A list of one tree.
fn only(alloc: Global, t: Ty) -> Result<TyList, Memory>
    ensures { IfOk result (λ list. list ≡ t ∷ []) }
{
    let mut list = Items::new(alloc);
    list.push(t)?;
    Ok(list)
}

fn tree_of(alloc: Global, t: SigType) -> Ty
    ensures { result ≡ spec.tree_of t }
{
    match t {
        SigType::Core(t) => plain(alloc, t),
        SigType::Parameter => Ty::Var(0),
    }
}

fn trees_of(alloc: Global, params: Params) -> Result<TyList, Memory>
    ensures { IfOk result (λ list. list ≡ spec.trees_of params) }
{
    match params {
        Params::Zero => Ok(Items::new(alloc)),
        Params::One(a) => Ok(only(alloc, tree_of(alloc, a))?),
        Params::Two(a, b) => {
            let mut list = only(alloc, tree_of(alloc, a))?;
            list.push(tree_of(alloc, b))?;
            Ok(list)
        }
        Params::Three(a, b, c) => {
            let mut list = only(alloc, tree_of(alloc, a))?;
            list.push(tree_of(alloc, b))?;
            list.push(tree_of(alloc, c))?;
            Ok(list)
        }
    }
}

/// The method of a row, of the definition with a number.
#[tactic(auto, unfolding(crate::specs::CoreLibrary::method_of))]
fn method_of(alloc: Global, number: u32, row: &CoreMethod) -> Result<Method, Memory>
    ensures { IfOk result (λ method. method ≡ spec.method_of number row.now) }
{
    Ok(Method {
        name: member_name(row.name),
        def: DefId(number),
        flags: row.kind.flags(),
        has_this: row.kind.has_this(),
        vararg: false,
        formals: Items::new(alloc),
        ret: plain(alloc, row.ret),
        params: trees_of(alloc, row.params)?,
    })
}

/// Appends the methods of the definition with a number.
fn push_methods(alloc: Global, methods: &mut Items<Method>, number: usize) -> Result<(), Memory>
    requires { number < table.core_defs }
    ensures { OnOk result (methods.new ≡ methods.old ++ spec.methods_of number) }
{
    let rows = method_rows(number);
    for row in rows {
        methods.push(method_of(alloc, number as u32, row)?)?;
    }
    Ok(())
}

#[tactic(auto, using(clr_base::proofs::Ranges::flat_map_more))]
fn methods(alloc: Global) -> Result<Items<Method>, Memory>
    ensures { IfOk result (λ methods. methods ≡ spec.methods) }
{
    let mut methods = Items::new(alloc);
    for number in 0..DEF_COUNT {
        push_methods(alloc, &mut methods, number)?;
    }
    Ok(methods)
}

fn formals_of(alloc: Global, formal: Option<FormalKind>) -> Result<Items<Formal>, Memory>
    ensures { IfOk result (λ formals. formals ≡ spec.formals_of formal) }
{
    let mut formals = Items::new(alloc);
    let Some(kind) = formal else {
        return Ok(formals);
    };
    formals.push(Formal {
        flags: kind.flags(),
        constraints: Items::new(alloc),
    })?;
    Ok(formals)
}

/// An interface of a definition, whose argument is that definition.
fn of_itself(alloc: Global, interface: CoreType, def: DefId) -> Result<Ty, Memory>
    ensures { IfOk result (λ t. t ≡ spec.with_argument interface (spec.itself def)) }
{
    let argument = Ty::Inst(def, Items::new(alloc));
    Ok(Ty::Inst(interface.def(), only(alloc, argument)?))
}

fn interfaces_of(alloc: Global, is_comparable: bool, def: DefId) -> Result<TyList, Memory>
    ensures { IfOk result (λ list. list ≡ spec.interfaces_of is_comparable def) }
{
    if !is_comparable {
        return Ok(Items::new(alloc));
    }
    let mut list = only(alloc, of_itself(alloc, CoreType::IComparable, def)?)?;
    list.push(of_itself(alloc, CoreType::IEquatable, def)?)?;
    Ok(list)
}

fn parent_of(alloc: Global, parent: Option<CoreType>) -> Option<Ty>
    ensures { result ≡ spec.parent_of parent }
{
    match parent {
        Some(parent) => Some(plain(alloc, parent)),
        None => None,
    }
}

/// The definition with a number, before whose methods so many stand.
#[tactic(auto, unfolding(crate::specs::CoreLibrary::def_of))]
fn def_of(alloc: Global, number: usize, methods_before: u32) -> Result<Def, Memory>
    requires known { number < table.core_defs }
    requires before { methods_before ≡ spec.methods_before number }
    ensures { IfOk result (λ def. def ≡ spec.def_of number) }
{
    let row = def_row(number);
    let id = number as u32;
    Ok(Def {
        name: def_name(id),
        file: 0,
        flags: row.kind.flags(),
        formals: formals_of(alloc, row.formal)?,
        parent: parent_of(alloc, row.parent),
        interfaces: interfaces_of(alloc, row.is_comparable, DefId(id))?,
        first_field: 0,
        fields: 0,
        first_method: methods_before,
        methods: method_count(number),
        impls: Items::new(alloc),
        packing: 0,
        least_size: 0,
    })
}

/// The number of the name of the definition with a number.
fn def_name(number: u32) -> NameId
    requires { number < table.core_defs }
    ensures { result ≡ spec.name_id (table.def_text number) }
{
    NameId(number)
}

fn defs(alloc: Global) -> Result<Items<Def>, Memory>
    ensures { IfOk result (λ defs. defs ≡ spec.defs) }
{
    let mut defs = Items::new(alloc);
    let mut methods_before = 0;
    for number in 0..DEF_COUNT {
        defs.push(def_of(alloc, number, methods_before)?)?;
        methods_before += method_count(number);
    }
    Ok(defs)
}

fn names(alloc: Global) -> Result<Names, Memory>
    ensures { IfOk result (λ names. names ≡ spec.names) }
{
    let mut names = Names::new(alloc);
    for number in 0..NAME_COUNT {
        let _number = names.number(alloc, core_name(number))?;
    }
    Ok(names)
}

/// The core library, which stands in each world before what files have. Nothing of it is read from a
/// file.
#[tactic(auto, unfolding(crate::specs::CoreLibrary::core_library))]
pub fn core_library(alloc: Global) -> Result<CoreParts, Memory>
    ensures { IfOk result (λ parts. parts ≡ spec.core_library) }
{
    Ok(CoreParts {
        names: names(alloc)?,
        defs: defs(alloc)?,
        methods: methods(alloc)?,
        fields: Items::new(alloc),
    })
}
