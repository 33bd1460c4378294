//! The namespaces and the names of the core's types, and the names of the assemblies under which the core is found.
ghost use Rattle.std.specs.Prelude.{◌≡◌, ◌<◌};
ghost use Rattle.core_types.specs.CoreTable.{core_defs};
ghost use Rattle.type_names.specs.Resolution as resolution;
ghost use Rattle.type_names.specs.TypeTexts as spec;

use core_types::{CoreType, core_name};

/// How many names of assemblies the core is found under.
pub(crate) const ASSEMBLY_COUNT: usize = 5;

/// The namespace of a type: what stands before the last dot of its full name.
#[tactic(auto, using(crate::proofs::CoreSplits::generic, crate::proofs::CoreSplits::plain))]
pub(crate) fn core_namespace(number: usize) -> &'static str
    requires { number < core_defs }
    ensures { result.now ≡ resolution.core_namespace number }
{
    if number == CoreType::IComparer as usize {
        "System.Collections.Generic"
    } else {
        "System"
    }
}

/// The name of a type: what stands behind the last dot of its full name.
pub(crate) fn core_type_name(number: usize) -> &'static str
    requires { number < core_defs }
    ensures { result.now ≡ resolution.core_type_name number }
{
    let start = core_namespace(number).len() + 1;
    &core_name(number)[start..]
}

/// The name of an assembly under which the core is found.
pub(crate) fn core_assembly(number: usize) -> &'static str
    requires { number < 5 }
    ensures { result.now ≡ spec.core_assembly number }
{
    match number {
        0 => "mscorlib",
        1 => "netstandard",
        2 => "System.Runtime",
        3 => "System.Private.CoreLib",
        _ => "System.Console",
    }
}
