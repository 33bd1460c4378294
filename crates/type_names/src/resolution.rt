//! Which definition a reference to a type names (ECMA-335 II.7.3, II.22.38).

/// Where a type definition stands: a type of the core library by its number, or a TypeDef row, from 1, of a file, from 0.
#[derive(Clone, Copy)]
pub enum DefPlace {
    InCore(u32),
    InFile(u32, u32),
}
