//! What kind of thing is loaded, and how many parts its record has.

/// The form of what is loaded.
#[derive(Clone, Copy, PartialEq, Eq)]
pub enum Form {
    Class,
    /// A value type.
    Struct,
    Interface,
    Array,
    Method,
}

/// The form of what is loaded, how many parts of each kind its record has, and its size.
#[derive(Clone, Copy, PartialEq, Eq)]
pub struct Shape {
    pub form: Form,
    /// How many arguments it has.
    pub args: u32,
    /// How many interfaces it has, those of its parents included.
    pub interfaces: u32,
    /// How many fields its definition has itself, static ones included.
    pub fields: u32,
    /// How many virtual slots it has, those of its parents included.
    pub slots: u32,
    /// The bytes that a value of a value type, or an object, takes; 0 for a method.
    pub size: u32,
}
