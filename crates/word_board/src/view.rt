//! What a pass knows of a board. Views stand in contracts alone: no value of them is made.
use std::collections::LinkedList;

/// A set word: its place, and the number of the pass that set it.
pub struct Mark {
    pub place: u64,
    pub word: u64,
    pub by: u64,
}

/// The number of a pass, and whether it overshot: whether its pass raised the number word and drew nothing.
pub struct Name {
    pub number: u64,
    pub over: bool,
}

/// What became of a drawn number.
pub enum Fate {
    /// It is still with the pass that drew it.
    Pending,
    /// Another pass got it at a split.
    Handed,
    /// It was given up: no pass will have it.
    Lost,
}

/// A number that was drawn, the number of the pass that drew it, and what became of it.
pub struct Draw {
    pub number: u64,
    pub by: u64,
    pub fate: Fate,
}

/// What a pass knows.
pub struct View<P> {
    /// None where the pass was taken in.
    pub page: Option<P>,
    /// The set words that were seen.
    pub seen: LinkedList<Mark>,
    /// The words that this pass set, and those which it took in.
    pub kept: LinkedList<Mark>,
    /// Its own number, and then those that it took in. None where it was taken in itself.
    pub names: LinkedList<Name>,
    /// The numbers that it drew, the last one first, and those which it took in.
    pub drawn: LinkedList<Draw>,
    /// The number word is at least this.
    pub least: u64,
}

/// What the rule of a board is told: its page and the number of its places.
#[derive(Drop)]
pub struct Plan<P> {
    pub page: P,
    pub places: u64,
}
