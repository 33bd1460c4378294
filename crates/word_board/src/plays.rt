//! What each step on a board's table tells the pass that makes it.
use crate::page::Meaning;
use crate::view::{Plan, View};
use atomic_table::{Join, Play, Split, TableRule};
use std::marker::PhantomData;

/// The rule of a board.
pub struct Law;

impl<P: Meaning> TableRule<u64, View<P>, Plan<P>> for Law {
    ghost use Rattle.word_board.specs.Rule.{Ruled};
    ghost use Rattle.word_board.specs.Views.{newcomer};

    ghost holds = { λ plan. Ruled (P.may plan.page) plan.places plan.page };

    ghost first = { λ plan. newcomer plan.page };
}

// A load of a place.
pub(crate) struct Look;

impl<P: Meaning> Play<u64, View<P>> for Look {
    ghost use Rattle.word_board.specs.Steps.{looked_known};

    ghost then = { looked_known P.may };
}

// An exchange of a place from 0.
pub(crate) struct Set;

impl<P: Meaning> Play<u64, View<P>> for Set {
    ghost use Rattle.word_board.specs.Steps.{wrote_known};

    ghost then = { wrote_known P.may };
}

// A load of the number word.
pub(crate) struct Count;

impl<P> Play<u64, View<P>> for Count {
    ghost use Rattle.word_board.specs.Steps.{counted};

    ghost then = { counted };
}

// The number word is raised by one.
pub(crate) struct Number;

impl<P> Play<u64, View<P>> for Number {
    ghost use Rattle.word_board.specs.Steps.{drew};

    ghost then = { drew };
}

// The number that was drawn last is given up.
pub(crate) struct Lose;

impl<P> Play<u64, View<P>> for Lose {
    ghost use Rattle.word_board.specs.Steps.{lost};

    ghost then = { lost };
}

// The number that was drawn last goes to a new pass.
pub(crate) struct Fork;

impl<P> Split<View<P>> for Fork {
    ghost use Rattle.word_board.specs.Views.{handing, forked};

    ghost left = { handing };

    ghost right = { forked };
}

// A pass takes another in.
pub(crate) struct Take;

impl<P> Join<View<P>> for Take {
    ghost use Rattle.word_board.specs.Views.{joined, spent};

    ghost both = { joined };

    ghost spent = { spent };
}

// A load of the number word for what the rule says of a pass at any time.
pub(crate) struct Recall;

impl<P: Meaning> Play<u64, View<P>> for Recall {
    ghost use Rattle.word_board.specs.Steps.{recalled};

    ghost then = { recalled P.may };
}
