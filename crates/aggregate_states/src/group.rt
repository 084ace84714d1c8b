//! Groups, each with the states of its aggregates.
ghost use Rattle.std.specs.Prelude.{◌≡◌};

use crate::state::State;
use meaning::{Row, Sequence};
use std::marker::Model;

/// A group: its key, how many rows it has, and the state of each aggregate. Contracts see the group
/// as it is defined.
#[derive(PartialEq, Eq, Drop)]
pub struct Group {
    key: Row,
    rows: u64,
    states: Sequence<State>,
}

/// The groups of an answer. They are in the order of their keys where it fits its job.
pub type Groups = Sequence<Group>;

impl Model for Group {
    ghost use Rattle.meaning.specs.declared.answer.Group.{Group as AGroup};

    ghost Value = { AGroup };

    ghost view = { λ g. record { key = g.key; rows = g.rows; states = g.states } };

    ghost inverse = { λ g. record { key = g.key; rows = g.rows; states = g.states } };
}

impl Group {
    pub fn new(key: Row, rows: u64, states: Sequence<State>) -> Group
        ensures { result ≡ record { key = key; rows = rows; states = states } }
    {
        Group { key, rows, states }
    }

    pub fn key(&self) -> &Row
        ensures { result.now ≡ self.now.key }
    {
        &self.key
    }

    /// How many rows it has.
    pub fn rows(&self) -> u64
        ensures { result ≡ self.now.rows }
    {
        self.rows
    }

    /// The state of each aggregate.
    pub fn states(&self) -> &[State]
        ensures { result.now ≡ self.now.states }
    {
        self.states.as_slice()
    }

    /// Its key, its rows and its states.
    pub fn into_parts(self) -> (Row, u64, Sequence<State>)
        ensures { self ≡ record { key = result.0; rows = result.1; states = result.2 } }
    {
        let Group { key, rows, states } = self;
        (key, rows, states)
    }
}
