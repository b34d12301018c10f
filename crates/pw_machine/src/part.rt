use pw_model::Vote;
use std::collections::LinkedList;
use std::marker::Model;

/// What a record holds: a container its children's votes, a domain its members' asks and limits, a
/// group the states of its members' votes.
#[derive(Drop)]
pub enum Noted {
    Votes(LinkedList<Vote>),
    Levels {
        asks: LinkedList<u8>,
        limits: LinkedList<u8>,
    },
    States(LinkedList<u8>),
}

/// The part of a state that a record holds, as a seat notes it. No value of it is made.
#[derive(Drop)]
pub struct Part {
    content: Noted,
}

impl Model for Part {
    ghost use Rattle.pw_model.specs.Records.{Part as part};
    ghost use Rattle.pw_machine.specs.Parts.{noted};

    ghost Value = { part };

    ghost view = { λ p. noted p.content };
}
