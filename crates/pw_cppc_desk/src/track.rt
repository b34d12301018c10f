use pw_books::View;
use pw_cppc::CppcEntry;
use std::marker::Model;

/// A kind of step of the desk's machine, as a seat took it. No value of it is made.
pub struct Taken {
    place: u32,
}

impl Model for Taken {
    ghost use Rattle.pw_cppc.specs.declared.entry.CppcEntry.{CppcEntry};
    ghost use Rattle.pw_books.specs.Steps.{Kind, read_made};

    ghost Value = { Kind CppcEntry };

    ghost view = { λ _. read_made };
}

/// A seat of the table.
pub type Track = pw_books::Track<View<CppcEntry>, Taken>;
