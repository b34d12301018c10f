use aml_data::{Data, Path};
use pw_base::{CompactList, List};

/// How deep Scope, Device and Processor nest at most: a limit of this project's profile.
pub(crate) const DEEPEST: u32 = 32;

/// One term of a block: what it places in the namespace, or what is passed over (ACPI 6.5, 20.2.5).
#[derive(Drop)]
pub enum Term {
    /// An object with a name.
    Name {
        path: Path,
        value: Data,
    },
    /// Terms whose names are read from a place on that is there already.
    Scope {
        path: Path,
        terms: List<Term>,
    },
    /// A device, and the terms in it.
    Device {
        path: Path,
        terms: List<Term>,
    },
    /// A processor declared by a term of its own, as editions before 6.0 had it. The block is the
    /// address and length of its registers.
    Processor {
        path: Path,
        id: u8,
        block: u32,
        length: u8,
        terms: CompactList<Term>,
    },
    /// A term with a PkgLength whose body isn't read. An opcode behind 5B is 0x5B00 plus its byte.
    Unread {
        opcode: u16,
        body: CompactList<u8>,
    },
    /// A second name of an object.
    Alias {
        source: Path,
        alias: Path,
    },
    /// A name that another block declares, with the type of its object and the number of arguments.
    External {
        path: Path,
        kind: u8,
        args: u8,
    },
    /// A mutex; the flags hold its level.
    Mutex {
        path: Path,
        flags: u8,
    },
    /// An event.
    Event {
        path: Path,
    },
    /// An operation region: a range of an address space.
    Region {
        path: Path,
        space: u8,
        offset: u64,
        length: u64,
    },
}

// Most terms are names: a path and an object, two words each. Beside its registers a Processor has but one
// word for its terms.
const _: () = prove!(size_of::<Term>() == 48);
