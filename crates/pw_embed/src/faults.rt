ghost use Rattle.std.specs.Prelude.{◌≡◌};
ghost use Rattle.pw_embed.specs.Faults.{block_numbers, data_numbers, header_why, limit_numbers, object_numbers, twice_numbers, why_of};

use acpi_values::{Place, Why};
use aml_block::{BlockFault, HeaderFault};
use aml_data::DataFault;

/// Why blocks were refused, and where. What isn't said of a fault is 0.
#[repr(C)]
#[derive(Clone, Copy)]
pub struct FaultNumbers {
    /// 1 to 5 of the header, 11 to 17 of data, 21 of a term, 31 to 35 of an object, 41 to 45 of a limit.
    pub why: u32,
    /// Of an object the element of the package, counted from 1.
    pub outer: u32,
    /// Of an object the element within that one, counted from 1.
    pub inner: u32,
    /// The byte or the opcode that stands there, or the count that passes a limit.
    pub found: u32,
    /// The byte of the block, counted from 0.
    pub at: u64,
    /// How many bytes the path of the object has.
    pub path_length: u64,
}

/// The number of a fault of a header.
fn header_why(why: HeaderFault) -> u32
    ensures { result ≡ header_why why }
{
    match why {
        HeaderFault::Large => 1,
        HeaderFault::Short => 2,
        HeaderFault::Signature => 3,
        HeaderFault::Length => 4,
        HeaderFault::Sum => 5,
    }
}

/// The number of why an object has no meaning.
fn why_of(why: Why) -> u32
    ensures { result ≡ why_of why }
{
    match why {
        Why::Kind => 31,
        Why::Count => 32,
        Why::Revision => 33,
        Why::Range => 34,
        Why::Register => 35,
    }
}

impl FaultNumbers {
    /// No fault.
    pub const NONE: FaultNumbers = FaultNumbers {
        why: 0,
        outer: 0,
        inner: 0,
        found: 0,
        at: 0,
        path_length: 0,
    };

    fn at(why: u32, found: u32, at: usize) -> FaultNumbers
        ensures { result ≡ record {
          why = why;
          outer = 0;
          inner = 0;
          found = found;
          at = at;
          path_length =
              0;
        } }
    {
        FaultNumbers {
            why,
            outer: 0,
            inner: 0,
            found,
            at: at as u64,
            path_length: 0,
        }
    }

    fn of_data(fault: DataFault) -> FaultNumbers
        ensures { result ≡ data_numbers fault }
    {
        match fault {
            DataFault::Short { at } => FaultNumbers::at(11, 0, at),
            DataFault::BadLead { at, byte } => FaultNumbers::at(12, u32::from(byte), at),
            DataFault::BadLength { at } => FaultNumbers::at(13, 0, at),
            DataFault::BadName { at } => FaultNumbers::at(14, 0, at),
            DataFault::BadText { at } => FaultNumbers::at(15, 0, at),
            DataFault::TooMany { at } => FaultNumbers::at(16, 0, at),
            DataFault::TooDeep { at } => FaultNumbers::at(17, 0, at),
            DataFault::Memory => FaultNumbers::at(0, 0, 0),
        }
    }

    /// The numbers of a block's fault.
    pub fn of_block(fault: BlockFault) -> FaultNumbers
        ensures { result ≡ block_numbers fault }
    {
        match fault {
            BlockFault::Header { why } => FaultNumbers::at(header_why(why), 0, 0),
            BlockFault::Data(fault) => FaultNumbers::of_data(fault),
            BlockFault::BadTerm { at, opcode } => FaultNumbers::at(21, u32::from(opcode), at),
            BlockFault::ReadFault => FaultNumbers::at(0, 0, 0),
            BlockFault::Memory => FaultNumbers::at(0, 0, 0),
        }
    }

    /// The numbers of a path of this length that two objects are given.
    pub fn of_twice(path_length: usize) -> FaultNumbers
        ensures { result ≡ twice_numbers path_length }
    {
        FaultNumbers {
            why: 0,
            outer: 0,
            inner: 0,
            found: 0,
            at: 0,
            path_length: path_length as u64,
        }
    }

    /// The numbers of an object without a meaning, whose path has this length.
    pub fn of_object(place: Place, why: Why, path_length: usize) -> FaultNumbers
        ensures { result ≡ object_numbers place why path_length }
    {
        FaultNumbers {
            why: why_of(why),
            outer: place.outer,
            inner: place.inner,
            found: 0,
            at: 0,
            path_length: path_length as u64,
        }
    }

    /// The numbers of a limit of plans that is passed.
    pub fn of_limit(which: u8, number: u32) -> FaultNumbers
        ensures { result ≡ limit_numbers which number }
    {
        FaultNumbers {
            why: 40 + u32::from(which),
            outer: 0,
            inner: 0,
            found: number,
            at: 0,
            path_length: 0,
        }
    }
}
