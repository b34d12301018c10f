ghost use Rattle.std.specs.Prelude.{◌≡◌};
ghost use Rattle.aml_data.specs.Meaning.{at_width, all_ones, meaning};

use crate::data::{Data, Width};

fn at_width(value: u64, width: Width) -> u64
    ensures { result ≡ at_width width value }
{
    match width {
        Width::W32 => value % 0x1_0000_0000,
        Width::W64 => value,
    }
}

fn all_ones(width: Width) -> u64
    ensures { result ≡ all_ones width }
{
    match width {
        Width::W32 => 0xFFFF_FFFF,
        Width::W64 => u64::MAX,
    }
}

/// The number that an object means in a table whose integers have this width. A name, a text, a
/// buffer, a package and the revision of the interpreter mean none. It takes no memory.
pub fn integer(value: &Data, width: Width) -> Option<u64>
    ensures { result ≡ meaning value.now width }
{
    match value {
        Data::Int(number) => Some(at_width(*number, width)),
        Data::Ones => Some(all_ones(width)),
        Data::Revision => None,
        Data::Text(_) => None,
        Data::Buffer(_) => None,
        Data::Package { .. } => None,
        Data::VarPackage(_) => None,
        Data::Path(_) => None,
    }
}
