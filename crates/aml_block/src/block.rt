ghost use Rattle.std.specs.Prelude.{◌≡◌};

use crate::Term;
use aml_data::Width;
use pw_base::List;

/// Which table a block is.
#[derive(Clone, Copy)]
pub enum Signature {
    /// The differentiated system description table.
    Dsdt,
    /// A secondary system description table.
    Ssdt,
}

/// What the header of a block says beside its length and checksum (ACPI 6.5, 5.2.6).
#[derive(Clone, Copy)]
pub struct Header {
    pub signature: Signature,
    pub revision: u8,
    pub oem_id: [u8; 6],
    pub oem_table_id: [u8; 8],
    pub oem_revision: u32,
    pub creator_id: [u8; 4],
    pub creator_revision: u32,
}

/// A definition block.
#[derive(Drop)]
pub struct Block {
    pub header: Header,
    pub terms: List<Term>,
}

impl Block {
    ghost use Rattle.aml_block.specs.Header.{own_width};

    /// The width of the integers of this block by its own revision. In a set of tables the revision of
    /// the DSDT decides (ACPI 6.5, 5.2.11.1).
    pub fn own_width(&self) -> Width
        ensures { result ≡ own_width self.now.header }
    {
        if self.header.revision >= 2 {
            Width::W64
        } else {
            Width::W32
        }
    }
}
