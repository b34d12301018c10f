ghost use Rattle.std.specs.Prelude.{◌≡◌, ◌≤◌, ℕ, length, sum};
ghost use Rattle.std.specs.Int.{w64, from_le_bytes, to_le_bytes};
ghost use Rattle.std.specs.Option.{option_map};
ghost use Rattle.acpi_values.specs.Registers.{wrong_tag};

/// A register, as the Generic Register Descriptor gives it (ACPI 6.5, 5.2.3.2 and 6.4.3.7).
/// The register whose fields are all 0 is the null register, which stands for none.
#[derive(Clone, Copy, PartialEq, Eq)]
pub struct Register {
    /// The address space: 0 memory, 1 ports, 10 the platform communication channel, 127 the
    /// processor's own fixed hardware, and so on.
    pub space: u8,
    /// How many bits it has.
    pub width: u8,
    /// Its first bit, counted from 0.
    pub offset: u8,
    /// The size of an access: 0 undefined, 1 a byte, 2 a word, 3 a double word, 4 a quad word.
    pub access: u8,
    pub address: u64,
}

/// Why bytes are no register.
#[derive(Clone, Copy)]
pub enum RegisterFault {
    /// There aren't 17 bytes, but so many.
    Length { found: usize },
    /// At this place, the first such one, stands a byte that no register has there.
    Tag { at: usize },
    /// The checksum isn't 0, and the bytes sum to this modulo 256, and not to 0.
    Sum { sum: u8 },
}

/// How many bytes a register has.
const SIZE: usize = 17;

/// The sum of the bytes of a register.
fn sum_of(bytes: &[u8]) -> u32
    requires { length bytes.now ≤ 17 }
    ensures { result ≡ sum bytes.now }
{
    bytes.iter().map(|byte| u32::from(*byte)).sum()
}

/// The first place where a byte stands that no register has there.
fn wrong_tag(bytes: &[u8]) -> Option<usize>
    requires { length bytes.now ≡ 17 }
    ensures { result ≡ option_map (λ (t : ℕ × ℕ). t.0) (wrong_tag bytes.now) }
{
    if bytes[0] != 0x82 {
        return Some(0);
    }
    if bytes[1] != 0x0C {
        return Some(1);
    }
    if bytes[2] != 0x00 {
        return Some(2);
    }
    if bytes[15] != 0x79 {
        return Some(15);
    }
    None
}

/// The bytes of an address, lowest first.
fn address_bytes(address: u64) -> [u8; 8]
    ensures value { result ≡ to_le_bytes w64 address }
    ensures read { from_le_bytes w64 result ≡ address }
{
    address.to_le_bytes()
}

impl Register {
    ghost use Rattle.std.specs.Prelude.{◌≡◌, Ok};
    ghost use Rattle.acpi_values.specs.Null.{is_null};
    ghost use Rattle.acpi_values.specs.Registers.{register_bytes, register_of};

    /// Whether it is the null register, which stands for none (ACPI 6.5, 8.4.6.1).
    pub fn is_null(&self) -> bool
        ensures { result ≡ is_null self.now }
    {
        self.space == 0
            && self.width == 0
            && self.offset == 0
            && self.access == 0
            && self.address == 0
    }

    /// The register of a resource template of one register (ACPI 6.5, 6.4.3.7), or what is wrong
    /// first. A checksum of 0 counts as right. It takes no memory.
    #[tactic(auto, unfolding(crate::specs::Registers::register_of))]
    pub fn from_bytes(bytes: &[u8]) -> Result<Register, RegisterFault>
        ensures { result ≡ register_of bytes.now }
    {
        if bytes.len() != SIZE {
            return Err(RegisterFault::Length { found: bytes.len() });
        }
        if let Some(at) = wrong_tag(bytes) {
            return Err(RegisterFault::Tag { at });
        }
        let sum = (sum_of(bytes) % 256) as u8;
        if bytes[16] != 0 && sum != 0 {
            return Err(RegisterFault::Sum { sum });
        }
        let mut address = [0; 8];
        address.copy_from_slice(&bytes[7..15]);
        Ok(Register {
            space: bytes[3],
            width: bytes[4],
            offset: bytes[5],
            access: bytes[6],
            address: u64::from_le_bytes(address),
        })
    }

    /// The resource template of this register, with checksum 0. It takes no memory.
    pub fn to_bytes(&self) -> [u8; 17]
        ensures bytes { result ≡ register_bytes self.now }
        // Reading them gives the register.
        ensures read { register_of result ≡ Ok self.now }
    {
        let [a, b, c, d, e, f, g, h] = address_bytes(self.address);
        [
            0x82,
            0x0C,
            0x00,
            self.space,
            self.width,
            self.offset,
            self.access,
            a,
            b,
            c,
            d,
            e,
            f,
            g,
            h,
            0x79,
            0x00,
        ]
    }
}
