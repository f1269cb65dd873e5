// The address register of a ROM: the position in bits, and Load Address, Read Byte, Read and Branch on it. It knows no device.
#![tactic(auto)]

ghost use Rattle.std.specs.Prelude.{◌≡◌, ◌*◌, ◌/◌, ◌+◌, ◌^◌, ◌≤◌, ◌<◌};
ghost use Rattle.address.specs.Addresses.{position_limit, address_limit, nibbles, power_up_address, with_nibble, loaded, past_byte, branch_address, branched, restarted, moved_to, address_valid};

use base::bytes::byte_at;

// The position in bits, and the nibble of the address that the next load sets. No invariant keeps them in their ranges: a host may hold a
// chip with any, and it is refused with 4.
#[derive(Clone, Copy, Debug, PartialEq, Eq)]
pub struct AddressRegister {
    pub position: usize,
    pub next_nibble: u8,
}

// The weight of a nibble of an address.
fn weight(nibble: u8) -> usize
    requires { nibble < nibbles }
    ensures { (result ≡ 16 ^ nibble) × (1 ≤ result) × (result ≤ 65536) }
{
    16usize.pow(u32::from(nibble))
}

// The address with one nibble set.
fn with_nibble(address: usize, nibble: u8, value: u8) -> usize
    requires { (address < address_limit) × (nibble < nibbles) × (value < 16) }
    ensures { result ≡ with_nibble address nibble value }
{
    let w = weight(nibble);
    let above = 16 * w;
    (address / above * above + usize::from(value) * w + address % w)
        % AddressRegister::ADDRESS_LIMIT
}

// Where a branch from a byte address leads.
fn branch_address(image: &[u8], address: usize) -> usize
    requires { address ≤ address_limit }
    ensures { result ≡ branch_address image.now address }
{
    let word = u16::from_le_bytes([byte_at(image, address), byte_at(image, address + 1)]);
    address / AddressRegister::ROM_SIZE * AddressRegister::ROM_SIZE
        + usize::from(word) % AddressRegister::ROM_SIZE
}

impl AddressRegister {
    pub const POSITION_LIMIT: usize = 2097152;

    // The bytes of one ROM chip, and those of all that an address reaches.
    pub const ROM_SIZE: usize = 16384;

    pub const ADDRESS_LIMIT: usize = 262144;

    // The nibbles of an address.
    pub const NIBBLES: u8 = 5;

    pub fn power_up() -> AddressRegister
        ensures { result ≡ power_up_address }
    {
        AddressRegister {
            position: 0,
            next_nibble: 0,
        }
    }

    // After Load Address of a nibble. The callers of these three have tested that the register is in its ranges.
    pub fn load(self, value: u8) -> AddressRegister
        requires { (self.next_nibble < nibbles) × (value < 16) }
        ensures { result ≡ loaded self value }
    {
        let address = self.position / 8 % Self::ADDRESS_LIMIT;
        AddressRegister {
            position: 8 * with_nibble(address, self.next_nibble, value),
            next_nibble: (self.next_nibble + 1) % Self::NIBBLES,
        }
    }

    // After Read Byte.
    pub fn pass_byte(self) -> AddressRegister
        requires { self.position ≤ position_limit }
        ensures { result ≡ past_byte self }
    {
        AddressRegister {
            position: self.position + 8,
            next_nibble: 0,
        }
    }

    // After Read and Branch.
    pub fn branch(self, image: &[u8]) -> AddressRegister
        requires { self.position ≤ position_limit }
        ensures { result ≡ branched image.now self }
    {
        AddressRegister {
            position: 8 * branch_address(image, self.position / 8),
            next_nibble: 0,
        }
    }

    // After Speak.
    pub fn restart(self) -> AddressRegister
        ensures { result ≡ restarted self }
    {
        AddressRegister {
            next_nibble: 0,
            ..self
        }
    }

    // At another position, as speech from ROM moves it.
    pub fn move_to(self, position: usize) -> AddressRegister
        ensures { result ≡ moved_to position self }
    {
        AddressRegister { position, ..self }
    }

    pub fn valid(self) -> bool
        ensures { result ≡ address_valid self }
    {
        (self.position <= Self::POSITION_LIMIT) & (self.next_nibble < Self::NIBBLES)
    }
}
