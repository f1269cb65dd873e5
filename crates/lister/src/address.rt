// The byte address that an argument gives, in decimal digits.
ghost use Rattle.std.specs.Prelude.{◌≡◌, [], ◌∷◌, ◌≤◌};
ghost use Rattle.rom.specs.Bits.{image_limit};
ghost use Rattle.lister.specs.Address.{address_after, address_of};

use rom::bits::IMAGE_LIMIT;

// The address when one more character follows. What lies past every image stays there, so the product fits.
#[tactic(auto, using(crate::proofs::AddressLaws::address_digit, crate::proofs::AddressLaws::address_no_digit))]
fn with_digit(address: usize, character: u8) -> usize
    requires { address ≤ image_limit }
    ensures { result ≡ address_after address (character ∷ []) }
{
    if !character.is_ascii_digit() {
        return IMAGE_LIMIT;
    }
    (10 * address + usize::from(character - b'0')).min(IMAGE_LIMIT)
}

// The address of a text: its number, or the first address past every image.
pub fn address_of(text: &[u8]) -> usize
    ensures { result ≡ address_of text.now }
{
    if text.is_empty() {
        return IMAGE_LIMIT;
    }
    let mut address = 0;
    for &character in text {
        address = with_digit(address, character);
    }
    address
}
