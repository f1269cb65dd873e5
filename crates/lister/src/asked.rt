// What the lister is asked for: the byte address from which it lists, and the most bytes of an image that it takes.
ghost use Rattle.std.specs.Prelude.{◌≡◌};

use crate::address::address_of;
use rom::bits::IMAGE_LIMIT;

#[derive(Clone, Copy, Debug, PartialEq, Eq)]
pub struct Asked {
    pub address: usize,
    pub most: usize,
}

impl Asked {
    ghost use Rattle.lister.specs.Asked.{at_start, at_argument};

    // The most bytes of an image without an argument.
    const LIMIT: usize = 65536;

    // Without an argument: the start of the image.
    pub fn at_start() -> Asked
        ensures { result ≡ at_start }
    {
        Asked {
            address: 0,
            most: Self::LIMIT,
        }
    }

    // With an argument: the address that it gives, in any image of the library.
    pub fn at_argument(text: &[u8]) -> Asked
        ensures { result ≡ at_argument text.now }
    {
        Asked {
            address: address_of(text),
            most: IMAGE_LIMIT,
        }
    }
}
