// A text of at most 80 bytes by value, in ASCII. What does not fit is dropped, so that no function here asks for room; the
// longest line, the phrase's with numbers of 10, 20 and 20 digits, has 78.
ghost use Rattle.std.specs.Prelude.{◌≡◌, ◌≤◌, [], ◌∷◌, length};

use arrayvec::ArrayVec;
use itoa::Buffer;

// The most bytes of a text.
pub const TEXT_SIZE: usize = 80;

#[derive(Drop)]
pub struct Text {
    bytes: ArrayVec<u8, TEXT_SIZE>,
    ghost fits: { length bytes.items ≤ 80 },
}

impl Text {
    ghost use Rattle.lister.specs.Text.{contents, decimal, appended};

    // The text without a byte.
    #[tactic(auto, unfolding(crate::specs::Text::contents))]
    pub fn empty() -> Text
        ensures { contents result ≡ [] }
    {
        Text {
            bytes: ArrayVec::new(),
        }
    }

    #[tactic(auto, unfolding(crate::specs::Text::contents))]
    pub fn as_slice(&self) -> &[u8]
        ensures value { result.now ≡ contents self.now }
        ensures fits { length result.now ≤ 80 }
    {
        self.bytes.as_slice()
    }

    // The text, then a byte.
    pub fn with_byte(self, b: u8) -> Text
        ensures { contents result ≡ appended self (b ∷ []) }
    {
        self.with_word(&[b])
    }

    // The text, then a word.
    pub fn with_word(mut self, word: &[u8]) -> Text
        ensures { contents result ≡ appended self word.now }
    {
        let room = self.bytes.remaining_capacity();
        let _ = self
            .bytes
            .try_extend_from_slice(&word[..room.min(word.len())]);
        self
    }

    // The text, then the decimal digits of a number.
    #[tactic(auto, using(crate::proofs::Decimals::decimal_printed))]
    pub fn with_number(self, n: u64) -> Text
        ensures { contents result ≡ appended self (decimal n) }
    {
        self.with_word(Buffer::new().format(n).as_bytes())
    }
}
