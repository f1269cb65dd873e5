// The FIFO of external speech. It knows no mode: its ranges are bounds that the caller gives.
#![tactic(auto)]

ghost use Rattle.std.specs.Prelude.{◌≡◌, ◌++◌, map, ◌*◌, ◌≤◌, ◌<◌, drop, replicate};
ghost use Rattle.fifo.specs.Buffer.{fifo_size, empty_fifo, emptied, appended, used_up, buffer_low, buffer_empty, clear_from, fifo_inside, reversed, read_bytes};

// Which bit of a byte leaves the FIFO first.
#[derive(Clone, Copy, Debug, PartialEq, Eq)]
pub enum BitOrder {
    LeastFirst,
    MostFirst,
}

// The bytes held as they were written, the oldest first, how many they are, how many bits of the oldest are used, and the order in which
// bits leave. The bytes are 16 whatever the level, for there is no heap, and no invariant ties the two: a host may hold a chip with any, and
// it is refused with 4.
#[derive(Clone, Copy, Debug, PartialEq, Eq)]
pub struct Fifo {
    pub bytes: [u8; 16],
    pub level: u8,
    pub used_bits: u8,
    pub order: BitOrder,
}

// The bytes from index n on, and zeros after them.
fn shift(bytes: [u8; 16], n: usize) -> [u8; 16]
    requires { n ≤ fifo_size }
    ensures { result ≡ drop n bytes ++ replicate n 0 }
{
    let mut out = [0; 16];
    out[..bytes.len() - n].copy_from_slice(&bytes[n..]);
    out
}

// Whether the bytes from an index on are all 0.
fn clear_from(bytes: [u8; 16], from: usize) -> bool
    ensures { result ≡ clear_from from bytes }
{
    bytes.iter().skip(from).all(|&byte| byte == 0)
}

// Each byte with its bits in reverse. This loop is vector code; `bytes.map(u8::reverse_bits)` takes eighteen times as many instructions.
fn reverse_all(mut bytes: [u8; 16]) -> [u8; 16]
    ensures { result ≡ map reversed bytes }
{
    for byte in &mut bytes {
        *byte = byte.reverse_bits();
    }
    bytes
}

impl Fifo {
    pub const SIZE: u8 = 16;

    // BL is set with this many bytes held, or fewer.
    pub const LOW_LEVEL: u8 = 8;

    pub fn empty(order: BitOrder) -> Fifo
        ensures { result ≡ empty_fifo order }
    {
        Fifo {
            bytes: [0; 16],
            level: 0,
            used_bits: 0,
            order,
        }
    }

    // All bytes gone, at a stop and at running out; the order stays.
    pub fn discard(self) -> Fifo
        ensures { result ≡ emptied self }
    {
        Fifo::empty(self.order)
    }

    // The FIFO with a byte more. The caller has tested that there is room.
    pub fn append(mut self, byte: u8) -> Fifo
        requires { self.level < fifo_size }
        ensures { result ≡ appended self byte }
    {
        self.bytes[usize::from(self.level)] = byte;
        self.level += 1;
        self
    }

    pub fn is_low(self) -> bool
        ensures { result ≡ buffer_low self }
    {
        self.level <= Self::LOW_LEVEL
    }

    pub fn is_empty(self) -> bool
        ensures { result ≡ buffer_empty self }
    {
        self.level == 0
    }

    // The FIFO with the first `bits` bits of its bytes gone. The caller has read them there.
    pub fn use_up(self, bits: usize) -> Fifo
        requires { (bits ≤ 8 * self.level) × (self.level ≤ fifo_size) }
        ensures { result ≡ used_up self bits }
    {
        let n = bits / 8;
        Fifo {
            bytes: shift(self.bytes, n),
            level: self.level - n as u8,
            used_bits: (bits % 8) as u8,
            ..self
        }
    }

    // The bytes for a reader that takes the most significant bit first.
    pub fn read_bytes(self) -> [u8; 16]
        ensures { result ≡ read_bytes self.order self.bytes }
    {
        match self.order {
            BitOrder::LeastFirst => reverse_all(self.bytes),
            BitOrder::MostFirst => self.bytes,
        }
    }

    // Whether the level is in least..most, the used bits in 0..most_used, and the bytes not held 0.
    pub fn is_inside(self, least: u8, most: u8, most_used: u8) -> bool
        ensures { result ≡ fifo_inside least most most_used self }
    {
        (least <= self.level)
            & (self.level <= most)
            & (self.used_bits <= most_used)
            & clear_from(self.bytes, usize::from(self.level))
    }
}
