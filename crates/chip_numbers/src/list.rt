// What holds a chip's numbers.
ghost use Rattle.std.specs.Prelude.{◌≡◌, List, ◌<◌, ℕ, ℤ, length, slice_set};
ghost use Rattle.chip_numbers.specs.Chips.{chip_length};
ghost use Rattle.chip_numbers.specs.Fields.{nth};
ghost use Rattle.chip_numbers.specs.Reading.{Reading};

// The numbers of a chip, which a C caller and a trace hold in different widths, and read by different rules.
pub trait NumberList {
    ghost list: { Self → List ℤ };

    // How a natural number is held,
    ghost natural: { ℕ → ℤ };

    // and how numbers are read.
    ghost reading: { Reading };

    // A place is a number written out at each call, so that its bound is a clause.
    fn set_natural(&mut self, i: usize, n: u64)
        requires { i < chip_length }
        ensures { list self.new ≡ slice_set (list self.old) i (natural n) };

    fn set_signed(&mut self, i: usize, z: i32)
        requires { i < chip_length }
        ensures { list self.new ≡ slice_set (list self.old) i z };

    // A natural number; a trace has at most `most` there.
    fn natural_at(&self, i: usize, most: u32) -> u32
        requires { i < chip_length }
        ensures { result ≡ reading.natural most (nth (list self.now) i) };

    fn byte_at(&self, i: usize) -> u8
        requires { i < chip_length }
        ensures { result ≡ reading.byte (nth (list self.now) i) };

    // Energy or pitch.
    fn level_at(&self, i: usize) -> i32
        requires { i < chip_length }
        ensures { result ≡ reading.level (nth (list self.now) i) };

    // K or filter memory.
    fn signed_at(&self, i: usize) -> i32
        requires { i < chip_length }
        ensures { result ≡ reading.signed (nth (list self.now) i) };

    // How many bytes the FIFO holds.
    fn held_level(&self) -> u8
        ensures { result ≡ reading.held_level (list self.now) };

    ghost whole: { (s : Self) → length (list s) ≡ chip_length };
}
