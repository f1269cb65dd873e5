// A byte read, and its two halves: the look and the acknowledge.
ghost use Rattle.std.specs.Prelude.{◌≡◌};
ghost use Rattle.base.specs.Answers.{number_of_answer};
ghost use Rattle.chip.specs.Read.{read_fault, look_answer, look_of, acknowledge_answer, acknowledge_of, read_answer, read_of};

use crate::state::Chip;
use base::refusal::Refusal;

// What a read returns: the next chip, and the byte that the bus gets.
#[derive(Clone, Copy, Debug, PartialEq, Eq)]
pub struct BusRead {
    pub chip: Chip,
    pub byte: u8,
}

impl Chip {
    fn read_fault(self) -> Result<(), Refusal>
        ensures { number_of_answer result ≡ read_fault self }
    {
        if !self.valid() {
            return Err(Refusal::State);
        }
        Ok(())
    }

    // Operation: the byte that the bus would get. The chip stays as it is: a look swallows no interrupt.
    pub fn look(self) -> Result<u8, Refusal>
        ensures { look_answer self result ≡ look_of self }
    {
        self.read_fault()?;
        Ok(self.control.bus_byte())
    }

    // Operation: what a bus read does to the state. Refused, the chip is as it was given.
    pub fn acknowledge(self) -> Result<Chip, Refusal>
        ensures { acknowledge_answer self result ≡ acknowledge_of self }
    {
        self.read_fault()?;
        let port = self.control.port.acknowledge();
        Ok(Chip {
            control: self.control.with_port(port),
            ..self
        })
    }

    // Operation: a byte read, which is the look followed by the acknowledge. Refused, the chip is as it was given.
    pub fn read(self) -> Result<BusRead, Refusal>
        ensures { read_answer self result ≡ read_of self }
    {
        let byte = self.look()?;
        let chip = self.acknowledge()?;
        Ok(BusRead { chip, byte })
    }
}
