// The refusals of document 01, by name. specs/Refusals.antt has their numbers.
ghost use Rattle.std.specs.Prelude.{◌≡◌};
ghost use Rattle.base.specs.Answers.{number_of, number_of_answer, no_shortfall, shortfall_of};
ghost use Rattle.base.specs.declared.refusal.Refusal.TheVariants.{NoPhrase};

// How short the bits are: where the cut frame begins, with its prefix if it has one, and how many bits it lacks.
#[derive(Clone, Copy, Debug, PartialEq, Eq)]
pub struct Shortfall {
    pub begun: usize,
    pub missing: usize,
}

impl Shortfall {
    // Where no frame is cut.
    pub fn none() -> Shortfall
        ensures { result ≡ no_shortfall }
    {
        Shortfall {
            begun: 0,
            missing: 0,
        }
    }
}

// Why a call is refused, in the order of the numbers 1 to 10.
#[derive(Clone, Copy, Debug, PartialEq, Eq)]
pub enum Refusal {
    Wait,
    Beyond,
    Image,
    State,
    VoiceSize,
    VoiceLength,
    VoiceVersion,
    VoiceValue,
    VoicePulse,
    NoPhrase(Shortfall),
}

impl Refusal {
    pub fn number(self) -> u8
        ensures { result ≡ number_of self }
    {
        match self {
            Refusal::Wait => 1,
            Refusal::Beyond => 2,
            Refusal::Image => 3,
            Refusal::State => 4,
            Refusal::VoiceSize => 5,
            Refusal::VoiceLength => 6,
            Refusal::VoiceVersion => 7,
            Refusal::VoiceValue => 8,
            Refusal::VoicePulse => 9,
            Refusal::NoPhrase(_) => 10,
        }
    }

    // How short the bits are; zeros where no frame is cut.
    pub fn shortfall(self) -> Shortfall
        ensures { result ≡ shortfall_of self }
    {
        match self {
            Refusal::NoPhrase(short) => short,
            _ => Shortfall::none(),
        }
    }
}

impl From<Shortfall> for Refusal {
    ghost from_gives = { λ short refusal. refusal ≡ NoPhrase short };

    fn from(cut: Shortfall) -> Refusal {
        Refusal::NoPhrase(cut)
    }
}

// The number of an answer: 0 where the call is taken.
pub fn number_of<T>(answer: &Result<T, Refusal>) -> u8
    ensures { result ≡ number_of_answer answer.now }
{
    match answer {
        Ok(_) => 0,
        Err(refusal) => refusal.number(),
    }
}
