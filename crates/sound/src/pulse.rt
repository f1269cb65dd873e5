// The pulse place.
ghost use Rattle.std.specs.Prelude.{◌≡◌, ◌≤◌};
ghost use Rattle.sound.specs.Pulse.{pulse_max, next_pulse};

// The place after a sample: up by one, or 0 if that is the pitch or more. The place is small, so `as` keeps it.
pub(crate) fn next_pulse(place: u32, pitch: i32) -> u32
    requires { place ≤ pulse_max }
    ensures { result ≡ next_pulse place pitch }
{
    let next = place + 1;
    if pitch <= next as i32 { 0 } else { next }
}
