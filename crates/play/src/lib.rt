// What a sample step makes of the sound, by what the control asks of it. The width of the pitch field is a parameter.
#![tactic(auto)]

ghost use Rattle.std.specs.Prelude.{◌≡◌, true, ℕ};
ghost use Rattle.voice.specs.Check.{voice_fault};
ghost use Rattle.sound.specs.State.{sound_valid};
ghost use Rattle.reports.specs.Reports.{Playable};
ghost use Rattle.play.specs.Play.{silent, sounded};

use reports::Action;
use rom::frames::PitchWidth;
use sound::sample::Sampled;
use sound::state::Sound;

fn silent(sound: Sound) -> Sampled
    ensures { result ≡ silent sound }
{
    Sampled { sound, value: 0 }
}

// The sound after an action, and its sample. The caller has tested the voice file and the sound.
pub fn apply(action: Action, sound: Sound, voice: &[u8], pitch_bits: PitchWidth) -> Sampled
    requires { ((version : ℕ) × (voice_fault pitch_bits version voice.now ≡ 0))
        × Playable pitch_bits action
        × (sound_valid sound ≡ true) }
    ensures { result ≡ sounded pitch_bits voice.now action sound }
{
    match action {
        Action::Silent => silent(sound),
        Action::Rest => silent(Sound::at_rest()),
        Action::Begin(frame, interval) => sound
            .set_targets(voice, frame, pitch_bits)
            .interpolate(interval)
            .sample(voice, pitch_bits),
        Action::Interpolate(interval) => sound.interpolate(interval).sample(voice, pitch_bits),
        Action::Continue => sound.sample(voice, pitch_bits),
    }
}
