// The kinds of lines of a listing.
ghost use Rattle.std.specs.Prelude.{◌≡◌, ◌*◌, ◌≤◌, Err, length};
ghost use Rattle.base.specs.Answers.{number_of};
ghost use Rattle.rom.specs.Frames.{numbers_of};
ghost use Rattle.rom.specs.Phrases.{walk_answer};
ghost use Rattle.lister.specs.Text.{contents, appended};
ghost use Rattle.lister.specs.Lines.{indexes, frame_line, phrase_line, refused_line, cut_line, walk_line};

use crate::text::Text;
use base::refusal::Refusal;
use rom::frames::Frame;

// `refused` and the number.
pub fn refused_line(refusal: Refusal) -> Text
    ensures { contents result ≡ refused_line (number_of refusal) }
{
    Text::empty()
        .with_word(b"refused ")
        .with_number(u64::from(refusal.number()))
        .with_byte(b'\n')
}

// `refused 10`, the bit at which the cut frame begins and the bits that it lacks.
fn cut_line(begun: usize, missing: usize) -> Text
    ensures { contents result ≡ cut_line begun missing }
{
    Text::empty()
        .with_word(b"refused 10 ")
        .with_number(begun as u64)
        .with_byte(b' ')
        .with_number(missing as u64)
        .with_byte(b'\n')
}

// The line of a refused walk.
#[tactic(auto, using(crate::proofs::LineLaws::walk_line_refused), unfolding(crate::specs::Lines::walk_line))]
pub fn walk_line(refusal: Refusal) -> Text
    ensures { contents result ≡ walk_line (walk_answer (Err refusal)) }
{
    match refusal {
        Refusal::NoPhrase(short) => cut_line(short.begun, short.missing),
        _ => refused_line(refusal),
    }
}

// `phrase`, and the numbers of frames, bits and bytes, each with its word.
pub fn phrase_line(frames: u32, bits: usize, bytes: usize) -> Text
    ensures { contents result ≡ phrase_line frames bits bytes }
{
    Text::empty()
        .with_word(b"phrase ")
        .with_number(u64::from(frames))
        .with_word(b" frames ")
        .with_number(bits as u64)
        .with_word(b" bits ")
        .with_number(bytes as u64)
        .with_word(b" bytes\n")
}

// The text, then indexes, a space before each.
fn with_indexes(t: Text, list: &[u8]) -> Text
    ensures value { contents result ≡ appended t (indexes list.now) }
    ensures short { length (indexes list.now) ≤ 4 * length list.now }
{
    let mut r = t;
    for &index in list {
        r = r.with_byte(b' ').with_number(u64::from(index));
    }
    r
}

// The line of a frame: its first bit, its kind and its indexes, `-` for a kind without a pitch. No listing has a line of no frame.
pub fn frame_line(first: usize, frame: Option<Frame>) -> Text
    ensures { contents result ≡ frame_line first (numbers_of frame) }
{
    let t = Text::empty().with_number(first as u64).with_byte(b' ');
    let t = match frame {
        None => t.with_word(b"none 0 -"),
        Some(Frame::Silence) => t.with_word(b"silence 0 -"),
        Some(Frame::Stop) => t.with_word(b"stop 15 -"),
        Some(Frame::Repeat { energy, pitch }) => {
            with_indexes(t.with_word(b"repeat"), &[energy, pitch])
        }
        Some(
            Frame::Unvoiced {
                energy,
                k1,
                k2,
                k3,
                k4,
            },
        ) => with_indexes(t.with_word(b"unvoiced"), &[energy, 0, k1, k2, k3, k4]),
        Some(
            Frame::Voiced {
                energy,
                pitch,
                k1,
                k2,
                k3,
                k4,
                k5,
                k6,
                k7,
                k8,
                k9,
                k10,
            },
        ) => with_indexes(
            t.with_word(b"voiced"),
            &[energy, pitch, k1, k2, k3, k4, k5, k6, k7, k8, k9, k10],
        ),
    };
    t.with_byte(b'\n')
}
