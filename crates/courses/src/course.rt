// A course: a byte for each transfer, 0 heard, 1 lost before the gauge acts, 2 lost after.
ghost use Rattle.std.specs.Prelude.{◌≡◌};
ghost use Rattle.courses.specs.Course.{fate_of, sound_of, end_of, admit_of};

use engine::bus::Phase;
use model_gauge::gauge::{FLASH_BYTES, Fate};
use protocol::error::Answer;

// How a run over a course ends.
// Stays: an enum of its own, since `None` would not say that the course ran out.
#[derive(Clone, Copy, Debug, PartialEq, Eq)]
pub enum End {
    // With an answer: the call's, or the run's own refusal.
    Answered(Answer),
    // The course ran out, and the call still waits.
    Cut,
}

// What a byte of a sound course says.
// Stays: a course is bytes (document 01), which `sound` has looked at: `TryFrom` would look again at each step.
pub(crate) fn fate(byte: u8) -> Fate
    ensures { result ≡ fate_of byte }
{
    match byte {
        0 => Fate::Heard,
        1 => Fate::LostBefore,
        _ => Fate::LostAfter,
    }
}

// Whether each byte of a course is 0, 1 or 2.
// Stays: tried with `all`, whose goal stayed open.
fn sound(course: &[u8]) -> bool
    ensures { result ≡ sound_of course.now }
{
    for &byte in course {
        if 2 < byte {
            return false;
        }
    }
    true
}

// A run starts with a flash of 8,192 bytes, else 8, and a sound course, else 11.
pub(crate) fn admit(flash: usize, course: &[u8]) -> Result<(), Answer>
    ensures { result ≡ admit_of flash course.now }
{
    if flash != FLASH_BYTES {
        return Err(Answer::WrongBuffer);
    }
    if !sound(course) {
        return Err(Answer::BadLine);
    }
    Ok(())
}

// How a run ends that leaves its call in this phase, with the lengths of its start lent to it or others.
pub(crate) fn end_of(phase: Phase, fits: bool) -> End
    ensures { result ≡ end_of phase fits }
{
    match phase {
        Phase::Ended(answer) => End::Answered(answer),
        Phase::Waiting if fits => End::Cut,
        Phase::Waiting => End::Answered(Answer::WrongBuffer),
    }
}
