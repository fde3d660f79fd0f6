// A call run over a course.
ghost use Rattle.std.specs.Prelude.{◌≡◌, length};
ghost use Rattle.engine.specs.Made.{write, read};
ghost use Rattle.calls.specs.Call.{part_of, report_of, buffer_after};
ghost use Rattle.courses.specs.Course.{fates_of};
ghost use Rattle.courses.specs.Run.{world, left, taken_of, transferred, step_of, drive_of, ended_of, refused_of, run_of};

use crate::course;
use crate::course::End;
use calls::call::Call;
use engine::bus::{Reported, Transfer};
use model_gauge::gauge::{Effect, Fate, Gauge, REPLY_BYTES};
use protocol::bytes;
use protocol::error::Answer;

// A call and the gauge on the other side of the bus.
#[derive(Clone, Copy, Debug, PartialEq, Eq)]
pub struct Link {
    pub call: Call,
    pub gauge: Gauge,
}

// What a run leaves: call and gauge as they stand, and how it ended.
#[derive(Clone, Copy, Debug, PartialEq, Eq)]
pub struct Run {
    pub link: Link,
    pub end: End,
}

// The call after a report, which a refusal leaves as it was.
// Stays: its definition, `taken_of`, stands in what a run comes to.
fn taken(reported: Reported<Call>) -> Call
    ensures { result ≡ taken_of reported }
{
    match reported {
        Ok(call) => call,
        Err((_, same)) => same,
    }
}

impl Link {
    // The call hears what came of a transfer.
    fn report(
        self,
        effect: Effect,
        reply: &[u8],
        payload: &[u8],
        buffer: &mut [u8],
        work: &[u8],
    ) -> Link
        ensures { (result ≡ record { call = taken_of (report_of self.call effect.outcome reply.now (length payload.now) (length buffer.old) (length work.now)); gauge = effect.gauge }) × (buffer.new ≡ buffer_after self.call effect.outcome reply.now buffer.old (length work.now)) }
    {
        let reported = self
            .call
            .report(effect.outcome, reply, payload, buffer, work);
        Link {
            call: taken(reported),
            gauge: effect.gauge,
        }
    }

    // The n bytes that the call shows go to the gauge.
    // Stays: what is lent belongs to the caller of `run`: a struct of four borrowed slices would be built there and taken apart at each step.
    fn send<'a>(
        self,
        fate: Fate,
        n: usize,
        payload: &'a [u8],
        buffer: &mut [u8],
        work: &'a [u8],
        flash: &mut [u8],
    ) -> Link
        ensures { world result buffer.new work.now flash.new ≡ transferred (length payload.now) fate (write (part_of self.call payload.now work.now n)) (world self buffer.old work.now flash.old) }
    {
        let frame = self.call.to_send(payload, work, n);
        let effect = self.gauge.write(fate, frame, flash);
        self.report(effect, b"", payload, buffer, work)
    }

    // The read that the call shows goes to the gauge.
    fn ask(
        self,
        fate: Fate,
        command: u8,
        count: usize,
        payload: &[u8],
        buffer: &mut [u8],
        work: &[u8],
        flash: &[u8],
    ) -> Link
        ensures { world result buffer.new work.now flash.now ≡ transferred (length payload.now) fate (read command count) (world self buffer.old work.now flash.now) }
    {
        let mut reply = [0u8; REPLY_BYTES];
        let effect = self.gauge.read(fate, command, count, flash, &mut reply);
        let brought = bytes::front(&reply, effect.replied);
        self.report(effect, brought, payload, buffer, work)
    }

    // One transfer of the call, or none where it shows none.
    fn step(
        self,
        fate: Fate,
        payload: &[u8],
        buffer: &mut [u8],
        work: &mut [u8],
        flash: &mut [u8],
    ) -> Link
        ensures { world result buffer.new work.new flash.new ≡ step_of payload.now fate (world self buffer.old work.old flash.old) }
    {
        match self.call.next(payload, buffer, work).transfer {
            Transfer::Write(n) => self.send(fate, n, payload, buffer, work, flash),
            Transfer::Read(command, count) => {
                self.ask(fate, command, count, payload, buffer, work, flash)
            }
            Transfer::Refused(_) | Transfer::Ended(_) => self,
        }
    }

    // A transfer for each byte of the course.
    fn drive(
        self,
        payload: &[u8],
        buffer: &mut [u8],
        work: &mut [u8],
        flash: &mut [u8],
        course: &[u8],
    ) -> Link
        ensures { world result buffer.new work.new flash.new ≡ drive_of payload.now (fates_of course.now) (world self buffer.old work.old flash.old) }
    {
        let mut link = self;
        for &byte in course {
            link = link.step(course::fate(byte), payload, buffer, work, flash);
        }
        link
    }

    // What a run leaves that ended here.
    fn ended(self, payload: usize, buffer: usize, work: usize) -> Run
        ensures { result ≡ ended_of self payload buffer work }
    {
        let fits = self.call.fits(payload, buffer, work);
        Run {
            link: self,
            end: course::end_of(self.call.phase(), fits),
        }
    }

    // What a run leaves that did not start.
    fn refused(self, answer: Answer) -> Run
        ensures { result ≡ refused_of self answer }
    {
        Run {
            link: self,
            end: End::Answered(answer),
        }
    }

    // The call is run over a course against the gauge, until it has ended or the course has run out. A cut call can be run on.
    pub fn run(
        self,
        payload: &[u8],
        buffer: &mut [u8],
        work: &mut [u8],
        flash: &mut [u8],
        course: &[u8],
    ) -> Run
        ensures { left result buffer.new work.new flash.new ≡ run_of payload.now course.now (world self buffer.old work.old flash.old) }
    {
        match course::admit(flash.len(), course) {
            Ok(()) => {
                let link = self.drive(payload, buffer, work, flash, course);
                link.ended(payload.len(), buffer.len(), work.len())
            }
            Err(answer) => self.refused(answer),
        }
    }
}
