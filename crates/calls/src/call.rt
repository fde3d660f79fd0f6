// A call: start, next transfer, the part to send, report of an outcome. A step is lent a payload, which is read, and a buffer, which is filled: a writing
// call looks at the payload alone; a reading call looks at the buffer alone, and a command's start at its input too. A work buffer is lent beside them.
ghost use Rattle.std.specs.Prelude.{◌≡◌, length};
ghost use Rattle.calls.specs.Call.{start_of, next_of, work_after, part_of, report_of, buffer_after, phase_of, tally_of, fits_of};

use crate::kind::{Kind, Plan};
use engine::budget::Tally;
use engine::bus::{Outcome, Phase, Reported, Transfer};
use protocol::common::Config;
use reading::call::ReadCall;
use writing::call::WriteCall;

// A call, by the engine that carries it out. It goes in by value and comes back.
#[derive(Clone, Copy, Debug, PartialEq, Eq)]
pub enum Call {
    Write(WriteCall),
    Read(ReadCall),
}

// A call and the transfer that it shows.
#[derive(Clone, Copy, Debug, PartialEq, Eq)]
pub struct Shown {
    pub call: Call,
    pub transfer: Transfer,
}

impl Call {
    // A call starts: it waits with its first transfer due, is done at once, or is refused.
    pub fn start(kind: Kind, config: Config, payload: &[u8], buffer: &[u8], work: &[u8]) -> Call
        ensures { result ≡ start_of kind config (length payload.now) (length buffer.now) (length work.now) }
    {
        match kind.plan(config, payload.len(), buffer.len()) {
            Plan::Write(plan) => Call::Write(WriteCall::start(plan, payload, work)),
            Plan::Read(plan) => Call::Read(ReadCall::start(plan, buffer, work)),
        }
    }

    // What the call shows.
    fn show(self, payload: &[u8], buffer: &[u8], work: &mut [u8]) -> Transfer
        ensures { (result ≡ next_of self payload.now (length buffer.now) (length work.old)) × (work.new ≡ work_after self payload.now (length buffer.now) work.old) }
    {
        match self {
            Call::Write(call) => call.next(payload, work),
            Call::Read(call) => call.next(buffer, work),
        }
    }

    // The next transfer, the same if asked again; the answer once the call has ended. The call is handed back as it was.
    pub fn next(self, payload: &[u8], buffer: &[u8], work: &mut [u8]) -> Shown
        ensures { (result.call ≡ self) × (result.transfer ≡ next_of self payload.now (length buffer.now) (length work.old)) × (work.new ≡ work_after self payload.now (length buffer.now) work.old) }
    {
        Shown {
            call: self,
            transfer: self.show(payload, buffer, work),
        }
    }

    // The n bytes of the write that was shown, from whichever holds them.
    pub fn to_send<'a>(self, payload: &'a [u8], work: &'a [u8], n: usize) -> &'a [u8]
        ensures { result.now ≡ part_of self payload.now work.now n }
    {
        match self {
            Call::Write(call) => call.to_send(payload, work, n),
            Call::Read(call) => call.to_send(work, n),
        }
    }

    // An outcome is reported: refused with 10, 8 or 9 and call and buffer as they were, or taken.
    // Stays: tried with `map` and `map_err`: what their closures promise is longer to cite than these arms.
    pub fn report(
        self,
        outcome: Outcome,
        reply: &[u8],
        payload: &[u8],
        buffer: &mut [u8],
        work: &[u8],
    ) -> Reported<Call>
        ensures { (result ≡ report_of self outcome reply.now (length payload.now) (length buffer.old) (length work.now)) × (buffer.new ≡ buffer_after self outcome reply.now buffer.old (length work.now)) }
    {
        match self {
            Call::Write(call) => match call.report(outcome, reply, payload, work) {
                Ok(next) => Ok(Call::Write(next)),
                Err((why, same)) => Err((why, Call::Write(same))),
            },
            Call::Read(call) => match call.report(outcome, reply, buffer, work) {
                Ok(next) => Ok(Call::Read(next)),
                Err((why, same)) => Err((why, Call::Read(same))),
            },
        }
    }

    // Where the call stands: it waits, or has ended with its answer.
    pub fn phase(self) -> Phase
        ensures { result ≡ phase_of self }
    {
        match self {
            Call::Write(call) => call.phase,
            Call::Read(call) => call.phase,
        }
    }

    // What the call counts beside its answer.
    // Stays: a field of either engine's call; a trait over both would be longer than the two.
    pub fn tally(self) -> Tally
        ensures { result ≡ tally_of self }
    {
        match self {
            Call::Write(call) => call.tally,
            Call::Read(call) => call.tally,
        }
    }

    // Whether what the call looks at, and the work buffer, have the lengths of the start again.
    pub fn fits(self, payload: usize, buffer: usize, work: usize) -> bool
        ensures { result ≡ fits_of self payload buffer work }
    {
        match self {
            Call::Write(call) => call.task.lent.fits(payload, work),
            Call::Read(call) => call.task.lent.fits(buffer, work),
        }
    }
}
