// The call itself: start, next transfer, report of an outcome.
ghost use Rattle.std.specs.Prelude.{◌≡◌, length};
ghost use Rattle.writing.specs.Writing.{plan_of, start_of, own_bytes, shown_of, work_shown, next_of, work_after, part_of, advance_of, gave_up, retry_of, end_of, fail_of, settle_of, replied_of, counted_of, report_of};

use crate::frames::Frames;
use engine::budget::{Budget, Tally};
use engine::bus::{Lent, Outcome, Phase, Reported, Task, Transfer};
use engine::limit::Limit;
use protocol::bytes;
use protocol::common::{Config, Side};
use protocol::error::Answer;

// What a writing call is: its retries and whether its waits grow, whether its frames carry a PEC, what it asks of the payload's length, and its frames.
#[derive(Clone, Copy, Debug, PartialEq, Eq)]
pub struct WritePlan {
    pub retries: u16,
    pub growing: bool,
    pub pec: bool,
    pub limit: Limit,
    pub frames: Frames,
}

impl WritePlan {
    // The frames of a call whose limit is this, by the settings' waits and by their retries and PEC on the side of what writes.
    pub fn new(config: Config, limit: Limit, frames: Frames) -> WritePlan
        ensures { result ≡ plan_of config limit frames }
    {
        WritePlan {
            retries: config.retries(Side::Write),
            growing: config.growing_waits,
            pec: config.pec(Side::Write),
            limit,
            frames,
        }
    }
}

// A writing call. It goes in by value and comes back.
#[derive(Clone, Copy, Debug, PartialEq, Eq)]
pub struct WriteCall {
    // The plan, and the lengths of payload and work buffer at the start.
    pub task: Task<WritePlan>,
    pub phase: Phase,
    // Frames acknowledged so far.
    pub sent: u32,
    // The retries left to the frame that is due.
    pub budget: Budget,
    pub tally: Tally,
}

// What a call says that gives up: why, or how much of a data-flash write was acknowledged.
fn gave_up(frames: Frames, sent: u32, why: Answer) -> Answer
    ensures { result ≡ gave_up frames sent why }
{
    if frames.flash() && sent != 0 {
        Answer::PartialDataFlashWrite {
            committed: bytes::block_start(sent),
        }
    } else {
        why
    }
}

// Stays: the steps of both engines are alike, but each comes to a definition of its own (`Writing`, `Reading`), of which the promises speak.
impl WriteCall {
    // A call starts: it waits with its first frame due, is done at once, or is refused.
    pub fn start(plan: WritePlan, payload: &[u8], work: &[u8]) -> WriteCall
        ensures { result ≡ start_of plan (length payload.now) (length work.now) }
    {
        let lent = Lent {
            length: payload.len(),
            work: work.len(),
        };
        WriteCall {
            task: Task { plan, lent },
            phase: plan
                .limit
                .admit(plan.frames.first_address(), lent.length, lent.work),
            sent: 0,
            budget: Budget { left: plan.retries },
            tally: Tally::new(),
        }
    }

    // Whether the caller's own bytes are sent: a plain write with no PEC.
    fn own_bytes(self) -> bool
        ensures { result ≡ own_bytes self }
    {
        self.task.plan.frames.plain() && !self.task.plan.pec
    }

    // The frame that is due, laid in the work buffer.
    fn show(self, payload: &[u8], work: &mut [u8]) -> Transfer
        ensures { (result ≡ shown_of self payload.now (length work.old)) × (work.new ≡ work_shown self payload.now work.old) }
    {
        let plan = self.task.plan;
        Transfer::write(plan.frames.lay(payload, self.sent, work, plan.pec))
    }

    // The next transfer, the same if asked again; the answer once the call has ended.
    pub fn next(self, payload: &[u8], work: &mut [u8]) -> Transfer
        ensures { (result ≡ next_of self payload.now (length work.old)) × (work.new ≡ work_after self payload.now work.old) }
    {
        if let Phase::Ended(answer) = self.phase {
            return Transfer::Ended(answer);
        }
        if !self.task.lent.fits(payload.len(), work.len()) {
            return Transfer::Refused(Answer::WrongBuffer);
        }
        if self.own_bytes() {
            Transfer::Write(payload.len())
        } else {
            self.show(payload, work)
        }
    }

    // The n bytes of the write that was shown, from whichever holds them.
    pub fn to_send<'a>(self, payload: &'a [u8], work: &'a [u8], n: usize) -> &'a [u8]
        ensures { result.now ≡ part_of self payload.now work.now n }
    {
        bytes::to_send(payload, work, !self.own_bytes(), n)
    }

    // The frame was acknowledged: the next one is due, with a budget of its own, or the call is done.
    fn advance(self) -> WriteCall
        ensures { result ≡ advance_of self }
    {
        let Task { plan, lent } = self.task;
        let sent = self.sent.saturating_add(1);
        let budget = Budget { left: plan.retries };
        WriteCall {
            phase: Phase::after(plan.frames.count(lent.length), sent),
            sent,
            budget,
            ..self
        }
    }

    // The same frame again, after a wait of so many milliseconds.
    fn retry(self, budget: Budget, ms: u32) -> WriteCall
        ensures { result ≡ retry_of self budget ms }
    {
        WriteCall {
            phase: Phase::Waiting,
            budget,
            tally: self.tally.wait(ms),
            ..self
        }
    }

    // The call ends with an answer.
    fn end(self, why: Answer) -> WriteCall
        ensures { result ≡ end_of self why }
    {
        WriteCall {
            phase: Phase::Ended(gave_up(self.task.plan.frames, self.sent, why)),
            ..self
        }
    }

    // An attempt failed.
    fn fail(self, why: Answer) -> WriteCall
        ensures { result ≡ fail_of self why }
    {
        let plan = self.task.plan;
        match self.budget.fail(plan.retries, plan.growing) {
            Some((left, ms)) => self.retry(left, ms),
            None => self.end(why),
        }
    }

    // What an outcome of the transfer that is due leads to.
    // Stays: an arm for each outcome of the bus: the match shows that none is missing, which a table of functions would not.
    fn settle(self, outcome: Outcome) -> WriteCall
        ensures { result ≡ settle_of self outcome }
    {
        match outcome {
            Outcome::Acknowledged => self.advance(),
            Outcome::BusError(code) => self.fail(Answer::I2c(code)),
            Outcome::Timeout => self.fail(Answer::Timeout),
        }
    }

    // Whether an outcome brings a reply, which no write has. That of a failure is not looked at.
    fn replied(outcome: Outcome, reply: usize) -> bool
        ensures { result ≡ replied_of outcome reply }
    {
        match outcome {
            Outcome::Acknowledged => reply != 0,
            _ => false,
        }
    }

    // The same call with one transfer more.
    fn counted(self) -> WriteCall
        ensures { result ≡ counted_of self }
    {
        WriteCall {
            tally: self.tally.transfer(),
            ..self
        }
    }

    // An outcome is reported: refused with 10, 8 or 9 and the call as it was, or taken and counted.
    pub fn report(
        self,
        outcome: Outcome,
        reply: &[u8],
        payload: &[u8],
        work: &[u8],
    ) -> Reported<WriteCall>
        ensures { result ≡ report_of self outcome (length reply.now) (length payload.now) (length work.now) }
    {
        if let Phase::Ended(_) = self.phase {
            return Err((Answer::NothingOutstanding, self));
        }
        if !self.task.lent.fits(payload.len(), work.len()) {
            return Err((Answer::WrongBuffer, self));
        }
        if WriteCall::replied(outcome, reply.len()) {
            return Err((Answer::WrongReply, self));
        }
        Ok(self.counted().settle(outcome))
    }
}
