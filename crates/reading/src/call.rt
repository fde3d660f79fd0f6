// The call itself: start, next transfer, report of an outcome.
ghost use Rattle.std.specs.Prelude.{◌≡◌, length, take};
ghost use Rattle.engine.specs.Bus.{phase_after};
ghost use Rattle.reading.specs.Parts.{read_count};
ghost use Rattle.reading.specs.Reading.{plan_of, plain_plan, mac_plan, start_of, due_ask, shown_head, work_head, shown_of, work_shown, next_of, work_after, headed_of, advance_of, retry_of, end_of, fail_of, heard_head, heard_block, acknowledged_of, weigh_of, judge_of, stored_of, counted_of, report_of, buffer_after};

use crate::parts::{Head, Reads};
use engine::budget::{Budget, Tally};
use engine::bus::{Lent, Outcome, Phase, Reported, Task, Transfer};
use engine::limit::Limit;
use protocol::bytes;
use protocol::common::Config;
use protocol::consts::MAC_CMD;
use protocol::error::Answer;
use protocol::frame::MacCommand;
use protocol::reply::{Ask, Unheard};

// What a reading call is: its retries and whether its waits grow, what it asks of the buffer's length, its head and whether that carries a PEC, and its reads.
#[derive(Clone, Copy, Debug, PartialEq, Eq)]
pub struct ReadPlan {
    pub retries: u16,
    pub growing: bool,
    pub limit: Limit,
    pub head: Head,
    pub head_pec: bool,
    pub reads: Reads,
}

impl ReadPlan {
    // A head and reads of a call whose limit is this, by the settings' waits and, on the side of the reads, by their retries and PEC.
    pub fn new(config: Config, limit: Limit, head: Head, reads: Reads) -> ReadPlan
        ensures { result ≡ plan_of config limit head reads }
    {
        let side = reads.side();
        ReadPlan {
            retries: config.retries(side),
            growing: config.growing_waits,
            limit,
            head,
            head_pec: config.pec(side),
            reads,
        }
    }

    // One plain read, with no head.
    pub fn plain(config: Config, limit: Limit, ask: Ask) -> ReadPlan
        ensures { result ≡ plain_plan config limit ask }
    {
        ReadPlan::new(config, limit, Head::Bare, Reads::Once(ask))
    }

    // A MAC read: the command's frame, then one read of so many bytes, both by `pec_read`.
    pub fn mac(config: Config, limit: Limit, command: MacCommand, count: usize) -> ReadPlan
        ensures { result ≡ mac_plan config limit command count }
    {
        ReadPlan::new(
            config,
            limit,
            Head::Mac(command),
            Reads::Once(Ask::mac(MAC_CMD, count, config.pec_read)),
        )
    }
}

// A reading call. It goes in by value and comes back.
#[derive(Clone, Copy, Debug, PartialEq, Eq)]
pub struct ReadCall {
    // The plan, and the lengths of buffer and work buffer at the start.
    pub task: Task<ReadPlan>,
    pub phase: Phase,
    // Whether the head is due, and not a read.
    pub heading: bool,
    // Blocks handed over so far.
    pub received: u32,
    // The retries left to the whole call.
    pub budget: Budget,
    pub tally: Tally,
}

// What a reported outcome comes to, before anything is changed.
// Stays: four ways on, of which none is another's error.
#[derive(Clone, Copy, Debug, PartialEq, Eq)]
pub enum Verdict {
    // Refused: the call stays as it is.
    Refused(Answer),
    // A failed attempt.
    Failed(Answer),
    // The head was heard.
    Head,
    // A reply that is believed.
    Block,
}

// What an acknowledged head comes to: a write brings no reply.
fn heard_head(reply: usize) -> Verdict
    ensures { result ≡ heard_head reply }
{
    if reply == 0 {
        Verdict::Head
    } else {
        Verdict::Refused(Answer::WrongReply)
    }
}

// What an acknowledged read comes to.
fn heard_block(ask: Ask, reply: &[u8]) -> Verdict
    ensures { result ≡ heard_block ask reply.now }
{
    match ask.hear(reply) {
        Ok(()) => Verdict::Block,
        Err(Unheard::WrongLength) => Verdict::Refused(Answer::WrongReply),
        Err(Unheard::WrongPec) => Verdict::Failed(Answer::Pec),
    }
}

// Stays: as in `writing`: an engine of its own, with a definition for each step.
impl ReadCall {
    // A call starts: it waits with its head or its first read due, is done at once, or is refused.
    pub fn start(plan: ReadPlan, buffer: &[u8], work: &[u8]) -> ReadCall
        ensures { result ≡ start_of plan (length buffer.now) (length work.now) }
    {
        let lent = Lent {
            length: buffer.len(),
            work: work.len(),
        };
        ReadCall {
            task: Task { plan, lent },
            phase: plan
                .limit
                .admit(plan.head.first_address(), lent.length, lent.work),
            heading: plan.head.some(),
            received: 0,
            budget: Budget { left: plan.retries },
            tally: Tally::new(),
        }
    }

    // What the read that is due asks for.
    fn due(self) -> Ask
        ensures { result ≡ due_ask self }
    {
        self.task
            .plan
            .reads
            .ask(self.task.lent.length, self.received)
    }

    // The head, laid in the work buffer.
    fn show_head(self, work: &mut [u8]) -> Transfer
        ensures { (result ≡ shown_head self (length work.old)) × (work.new ≡ work_head self work.old) }
    {
        let plan = self.task.plan;
        Transfer::write(plan.head.lay(self.received, work, plan.head_pec))
    }

    // The head or the read that is due.
    fn show(self, work: &mut [u8]) -> Transfer
        ensures { (result ≡ shown_of self (length work.old)) × (work.new ≡ work_shown self work.old) }
    {
        if self.heading {
            self.show_head(work)
        } else {
            let ask = self.due();
            Transfer::Read(ask.command, ask.count())
        }
    }

    // The next transfer, the same if asked again; the answer once the call has ended.
    pub fn next(self, buffer: &[u8], work: &mut [u8]) -> Transfer
        ensures { (result ≡ next_of self (length buffer.now) (length work.old)) × (work.new ≡ work_after self (length buffer.now) work.old) }
    {
        if let Phase::Ended(answer) = self.phase {
            return Transfer::Ended(answer);
        }
        if self.task.lent.fits(buffer.len(), work.len()) {
            self.show(work)
        } else {
            Transfer::Refused(Answer::WrongBuffer)
        }
    }

    // The n bytes of the head that was shown.
    pub fn to_send(self, work: &[u8], n: usize) -> &[u8]
        ensures { result.now ≡ take n work.now }
    {
        bytes::front(work, n)
    }

    // Where the call stands once so many blocks were handed over.
    fn after(self, received: u32) -> Phase
        ensures { result ≡ phase_after (read_count self.task.plan.reads self.task.lent.length) received }
    {
        let Task { plan, lent } = self.task;
        Phase::after(plan.reads.count(lent.length), received)
    }

    // The head was heard: a read is due, or the call is done where there is none.
    fn headed(self) -> ReadCall
        ensures { result ≡ headed_of self }
    {
        ReadCall {
            phase: self.after(self.received),
            heading: false,
            ..self
        }
    }

    // A block was handed over: the next one is due, from the same budget, or the call is done.
    fn advance(self) -> ReadCall
        ensures { result ≡ advance_of self }
    {
        let received = self.received.saturating_add(1);
        ReadCall {
            phase: self.after(received),
            heading: false,
            received,
            ..self
        }
    }

    // Another attempt, after a wait of so many milliseconds: the head is due again.
    fn retry(self, budget: Budget, ms: u32) -> ReadCall
        ensures { result ≡ retry_of self budget ms }
    {
        ReadCall {
            phase: Phase::Waiting,
            heading: self.task.plan.head.some(),
            budget,
            tally: self.tally.wait(ms),
            ..self
        }
    }

    // The call ends with an answer.
    fn end(self, why: Answer) -> ReadCall
        ensures { result ≡ end_of self why }
    {
        ReadCall {
            phase: Phase::Ended(why),
            ..self
        }
    }

    // An attempt failed.
    fn fail(self, why: Answer) -> ReadCall
        ensures { result ≡ fail_of self why }
    {
        let plan = self.task.plan;
        match self.budget.fail(plan.retries, plan.growing) {
            Some((left, ms)) => self.retry(left, ms),
            None => self.end(why),
        }
    }

    // What an acknowledged transfer comes to.
    fn acknowledged(self, reply: &[u8]) -> Verdict
        ensures { result ≡ acknowledged_of self reply.now }
    {
        if self.heading {
            heard_head(reply.len())
        } else {
            heard_block(self.due(), reply)
        }
    }

    // What an outcome of the transfer that is due comes to. The reply of a failure is not looked at.
    // Stays: an arm for each outcome of the bus: the match shows that none is missing, which a table of functions would not.
    fn weigh(self, outcome: Outcome, reply: &[u8]) -> Verdict
        ensures { result ≡ weigh_of self outcome reply.now }
    {
        match outcome {
            Outcome::Acknowledged => self.acknowledged(reply),
            Outcome::BusError(code) => Verdict::Failed(Answer::I2c(code)),
            Outcome::Timeout => Verdict::Failed(Answer::Timeout),
        }
    }

    // All the tests of a report, in the order 10, 8, 9.
    fn judge(self, outcome: Outcome, reply: &[u8], buffer: usize, work: usize) -> Verdict
        ensures { result ≡ judge_of self outcome reply.now buffer work }
    {
        if let Phase::Ended(_) = self.phase {
            return Verdict::Refused(Answer::NothingOutstanding);
        }
        if self.task.lent.fits(buffer, work) {
            self.weigh(outcome, reply)
        } else {
            Verdict::Refused(Answer::WrongBuffer)
        }
    }

    // The data of a reply goes into the buffer after the blocks that are there.
    fn store(self, reply: &[u8], buffer: &mut [u8])
        ensures { buffer.new ≡ stored_of self reply.now buffer.old }
    {
        let Task { plan, lent } = self.task;
        let at = bytes::block_start(self.received);
        bytes::store_block(
            buffer,
            at,
            self.due().data_of(reply),
            plan.reads.most(lent.length),
        );
    }

    // The same call with one transfer more.
    fn counted(self) -> ReadCall
        ensures { result ≡ counted_of self }
    {
        ReadCall {
            tally: self.tally.transfer(),
            ..self
        }
    }

    // An outcome is reported: refused with 10, 8 or 9 and call and buffer as they were, or taken and counted.
    // Stays: an arm for each verdict: the match shows that none is missing, which a table of functions would not.
    pub fn report(
        self,
        outcome: Outcome,
        reply: &[u8],
        buffer: &mut [u8],
        work: &[u8],
    ) -> Reported<ReadCall>
        ensures { (result ≡ report_of self outcome reply.now (length buffer.old) (length work.now)) × (buffer.new ≡ buffer_after self outcome reply.now buffer.old (length work.now)) }
    {
        let counted = self.counted();
        match self.judge(outcome, reply, buffer.len(), work.len()) {
            Verdict::Refused(why) => Err((why, self)),
            Verdict::Failed(why) => Ok(counted.fail(why)),
            Verdict::Head => Ok(counted.headed()),
            Verdict::Block => {
                self.store(reply, buffer);
                Ok(counted.advance())
            }
        }
    }
}
