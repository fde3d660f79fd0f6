// A run of the bench program: a line in, a line out.
#![tactic(auto)]

ghost use Rattle.std.specs.Prelude.{◌≡◌, length};
ghost use Rattle.hexadecimal.specs.Hex.{out_decoded};
ghost use Rattle.printing.specs.Printing.{printed_of, out_printed};
ghost use Rattle.dialogue.specs.Dialogue.{byte_count, filled, said_of, bytes_said, tell_of, show_of, turned_of, say_of, hear_of, hear_buffer, go_on, go_buffer, room_for, open_of, refused_of, begin_of, begin_buffer, first_of, first_request, first_buffer, answer_of, request_after, outcome_after, buffer_after, last_of, unfinished_of, close_of};

use calls::call::Call;
use engine::budget::Tally;
use engine::bus::{Reported, Transfer};
use protocol::bytes;
use protocol::consts::LEAST_WORK_BUFFER;
use protocol::error::Answer;
use requests::request::Asked;
use requests::{outcome, request};

// Where a call's payload and buffer stand: the payload has `payload` bytes of the request line from byte `at` on, the buffer is the first `buffer` bytes
// of what is lent.
// Stays: a run outlives the borrow of its request line, so it has places in it and no slices.
#[derive(Clone, Copy, Debug, PartialEq, Eq)]
pub struct Place {
    pub at: usize,
    pub payload: usize,
    pub buffer: usize,
}

// What a run is about.
// Stays: the names say where a run stands, which None and Some would not.
#[derive(Clone, Copy, Debug, PartialEq, Eq)]
pub enum Run {
    // Nothing: no request line yet, or one that was refused.
    Fresh,
    // A call.
    Call { call: Call, place: Place },
}

// What was printed.
// Stays: either line was printed, so that neither is an error, as one arm of a Result would be.
#[derive(Clone, Copy, Debug, PartialEq, Eq)]
pub enum Said {
    // A transfer, in a line of so many bytes: the run goes on with its outcome.
    Asked(usize),
    // The last line of the run, of so many bytes.
    Last(usize),
}

// The run after a line, and what was printed.
#[derive(Clone, Copy, Debug, PartialEq, Eq)]
pub struct Turned {
    pub run: Run,
    pub said: Said,
}

// The bytes of a line, at the front of `out`; none of a line that is no hexadecimal, or has no room.
// Stays: a line that is no hexadecimal has no bytes, as `line_bytes` says.
fn decode(line: &[u8], out: &mut [u8]) -> usize
    ensures { (result ≡ byte_count line.now (length out.old)) × (out.new ≡ out_decoded line.now out.old) }
{
    hexadecimal::decode(line, out).unwrap_or(0)
}

// Fills up to n bytes with A5.
// Stays: how much is filled is what the request asks for, of a buffer that may be shorter.
fn fill(buffer: &mut [u8], n: usize)
    ensures { buffer.new ≡ filled n buffer.old }
{
    let end = n.min(buffer.len());
    buffer[..end].fill(0xA5);
}

// A transfer with its frame, or the end of a call with what it counted and its buffer.
// Stays: an arm for each transfer: the match shows that none is missing, which a table of functions would not.
fn tell(transfer: Transfer, frame: &[u8], tally: Tally, buffer: &[u8], out: &mut [u8]) -> Said
    ensures { (result ≡ said_of (tell_of transfer frame.now tally buffer.now) (length out.old)) × (out.new ≡ out_printed (bytes_said (tell_of transfer frame.now tally buffer.now)) out.old) }
{
    match transfer {
        Transfer::Write(_) => Said::Asked(printing::write(frame, out)),
        Transfer::Read(command, count) => Said::Asked(printing::read(command, count, out)),
        Transfer::Refused(answer) | Transfer::Ended(answer) => {
            Said::Last(printing::end(answer, tally, buffer, out))
        }
    }
}

// What a call shows.
fn show(call: Call, place: Place, payload: &[u8], buffer: &[u8], out: &mut [u8]) -> Turned
    ensures { (result ≡ turned_of (show_of call place payload.now buffer.now) (length out.old)) × (out.new ≡ out_printed (bytes_said (show_of call place payload.now buffer.now).saying) out.old) }
{
    let mut work = [0u8; LEAST_WORK_BUFFER];
    let shown = call.next(payload, buffer, &mut work);
    let frame = shown.call.to_send(payload, &work, shown.transfer.sent());
    Turned {
        run: Run::Call {
            call: shown.call,
            place,
        },
        said: tell(shown.transfer, frame, shown.call.tally(), buffer, out),
    }
}

// What came of a start or a report: the next transfer or the end of the call, or why the run is stopped.
fn say(
    reported: Reported<Call>,
    place: Place,
    payload: &[u8],
    buffer: &[u8],
    out: &mut [u8],
) -> Turned
    ensures { (result ≡ turned_of (say_of reported place payload.now buffer.now) (length out.old)) × (out.new ≡ out_printed (bytes_said (say_of reported place payload.now buffer.now).saying) out.old) }
{
    match reported {
        Ok(call) => show(call, place, payload, buffer, out),
        Err((answer, call)) => Turned {
            run: Run::Call { call, place },
            said: Said::Last(printing::end(answer, call.tally(), buffer, out)),
        },
    }
}

// A call that was started, stopped with 8 where less is lent than its buffer of `len` bytes.
fn lent(call: Call, len: usize, room: usize) -> Reported<Call>
    ensures { result ≡ room_for call len room }
{
    if len <= room {
        Ok(call)
    } else {
        Err((Answer::WrongBuffer, call))
    }
}

// A call starts. Its payload is the request line from `at` on, its buffer `len` bytes A5; where less is lent, what is lent is filled.
fn open(asked: Asked, line: &[u8], buffer: &mut [u8], out: &mut [u8]) -> Turned
    ensures { (result ≡ turned_of (open_of asked line.now buffer.old) (length out.old)) × (buffer.new ≡ filled asked.len buffer.old) × (out.new ≡ out_printed (bytes_said (open_of asked line.now buffer.old).saying) out.old) }
{
    fill(buffer, asked.len);
    let work = [0u8; LEAST_WORK_BUFFER];
    let payload = bytes::rest(line, asked.at);
    let own = bytes::front(buffer, asked.len);
    let call = Call::start(asked.kind, asked.config, payload, own, &work);
    let place = Place {
        at: asked.at,
        payload: payload.len(),
        buffer: asked.len,
    };
    say(
        lent(call, asked.len, buffer.len()),
        place,
        payload,
        own,
        out,
    )
}

// A request line is refused: the last line of a run that is about no call.
fn refuse(answer: Answer, out: &mut [u8]) -> Turned
    ensures { (result ≡ turned_of (refused_of answer) (length out.old)) × (out.new ≡ out_printed (bytes_said (refused_of answer).saying) out.old) }
{
    Turned {
        run: Run::Fresh,
        said: Said::Last(printing::end(answer, Tally::new(), b"", out)),
    }
}

// The bytes of a request line begin a run, or are refused.
fn begin(line: &[u8], buffer: &mut [u8], out: &mut [u8]) -> Turned
    ensures { (result ≡ turned_of (begin_of line.now buffer.old) (length out.old)) × (buffer.new ≡ begin_buffer line.now buffer.old) × (out.new ≡ out_printed (bytes_said (begin_of line.now buffer.old).saying) out.old) }
{
    match request::read(line) {
        Ok(asked) => open(asked, line, buffer, out),
        Err(answer) => refuse(answer, out),
    }
}

// The request line: one of a retired kind is refused before anything else on it is looked at.
fn first(line: &[u8], request: &mut [u8], buffer: &mut [u8], out: &mut [u8]) -> Turned
    ensures { (result ≡ turned_of (first_of line.now request.old buffer.old) (length out.old)) × (request.new ≡ first_request line.now request.old) × (buffer.new ≡ first_buffer line.now request.old buffer.old) × (out.new ≡ out_printed (bytes_said (first_of line.now request.old buffer.old).saying) out.old) }
{
    if request::retired_kind(line) {
        return refuse(Answer::RetiredKind, out);
    }
    let n = decode(line, request);
    begin(bytes::front(request, n), buffer, out)
}

// The bytes of an outcome line go to a call, with its own payload and buffer.
fn hear(call: Call, line: &[u8], payload: &[u8], buffer: &mut [u8]) -> Reported<Call>
    ensures { (result ≡ hear_of call line.now (length payload.now) (length buffer.old)) × (buffer.new ≡ hear_buffer call line.now buffer.old) }
{
    let Some(outcome) = outcome::read(line) else {
        return Err((Answer::BadLine, call));
    };
    let work = [0u8; LEAST_WORK_BUFFER];
    call.report(outcome, bytes::rest(line, 1), payload, buffer, &work)
}

// The bytes of an outcome line go to a call, whose payload and buffer are taken from where they stand.
fn go_on(
    call: Call,
    place: Place,
    line: &[u8],
    request: &[u8],
    buffer: &mut [u8],
    out: &mut [u8],
) -> Turned
    ensures { (result ≡ turned_of (go_on call place line.now request.now buffer.old) (length out.old)) × (buffer.new ≡ go_buffer call place line.now buffer.old) × (out.new ≡ out_printed (bytes_said (go_on call place line.now request.now buffer.old).saying) out.old) }
{
    let payload = bytes::block(request, place.at, place.payload);
    let end = place.buffer.min(buffer.len());
    let reported = hear(call, line, payload, &mut buffer[..end]);
    say(reported, place, payload, bytes::front(buffer, end), out)
}

// A line of input, and the line that answers it at the front of `out`: a request where the run is fresh, and else an outcome. The bytes of the request
// line are kept in `request`, those of an outcome line go through `outcome`. Nothing follows the last line of a run.
// Stays: `answer` takes slices of any length, as it promises; a struct of arrays, as the session has, would ask for theirs.
pub fn answer(
    run: Run,
    line: &[u8],
    request: &mut [u8],
    outcome: &mut [u8],
    buffer: &mut [u8],
    out: &mut [u8],
) -> Turned
    ensures { (result ≡ turned_of (answer_of run line.now request.old outcome.old buffer.old) (length out.old)) × (request.new ≡ request_after run line.now request.old) × (outcome.new ≡ outcome_after run line.now outcome.old) × (buffer.new ≡ buffer_after run line.now request.old outcome.old buffer.old) × (out.new ≡ out_printed (bytes_said (answer_of run line.now request.old outcome.old buffer.old).saying) out.old) }
{
    match run {
        Run::Fresh => first(line, request, buffer, out),
        Run::Call { call, place } => {
            let n = decode(line, outcome);
            go_on(call, place, bytes::front(outcome, n), request, buffer, out)
        }
    }
}

// The last line of a call whose input has ended, after so many bytes of a line that lacks its line feed.
fn last(tally: Tally, left: usize, buffer: &[u8], out: &mut [u8]) -> usize
    ensures { (result ≡ printed_of (last_of tally left buffer.now) (length out.old)) × (out.new ≡ out_printed (last_of tally left buffer.now) out.old) }
{
    if left == 0 {
        printing::cut(tally, buffer, out)
    } else {
        printing::end(Answer::BadLine, tally, buffer, out)
    }
}

// What a request line that lacks its line feed, or is too long, is answered with: it is bad, unless its kind is retired.
fn unfinished(line: &[u8]) -> Answer
    ensures { result ≡ unfinished_of line.now }
{
    if request::retired_kind(line) {
        Answer::RetiredKind
    } else {
        Answer::BadLine
    }
}

// The end of input, after the bytes of a line that lacks its line feed; or a line that is too long, of which its first bytes will do. It is answered by the
// last line of the run, of so many bytes.
pub fn close(run: Run, line: &[u8], buffer: &[u8], out: &mut [u8]) -> usize
    ensures { (result ≡ printed_of (close_of run line.now buffer.now) (length out.old)) × (out.new ≡ out_printed (close_of run line.now buffer.now) out.old) }
{
    match run {
        Run::Fresh => printing::end(unfinished(line), Tally::new(), b"", out),
        Run::Call { call, place } => last(
            call.tally(),
            line.len(),
            bytes::front(buffer, place.buffer),
            out,
        ),
    }
}
