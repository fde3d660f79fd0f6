// The bench program without its reads and writes: chunks of input in, bytes to write out. Chunks become lines in `lines`, and each line is answered in
// `dialogue`.
#![tactic(auto)]

ghost use Rattle.std.specs.Prelude.{◌≡◌, ◌≤◌, length};
ghost use Rattle.session.specs.Desk.{Sized};
ghost use Rattle.session.specs.Session.{start_of, at_byte, goes_on, answer_session, answer_lent, close_session, close_lent, turn_of, turns_of, take_of, end_of};
ghost use Rattle.session.specs.Loop.{laid_bytes, Fresh, blank, desk_at};

use dialogue::{Run, Said};
use lines::Took;
use printing::LONGEST_LINE;
use protocol::bytes;
use requests::outcome::LONGEST_OUTCOME;
use requests::request::{LONGEST_REQUEST, MOST_BYTES};

// The sizes of what is lent. Each has room for the longest that it may hold: a line's digits, the bytes of a request and of an outcome, a call's buffer,
// and a line that is printed.
pub const HELD_BYTES: usize = LONGEST_REQUEST * 2;

pub const REQUEST_BYTES: usize = LONGEST_REQUEST;

pub const OUTCOME_BYTES: usize = LONGEST_OUTCOME;

pub const BUFFER_BYTES: usize = MOST_BYTES;

pub const LINE_BYTES: usize = LONGEST_LINE;

// Lines are gathered up to this size, and written together.
pub const OUT_BYTES: usize = 65536;

// Where the program stands.
// Stays: no heap, so `have` and `laid` say how far a desk's `held` and `out` are filled; and `Writes` speaks of `on`.
#[derive(Clone, Copy, Debug, PartialEq, Eq)]
pub struct Session {
    pub run: Run,
    // How many bytes of a line are held.
    pub have: usize,
    // Where the chunk goes on.
    pub at: usize,
    // How many bytes are laid at the front of `out`, to be written now.
    pub laid: usize,
    // Whether the run goes on.
    pub on: bool,
}

impl Session {
    // A session with nothing read yet.
    pub fn start() -> Self
        ensures { result ≡ start_of }
    {
        Session {
            run: Run::Fresh,
            have: 0,
            at: 0,
            laid: 0,
            on: true,
        }
    }

    // The session at a byte of its chunk, with nothing laid.
    fn at_byte(self, at: usize) -> Self
        ensures { result ≡ at_byte self at }
    {
        Session {
            at,
            laid: 0,
            ..self
        }
    }
}

// What a line is answered in: the bytes of the request line and those of an outcome line, a call's buffer, and the lines that answer.
#[derive(Clone, Copy)]
pub struct Lent {
    pub request: [u8; REQUEST_BYTES],
    pub outcome: [u8; OUTCOME_BYTES],
    pub buffer: [u8; BUFFER_BYTES],
    pub out: [u8; OUT_BYTES],
}

impl Lent {
    // A line is answered after what is laid, and the chunk goes on at `at`.
    // Stays: that `laid` is within `out` is asked of these three; as an invariant it would be asked of whoever calls the public `take` too.
    fn answer(&mut self, session: &mut Session, line: &[u8], at: usize)
        requires { session.old.laid ≤ length self.old.out }
        ensures { (session.new ≡ answer_session session.old line.now at self.old) × (self.new ≡ answer_lent session.old line.now self.old) }
    {
        let turned = dialogue::answer(
            session.run,
            line,
            &mut self.request,
            &mut self.outcome,
            &mut self.buffer,
            &mut self.out[session.laid..],
        );
        session.run = turned.run;
        session.have = 0;
        session.at = at;
        match turned.said {
            Said::Asked(n) => {
                session.laid += n;
                session.on = true;
            }
            Said::Last(n) => {
                session.laid += n;
                session.on = false;
            }
        }
    }

    // The last line of a run, after what is laid: the input has ended with these bytes of a line, or they are the first of one that is too long.
    fn close(&mut self, session: &mut Session, line: &[u8], at: usize)
        requires { session.old.laid ≤ length self.old.out }
        ensures { (session.new ≡ close_session session.old line.now at self.old) × (self.new ≡ close_lent session.old line.now self.old) }
    {
        let n = dialogue::close(
            session.run,
            line,
            &self.buffer,
            &mut self.out[session.laid..],
        );
        session.have = 0;
        session.at = at;
        session.laid += n;
        session.on = false;
    }
}

// A session, the bytes that are held of a line, and what is lent to it.
#[derive(Clone, Copy)]
pub struct Desk {
    pub session: Session,
    pub held: [u8; HELD_BYTES],
    pub lent: Lent,
}

impl Desk {
    // A desk with nothing read yet.
    pub fn new() -> Self
        ensures { (result ≡ blank) × Fresh result }
    {
        Desk {
            session: Session::start(),
            held: [0; HELD_BYTES],
            lent: Lent {
                request: [0; REQUEST_BYTES],
                outcome: [0; OUTCOME_BYTES],
                buffer: [0; BUFFER_BYTES],
                out: [0; OUT_BYTES],
            },
        }
    }

    // The bytes that are laid, to be written now.
    pub fn laid(&self) -> &[u8]
        ensures { result.now ≡ laid_bytes self.now }
    {
        bytes::front(&self.lent.out, self.session.laid)
    }

    // A new chunk, which is read from its first byte on. The caller has written what was laid.
    pub fn next_chunk(&mut self)
        ensures { self.new ≡ desk_at 0 self.old }
    {
        self.session = self.session.at_byte(0);
    }

    // What was laid is written. The arrays have the sizes that their types say.
    pub fn written(&mut self)
        ensures { (self.new ≡ desk_at self.old.session.at self.old) × Sized self.old }
    {
        self.session = self.session.at_byte(self.session.at);
    }

    // Whether another turn can be made: the run goes on, its chunk ends after `at`, and the longest line has room after what is laid.
    fn goes_on(&self, end: usize) -> bool
        ensures { result ≡ goes_on self.now.session.on self.now.session.at end self.now.session.laid (length self.now.lent.out) }
    {
        self.session.on && self.session.at < end && self.session.laid <= OUT_BYTES - LINE_BYTES
    }

    // One turn: the bytes of a chunk from where it goes on, up to the end of a line. A line that has no room in `held` ends the run.
    fn turn(&mut self, chunk: &[u8])
        requires { self.old.session.laid ≤ length self.old.lent.out }
        ensures { self.new ≡ turn_of chunk.now self.old }
    {
        let at = self.session.at;
        match lines::take(chunk, at, &mut self.held, self.session.have) {
            Took::Here { len, next } => {
                let line = bytes::block(chunk, at, len);
                self.lent.answer(&mut self.session, line, next);
            }
            Took::Held { len, next } => {
                let line = bytes::front(&self.held, len);
                self.lent.answer(&mut self.session, line, next);
            }
            Took::More(have) => {
                self.session = Session {
                    have,
                    at: chunk.len(),
                    on: true,
                    ..self.session
                };
            }
            Took::Long => {
                self.lent.close(&mut self.session, &self.held, chunk.len());
            }
        }
    }

    // Turn after turn.
    fn turns(&mut self, chunk: &[u8])
        ensures { self.new ≡ turns_of (length chunk.now) chunk.now self.old }
    {
        while self.goes_on(chunk.len()) {
            self.turn(chunk);
        }
    }

    // The lines of a chunk from where it goes on, up to the end of the run, while the longest line has room in `out` after what is laid. The caller has
    // written what was laid before.
    pub fn take(&mut self, chunk: &[u8])
        ensures { (self.new ≡ take_of chunk.now self.old) × Sized self.old }
    {
        self.written();
        self.turns(chunk);
    }

    // The input has ended.
    pub fn end(&mut self)
        ensures { self.new ≡ end_of self.old }
    {
        self.written();
        if self.session.on {
            let line = bytes::front(&self.held, self.session.have);
            let at = self.session.at;
            self.lent.close(&mut self.session, line, at);
        }
    }
}
