// The bench program: reads standard input in large chunks and writes what the lines of each give before it reads on. The rest is in `session`.
#![tactic(auto)]

ghost use Rattle.std.specs.Prelude.{◌≡◌, true, false, ◌≤◌, length};

use chunks::Brought;
use protocol::bytes;
use session::Desk;

// How the program came to its end.
#[derive(Clone, Copy, Debug, PartialEq, Eq)]
enum Ending {
    // The run is over, and all is written.
    Over,
    // A read failed.
    Unread,
    // A write failed.
    Unwritten,
    // As many rounds as a u64 counts were made, which no input comes to.
    Spent,
}

// Where the program stopped: how, and the rounds that were left.
// Stays: as the count's, over ends of its own: a type for both would need a crate that two programs share.
#[derive(Clone, Copy, Debug, PartialEq, Eq)]
struct Stop {
    ending: Ending,
    left: u64,
}

// The program: the chunk at hand, which is the first bytes of an array, and the desk.
// Stays: no heap, so `n` says how far `chunk` is filled.
#[derive(Drop)]
struct Bench {
    chunk: [u8; 65536],
    n: usize,
    desk: Desk,
}

impl Bench {
    ghost use Rattle.session.specs.Loop.{Fresh, desk_at};
    ghost use Rattle.bench.specs.Ending.{Makes, Stopped};

    // Nothing is read yet.
    fn new() -> Self
        ensures none { result.n ≡ 0 }
        ensures fresh { Fresh result.desk }
    {
        Bench {
            chunk: io::large_buffer(),
            n: 0,
            desk: Desk::new(),
        }
    }

    // Writes the bytes that are laid, and says whether all are written. Where that fails, it tells why on standard error.
    // Stays: a `Result` with nothing in it would say no more than whether all is written.
    fn write<R: Print + Eprint + Alloc>(&mut self, rt: &R) -> bool
        ensures all { result ≡ true → self.new ≡ record self.old { desk = desk_at self.old.desk.session.at self.old.desk } }
        ensures failed { result ≡ false → self.new ≡ self.old }
    {
        match rt.write_all(self.desk.laid()) {
            Ok(()) => {
                self.desk.written();
                true
            }
            Err(error) => {
                chunks::tell(rt, "bench: standard output", error);
                false
            }
        }
    }

    // One round, unless a read fails: lines of the chunk, while it lasts; after that the next chunk, or the end of the input.
    // Stays: `Makes` speaks of whether a round was made.
    fn round<R: Input + Eprint + Alloc>(&mut self, rt: &R) -> bool
        requires { self.old.n ≤ length self.old.chunk }
        ensures { Makes result self.old self.new }
    {
        if self.desk.session.at < self.n {
            self.desk.take(bytes::front(&self.chunk, self.n));
            return true;
        }
        match chunks::read(rt, &mut self.chunk, b"bench: standard input") {
            Brought::Bytes(n) => {
                self.n = n;
                self.desk.next_chunk();
                true
            }
            Brought::End => {
                self.n = 0;
                self.desk.end();
                true
            }
            Brought::Failed => false,
        }
    }

    // The whole run, round by round. Its rounds are counted, since every loop has to be proved to end.
    fn run<R: Input + Print + Eprint + Alloc>(&mut self, rt: &R) -> Stop
        requires none { self.old.n ≡ 0 }
        requires fresh { Fresh self.old.desk }
        ensures { Stopped result self.old.desk self.new.desk }
    {
        // Stays: `Stopped` speaks of what is left.
        for made in 0..u64::MAX {
            let left = u64::MAX - made;
            if !self.desk.session.on {
                return Stop {
                    ending: Ending::Over,
                    left,
                };
            }
            if !self.round(rt) {
                return Stop {
                    ending: Ending::Unread,
                    left,
                };
            }
            if !self.write(rt) {
                return Stop {
                    ending: Ending::Unwritten,
                    left: left - 1,
                };
            }
        }
        Stop {
            ending: Ending::Spent,
            left: 0,
        }
    }
}

fn main(rt: HostRuntime) {
    let mut bench = Bench::new();
    bench.run(&rt);
}
