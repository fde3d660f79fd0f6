// The count program: reads standard input in large chunks, to its end or to the first line that is refused, and prints the report. The rest is in `packs`
// and `report`. (02, W-212)
#![tactic(auto)]

ghost use Rattle.std.specs.Prelude.{◌≡◌, length};
ghost use Rattle.protocol.specs.Bytes.{over};
ghost use Rattle.packs.specs.Count.{start_sheet};
ghost use Rattle.count.specs.Ending.{led_by, sheet_by, Stopped, text_at};

use chunks::Brought;
use packs::Sheet;
use protocol::bytes;
use report::Page;

// What is read at a time: two thousand lines and more. A larger array costs a run over a thousand packs more to clear than it saves.
const CHUNK_BYTES: usize = 16384;

// How the program came to the end of its reading.
#[derive(Clone, Copy, Debug, PartialEq, Eq)]
enum Ending {
    // The input has ended.
    Whole,
    // A line is refused, and nothing that follows is read.
    Refused,
    // A read failed.
    Failed,
    // As many chunks as a u64 counts were read, which no input comes to.
    Spent,
}

// Where it stopped: how, and the chunks that were left.
#[derive(Clone, Copy, Debug, PartialEq, Eq)]
struct Stop {
    ending: Ending,
    left: u64,
}

// After a read: the bytes that it brought are counted, and no others of the chunk. Where it brought none, the reading has ended.
// Stays: an arm for each way that a read goes: the match shows that none is missing, which a table of functions would not.
fn after(sheet: &mut Sheet, brought: Brought, chunk: &[u8; CHUNK_BYTES]) -> Result<(), Ending>
    ensures { (result ≡ led_by brought) × (sheet.new ≡ sheet_by brought chunk.now sheet.old) }
{
    match brought {
        Brought::Bytes(n) => {
            sheet.take(bytes::front(chunk, n));
            Ok(())
        }
        Brought::End => Err(Ending::Whole),
        Brought::Failed => Err(Ending::Failed),
    }
}

// Reads the input, chunk by chunk. The chunks are counted, since every loop has to be proved to end.
fn run<R: Input + Eprint + Alloc>(rt: &R, chunk: &mut [u8; CHUNK_BYTES], sheet: &mut Sheet) -> Stop
    requires { sheet.old ≡ start_sheet }
    ensures { Stopped result sheet.new }
{
    // Stays: `Stopped` speaks of what is left.
    for taken in 0..u64::MAX {
        let left = u64::MAX - taken;
        if sheet.reader.is_refused() {
            return Stop {
                ending: Ending::Refused,
                left,
            };
        }
        let brought = chunks::read(rt, chunk, b"count: standard input");
        if let Err(ending) = after(sheet, brought, chunk) {
            return Stop { ending, left };
        }
    }
    Stop {
        ending: Ending::Spent,
        left: 0,
    }
}

// The text to print, from the front of the page on. There is none where a read failed.
fn lay(stop: Stop, sheet: &Sheet, page: &mut Page)
    ensures { (page.new.at ≡ length (text_at stop sheet.now)) × (page.new.out ≡ over (text_at stop sheet.now) page.old.out) }
{
    match stop.ending {
        Ending::Whole | Ending::Refused => page.lay(sheet),
        Ending::Failed | Ending::Spent => page.at = 0,
    }
}

// Writes a text. Where that fails, it tells why on standard error.
fn write<R: Print + Eprint + Alloc>(rt: &R, text: &[u8]) {
    if let Err(error) = rt.write_all(text) {
        chunks::tell(rt, "count: standard output", error);
    }
}

fn main(rt: HostRuntime) {
    let mut chunk = [0u8; CHUNK_BYTES];
    let mut sheet = Sheet::start();
    let mut page = Page::new();
    let stop = run(&rt, &mut chunk, &mut sheet);
    lay(stop, &sheet, &mut page);
    write(&rt, page.text());
}
