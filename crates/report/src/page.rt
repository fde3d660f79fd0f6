// A page that is filled from the front. What has no room is left out.
ghost use Rattle.std.specs.Prelude.{◌≡◌, replicate, take};
ghost use Rattle.report.specs.Page.{page, put, put_number, put_figure, put_line};

use crate::REPORT_BYTES;
use protocol::bytes;

// Its bytes, and how many of them are laid.
// Stays: no heap, so `at` says how far `out` is filled.
#[derive(Clone, Copy)]
pub struct Page {
    pub at: usize,
    pub out: [u8; REPORT_BYTES],
}

impl Page {
    // With nothing laid, and zeros where there is room.
    pub fn new() -> Page
        ensures { result ≡ page 0 (replicate 8192 0) }
    {
        Page {
            at: 0,
            out: [0; REPORT_BYTES],
        }
    }

    // What is laid.
    pub fn text(&self) -> &[u8]
        ensures { result.now ≡ take self.now.at self.now.out }
    {
        bytes::front(&self.out, self.at)
    }

    // A text after what is laid.
    pub(crate) fn put(&mut self, text: &[u8])
        ensures { self.new ≡ put text.now self.old }
    {
        if self.out.len() < self.at.saturating_add(text.len()) {
            return;
        }
        bytes::store_block(&mut self.out, self.at, text, text.len());
        self.at += text.len();
    }

    // A number in decimal.
    pub(crate) fn put_number(&mut self, n: u32)
        ensures { self.new ≡ put_number n self.old }
    {
        // Stays: `write!` is no plainer, since it leaves out what has no room piece by piece, and needs an `impl fmt::Write` of the page besides.
        let mut digits = [0u8; 20];
        let places = io::decimal(n as u64, &mut digits);
        self.put(&digits[..places]);
    }

    // A tab, a number and a line feed: what follows a line's name.
    pub(crate) fn put_figure(&mut self, n: u32)
        ensures { self.new ≡ put_figure n self.old }
    {
        self.put(b"\t");
        self.put_number(n);
        self.put(b"\n");
    }

    // A whole line.
    pub(crate) fn put_line(&mut self, name: &[u8], n: u32)
        ensures { self.new ≡ put_line name.now n self.old }
    {
        self.put(name);
        self.put_figure(n);
    }
}
