// The report over all packs, as text. (02, W-212)
#![tactic(auto)]

ghost use Rattle.std.specs.Prelude.{◌≡◌, ◌≤◌, length};
ghost use Rattle.protocol.specs.Bytes.{over};
ghost use Rattle.report.specs.Page.{put_unread, put_by_number, put_range, put_mean, put_of_read, put_packs, put_report, put_refused};
ghost use Rattle.report.specs.Report.{text_of};
ghost use Rattle.report.specs.Sheet.{outcome_in};

pub use crate::page::Page;
use packs::{Count, NO_DIGITS, Sheet};

mod page;

// Every report has room in so many bytes.
pub const REPORT_BYTES: usize = 8192;

impl Page {
    // The line of one answer number, if it occurred.
    fn put_unread(&mut self, number: u32, n: u16)
        ensures { self.new ≡ put_unread number n self.old }
    {
        if n == 0 {
            return;
        }
        self.put(b"unread ");
        self.put_number(number);
        self.put_figure(n as u32);
    }

    // The lines of the answer numbers, ascending.
    fn put_by_number(&mut self, numbers: &[u16; 256])
        ensures { self.new ≡ put_by_number numbers.now 255 1 self.old }
    {
        // Stays: the number is printed and looks up its count.
        for number in 1..256 {
            self.put_unread(number as u32, numbers[number]);
        }
    }

    // The fewest and the most cycles.
    fn put_range(&mut self, lowest: u16, highest: u16)
        ensures { self.new ≡ put_range lowest highest self.old }
    {
        self.put_line(b"lowest", lowest as u32);
        self.put_line(b"highest", highest as u32);
    }

    // The mean, and what the division leaves.
    fn put_mean(&mut self, mean: u32, remainder: u32)
        ensures { self.new ≡ put_mean mean remainder self.old }
    {
        self.put_line(b"mean", mean);
        self.put_line(b"remainder", remainder);
    }

    // The lines over packs that were read, if any was.
    fn put_of_read(&mut self, count: Count)
        ensures { self.new ≡ put_of_read count self.old }
    {
        if count.read == 0 {
            return;
        }
        let read = count.read as u32;
        self.put_range(count.lowest, count.highest);
        self.put_mean(count.sum / read, count.sum % read);
    }

    // How many packs were seen, read and not read.
    fn put_packs(&mut self, count: Count)
        ensures { self.new ≡ put_packs count self.old }
    {
        self.put_line(b"seen", count.seen());
        self.put_line(b"read", count.read as u32);
        self.put_line(b"unread", count.unread as u32);
    }

    // The whole report.
    fn put_report(&mut self, count: Count, numbers: &[u16; 256])
        ensures { self.new ≡ put_report count numbers.now self.old }
    {
        self.put_packs(count);
        self.put_by_number(numbers);
        self.put_line(b"sum", count.sum);
        self.put_of_read(count);
    }

    // The one line of a file in which the line after those that are counted is refused.
    fn put_refused(&mut self, count: Count)
        ensures { self.new ≡ put_refused count self.old }
    {
        self.put_line(b"refused\t11", count.seen() + 1);
    }

    // The report over what is counted, if the input ends there, from the front on. Where a line is refused or unfinished, it is the one line that says so.
    pub fn lay(&mut self, sheet: &Sheet)
        ensures { (self.new.at ≡ length (text_of (outcome_in sheet.now))) × (self.new.at ≤ 8192) × (self.new.out ≡ over (text_of (outcome_in sheet.now)) self.old.out) }
    {
        self.at = 0;
        let count = sheet.reader.count;
        if sheet.reader.line == NO_DIGITS {
            self.put_report(count, &sheet.numbers);
            return;
        }
        self.put_refused(count);
    }
}
