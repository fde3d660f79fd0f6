// A file that is read line by line, in chunks.
use lines::Took;
use protocol::bytes;
use requests::fields;
use std::io;
use std::io::Read;

// What a line is, by its first byte; or what there is in the place of a line.
#[derive(Clone, Copy, Debug, PartialEq, Eq)]
pub enum Tag {
    // The words of a case, which begin it.
    Words,
    // A line that goes in.
    Input,
    // One that lacks its line feed.
    Unfinished,
    // A line that must come out.
    Output,
    // Any other line.
    Other,
    // An empty line, which ends a case.
    Empty,
    // A line that is not whole yet.
    Part,
    // The end of the file.
    End,
}

impl From<u8> for Tag {
    fn from(first: u8) -> Self {
        match first {
            b'#' => Tag::Words,
            b'I' => Tag::Input,
            b'U' => Tag::Unfinished,
            b'O' => Tag::Output,
            _ => Tag::Other,
        }
    }
}

impl Tag {
    // Whether a search for a tag stops at a line: at that tag, at the end of the file and, inside a case, at its end. U counts as I.
    fn stops(self, wanted: Tag) -> bool {
        match self {
            Tag::End => true,
            Tag::Empty => wanted != Tag::Words,
            Tag::Unfinished => wanted == Tag::Input,
            _ => self == wanted,
        }
    }
}

// How many bytes stay of a line that has no room: its tag, a space and an odd number of characters, so that it is bad but for what it begins with.
const KEPT: usize = 5;

// A line is held in so many bytes: a whole chunk has room after what stays.
const HELD_BYTES: usize = 65536 + KEPT;

// A file, the chunk of it that was read and what is left of that, how much of a line is held, and the tag and the length of the last line.
// Stays: no heap, so `end` and `have` say how far `chunk` and `held` are filled.
#[derive(Drop)]
pub struct Reader<F> {
    file: F,
    chunk: [u8; 65536],
    at: usize,
    end: usize,
    held: [u8; HELD_BYTES],
    have: usize,
    // The tag of a line that has no room, of which the front is kept and the rest passed over.
    long: Option<Tag>,
    pub tag: Tag,
    len: usize,
    // Why a read has failed, if one has.
    pub failed: Option<io::Error>,
}

impl<F: Read> Reader<F> {
    // A reader at the start of a file.
    pub(crate) fn new(file: F) -> Self {
        Reader {
            file,
            chunk: [0; 65536],
            at: 0,
            end: 0,
            held: [0; HELD_BYTES],
            have: 0,
            long: None,
            tag: Tag::Part,
            len: 0,
            failed: None,
        }
    }

    // The last line.
    pub(crate) fn line(&self) -> &[u8] {
        bytes::front(&self.held, self.len)
    }

    // What follows its tag and a space.
    pub(crate) fn text(&self) -> &[u8] {
        bytes::rest(self.line(), 2)
    }

    // A line of so many bytes, or what there is in its place. Nothing is held of the next.
    fn found(&mut self, tag: Tag, len: usize) {
        self.have = 0;
        self.long = None;
        self.tag = tag;
        self.len = len;
    }

    // The tag of the line that is held.
    fn first(&self) -> Tag {
        Tag::from(fields::byte(&self.held, 0))
    }

    // A line is whole. One that had no room counts as its front, which is as bad, or as much of a retired kind.
    fn whole(&mut self, len: usize) {
        match self.long {
            Some(tag) => self.found(tag, KEPT),
            None if len == 0 => self.found(Tag::Empty, 0),
            None => self.found(self.first(), len),
        }
    }

    // What is left of the chunk, up to the end of a line.
    fn take(&mut self) {
        let chunk = bytes::front(&self.chunk, self.end);
        match lines::take(chunk, self.at, &mut self.held, self.have) {
            Took::Here { len, next } => {
                bytes::copy_block(&mut self.held, bytes::block(chunk, self.at, len), len);
                self.at = next;
                self.whole(len);
            }
            Took::Held { len, next } => {
                self.at = next;
                self.whole(len);
            }
            Took::More(have) => {
                self.at = self.end;
                self.have = if self.long.is_some() { KEPT } else { have };
            }
            // the front of the line is kept, and what else is held is forgotten
            Took::Long => {
                self.have = KEPT;
                self.long = Some(self.long.unwrap_or(self.first()));
            }
        }
    }

    // The next chunk; at the end of the file, what is held is the last line. A read that has failed stays the end.
    fn refill(&mut self) {
        if self.failed.is_some() {
            self.found(Tag::End, 0);
            return;
        }
        match self.file.read(&mut self.chunk) {
            Ok(0) if self.have == 0 => self.found(Tag::End, 0),
            Ok(0) => self.whole(self.have),
            Ok(n) => {
                self.at = 0;
                self.end = n;
            }
            Err(error) => {
                self.failed = Some(error);
                self.found(Tag::End, 0);
            }
        }
    }

    // The next line.
    fn next(&mut self) {
        self.found(Tag::Part, 0);
        for _ in 0..u64::MAX {
            if self.tag != Tag::Part {
                return;
            }
            if self.at < self.end {
                self.take();
            } else {
                self.refill();
            }
        }
    }

    // The next line with a tag, or what ends the search for it.
    pub(crate) fn seek(&mut self, wanted: Tag) {
        for _ in 0..u64::MAX {
            self.next();
            if self.tag.stops(wanted) {
                return;
            }
        }
    }
}
