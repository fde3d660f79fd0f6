// What a call, or the bench program, answers. (error.rs; document 01, the table of answers; document 02, W-210)
ghost use Rattle.std.specs.Prelude.{◌≡◌};
ghost use Rattle.protocol.specs.Answer.{number_of, detail_of};

// How a call ended, or why it or a line was refused: a variant for each row of the table, under the Rust's name where it has one.
#[derive(Clone, Copy, Debug, PartialEq, Eq)]
pub enum Answer {
    // The call ended well.
    Done,
    // The last allowed attempt met a bus error, with its code.
    I2c(u8),
    // The last allowed attempt timed out.
    Timeout,
    // The last allowed attempt's PEC differed.
    Pec,
    // A length is over its limit.
    DataTooLarge,
    // The window rule fails.
    DataFlashAddressOutOfRange,
    // A data-flash write failed after `committed` bytes were acknowledged.
    PartialDataFlashWrite { committed: usize },
    // The command's input is not empty.
    NotACommand,
    // A lent buffer has the wrong length.
    WrongBuffer,
    // The reply's length is not the number asked.
    WrongReply,
    // The call has ended, or was refused: nothing is outstanding.
    NothingOutstanding,
    // A line of the bench program, or a course, is malformed.
    BadLine,
    // The request line is of a kind that was retired.
    RetiredKind,
}

impl Answer {
    // The answer's number in the table.
    pub fn number(self) -> u8
        ensures { result ≡ number_of self }
    {
        match self {
            Answer::Done => 0,
            Answer::I2c(_) => 1,
            Answer::Timeout => 2,
            Answer::Pec => 3,
            Answer::DataTooLarge => 4,
            Answer::DataFlashAddressOutOfRange => 5,
            Answer::PartialDataFlashWrite { .. } => 6,
            Answer::NotACommand => 7,
            Answer::WrongBuffer => 8,
            Answer::WrongReply => 9,
            Answer::NothingOutstanding => 10,
            Answer::BadLine => 11,
            Answer::RetiredKind => 15,
        }
    }

    // What the answer carries: a bus error's code, the bytes committed, or 0.
    pub fn detail(self) -> usize
        ensures { result ≡ detail_of self }
    {
        match self {
            Answer::I2c(code) => code as usize,
            Answer::PartialDataFlashWrite { committed } => committed,
            _ => 0,
        }
    }
}
