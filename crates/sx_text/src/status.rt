//! How a run ends.

ghost use Rattle.std.specs.Prelude.{◌≡◌};
ghost use Rattle.sx_text.specs.Status.{code_of};

use sx_block::Invalid;
use sx_bytes::FormFault;

/// How a run ended.
#[derive(Clone, Copy, Debug, PartialEq, Eq)]
pub enum Status {
    /// Code 0: the output is written. The input was read to its end, but by `demo`, which reads nothing.
    Done,
    /// Code 2: the words are not a command in its plain form. Nothing was read or written.
    Usage,
    /// Code 3: the source failed. Nothing was written.
    ReadFault,
    /// Code 4: the sink failed. A prefix of an output is written.
    WriteFault,
    /// Code 5: the first fault of the input is one of form, at this offset in bytes. Nothing was written.
    Malformed(FormFault),
    /// Code 6: the block of this number, from 0, is the first fault of the input, and this is the
    /// first reason why it is refused. At `seal` and `interleave` the number is 0, and no block could take
    /// all candidates: the reason is `Ended` or `Crowded`. Nothing was written.
    Refused { block: u32, why: Invalid },
    /// Code 7: memory ran out. Nothing was written. It may be answered in place of any other answer.
    NoMemory,
}

impl Status {
    /// The code that the program ends with.
    pub fn code(&self) -> u8
        ensures { result ≡ code_of self.now }
    {
        match self {
            Status::Done => 0,
            Status::Usage => 2,
            Status::ReadFault => 3,
            Status::WriteFault => 4,
            Status::Malformed(_) => 5,
            Status::Refused { .. } => 6,
            Status::NoMemory => 7,
        }
    }
}
