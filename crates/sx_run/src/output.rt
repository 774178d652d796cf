//! What a command writes.

ghost use Rattle.std.specs.Prelude.{◌≡◌, ◌≤◌, OnErr, OnOk, IsTrue};
ghost use Rattle.sx_base.specs.Outside.{Appends, AppendsPrefix, Rose};
ghost use Rattle.sx_run.specs.Running.{as_bytes, bytes_of};

use crate::pieces::Pieces;
use sx_base::{Failed, Sink, put_all};
use sx_bytes::Writer;
use sx_input::Stop;
use sx_text::Text as Lines;

// What a command writes.
#[derive(Debug, Drop)]
pub enum Output {
    // Records.
    Record(Writer),
    // Records in pieces.
    Parts(Pieces),
    // Lines for a reader.
    Text(Lines),
}

impl Output {
    // Puts all bytes of the output, or a prefix of them.
    pub fn put<K: Sink>(&self, sink: &mut K) -> Result<(), Failed>
        ensures appended { OnOk result (Appends (K.written sink.old) (K.written sink.new) (bytes_of self.now)) }
        ensures steady { OnOk result (IsTrue (K.strict sink.old) → K.faults sink.new ≡ K.faults sink.old) }
        ensures failed { OnErr result (Rose (K.faults sink.old) (K.faults sink.new)) }
        ensures prefix { OnErr result (AppendsPrefix (K.written sink.old) (K.written sink.new) (bytes_of self.now)) }
    {
        match self {
            Output::Record(record) => put_all(sink, record.bytes()),
            Output::Parts(parts) => parts.put(sink),
            Output::Text(lines) => put_all(sink, lines.bytes()),
        }
    }
}

// The output of a command that writes records.
pub fn recorded(found: Result<Writer, Stop>) -> Result<Output, Stop>
    ensures { as_bytes result ≡ found }
{
    match found {
        Ok(record) => Ok(Output::Record(record)),
        Err(stop) => Err(stop),
    }
}

// The output of a command that writes records in pieces.
pub fn recorded_in_parts(found: Result<Pieces, Stop>) -> Result<Output, Stop>
    ensures { as_bytes result ≡ found }
{
    match found {
        Ok(parts) => Ok(Output::Parts(parts)),
        Err(stop) => Err(stop),
    }
}

// The output of a command that writes a text.
pub fn told(found: Result<Lines, Stop>) -> Result<Output, Stop>
    ensures { as_bytes result ≡ found }
{
    match found {
        Ok(lines) => Ok(Output::Text(lines)),
        Err(stop) => Err(stop),
    }
}
