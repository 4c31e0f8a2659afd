//! The outside: a source of bytes, and a sink. Each has a count of its faults that never falls, so that a caller can
//! know a fault of the outside from one that the code made up.

ghost use Rattle.std.specs.Prelude.{◌<◌, length, IfOk, OnOk};
ghost use Rattle.std.specs.Io.{ReadsAtMost, WritesAtMost};
ghost use Rattle.std.specs.Io.KnownBytes.{ReadConsumes, WriteAppends};
ghost use Rattle.gql_streams.specs.Causes.{HasCause};
ghost use Rattle.gql_streams.specs.Outside.{Input, Output};
ghost use Rattle.gql_streams.specs.Writing.{GetsNothing, IsFlushed};

/// The outside failed.
#[derive(Clone, Copy, Debug, PartialEq, Eq)]
pub struct Failed;

/// Where bytes come from.
pub trait Source {
    /// The bytes that reads will give from here on, where the source says them, and how often it has failed.
    ghost state: { Self → Input };

    /// Puts the next bytes at the start of `buf`, and answers how many. `Ok(0)` for a buffer with room comes only at
    /// the end. `Failed` comes only where the count of faults rose in this call, and then no byte is taken.
    fn read(&mut self, buf: &mut [u8]) -> Result<usize, Failed>
        ensures bound { ReadsAtMost result buf.new }
        ensures bytes { ReadConsumes (state self.old).left (state self.new).left result buf.new }
        ensures cause { HasCause (state self.old).faults (state self.new).faults result };
}

/// Where bytes go.
pub trait Sink {
    /// The bytes written, where the sink says them, how many of them are flushed, and how often it has failed.
    ghost state: { Self → Output };

    /// Takes a prefix of the piece, and answers its length: at least one byte of a piece that is not empty. `Failed`
    /// comes only where the count of faults rose in this call, and then no byte is taken.
    fn write(&mut self, piece: &[u8]) -> Result<usize, Failed>
        ensures bound { WritesAtMost result piece.now }
        ensures progress { 0 < length piece.now → IfOk result (λ count. 0 < count) }
        ensures bytes { WriteAppends
            (state self.old).written (state self.new).written result piece.now }
        ensures cause { HasCause (state self.old).faults (state self.new).faults result };

    /// After `Ok`, all bytes written are flushed. `Failed` comes only where the count of faults rose in this call.
    fn flush(&mut self) -> Result<(), Failed>
        ensures bytes { GetsNothing (state self.old) (state self.new) }
        ensures flushed { OnOk result (IsFlushed (state self.new)) }
        ensures cause { HasCause (state self.old).faults (state self.new).faults result };
}
