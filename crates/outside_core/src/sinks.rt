//! The trait of an output for bytes, and writing a whole piece to it.
ghost use Rattle.std.specs.Prelude.{◌<◌, ◌≤◌, ℕ, List, Option, length, take, IfOk, OnOk, OnErr, IsErrOf, []};
ghost use Rattle.outside_core.specs.Faults.{Rose};
ghost use Rattle.outside_core.specs.Written.{Appended, AppendedPrefix};

#[derive(Clone, Copy, Debug, PartialEq, Eq)]
pub enum SinkError {
    /// A fault occurred, and was counted.
    Failed,
}

/// An output for bytes.
pub trait Sink {
    /// The bytes written so far, if they are known to the contract.
    ghost written: { Self → Option (List ℕ) };

    /// The number of faults so far, in 64 bits; it stays at the last value.
    ghost faults: { Self → ℕ };

    /// Appends a prefix of the piece, at least one byte, and returns its length.
    fn write(&mut self, piece: &[u8]) -> Result<usize, SinkError>
        requires some { 0 < length piece.now }

        ensures least { IfOk result (λ n. 0 < n) }
        ensures bound { IfOk result (λ n. n ≤ length piece.now) }
        ensures appended { IfOk result (λ n. Appended (written self.old) (written self.new)
            (take n piece.now)) }
        ensures refused { OnErr result (Appended (written self.old) (written self.new) []) }

        ensures later { faults self.old ≤ faults self.new }
        ensures cause { IsErrOf result SinkError.Failed → Rose (faults self.old)
            (faults self.new) };
}

/// Writes all the bytes, in as many writes as it takes.
pub fn write_all<K: Sink>(sink: &mut K, bytes: &[u8]) -> Result<(), SinkError>
    ensures appended { OnOk result (Appended (K.written sink.old) (K.written sink.new) bytes.now) }
    ensures refused { OnErr result (AppendedPrefix (K.written sink.old) (K.written sink.new)
        bytes.now) }

    ensures later { K.faults sink.old ≤ K.faults sink.new }
    ensures cause { IsErrOf result SinkError.Failed → Rose (K.faults sink.old) (K.faults sink.new) }
{
    let mut rest = bytes;
    while !rest.is_empty() {
        let count = sink.write(rest)?;
        rest = &rest[count..];
    }
    Ok(())
}
