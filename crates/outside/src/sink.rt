//! Where bytes are written.
ghost use Rattle.std.specs.Prelude.{◌≡◌, ℕ, ◌<◌, ◌≤◌, ◌+◌, List as Items, [], length, take, IfOk, OnErr, Option};
ghost use Rattle.outside.specs.View.{SinkView, SinkFailed, Grew};

/// The sink failed, and its count of faults rose.
#[derive(Clone, Copy, Debug, PartialEq, Eq)]
pub struct SinkFault;

/// A place to write bytes to, as a terminal.
pub trait Sink {
    /// What is seen of it between two calls. Its count of faults never falls.
    ghost view: { Self → SinkView };

    /// Writes a beginning of the piece after what was there, at least one byte where the piece is not empty, and answers
    /// how many. At a fault nothing was written. It takes no memory.
    fn put(&mut self, piece: &[u8]) -> Result<usize, SinkFault>
        ensures within { IfOk result (λ n. n ≤ length piece.now) }
        ensures some { IfOk result (λ n. 0 < length piece.now → 0 < n) }
        ensures wrote { IfOk result (λ n. Grew (view self.old) (view self.new) (take n piece.now)) }
        ensures err { OnErr result (Grew (view self.old) (view self.new) []) }
        ensures later { (view self.old).faults ≤ (view self.new).faults }
        ensures cause { OnErr result (SinkFailed (view self.old) (view self.new)) };
}
