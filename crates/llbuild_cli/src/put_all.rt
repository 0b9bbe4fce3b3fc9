//! Writing whole texts.
ghost use Rattle.std.specs.Prelude.{◌≡◌, ℕ, ◌+◌, ◌-◌, ◌<◌, ◌≤◌, length, take, drop, OnOk, OnErr};
ghost use Rattle.outside.specs.View.{SinkFailed, Grew};
ghost use Rattle.llbuild_cli.specs.Growth.{GrewByPart};

use outside::sink::{Sink, SinkFault};

/// Writes the whole piece, part by part. At a fault a beginning of it was written.
pub fn put_all<O: Sink>(out: &mut O, piece: &[u8]) -> Result<(), SinkFault>
    ensures ok { OnOk result (Grew (O.view out.old) (O.view out.new) piece.now) }
    ensures part { OnErr result (GrewByPart (O.view out.old) (O.view out.new) piece.now) }
    ensures later { (O.view out.old).faults ≤ (O.view out.new).faults }
    ensures cause { OnErr result (SinkFailed (O.view out.old) (O.view out.new)) }
{
    let mut at = 0;
    'rest: while at < piece.len() {
        at += out.put(&piece[at..])?;
    }
    Ok(())
}
