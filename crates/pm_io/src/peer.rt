//! Both ends of a conversation in one trait, with what has to hold at each read and at each write.

ghost use Rattle.std.specs.Prelude.{◌≡◌, ◌<◌, ◌≤◌, ℕ, List, length, take, OnOk, IfErr};
ghost use Rattle.std.specs.declared.option.Option.{Option};
ghost use Rattle.std.specs.Io.{ReadsAtMost};
ghost use Rattle.std.specs.Io.KnownBytes.{Appends, ReadConsumes, WriteAppends};
ghost use Rattle.pm_io.specs.Causes.{HasCause, Rose};
ghost use Rattle.pm_io.specs.Peers.{MayWriteAll};
ghost use Rattle.pm_io.specs.Taken.{TakesPiece};

use crate::faults::{Failed, WriteFault};
use crate::traits::{Sink, Source};

/// The other side of a conversation: it gives bytes, and gets bytes.
///
/// A peer may watch. What it asks at each read and at each write is owed at that moment, whether the conversation ends or is cut
/// off later. So a function over any peer says what holds of a process that is killed.
pub trait Peer {
    // The bytes that it has still to give, where it tells them.
    ghost left: { Self → Option (List ℕ) };

    // The bytes that it got, where it tells them.
    ghost held: { Self → Option (List ℕ) };

    // How often a read has failed, and how often a write, as for a source and a sink.
    ghost read_faults: { Self → ℕ };

    ghost write_faults: { Self → ℕ };

    // What is owed when more is read.
    ghost may_read: { Self → Type 0 };

    // What is owed when these bytes are written.
    ghost may_write: { Self → List ℕ → Type 0 };

    // What calls may make of it, whatever they answer: that it is the same source and sink, say, or that its notes are kept.
    ghost becomes: { Self → Self → Type 0 };

    /// Takes the next bytes, as [`Source::read`].
    fn read(&mut self, buf: &mut [u8]) -> Result<usize, Failed>
        requires { may_read self.old }
        ensures bound { ReadsAtMost result buf.new }
        ensures bytes { ReadConsumes (left self.old) (left self.new) result buf.new }
        ensures held { held self.new ≡ held self.old }
        ensures cause { HasCause (read_faults self.old) (read_faults self.new) result }
        ensures write_faults { write_faults self.new ≡ write_faults self.old }
        ensures becomes { becomes self.old self.new };

    /// Appends the first bytes of the piece, as [`Sink::write`].
    fn write(&mut self, bytes: &[u8]) -> Result<usize, Failed>
        requires { may_write self.old bytes.now }
        ensures bound { TakesPiece result bytes.now }
        ensures bytes { WriteAppends (held self.old) (held self.new) result bytes.now }
        ensures left { left self.new ≡ left self.old }
        ensures cause { HasCause (write_faults self.old) (write_faults self.new) result }
        ensures read_faults { read_faults self.new ≡ read_faults self.old }
        ensures becomes { becomes self.old self.new };

    // No call leaves it as it is.
    ghost stays: { (wire : Self) → becomes wire wire };

    // What two calls make of it, they make one after the other.
    ghost goes_on: { (a b c : Self) → becomes a b → becomes b c → becomes a c };
}

/// A source and a sink, which ask nothing.
#[derive(Drop)]
pub struct Wire<'a, S, K> {
    /// What is read.
    pub source: &'a mut S,
    /// Where it is written.
    pub sink: &'a mut K,
}

impl<S: Source, K: Sink> Peer for Wire<'_, S, K> {
    ghost use Rattle.std.specs.Prelude.{⊤, ◌≡◌, refl};
    ghost use Rattle.std.proofs.Common.{◌∙◌};

    ghost left = { λ wire. S.left wire.source.now };

    ghost held = { λ wire. K.held wire.sink.now };

    ghost read_faults = { λ wire. S.faults wire.source.now };

    ghost write_faults = { λ wire. K.faults wire.sink.now };

    ghost may_read = { λ _. ⊤ };

    ghost may_write = { λ _ _. ⊤ };

    ghost becomes = { λ a b. (b.source.ghost_name ≡ a.source.ghost_name)
        × (b.sink.ghost_name ≡ a.sink.ghost_name) };

    ghost stays = { λ _. (refl, refl) };

    ghost goes_on = { λ a b c p q. (q.0 ∙ p.0, q.1 ∙ p.1) };

    fn read(&mut self, buf: &mut [u8]) -> Result<usize, Failed> {
        self.source.read(buf)
    }

    fn write(&mut self, bytes: &[u8]) -> Result<usize, Failed> {
        self.sink.write(bytes)
    }
}

/// Writes all the bytes to a peer, as [`write_all`](crate::write_all) does to a sink. Each write offers all that is left.
pub fn tell_all<W: Peer>(wire: &mut W, bytes: &[u8]) -> Result<(), WriteFault>
    requires next { MayWriteAll W.left W.held W.becomes W.may_write wire.old bytes.now }
    ensures all { OnOk result (Appends (W.held wire.old) (W.held wire.new) bytes.now) }
    ensures prefix { IfErr result (λ e.
        Appends (W.held wire.old) (W.held wire.new) (take e.written bytes.now)) }
    ensures proper { IfErr result (λ e. e.written < length bytes.now) }
    ensures left { W.left wire.new ≡ W.left wire.old }
    ensures count { W.write_faults wire.old ≤ W.write_faults wire.new }
    ensures cause { IfErr result (λ e. Rose (W.write_faults wire.old) (W.write_faults wire.new)) }
    ensures read_faults { W.read_faults wire.new ≡ W.read_faults wire.old }
    ensures becomes { W.becomes wire.old wire.new }
{
    let mut written = 0;
    while written < bytes.len() {
        match wire.write(&bytes[written..]) {
            Ok(count) => written += count,
            Err(_) => return Err(WriteFault { written }),
        }
    }
    Ok(())
}
