//! Accepts connections and answers them, one after the other.
ghost use Rattle.pawn_host.specs.Ends.{reads, left_of};
ghost use Rattle.pawn_host.specs.Keeps.{StaysOpen, ForEachStart};
ghost use Rattle.pawn_host.specs.Session.{IsSession, IsWithinMost};
ghost use Rattle.pawn_program.specs.Clock.{GivesDated};
ghost use Rattle.pawn_program.specs.Serving.{AreServed};
ghost use Rattle.pawn_writing.specs.Ends.{write_failed, written_bytes};
ghost use Rattle.std.specs.Prelude.{◌≡◌, ◌+◌, false};

use crate::clock::{ClockStamps, SecondsClock};
use pawn_host::{Ended, IoFault, Keep, Reading, Service, Stamp, Writing};
use std::io::{Read, Write};
use std::net::{TcpListener, TcpStream};
use std::time::Duration;

/// The most seconds that a read or a write waits for the peer.
const PATIENCE_SECONDS: u64 = 5;

/// How many connections were answered, and how many could not be accepted.
#[derive(Clone, Copy)]
pub struct Served {
    /// Connections whose requests were answered.
    pub answered: u32,
    /// Connections that could not be accepted.
    pub failed: u32,
}

/// Accepts this many connections, one after the other, and answers the requests of each as `Service::answer_all` does.
/// A connection that can't be accepted counts as one of them. A connection that breaks off is closed, and the next one
/// is answered. The stamps of each connection continue where those of the connection before it ended. Bytes that a peer
/// sends after its last request are not read, so the peer may see a reset after its reply.
pub fn serve_connections<K: Keep, C: SecondsClock + Drop>(
    listener: &TcpListener,
    service: &mut Service<K>,
    stamps: &mut ClockStamps<C>,
    connections: u32,
) -> Served
    ensures counted { result.answered + result.failed ≡ connections }
    ensures stays { StaysOpen K.keeping service.old service.new }
    ensures served { ForEachStart K.keeping service.old service.new (λ start. AreServed (GivesDated C.reads) stamps.old stamps.new start result.answered) }
{
    let mut served = Served {
        answered: 0,
        failed: 0,
    };
    for turn in 0..connections {
        match listener.accept() {
            Ok((stream, _)) => {
                set_patience(&stream);
                let mut reader = Reading::new(&stream);
                let mut writer = Writing::new(&stream);
                let _ = answer_connection(service, &mut reader, &mut writer, stamps);
                served.answered += 1;
            }
            Err(_) => served.failed += 1,
        }
    }
    served
}

/// Limits the time that reads and writes of a connection wait for the peer to `PATIENCE_SECONDS`, and makes it send
/// small replies at once. If the system refuses these options, the connection is answered anyway.
fn set_patience(stream: &TcpStream) {
    let patience = Duration::from_secs(PATIENCE_SECONDS);
    let _ = stream.set_read_timeout(Some(patience));
    let _ = stream.set_write_timeout(Some(patience));
    let _ = stream.set_nodelay(true);
}

/// Answers the requests that a peer sends on its connection. Nothing may have been read from or written to it yet.
fn answer_connection<K: Keep, R: Read, W: Write, I: Iterator<Item = Stamp>>(
    service: &mut Service<K>,
    reader: &mut Reading<R>,
    writer: &mut Writing<W>,
    stamps: &mut I,
) -> Result<Ended, IoFault>
    requires fresh { reads reader.old ≡ 0 }
    requires fine { write_failed writer.old ≡ false }
    requires can { I.can_next stamps.old }
    ensures stays { StaysOpen K.keeping service.old service.new }
    ensures session { ForEachStart K.keeping service.old service.new (λ start. IsSession I.next_gives (record {
      start = start;
      stamps = stamps.old;
      stream = left_of R.remaining reader.old;
      written = written_bytes W.contents writer.old;
    }) stamps.new (written_bytes W.contents writer.new) result) }
    ensures room { IsWithinMost result }
{
    service.answer_all(reader, writer, stamps)
}
