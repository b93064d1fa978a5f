//! Answers requests over the tables of a store: a list of them, a stream, or connections.
ghost use Rattle.pawn_host.specs.Ends.{left_of, reads};
ghost use Rattle.pawn_host.specs.Keeps.{answer_bytes, service_operator};
ghost use Rattle.pawn_program.specs.Clock.{GivesDated};
ghost use Rattle.pawn_store.specs.Running.{AnswersBySettings, HoldsSession, OverTables, RunsItems, ServesConnections};
ghost use Rattle.pawn_store.specs.Running.{store_of};
ghost use Rattle.pawn_writing.specs.Ends.{write_failed, written_bytes};
ghost use Rattle.std.specs.Prelude.{◌≡◌, ◌+◌, ◌≤◌, false, IfOk, IsTrue, OnErr, map};

use pawn_host::{Answer, Ended, IoFault, Reading, Service, Stamp, Writing};
use pawn_program::{ClockStamps, SecondsClock, Served, Settings, Stamps, Words, serve_connections};
use pawn_table_keeper::TableKeep;
use sqlite::Alter;
use std::alloc::AllocError;
use std::io::{Read, Write};
use std::net::TcpListener;

/// Answers these requests in their order, over the tables of a store that was opened for a sound host and may have
/// answered requests since.
///
/// The following holds as long as the disk returns what was written. Each settled answer to a request on a book, or to
/// a bearer of receipts, is the one that the book or those receipts alone would get. After the call the tables stand
/// for the host after all requests. A crash leaves that host, or that host with one more request done, whose answer was
/// that memory ran out or the store failed. If memory runs out for the list of answers, the call fails before anything
/// is done.
pub fn run_over_tables<S: Alter>(
    service: &mut Service<TableKeep<S>>,
    items: &[(Stamp, Vec<u8>)],
) -> Result<Vec<Answer>, AllocError>
    ensures headline { IfOk result (λ answers. OverTables (store_of S.Store service.old) (store_of S.Store service.new) (service_operator service.old)
        (RunsItems (map (λ p. (p.0, p.1.items)) items.now) (map answer_bytes answers.items))) }
    ensures operator { service_operator service.new ≡ service_operator service.old }
    ensures err { OnErr result (service.new ≡ service.old) }
{
    service.run(items)
}

/// Answers the requests of a stream as `Service::answer_all` does, over the tables of such a store. The guarantees of
/// `run_over_tables` hold for its requests, whether the session ended or was broken off.
pub fn answer_over_tables<S: Alter, R: Read, W: Write, I: Iterator<Item = Stamp>>(
    service: &mut Service<TableKeep<S>>,
    reader: &mut Reading<R>,
    writer: &mut Writing<W>,
    stamps: &mut I,
) -> Result<Ended, IoFault>
    requires fresh { reads reader.old ≡ 0 }
    requires fine { write_failed writer.old ≡ false }
    requires can { I.can_next stamps.old }
    ensures session { OverTables (store_of S.Store service.old) (store_of S.Store service.new) (service_operator service.old) (HoldsSession I.next_gives
        stamps.old (left_of R.remaining reader.old) (written_bytes W.contents writer.old) stamps.new (written_bytes W.contents writer.new) result) }
    ensures operator { service_operator service.new ≡ service_operator service.old }
{
    service.answer_all(reader, writer, stamps)
}

/// Answers the requests of a stream as `answer_over_tables` does, with the stamps of a command line: up to 1,000, all
/// of its day, with the words of its seed from the first one on.
pub fn answer_by_settings<S: Alter, R: Read, W: Write>(
    service: &mut Service<TableKeep<S>>,
    reader: &mut Reading<R>,
    writer: &mut Writing<W>,
    settings: &Settings,
) -> Result<Ended, IoFault>
    requires fresh { reads reader.old ≡ 0 }
    requires fine { write_failed writer.old ≡ false }
    ensures session { OverTables (store_of S.Store service.old) (store_of S.Store service.new) (service_operator service.old) (AnswersBySettings
        settings.now (left_of R.remaining reader.old) (written_bytes W.contents writer.old) (written_bytes W.contents writer.new) result) }
    ensures operator { service_operator service.new ≡ service_operator service.old }
{
    let mut words = Words::of_seed(settings.seed);
    let mut stamps = Stamps::new(&mut words, settings.day);
    answer_over_tables(service, reader, writer, &mut stamps)
}

/// How connections were served over tables: how many, and whether a fault has shut the store.
#[derive(Clone, Copy)]
pub struct ServedTables {
    /// The connections that were served.
    pub served: Served,
    /// Whether a fault has shut the store.
    pub is_shut: bool,
}

/// Answers the requests of this many connections as `serve_connections` does, over the tables of such a store. The
/// guarantees of `run_over_tables` hold for the requests of all connections. After each connection the keeper is asked
/// whether a fault has shut its store. If so, no further connection is accepted, because each of its requests would
/// only get `Store`.
pub fn serve_over_tables<S: Alter, C: SecondsClock + Drop>(
    listener: &TcpListener,
    service: &mut Service<TableKeep<S>>,
    stamps: &mut ClockStamps<C>,
    connections: u32,
) -> ServedTables
    ensures served { OverTables (store_of S.Store service.old) (store_of S.Store service.new) (service_operator service.old)
        (ServesConnections (GivesDated C.reads) stamps.old stamps.new result.served.answered) }
    ensures most { result.served.answered + result.served.failed ≤ connections }
    ensures counted { result.is_shut ≡ false → result.served.answered + result.served.failed ≡ connections }
    ensures shut { IsTrue result.is_shut → (store_of S.Store service.new).is_open ≡ false }
    ensures operator { service_operator service.new ≡ service_operator service.old }
{
    let mut served = Served {
        answered: 0,
        failed: 0,
    };
    for turn in 0..connections {
        let one = serve_connections(listener, service, stamps, 1);
        served.answered += one.answered;
        served.failed += one.failed;
        if service.keep.is_shut() {
            return ServedTables {
                served,
                is_shut: true,
            };
        }
    }
    ServedTables {
        served,
        is_shut: false,
    }
}
