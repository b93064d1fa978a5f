//! Answers connections over tables until the service's limit of connections.
ghost use Rattle.pawn_host.specs.Keeps.{service_operator};
ghost use Rattle.pawn_program.specs.Clock.{GivesDated};
ghost use Rattle.pawn_store.specs.Running.{OverTables, ServesConnections, store_of};
ghost use Rattle.std.specs.Prelude.{◌≡◌, ◌+◌, false, IfErr, IfOk};

use crate::running::serve_over_tables;
use pawn_host::Service;
use pawn_program::{ClockStamps, SecondsClock, Served};
use pawn_table_keeper::TableKeep;
use sqlite::Alter;
use std::fmt;
use std::net::TcpListener;

/// The number of connections, accepted or failed, after which a service ends.
pub const CONNECTIONS: u32 = 1_000_000;

/// A fault has shut the store of a service. `served` counts the connections up to then.
#[derive(Clone, Copy)]
pub struct StoreShut {
    /// The connections before the service ended.
    pub served: Served,
}

impl fmt::Display for StoreShut {
    ghost use Rattle.std.specs.Prelude.{Some, codes};

    ghost output = { λ _. Some (codes "StoreShut") };

    fn fmt<W: fmt::Write>(&self, f: &mut fmt::Formatter<W>) -> fmt::Result {
        f.write_str("StoreShut")
    }
}

/// Answers the requests of `CONNECTIONS` connections as `serve_over_tables` does. Ends early with an error if a fault
/// has shut the store.
pub fn serve_to_the_end<S: Alter, C: SecondsClock + Drop>(
    listener: &TcpListener,
    service: &mut Service<TableKeep<S>>,
    stamps: &mut ClockStamps<C>,
) -> Result<Served, StoreShut>
    ensures served { IfOk result (λ served. OverTables (store_of S.Store service.old) (store_of S.Store service.new) (service_operator service.old)
        (ServesConnections (GivesDated C.reads) stamps.old stamps.new served.answered)) }
    ensures cut_short { IfErr result (λ e. OverTables (store_of S.Store service.old) (store_of S.Store service.new) (service_operator service.old)
        (ServesConnections (GivesDated C.reads) stamps.old stamps.new e.served.answered)) }
    ensures counted { IfOk result (λ served. served.answered + served.failed ≡ 1000000) }
    ensures shut { IfErr result (λ _. (store_of S.Store service.new).is_open ≡ false) }
    ensures operator { service_operator service.new ≡ service_operator service.old }
{
    let served = serve_over_tables(listener, service, stamps, CONNECTIONS);
    if served.is_shut {
        return Err(StoreShut {
            served: served.served,
        });
    }
    Ok(served.served)
}
