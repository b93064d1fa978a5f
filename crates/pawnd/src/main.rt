//! The program. `pawnd answer DB DAY SEED KEY` answers the requests on standard input, and `pawnd serve DB PORT KEY`
//! answers those of its connections. `pawnd migrate DB` migrates a store of an older schema to the program's schema,
//! and `pawnd check DB` checks a store and counts its rows.
#![tactic(auto)]

ghost use Rattle.pawn_host.specs.Keeps.{service_operator};
ghost use Rattle.pawn_opening.specs.declared.fault.OpenFault.TheVariants.{Store};
ghost use Rattle.pawn_store.specs.Running.{store_of};
ghost use Rattle.pawnd.specs.declared.fault.Fault.TheVariants.{Opening};
ghost use Rattle.std.specs.Prelude.{◌≡◌, ◌+◌, Err, IfOk, false};
ghost use Rattle.pawnd.specs.declared.stop.Stop.TheVariants as Stops;

mod fault;
mod moving;
mod stop;
mod store;

use fault::Fault;
use moving::move_file;
use pawn_check::{LineFault, write_counts};
use pawn_host::{Reading, Secret, Service, Writing};
use pawn_program::{
    ClockStamps, MachineClock, MachineFiles, ServeSettings, Served, Settings, Words,
};
use pawn_store::{CONNECTIONS, OpenFault, TableKeep, answer_by_settings, serve_to_the_end};
use sqlite::Alter;
use sqlite_disk::Wary;
use std::env;
use std::env::Args;
use std::net::TcpListener;
use std::process::ExitCode;
use stop::{Stop, report};
use store::{close, file_keep, first_error, folded_keep, is_memory, memory_keep};

fn main(rt: HostRuntime) -> ExitCode {
    match run(&rt) {
        Ok(()) => ExitCode::SUCCESS,
        Err(stop) => report(&rt, stop),
    }
}

/// Does what the command line asks.
fn run(rt: &HostRuntime) -> Result<(), Stop> {
    let Ok(mut args) = env::args(rt) else {
        return Err(Stop::Fault(Fault::Memory));
    };
    let _program = args.next();
    match args.next() {
        Some(command) if command.as_str() == "answer" => answer(rt, args),
        Some(command) if command.as_str() == "serve" => serve(rt, args),
        Some(command) if command.as_str() == "migrate" => migrate(rt, args),
        Some(command) if command.as_str() == "check" => check(rt, args),
        _ => Err(Stop::Usage),
    }
}

/// Answers the requests on standard input. This is `pawnd answer`.
fn answer(rt: &HostRuntime, mut args: Args) -> Result<(), Stop> {
    let mut next = || args.next();
    let (Some(database), Some(day), Some(seed), Some(key), None) = (
        next(),
        next(),
        next(),
        next(),
        next(),
    ) else {
        return Err(Stop::Usage);
    };
    let mut files = MachineFiles::new(rt);
    let settings = Settings::read(&mut files, day.as_str(), seed.as_str(), key.as_str())?;
    work_on_store(rt, database.as_str(), Work::Answer(settings))
}

/// Answers the requests of connections to a port of this machine, one connection after the other. This is
/// `pawnd serve`.
fn serve(rt: &HostRuntime, mut args: Args) -> Result<(), Stop> {
    let mut next = || args.next();
    let (Some(database), Some(port), Some(key), None) = (next(), next(), next(), next()) else {
        return Err(Stop::Usage);
    };
    let mut files = MachineFiles::new(rt);
    let settings = ServeSettings::read(&mut files, port.as_str(), key.as_str())?;
    work_on_store(rt, database.as_str(), Work::Serve(settings))
}

/// Checks a store, and prints its counts. This is `pawnd check`.
fn check(rt: &HostRuntime, mut args: Args) -> Result<(), Stop> {
    let (Some(database), None) = (args.next(), args.next()) else {
        return Err(Stop::Usage);
    };
    work_on_store(rt, database.as_str(), Work::Check)
}

/// What is to be done with a store.
#[derive(Clone, Copy)]
enum Work {
    Answer(Settings),
    Serve(ServeSettings),
    Check,
}

/// A keeper after the work with it, and the result of the work.
#[derive(Drop)]
struct Worked<S: Alter> {
    keep: TableKeep<S>,
    end: Result<(), Stop>,
}

/// Opens the store that the command line names, does the work with it, and closes it.
fn work_on_store(rt: &HostRuntime, database: &str, work: Work) -> Result<(), Stop> {
    if is_memory(database) {
        return work_over(rt, memory_keep(rt)?, work)?.end;
    }
    let keep = match work {
        Work::Serve(_) => folded_keep(rt, database)?,
        Work::Answer(_) | Work::Check => file_keep(rt, database, Wary)?,
    };
    let worked = work_over(rt, keep, work)?;
    let closing = close(worked.keep);
    first_error(worked.end, closing)
}

/// Does the work with a keeper. Returns the keeper, and the result of the work.
fn work_over<S: Alter + Drop>(
    rt: &HostRuntime,
    mut keep: TableKeep<S>,
    work: Work,
) -> Result<Worked<S>, Stop> {
    match work {
        Work::Answer(settings) => {
            let mut service = open(rt, keep, settings.operator)?;
            let end = answer_input(rt, &mut service, settings);
            Ok(Worked {
                keep: service.into_keep(),
                end,
            })
        }
        Work::Serve(settings) => {
            let mut service = open(rt, keep, settings.operator)?;
            let end = serve_port(rt, &mut service, settings.port).map(|_| ());
            Ok(Worked {
                keep: service.into_keep(),
                end,
            })
        }
        Work::Check => {
            let end = check_store(rt, &mut keep);
            Ok(Worked { keep, end })
        }
    }
}

/// Answers the requests on standard input with a service.
fn answer_input<S: Alter + Drop>(
    rt: &HostRuntime,
    service: &mut Service<TableKeep<S>>,
    settings: Settings,
) -> Result<(), Stop> {
    let mut reader = Reading::new(rt.stdin());
    let mut writer = Writing::new(rt.stdout());
    match answer_by_settings(service, &mut reader, &mut writer, &settings) {
        Ok(_) => Ok(()),
        Err(_) => Err(Stop::Io),
    }
}

/// Listens on a port, and answers with a service until `CONNECTIONS` connections were accepted or failed. Returns a
/// fault of the store only if one has shut it; the service then ends early.
fn serve_port<S: Alter + Drop>(
    rt: &HostRuntime,
    service: &mut Service<TableKeep<S>>,
    port: u16,
) -> Result<Served, Stop>
    ensures counted { IfOk result (λ served. served.answered + served.failed ≡ CONNECTIONS) }
    ensures shut { result ≡ Err (Stops.Fault (Opening Store)) → (store_of S.Store service.new).is_open ≡ false }
{
    let Ok(rng) = rand::make_rng(rt) else {
        return Err(Stop::Io);
    };
    let Ok(listener) = TcpListener::bind(rt, ("127.0.0.1", port)) else {
        return Err(Stop::Io);
    };
    let Ok(()) = println!(rt; "listening {}", port) else {
        return Err(Stop::Io);
    };
    let mut stamps = ClockStamps::new(MachineClock::new(rt), Words::new(rng));
    match serve_to_the_end(&listener, service, &mut stamps) {
        Ok(served) => Ok(served),
        Err(_) => Err(Stop::Fault(Fault::Opening(OpenFault::Store))),
    }
}

/// Migrates a store to the program's schema, and prints which schema it had. This is `pawnd migrate`.
fn migrate(rt: &HostRuntime, mut args: Args) -> Result<(), Stop> {
    let (Some(database), None) = (args.next(), args.next()) else {
        return Err(Stop::Usage);
    };
    let schemas = move_file(rt, database.as_str())?;
    match println!(rt; "{schemas}") {
        Ok(()) => Ok(()),
        Err(_) => Err(Stop::Io),
    }
}

/// Checks the rows of a keeper, and prints the counts.
fn check_store<S: Alter>(rt: &HostRuntime, keep: &mut TableKeep<S>) -> Result<(), Stop> {
    let mut writer = Writing::new(rt.stdout());
    match write_counts(keep, &mut writer) {
        Ok(()) => Ok(()),
        Err(LineFault::Check(why)) => Err(Stop::Fault(Fault::Checking(why))),
        Err(LineFault::Write) => Err(Stop::Io),
    }
}

/// Makes the service over a keeper.
fn open<S: Alter + Drop>(
    rt: &HostRuntime,
    keep: TableKeep<S>,
    operator: Secret,
) -> Result<Service<TableKeep<S>>, Stop>
    ensures operator { IfOk result (λ service. service_operator service ≡ operator) }
{
    match Service::new(rt.alloc(), keep, operator) {
        Ok(service) => Ok(service),
        Err(_) => Err(Stop::Fault(Fault::Memory)),
    }
}
