//! The settings on the command line.
ghost use Rattle.pawn_pledge.specs.Secret.{secret_of_text};
ghost use Rattle.pawn_program.specs.KeyFiles.{GivesKey, key_in, key_of_bytes, without_line_end};
ghost use Rattle.pawn_program.specs.Settings.{AreSettings, IsServeRead, SaysDay, SaysNoDay, SaysNoPort, SaysPort};
ghost use Rattle.pawn_program.specs.Settings.{hex_byte, hex_digit, seed_of};
ghost use Rattle.std.specs.Prelude.{◌≡◌, ◌<◌, IfSome, IfNone};

use crate::fault::SettingsFault;
use crate::key_files::{KeyFileFault, KeyFiles};
use pawn_book::Rows;
use pawn_host::{Number, RequestDay, Secret};

/// The largest port number.
const LAST_PORT: u32 = 65_535;

/// The settings on the command line of `pawnd answer`, except for the database.
#[derive(Clone, Copy)]
pub struct Settings {
    /// The day of every request.
    pub day: RequestDay,
    /// The seed of the stamps' random words.
    pub seed: [u8; 32],
    /// The operator's key.
    pub operator: Secret,
}

impl Settings {
    /// Reads the settings from a day, a seed and a key. The error is the first fault in this order. `key` is a key, or
    /// otherwise the path of a file that holds one.
    pub fn read<F: KeyFiles>(
        files: &mut F,
        day: &str,
        seed: &str,
        key: &str,
    ) -> Result<Settings, SettingsFault>
        ensures read { AreSettings F.reads files.old files.new day.now seed.now key.now result }
    {
        let Some(day) = day_of(day.as_bytes()) else {
            return Err(SettingsFault::BadDay);
        };
        let Some(seed) = seed_of(seed.as_bytes()) else {
            return Err(SettingsFault::BadSeed);
        };
        match key_argument(files, key) {
            Ok(operator) => Ok(Settings {
                day,
                seed,
                operator,
            }),
            Err(fault) => Err(fault),
        }
    }
}

/// The settings on the command line of `pawnd serve`, except for the database.
#[derive(Clone, Copy)]
pub struct ServeSettings {
    /// The port on which the program listens, on this machine's loopback address only.
    pub port: u16,
    /// The operator's key.
    pub operator: Secret,
}

impl ServeSettings {
    /// Reads the settings from a port and a key. The error is the first fault in this order. `key` is a key, or
    /// otherwise the path of a file that holds one.
    pub fn read<F: KeyFiles>(
        files: &mut F,
        port: &str,
        key: &str,
    ) -> Result<ServeSettings, SettingsFault>
        ensures read { IsServeRead F.reads files.old files.new port.now key.now result }
    {
        let Some(port) = port_of(port.as_bytes()) else {
            return Err(SettingsFault::BadPort);
        };
        match key_argument(files, key) {
            Ok(operator) => Ok(ServeSettings { port, operator }),
            Err(fault) => Err(fault),
        }
    }
}

/// Returns the port that a text writes: 1 to 65535, in decimal digits.
fn port_of(text: &[u8]) -> Option<u16>
    ensures some { IfSome result (λ port. SaysPort text.now port) }
    ensures none { IfNone result (SaysNoPort text.now) }
{
    let Some(number) = Number::of_text(text) else {
        return None;
    };
    let port = number.get();
    if port > LAST_PORT {
        return None;
    }
    Some(port as u16)
}

/// Returns the day that a text such as `2024-01-31` writes.
fn day_of(text: &[u8]) -> Option<RequestDay>
    ensures some { IfSome result (λ day. SaysDay text.now day) }
    ensures none { IfNone result (SaysNoDay text.now) }
{
    match RequestDay::of_text(text) {
        Ok(day) => Some(day),
        Err(_) => None,
    }
}

/// Returns the value of a hexadecimal digit, of either case.
fn hex_digit(digit: u8) -> Option<u8>
    ensures value { result ≡ hex_digit digit }
    ensures in_range { IfSome result (λ d. d < 16) }
{
    match (digit as char).to_digit(16) {
        Some(value) => Some(value as u8),
        None => None,
    }
}

/// Returns the byte that two hexadecimal digits write.
fn hex_byte(high: u8, low: u8) -> Option<u8>
    ensures value { result ≡ hex_byte high low }
{
    Some(hex_digit(high)? * 16 + hex_digit(low)?)
}

/// Returns the seed that 64 hexadecimal digits write.
fn seed_of(text: &[u8]) -> Option<[u8; 32]>
    ensures value { result ≡ seed_of text.now }
{
    if text.len() != 64 {
        return None;
    }
    let mut seed = [0u8; 32];
    for i in 0..32usize {
        seed[i] = hex_byte(text[2 * i], text[2 * i + 1])?;
    }
    Some(seed)
}

/// Returns the key that a text writes, or otherwise the key in the file at that path.
fn key_argument<F: KeyFiles>(files: &mut F, text: &str) -> Result<Secret, SettingsFault>
    ensures key { GivesKey F.reads files.old files.new text.now result }
{
    match Secret::of_text(text.as_bytes()) {
        Some(key) => Ok(key),
        None => key_in(files.read(text)),
    }
}

/// Returns the key in a file that was read.
fn key_in(found: Result<Rows<u8>, KeyFileFault>) -> Result<Secret, SettingsFault>
    ensures key { result ≡ key_in found }
{
    match found {
        Ok(bytes) => match key_of_bytes(bytes.as_slice()) {
            Some(key) => Ok(key),
            None => Err(SettingsFault::BadKey),
        },
        Err(KeyFileFault::Memory) => Err(SettingsFault::Memory),
        Err(KeyFileFault::Unreadable) => Err(SettingsFault::BadKey),
    }
}

/// Returns the key that a file's bytes write, with or without a line end.
fn key_of_bytes(bytes: &[u8]) -> Option<Secret>
    ensures value { result ≡ key_of_bytes bytes.now }
{
    Secret::of_text(without_line_end(bytes))
}

/// Returns the bytes without a line end (CR LF or LF) at their end.
fn without_line_end(bytes: &[u8]) -> &[u8]
    ensures line { result.now ≡ without_line_end bytes.now }
{
    match bytes.strip_suffix(b"\r\n") {
        Some(line) => line,
        None => match bytes.strip_suffix(b"\n") {
            Some(line) => line,
            None => bytes,
        },
    }
}
