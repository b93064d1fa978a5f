//! Tests of the settings of a command line, of the words of a seed, and of stamps with a clock. The script
//! `tests/process/faults.py` shows which command lines are refused, and a key in a file. `tests/operator/serve.py` and
//! `tests/process/connections.py` show connections.

use pawn_book::Rows;
use pawn_host::{RequestDay, Stamp};
use pawn_program::{
    ClockStamps, KeyFileFault, KeyFiles, MachineClock, MachineFiles, ServeSettings, Settings,
    SettingsFault, Words,
};
use std::alloc::Global;
use std::io;
use std::test::Fail;
use std::time::{Clock, Duration};

const KEY: &str = "11111111-1111-1111-1111-111111111111";

const KEY_WORD: u128 = 0x1111_1111_1111_1111_1111_1111_1111_1111;

#[test]
fn settings_are_read(rt: HostRuntime) -> Result<(), Fail> {
    let seed = "00FFff0000000000000000000000000000000000000000000000000000000001";
    let mut files = MachineFiles::new(&rt);
    let settings = Settings::read(&mut files, "2024-01-31", seed, KEY)
        .ok()
        .ok_or("no settings")?;
    assert_eq!(rt; (settings.seed[1], settings.seed[31]), (255, 1));
    assert_eq!(rt; settings.operator.word(), KEY_WORD);
    assert_eq!(rt; settings.day.day().number(), 19753);
    let of_serve = ServeSettings::read(&mut files, "65535", KEY)
        .ok()
        .ok_or("no port")?;
    assert_eq!(rt; of_serve.port, 65_535);
    Ok(())
}

/// A file with these bytes at every path.
#[derive(Drop)]
struct OneFile<'a> {
    alloc: Global,
    bytes: &'a [u8],
}

impl<'a> KeyFiles for OneFile<'a> {
    ghost reads = { λ _ _ _ _. Unit {0} };

    fn read(&mut self, _path: &str) -> Result<Rows<u8>, KeyFileFault> {
        match Vec::from_slice(self.alloc, self.bytes) {
            Ok(bytes) => Ok(Rows::from_vec(bytes)),
            Err(_) => Err(KeyFileFault::Memory),
        }
    }
}

#[test]
fn a_key_is_read_from_a_file(rt: HostRuntime) {
    for (bytes, is_key) in [
        (KEY, true),
        ("11111111-1111-1111-1111-111111111111\r\n", true),
        ("11111111-1111-1111-1111-111111111111\n\n", false),
        ("", false),
    ] {
        let mut files = OneFile {
            alloc: rt.alloc(),
            bytes: bytes.as_bytes(),
        };
        let found = ServeSettings::read(&mut files, "8080", "operator.key");
        let is_as_wanted = match found {
            Ok(settings) => is_key && settings.operator.word() == KEY_WORD,
            Err(SettingsFault::BadKey) => !is_key,
            Err(_) => false,
        };
        assert!(rt; is_as_wanted, "{bytes}");
    }
}

/// The stream of the zero seed begins 76b8e0ad a0f13d90 405d6ae5 5386bd28.
#[test]
fn words_are_the_streams(rt: HostRuntime) {
    let mut words = Words::of_seed([0; 32]);
    assert_eq!(rt; words.next(), 0x76b8_e0ad_a0f1_3d90_405d_6ae5_5386_bd28);
    assert_eq!(rt; words.next(), 0xbdd2_19b8_a08d_ed1a_a836_efcc_8b77_0dc7);
    assert_eq!(rt; words.next(), 0xda41_597c_5157_488d_7724_e03f_b8d8_4a37);
}

/// A clock that has stopped this many seconds after the beginning of 1970.
#[derive(Drop)]
struct Stopped {
    seconds: u64,
}

impl Clock for Stopped {
    fn monotonic(&self) -> io::Result<Duration> {
        Ok(Duration::from_secs(self.seconds))
    }

    fn since_1970(&self) -> io::Result<Duration> {
        Ok(Duration::from_secs(self.seconds))
    }
}

#[test]
fn a_stamp_has_the_clocks_day_and_the_next_word(rt: HostRuntime) {
    for (seconds, day) in [
        (946_684_799u64, None),
        (1_706_745_599, Some("2024-01-31")),
        (1_706_745_600, Some("2024-02-01")),
        (7_258_118_400, None),
    ] {
        let clock = Stopped { seconds };
        let mut stamps = ClockStamps::new(MachineClock::new(&clock), Words::of_seed([0; 32]));
        let wanted = day.map(|text| Stamp {
            day: RequestDay::of_text(text.as_bytes()).expect(&rt, "a day"),
            word: 0x76b8_e0ad_a0f1_3d90_405d_6ae5_5386_bd28,
        });
        assert!(rt; stamps.next() == wanted, "at {seconds}");
    }
}
