//! The faults of the settings on a command line.

/// Which word of the command line is at fault.
#[derive(Clone, Copy)]
pub enum SettingsFault {
    /// The day is not one from 2000-01-01 to 2199-12-31, in this form.
    BadDay,
    /// Memory ran out while the key file was read.
    Memory,
    /// The seed is not 64 hexadecimal digits.
    BadSeed,
    /// The port is not a number from 1 to 65535.
    BadPort,
    /// The word is neither a key nor the path of a file that holds one.
    BadKey,
}
