/// The line of a program: its name, the version, which is that of all of them, and the program logic in
/// which they are proved, as `rt version` tells it behind the name of the kit. Kits of one logic differ
/// in their commands, and not in what a proof is.
macro_rules! version_of {
    ($program:literal) => {
        concat!($program, " 0.1.0, proved with logic dac8208d650f15bf\n")
    };
}

pub const SMD: &str = version_of!("smd");

pub const SMCTL: &str = version_of!("smctl");

pub const SMTRACE: &str = version_of!("smtrace");

pub const SMCLIENT: &str = version_of!("smclient");

pub const SMRELAY: &str = version_of!("smrelay");

pub const SMWRAP: &str = version_of!("smwrap");

pub const SMNEST: &str = version_of!("smnest");
