use crate::port_name::PortNames;
use guest_words::Name;

/// What the words ask for.
#[derive(Drop)]
pub enum Command {
    /// Run a program on threads.
    Run {
        /// The rescue file.
        points: Option<Name>,
        /// 1 to 64.
        harts: u8,
        /// Steps, 1 to 20,000,000.
        budget: u64,
        /// Where the history goes.
        save: Option<Name>,
        program: Name,
        /// How many ports are named.
        ports: u64,
    },
    /// Run a program on one thread, the same way for the same seed.
    Alone {
        /// The rescue file.
        points: Option<Name>,
        /// 1 to 64.
        harts: u8,
        /// Steps, 1 to 20,000,000.
        budget: u64,
        seed: u64,
        /// Where the history goes.
        save: Option<Name>,
        program: Name,
        /// How many ports are named.
        ports: u64,
    },
    /// List the functions of a program.
    List {
        program: Name,
    },
    /// Make the load of a number, and run it.
    Load {
        /// 1 to 1,000.
        number: u64,
    },
    /// Hold a saved history against a program and the files of its devices.
    Audit {
        /// The rescue file.
        points: Option<Name>,
        history: Name,
        program: Name,
        /// What the program read from descriptor 0.
        input: Name,
        /// What it wrote to descriptor 1.
        out: Name,
        /// What it wrote to descriptor 2.
        err: Name,
        /// What it read from each port, and what it wrote there.
        ports: PortNames,
    },
    /// Run a program, and try each function on the call path of its fault as the only point.
    Try {
        /// 1 to 64.
        harts: u8,
        /// Steps, 1 to 20,000,000.
        budget: u64,
        seed: u64,
        /// What a call that is taken back returns.
        returns: i64,
        program: Name,
        /// What the program reads.
        input: Name,
    },
    /// Say what the commands are.
    Help,
    /// Say which version this is.
    Version,
}
