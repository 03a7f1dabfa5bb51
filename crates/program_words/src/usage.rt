ghost use Rattle.std.specs.Prelude.{◌≡◌};
ghost use Rattle.program_words.specs.Help.{purpose_of, usage_of};

use crate::command_kind::CommandKind;

/// How `run` is called.
pub const RUN: &str = "  usage: rescue run [--points FILE] [--harts N] [--budget N] [--save FILE]
         [--report FILE] PROGRAM [IN:OUT ..]
";

/// How `alone` is called.
pub const ALONE: &str = "  usage: rescue alone [--points FILE] [--harts N] [--budget N] [--seed N]
         [--save FILE] [--report FILE] PROGRAM [IN:OUT ..]
";

/// How `list` is called.
pub const LIST: &str = "  usage: rescue list PROGRAM
";

/// How `load` is called.
pub const LOAD: &str = "  usage: rescue load N
";

/// How `audit` is called.
pub const AUDIT: &str = "  usage: rescue audit [--points FILE] [--report FILE]
         HISTORY PROGRAM INPUT OUT ERR [IN:OUT ..]
";

/// How `try` is called.
pub const TRY: &str = "  usage: rescue try [--harts N] [--budget N] [--seed N] [--returns N]
         [--report FILE] PROGRAM INPUT
";

/// How the help is called.
pub const HELP: &str = "  usage: rescue --help
";

/// How the version is called.
pub const VERSION: &str = "  usage: rescue --version
";

/// What `run` does.
pub const RUN_PURPOSE: &str = "    Runs PROGRAM with a thread for each hart.
";

/// What `alone` does.
pub const ALONE_PURPOSE: &str = "    Runs PROGRAM on one thread. The same seed gives the same run.
";

/// What `list` does.
pub const LIST_PURPOSE: &str = "    Lists the functions of PROGRAM.
";

/// What `load` does.
pub const LOAD_PURPOSE: &str =
    "    Makes a program that serves N times 1,000 requests, and runs it. N is
    from 1 to 1,000.
";

/// What `audit` does.
pub const AUDIT_PURPOSE: &str =
    "    Says whether HISTORY, a file of --save, is a run of PROGRAM that read INPUT
    and wrote OUT and ERR, and at each port read IN and wrote OUT.
";

/// What `try` does.
pub const TRY_PURPOSE: &str =
    "    Runs PROGRAM without points. Where that ends by a fault, tries each function
    on the way to it as the only point, and says which end with exit code 0.
";

/// What the help does.
pub const HELP_PURPOSE: &str = "    Shows this text; also -h and help.
";

/// What the version does.
pub const VERSION_PURPOSE: &str = "    Shows the version.
";

impl CommandKind {
    /// How the command is called: a line, or two, each indented and ended by a line feed.
    pub fn usage(self) -> &'static str
        ensures text { result.now ≡ usage_of self }
    {
        match self {
            CommandKind::Run => RUN,
            CommandKind::Alone => ALONE,
            CommandKind::List => LIST,
            CommandKind::Load => LOAD,
            CommandKind::Audit => AUDIT,
            CommandKind::Try => TRY,
            CommandKind::Help => HELP,
            CommandKind::Version => VERSION,
        }
    }

    /// What the command does, in lines of the help.
    pub fn purpose(self) -> &'static str
        ensures text { result.now ≡ purpose_of self }
    {
        match self {
            CommandKind::Run => RUN_PURPOSE,
            CommandKind::Alone => ALONE_PURPOSE,
            CommandKind::List => LIST_PURPOSE,
            CommandKind::Load => LOAD_PURPOSE,
            CommandKind::Audit => AUDIT_PURPOSE,
            CommandKind::Try => TRY_PURPOSE,
            CommandKind::Help => HELP_PURPOSE,
            CommandKind::Version => VERSION_PURPOSE,
        }
    }
}
