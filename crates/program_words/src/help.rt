ghost use Rattle.std.specs.Prelude.{◌≡◌, ◌++◌, IfOk, OnOk, string_bytes};
ghost use Rattle.program_words.specs.Help.{help_text, section_of, version_text};

use crate::command_kind::CommandKind;
use guest_words::Bytes;
use std::alloc::{AllocError, Global};

/// What the program is.
pub const HEAD: &str =
    "rescue runs one RISC-V program, the guest, under rescue points: a call of such
a function that meets a fault is taken back, and returns an error instead.
";

/// The options, the statuses, an example and where to read on.
pub const TAIL: &str = "
options, as two words or as one with '=', each once:
  --points FILE  the rescue file, which names the points; else there are none
  --harts N      slots for harts, 1 to 64; else 8
  --budget N     the run ends after so many steps, 1 to 20,000,000; else
                 5,000,000
  --seed N       chooses which hart is next, 0 to 18,446,744,073,709,551,615;
                 else 0
  --returns=N    what try's points return, any signed 64-bit number; else -1
  --save FILE    keeps the history of the run in FILE, for audit
  --report FILE  puts the report into FILE
  IN:OUT         a port: the guest reads the file IN and writes the file OUT

exit status: the guest's exit code, where it ended by itself. Else
   0  the command was done          71  no hart is ready
  64  the words are refused         72  the budget is spent
  65  the numbers of ports differ   73  the rescue file is refused
  66  a file can't be read          74  the report can't be written
  67  a file is too long            75  no memory is left
  68  PROGRAM is refused            77  the history can't be saved
  69  its symbols are refused       78  audit: it is no such run
  70  a fault under no point           79  try: no fault is met

example:
  rescue alone --points points.toml --seed 7 server < requests

The manual is docs/MANUAL.md; 'man rescue' has it in short.
";

/// Which version of the program this is.
pub const VERSION_LINE: &str = "rescue 0.1.0
";

/// Puts how a command is called, and what it does.
fn put_command(text: &mut String, kind: CommandKind) -> Result<(), AllocError>
    ensures ok { OnOk result (string_bytes text.new ≡ string_bytes text.old ++ section_of kind) }
{
    text.push_str("\n")?;
    text.push_str(kind.usage())?;
    text.push_str(kind.purpose())?;
    Ok(())
}

/// The help: what the program is, its commands with what they do, their options, the statuses and an
/// example. Its lines have at most 80 bytes. Only memory can be wanting.
pub fn help_text(alloc: Global) -> Result<Bytes, AllocError>
    ensures ok { IfOk result (λ text. text ≡ help_text) }
{
    let mut text = String::from_str(alloc, HEAD)?;
    put_command(&mut text, CommandKind::Run)?;
    put_command(&mut text, CommandKind::Alone)?;
    put_command(&mut text, CommandKind::List)?;
    put_command(&mut text, CommandKind::Load)?;
    put_command(&mut text, CommandKind::Audit)?;
    put_command(&mut text, CommandKind::Try)?;
    put_command(&mut text, CommandKind::Help)?;
    put_command(&mut text, CommandKind::Version)?;
    text.push_str(TAIL)?;
    Ok(Bytes::of(text.into_bytes()))
}

/// The name of the program and its version, in a line.
pub fn version_text() -> &'static str
    ensures text { result.now ≡ version_text }
{
    VERSION_LINE
}
