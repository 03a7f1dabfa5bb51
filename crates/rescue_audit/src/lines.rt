ghost use Rattle.std.specs.Prelude.{◌≡◌, IfOk, string_bytes};
ghost use Rattle.rescue_audit.specs.AuditLines.{no_line, yes_line};

use crate::no::No;
use guest_words::MemoryWant;
use rescue_report::Counts;
use run_history::History;
use std::alloc::Global;

/// The line of a history that is as it says: its steps, calls on devices and rescued calls, those
/// of insides included.
pub fn yes_text(alloc: Global, history: &History) -> Result<String, MemoryWant>
    ensures ok { IfOk result (λ text. string_bytes text ≡ yes_line history.now.entries) }
{
    let Counts {
        steps,
        records,
        rescues,
    } = Counts::of(history.items())?;
    Ok(format!(in alloc; "audit yes steps {steps} records {records} rescues {rescues}\n")?)
}

/// The line of a no.
pub fn no_text(alloc: Global, refusal: No) -> Result<String, MemoryWant>
    ensures ok { IfOk result (λ text. string_bytes text ≡ no_line refusal) }
{
    match refusal {
        No::File { fault, offset } => {
            let name = fault.name();
            Ok(format!(in alloc; "audit no file {name} at {offset}\n")?)
        }
        No::Ports { named, kept } => {
            Ok(format!(in alloc; "audit no ports named {named} kept {kept}\n")?)
        }
        No::Entry { index } => Ok(format!(in alloc; "audit no entry {index}\n")?),
        No::Unended => Ok(String::from_str(alloc, "audit no end\n")?),
        No::Device { number } => Ok(format!(in alloc; "audit no device {number}\n")?),
    }
}
