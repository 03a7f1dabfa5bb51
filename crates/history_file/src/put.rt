ghost use Rattle.std.specs.Prelude.{◌≡◌, ◌<◌, ◌^◌, ◌++◌, length, OnOk};
ghost use Rattle.history_file.specs.Numbers.{word, double};
ghost use Rattle.history_file.specs.HistoryBytes.{way_number, fault_bytes, text_bytes, record_bytes, ending_bytes};
ghost use Rattle.history_file.specs.Spelled.{IsRecord, IsEnding};

use guest_words::{Ending, Fault, MemoryWant, Record, Way};

/// Puts a number of 4 bytes last.
#[tactic(auto, unfolding(crate::specs::Numbers::word))]
pub(crate) fn put_word(out: &mut Vec<u8>, number: u32) -> Result<(), MemoryWant>
    ensures ok { OnOk result (out.new.items ≡ out.old.items ++ word number) }
{
    out.extend_from_slice(&number.to_le_bytes())?;
    Ok(())
}

/// Puts a number of 8 bytes last.
#[tactic(auto, unfolding(crate::specs::Numbers::double))]
pub(crate) fn put_double(out: &mut Vec<u8>, number: u64) -> Result<(), MemoryWant>
    ensures ok { OnOk result (out.new.items ≡ out.old.items ++ double number) }
{
    out.extend_from_slice(&number.to_le_bytes())?;
    Ok(())
}

/// Puts a fault last.
#[tactic(auto, unfolding(crate::specs::HistoryBytes::fault_bytes))]
pub(crate) fn put_fault(out: &mut Vec<u8>, fault: Fault) -> Result<(), MemoryWant>
    ensures ok { OnOk result (out.new.items ≡ out.old.items ++ fault_bytes fault) }
    ensures range { fault.pc < 2 ^ 64 }
{
    out.push(fault.name.order() as u8)?;
    put_double(out, fault.pc)
}

/// Puts a text last, behind its length.
#[tactic(auto, unfolding(crate::specs::HistoryBytes::text_bytes))]
fn put_text(out: &mut Vec<u8>, text: &[u8]) -> Result<(), MemoryWant>
    requires { length text.now < 2 ^ 32 }
    ensures ok { OnOk result (out.new.items ≡ out.old.items ++ text_bytes text.now) }
{
    put_word(out, text.len() as u32)?;
    out.extend_from_slice(text)?;
    Ok(())
}

fn way_number(way: Way) -> u8
    ensures { result ≡ way_number way }
{
    match way {
        Way::Read => 0,
        Way::Write => 1,
        Way::Close => 2,
    }
}

/// Puts a record last.
#[tactic(auto, unfolding(crate::specs::HistoryBytes::record_bytes))]
pub(crate) fn put_record(out: &mut Vec<u8>, call: &Record) -> Result<(), MemoryWant>
    requires { length call.now.bytes < 2 ^ 32 }
    ensures ok { OnOk result (out.new.items ≡ out.old.items ++ record_bytes call.now) }
    ensures range { OnOk result (IsRecord call.now) }
{
    put_double(out, call.port)?;
    out.push(way_number(call.way))?;
    put_double(out, call.asked)?;
    put_double(out, call.answer.cast_unsigned())?;
    put_text(out, call.bytes.items())
}

/// Puts an ending last.
#[tactic(auto, unfolding(crate::specs::HistoryBytes::ending_bytes))]
pub(crate) fn put_ending(out: &mut Vec<u8>, ending: Ending) -> Result<(), MemoryWant>
    ensures ok { OnOk result (out.new.items ≡ out.old.items ++ ending_bytes ending) }
    ensures range { OnOk result (IsEnding ending) }
{
    match ending {
        Ending::Exit { hart, code } => {
            out.extend_from_slice(&[0, hart, code])?;
            Ok(())
        }
        Ending::Fault { hart, fault } => {
            out.extend_from_slice(&[1, hart])?;
            put_fault(out, fault)
        }
        Ending::Stuck => {
            out.push(2)?;
            Ok(())
        }
        Ending::Budget => {
            out.push(3)?;
            Ok(())
        }
    }
}
