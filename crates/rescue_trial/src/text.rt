//! The text of trials.
ghost use Rattle.std.specs.Prelude.{◌≡◌, [], ◌∷◌, ◌++◌, codes, IfOk, OnOk, string_bytes};
ghost use Rattle.std.specs.Fmt.{decimal};
ghost use Rattle.std.specs.List.{flat_map};
ghost use Rattle.rescue_report.specs.Lines.{ending_words, line};
ghost use Rattle.rescue_report.specs.Numbers.{hexadecimal};
ghost use Rattle.rescue_trial.specs.TrialText.{good_line, good_of, name_at, try_line};
ghost use Rattle.rescue_trial.specs.TrialText.{trial_text_of};

use crate::trial::Trial;
use crate::trials::Trials;
use elf_symbols::{Symbol, Symbols};
use guest_words::{Bytes, Ending, Fault, MemoryWant};
use rescue_report::{put_count, put_hexadecimal};
use std::alloc::Global;

// The name of the first symbol with a value; empty where there is none.
fn name_at<'a>(symbols: &[Symbol<'a>], entry: u64) -> &'a str
    ensures value { result.now ≡ name_at symbols.now entry }
{
    match symbols.iter().find(|s| s.value == entry) {
        Some(symbol) => symbol.name.text(),
        None => "",
    }
}

// Appends the words of a fault and a line feed.
fn put_fault(text: &mut String, fault: &Fault, hart: u8) -> Result<(), MemoryWant>
    ensures ok { OnOk result
        (string_bytes text.new
        ≡ string_bytes text.old ++ line (ending_words (Ending.Fault hart fault.now))) }
{
    let name = fault.name.name();
    write!(text, "fault {name} hart {hart} pc ")?;
    put_hexadecimal(text, fault.pc)?;
    text.push_str("\n")?;
    Ok(())
}

// Appends how a trial ended and its rescues.
fn put_end(text: &mut String, ending: Ending, rescues: u64) -> Result<(), MemoryWant>
    ensures ok { OnOk result
        (string_bytes text.new ≡ string_bytes text.old
        ++ line (codes "end" ∷ ending_words ending ++ codes "rescues" ∷ decimal rescues ∷ [])) }
{
    match ending {
        Ending::Exit { code, .. } => writeln!(text, "end exit {code} rescues {rescues}")?,
        Ending::Fault { hart, fault } => put_fault_end(text, &fault, hart, rescues)?,
        Ending::Stuck => writeln!(text, "end stuck rescues {rescues}")?,
        Ending::Budget => writeln!(text, "end budget rescues {rescues}")?,
    }
    Ok(())
}

fn put_fault_end(text: &mut String, fault: &Fault, hart: u8, rescues: u64) -> Result<(), MemoryWant>
    ensures ok { OnOk result
        (string_bytes text.new ≡ string_bytes text.old
        ++ line (codes "end" ∷ ending_words (Ending.Fault hart fault.now)
        ++ codes "rescues" ∷ decimal rescues ∷ [])) }
{
    let name = fault.name.name();
    write!(text, "end fault {name} hart {hart} pc ")?;
    put_hexadecimal(text, fault.pc)?;
    writeln!(text, " rescues {rescues}")?;
    Ok(())
}

fn put_try(text: &mut String, symbols: &[Symbol], trial: &Trial) -> Result<(), MemoryWant>
    ensures ok { OnOk result
        (string_bytes text.new ≡ string_bytes text.old ++ try_line symbols.now trial.now) }
{
    let name = name_at(symbols, trial.entry);
    text.push_str("try ")?;
    put_hexadecimal(text, trial.entry)?;
    write!(text, " {name} ")?;
    put_end(text, trial.ending, trial.rescues)
}

fn put_good(text: &mut String, symbols: &[Symbol], trial: &Trial) -> Result<(), MemoryWant>
    ensures ok { OnOk result
        (string_bytes text.new ≡ string_bytes text.old ++ good_line symbols.now trial.now) }
{
    let name = name_at(symbols, trial.entry);
    text.push_str("good ")?;
    put_hexadecimal(text, trial.entry)?;
    writeln!(text, " {name}")?;
    Ok(())
}

fn put_tries(text: &mut String, symbols: &[Symbol], trials: &[Trial]) -> Result<(), MemoryWant>
    ensures ok { OnOk result (string_bytes text.new
        ≡ string_bytes text.old ++ flat_map (try_line symbols.now) trials.now) }
{
    for trial in trials {
        put_try(text, symbols, trial)?;
    }
    Ok(())
}

fn put_goods(text: &mut String, symbols: &[Symbol], trials: &[Trial]) -> Result<(), MemoryWant>
    ensures ok { OnOk result (string_bytes text.new
        ≡ string_bytes text.old ++ flat_map (good_line symbols.now) (good_of trials.now)) }
{
    for trial in trials {
        if trial.is_good() {
            put_good(text, symbols, trial)?;
        }
    }
    Ok(())
}

/// The text of the trials of a call path, in ASCII but for names: the fault of the run without
/// points and the hart that met it, a line for each trial, one for each that ended with exit code
/// 0, and the number of those. A function's name is that of the first symbol with its entry.
pub fn trial_text(
    alloc: Global,
    fault: &Fault,
    hart: u8,
    symbols: &Symbols,
    trials: &Trials,
) -> Result<Bytes, MemoryWant>
    ensures ok { IfOk result
        (λ text. text ≡ trial_text_of fault.now hart symbols.now trials.now) }
{
    let symbols = symbols.to_vec(alloc)?;
    let mut text = String::from_str(alloc, "try-report 1\n")?;
    put_fault(&mut text, fault, hart)?;
    put_tries(&mut text, &symbols, trials.items())?;
    put_goods(&mut text, &symbols, trials.items())?;
    put_count(&mut text, "count", trials.good() as u128)?;
    Ok(Bytes::of(text.into_bytes()))
}
