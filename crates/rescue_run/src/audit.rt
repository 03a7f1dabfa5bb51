//! What an audit is answered.
ghost use Rattle.std.specs.Prelude.{◌≡◌};
ghost use Rattle.edge_ports.specs.Seen.{seen};
ghost use Rattle.guest_words.specs.Image.{IsLoadList};
ghost use Rattle.history_file.specs.Spelled.{IsHead};
ghost use Rattle.rescue_audit.specs.AuditLines.{no_line, yes_line};
ghost use Rattle.rescue_audit.specs.Verdict.{verdict_of};
ghost use Rattle.rescue_run.specs.Audits.{IsAuditTold, PutsVerdict};
ghost use Rattle.rescue_run.specs.Puts.{PutsOwn};
ghost use Rattle.rescue_run.specs.declared.outcome.Outcome.TheVariants.{Audited, AuditNo};

use crate::outcome::Outcome;
use crate::put::{put_memory, put_own};
use crate::task::AuditTask;
use edge_ports::Sink;
use history_file::{FileFault, Head, read};
use rescue_audit::{No, Verdict, audit, no_text, yes_text};
use run_history::History;
use std::alloc::Global;

/// Puts that a history is as it says.
fn put_yes<R: Sink>(alloc: Global, report: &mut R, history: &History) -> Outcome
    ensures puts { PutsOwn (yes_line history.now.entries) Audited result (R.end report.old)
        (R.end report.new) }
{
    match yes_text(alloc, history) {
        Ok(text) => put_own(report, text.as_bytes(), Outcome::Audited),
        Err(_) => put_memory(report),
    }
}

/// Puts that it isn't.
fn put_no<R: Sink>(alloc: Global, report: &mut R, refusal: No) -> Outcome
    ensures puts { PutsOwn (no_line refusal) (AuditNo refusal) result (R.end report.old)
        (R.end report.new) }
{
    match no_text(alloc, refusal) {
        Ok(text) => put_own(report, text.as_bytes(), Outcome::AuditNo(refusal)),
        Err(_) => put_memory(report),
    }
}

/// Puts what the audit of a head and a history says.
fn put_verdict<R: Sink>(
    alloc: Global,
    report: &mut R,
    task: &AuditTask,
    head: &Head,
    history: &History,
) -> Outcome
    requires image { IsLoadList task.now.loaded.image.loads }
    requires head { IsHead head.now }
    ensures puts { PutsVerdict (verdict_of task.now.loaded.image task.now.loaded.points head.now
        history.now.entries task.now.files) history.now.entries result (R.end report.old)
        (R.end report.new) }
{
    let AuditTask { loaded, files, .. } = task;
    match audit(alloc, &loaded.image, &loaded.points, head, history, files) {
        Ok(Verdict::Yes) => put_yes(alloc, report, history),
        Ok(Verdict::No(refusal)) => put_no(alloc, report, refusal),
        Err(_) => put_memory(report),
    }
}

/// Holds a history file against what its program and its files give, puts what that says, and
/// answers what the command comes to.
pub fn put_audit<R: Sink>(alloc: Global, report: &mut R, task: &AuditTask) -> Outcome
    requires image { IsLoadList task.now.loaded.image.loads }
    ensures says { IsAuditTold task.now result (R.end report.old) (R.end report.new) }
{
    match read(alloc, task.history.items()) {
        Ok((head, history)) => put_verdict(alloc, report, task, &head, &history),
        Err(FileFault::At { fault, offset }) => {
            put_no(alloc, report, No::File { fault, offset })
        }
        Err(FileFault::Memory) => put_memory(report),
    }
}
