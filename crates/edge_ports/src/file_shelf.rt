ghost use Rattle.std.specs.Prelude.{◌≡◌, ◌<◌, ◌≤◌, [], ℕ, All, length, false, IfOk};
ghost use Rattle.edge_ports.specs.Adapters.{file_shelf};
ghost use Rattle.edge_ports.specs.End.{raised_if};
ghost use Rattle.edge_ports.specs.Shelves.{is_failed, is_long, untold_shelf, Loads, Saves};

use crate::reading::read_up_to;
use crate::reason::Reason;
use crate::shelf::{Shelf, ShelfFault};
use crate::shelf_log::{ShelfCall, ShelfLog};
use crate::writing::write_whole;
use guest_words::{Bytes, MemoryWant};
use std::alloc::Global;
use std::fs;
use std::fs::{File, OpenFile};
use std::rt::Files;

/// A shelf over the files of the system. It doesn't tell them.
#[derive(Drop)]
pub struct FileShelf<R> {
    files: R,
    faults: u64,
    save_faults: u64,
    longs: u64,
    log: ShelfLog,
}

impl<R: Files + Drop> Shelf for FileShelf<R> {
    ghost seen = { file_shelf };

    /// Reads the file of that path. A file that can't be opened or read is `Failed`, for
    /// the system's reason.
    fn load(&mut self, alloc: Global, name: &str, limit: u64) -> Result<Bytes, ShelfFault>
        ensures loads { Loads (file_shelf self.old) (file_shelf self.new) name.now limit result }
        ensures counts { (file_shelf self.new).faults name.now
            ≡ raised_if (is_failed result) ((file_shelf self.old).faults name.now) }
        ensures longs { (file_shelf self.new).longs name.now limit
            ≡ raised_if (is_long result) ((file_shelf self.old).longs name.now limit) }
    {
        let answer = load_file(&self.files, alloc, name, limit);
        match &answer {
            Err(ShelfFault::Failed(_)) => self.faults = self.faults.saturating_add(1),
            Err(ShelfFault::TooLong { .. }) => self.longs = self.longs.saturating_add(1),
            _ => {}
        }
        self.log = self.log.then(&ShelfCall::Load {
            name,
            answer: &answer,
        });
        answer
    }

    /// Writes a file beside, whose name is longer by `.saving`, and renames it. Where that name is
    /// taken, or a file can't be written or renamed, it is `Failed`, and the old one stays.
    fn save(&mut self, alloc: Global, name: &str, bytes: &Bytes) -> Result<(), ShelfFault>
        ensures saves { Saves (file_shelf self.old) (file_shelf self.new) name.now bytes.now
            result }
        ensures counts { (file_shelf self.new).save_faults name.now
            ≡ raised_if (is_failed result) ((file_shelf self.old).save_faults name.now) }
    {
        let answer = save_file(&self.files, alloc, name, bytes.items());
        if let Err(ShelfFault::Failed(_)) = answer {
            self.save_faults = self.save_faults.saturating_add(1);
        }
        self.log = self.log.then(&ShelfCall::Save {
            name,
            bytes,
            answer,
        });
        answer
    }
}

impl<R: Files> FileShelf<R> {
    /// It was asked for nothing yet.
    pub fn new(files: R) -> FileShelf<R>
        ensures none { file_shelf result ≡ untold_shelf 0 0 0 [] }
    {
        FileShelf {
            files,
            faults: 0,
            save_faults: 0,
            longs: 0,
            log: ShelfLog::new(),
        }
    }
}

fn load_file<R: Files>(
    files: &R,
    alloc: Global,
    name: &str,
    limit: u64,
) -> Result<Bytes, ShelfFault>
    ensures within { IfOk result (λ bytes. length bytes ≤ limit) }
    ensures below { IfOk result (λ bytes. All (λ b. b < 256) bytes) }
    ensures over { (size : ℕ) → result ≡ Err (ShelfFault.TooLong size) → limit < size }
{
    let mut file = match fs::open(files, name) {
        Ok(file) => file,
        Err(error) => return Err(ShelfFault::Failed(Reason::of(&error))),
    };
    let likely = length_of(&file, 0);
    match read_up_to(alloc, &mut file, limit, likely) {
        Err(ShelfFault::TooLong { length }) => Err(ShelfFault::TooLong {
            length: length_of(&file, length),
        }),
        answer => answer,
    }
}

/// The length of a file of at least so many bytes, as the system tells it, or those bytes.
fn length_of<F: OpenFile>(file: &F, so_far: u64) -> u64
    ensures least { so_far ≤ result }
{
    match file.metadata() {
        Ok(metadata) => metadata.len().max(so_far),
        Err(_) => so_far,
    }
}

fn save_file<R: Files>(files: &R, alloc: Global, name: &str, bytes: &[u8]) -> Result<(), ShelfFault>
    ensures short { is_long result ≡ false }
{
    let Ok(beside) = name_beside(alloc, name) else {
        return Err(ShelfFault::Memory);
    };
    let mut file = match File::create_new(files, beside.as_str()) {
        Ok(file) => file,
        Err(error) => return Err(ShelfFault::Failed(Reason::of(&error))),
    };
    let reason = if write_whole(&mut file, bytes).is_ok() && file.sync_all().is_ok() {
        match fs::rename(files, beside.as_str(), name) {
            Ok(()) => return Ok(()),
            Err(error) => Reason::of(&error),
        }
    } else {
        Reason::Other
    };
    let _ = fs::remove_file(files, beside.as_str());
    Err(ShelfFault::Failed(reason))
}

/// The name of the file that is written before it takes the place of another.
fn name_beside(alloc: Global, name: &str) -> Result<String, MemoryWant> {
    let mut beside = String::from_str(alloc, name)?;
    beside.push_str(".saving")?;
    Ok(beside)
}
