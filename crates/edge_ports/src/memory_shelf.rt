ghost use Rattle.std.specs.Prelude.{◌≡◌, ◌↔◌, ◌<◌, ◌≤◌, ◌⊎◌, ◌∷◌, [], ℕ, All, length, false, IfOk, IsOkUnless, IsTrue, OnErr, OnOk, option_map, option_copied};
ghost use Rattle.edge_ports.specs.End.{raised_if};
ghost use Rattle.edge_ports.specs.InMemory.{counted, no_calls, numbered, IsNextFailing};
ghost use Rattle.edge_ports.specs.Shelves.{first_named, is_failed, is_long, shelf_of, Loads, Saves};

use crate::calls::Calls;
use crate::octets::octets;
use crate::reason::Reason;
use crate::shelf::{Shelf, ShelfFault};
use crate::shelf_file::ShelfFile;
use crate::shelf_log::{ShelfCall, ShelfLog};
use guest_words::{Bytes, MemoryWant, Name};
use std::alloc::Global;
use std::marker::Model;

/// A shelf of given files, whose loads and saves of given numbers fail: they are counted together.
/// Of several files of one name the first alone counts.
#[derive(Drop)]
pub struct MemoryShelf {
    files: Vec<ShelfFile>,
    calls: Calls,
    save_faults: u64,
    longs: u64,
    log: ShelfLog,
}

impl Model for MemoryShelf {
    ghost use Rattle.edge_ports.specs.Shelves.{ShelfState};

    ghost Value = { ShelfState };

    ghost view = { λ s. record {
      files = s.files.items;
      calls = s.calls;
      save_faults = s.save_faults;
      longs = s.longs;
      asked = s.log.asked;
    } };
}

impl Shelf for MemoryShelf {
    ghost seen = { shelf_of };

    /// Fails exactly where its number is among those that are to fail, for another reason, or no
    /// file has the name, which is the reason then.
    fn load(&mut self, alloc: Global, name: &str, limit: u64) -> Result<Bytes, ShelfFault>
        ensures loads { Loads (shelf_of self.old) (shelf_of self.new) name.now limit result }
        ensures refuses { IsTrue (is_failed result)
            ↔ (IsNextFailing self.old.calls ⊎ (first_named self.old.files name.now ≡ None)) }
        ensures absent { result ≡ Err (ShelfFault.Failed Reason.NotFound)
            → first_named self.old.files name.now ≡ None }
        ensures failing { result ≡ Err (ShelfFault.Failed Reason.Other)
            → IsNextFailing self.old.calls }
        ensures reason { (reason : Reason) → result ≡ Err (ShelfFault.Failed reason)
            → (reason ≡ Reason.NotFound) ⊎ (reason ≡ Reason.Other) }
        ensures counts { self.new.calls ≡ counted (is_failed result) self.old.calls }
        ensures longs { self.new.longs ≡ raised_if (is_long result) self.old.longs }
        ensures saves { self.new.save_faults ≡ self.old.save_faults }
        ensures same { self.new.files ≡ self.old.files }
    {
        let answer = self.read(alloc, name, limit);
        self.log = self.log.then(&ShelfCall::Load {
            name,
            answer: &answer,
        });
        answer
    }

    /// Puts the file before the others. Fails exactly where its number is among those that are to
    /// fail, for another reason.
    fn save(&mut self, alloc: Global, name: &str, bytes: &Bytes) -> Result<(), ShelfFault>
        ensures saves { Saves (shelf_of self.old) (shelf_of self.new) name.now bytes.now result }
        ensures ok { OnOk result (self.new.files
            ≡ (record { name = name.now; bytes = bytes.now }) ∷ self.old.files) }
        ensures err { OnErr result (self.new.files ≡ self.old.files) }
        ensures refuses { IsTrue (is_failed result) ↔ IsNextFailing self.old.calls }
        ensures reason { (reason : Reason) → result ≡ Err (ShelfFault.Failed reason)
            → reason ≡ Reason.Other }
        ensures counts { self.new.save_faults ≡ raised_if (is_failed result) self.old.save_faults }
        ensures calls { self.new.calls ≡ numbered self.old.calls }
        ensures longs { self.new.longs ≡ self.old.longs }
    {
        let answer = self.write(alloc, name, bytes);
        self.log = self.log.then(&ShelfCall::Save {
            name,
            bytes,
            answer,
        });
        answer
    }
}

impl MemoryShelf {
    /// The numbers of the loads and saves that are to fail are counted from 1.
    pub fn new(files: Vec<ShelfFile>, failing: Vec<u64>) -> MemoryShelf
        ensures value { result ≡ (record {
          files = files.items;
          calls = no_calls failing.items;
          save_faults = 0;
          longs = 0;
          asked = [];
        }) }
    {
        MemoryShelf {
            files,
            calls: Calls::new(failing),
            save_faults: 0,
            longs: 0,
            log: ShelfLog::new(),
        }
    }

    fn read(&mut self, alloc: Global, name: &str, limit: u64) -> Result<Bytes, ShelfFault>
        ensures file { IfOk result (λ bytes. first_named self.old.files name.now ≡ Some bytes) }
        ensures within { IfOk result (λ bytes. length bytes ≤ limit) }
        ensures below { IfOk result (λ bytes. All (λ b. b < 256) bytes) }
        ensures long { (size : ℕ) → result ≡ Err (ShelfFault.TooLong size) → (limit < size)
            × (option_map length (first_named self.old.files name.now) ≡ Some size) }
        ensures refuses { IsTrue (is_failed result)
            ↔ (IsNextFailing self.old.calls ⊎ (first_named self.old.files name.now ≡ None)) }
        ensures absent { result ≡ Err (ShelfFault.Failed Reason.NotFound)
            → first_named self.old.files name.now ≡ None }
        ensures failing { result ≡ Err (ShelfFault.Failed Reason.Other)
            → IsNextFailing self.old.calls }
        ensures reason { (reason : Reason) → result ≡ Err (ShelfFault.Failed reason)
            → (reason ≡ Reason.NotFound) ⊎ (reason ≡ Reason.Other) }
        ensures counts { self.new ≡ (record self.old {
          calls = counted (is_failed result) self.old.calls;
          longs = raised_if (is_long result) self.old.longs;
        }) }
        ensures later { self.old.calls.faults ≤ self.new.calls.faults }
        ensures longs_later { self.old.longs ≤ self.new.longs }
    {
        if self.calls.begin().is_err() {
            return Err(ShelfFault::Failed(Reason::Other));
        }
        let Some(bytes) = find(&self.files, name) else {
            self.calls.fail();
            return Err(ShelfFault::Failed(Reason::NotFound));
        };
        let length = bytes.items().len() as u64;
        if length > limit {
            self.longs = self.longs.saturating_add(1);
            return Err(ShelfFault::TooLong { length });
        }
        copy(alloc, bytes)
    }

    fn write(&mut self, alloc: Global, name: &str, bytes: &Bytes) -> Result<(), ShelfFault>
        ensures ok { OnOk result (self.new.files
            ≡ (record { name = name.now; bytes = bytes.now }) ∷ self.old.files) }
        ensures err { OnErr result (self.new.files ≡ self.old.files) }
        ensures refuses { IsTrue (is_failed result) ↔ IsNextFailing self.old.calls }
        ensures reason { (reason : Reason) → result ≡ Err (ShelfFault.Failed reason)
            → reason ≡ Reason.Other }
        ensures short { is_long result ≡ false }
        ensures counts { self.new ≡ (record self.old {
          files = self.new.files;
          calls = numbered self.old.calls;
          save_faults = raised_if (is_failed result) self.old.save_faults;
        }) }
        ensures later { self.old.save_faults ≤ self.new.save_faults }
    {
        if self.calls.number() {
            self.save_faults = self.save_faults.saturating_add(1);
            return Err(ShelfFault::Failed(Reason::Other));
        }
        match put_first(&mut self.files, alloc, name, bytes) {
            Ok(()) => Ok(()),
            Err(_) => Err(ShelfFault::Memory),
        }
    }
}

/// Puts a file before the others.
fn put_first(
    files: &mut Vec<ShelfFile>,
    alloc: Global,
    name: &str,
    bytes: &Bytes,
) -> Result<(), MemoryWant>
    ensures ok { OnOk result (files.new.items
        ≡ (record { name = name.now; bytes = bytes.now }) ∷ files.old.items) }
    ensures err { OnErr result (files.new.items ≡ files.old.items) }
{
    let file = ShelfFile {
        name: Name::of(String::from_str(alloc, name)?),
        bytes: bytes.copy(alloc)?,
    };
    files.insert(0, file)?;
    Ok(())
}

/// The bytes of the first file of that name.
fn find<'a>(files: &'a [ShelfFile], name: &str) -> Option<&'a Bytes>
    ensures value { option_copied result ≡ first_named files.now name.now }
{
    files
        .iter()
        .find(|file| file.name.items() == name)
        .map(|file| &file.bytes)
}

fn copy(alloc: Global, bytes: &Bytes) -> Result<Bytes, ShelfFault>
    ensures ok { IfOk result (λ copy. copy ≡ bytes.now) }
    ensures below { IfOk result (λ copy. All (λ b. b < 256) copy) }
    ensures err { IsOkUnless result ShelfFault.Memory }
{
    match bytes.items().to_vec(alloc) {
        Ok(copy) => Ok(octets(copy)),
        Err(_) => Err(ShelfFault::Memory),
    }
}
