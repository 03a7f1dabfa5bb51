use crate::guest::Guest;
use crate::known::forget;
use guest_words::{Page, Width};
use undo_log::Restore;

// The table is emptied where the instructions may have changed.
impl Restore for Guest {
    ghost use Rattle.guest_memory.specs.Returning.{put_back};

    ghost put_back = { λ guest note. record guest { memory = put_back guest.memory note } };

    ghost spare = { λ guest. guest.memory.spare };

    fn put_bytes(&mut self, address: u64, width: Width, old: u64) {
        let placed = self.memory.exchange(&mut self.recent, address, width, old);
        if placed.is_err() {
            self.memory.put_bytes(address, width, old);
            forget(&mut self.table);
        }
    }

    fn drop_pages(&mut self, from: u64, count: u64) {
        self.memory.drop_pages(from, count);
        forget(&mut self.table);
    }

    fn put_page(&mut self, page: Page) {
        let exec = page.rights.exec;
        Restore::put_page(&mut self.memory, page);
        if exec {
            forget(&mut self.table);
        }
    }

    fn put_break(&mut self, old: u64) {
        self.memory.put_break(old);
    }
}
