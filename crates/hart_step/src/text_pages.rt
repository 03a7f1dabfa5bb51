//! The pages that may be executed.
ghost use Rattle.std.specs.Prelude.{◌≡◌, ◌%◌, ◌<◌, ◌+◌, ◌^◌, IfNone, IfSome};
ghost use Rattle.hart_step.specs.TextPages.{HasNoTextFrom, IsNextText};

use guest_memory::Memory;
use guest_words::limits::PAGE;

/// The first page that may be executed, from an address on where a page can begin.
pub(crate) fn text_from(memory: &Memory, address: u64) -> Option<u64>
    requires aligned { address % PAGE ≡ 0 }
    ensures found { IfSome result (IsNextText memory.now.space address) }
    ensures none { IfNone result (HasNoTextFrom memory.now.space address) }
{
    let mut at = address;
    while let Some(page) = memory.page_from(at) {
        if memory.is_text(page) {
            return Some(page);
        }
        at = page + PAGE;
    }
    None
}

/// Where the pages end that may be executed and lie side by side from a page on.
pub(crate) fn text_end(memory: &Memory, page: u64) -> u64
    requires aligned { page % PAGE ≡ 0 }
    requires below { page + PAGE < 2 ^ 64 }
    ensures aligned { result % PAGE ≡ 0 }
    ensures past { page < result }
{
    let mut end = page + PAGE;
    while memory.is_text(end) {
        end += PAGE;
    }
    end
}
