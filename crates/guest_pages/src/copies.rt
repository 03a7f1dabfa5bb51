ghost use Rattle.std.specs.Prelude.{◌≡◌, ◌+◌, ◌<◌, ◌≤◌, ◌^◌, ◌++◌, IfOk};
ghost use Rattle.guest_words.specs.Space.{bytes_at};
ghost use Rattle.guest_pages.specs.Buffers.{AreAlike, IsAlike};

use crate::page_buffer::PageBuffer;
use crate::pages::Pages;
use guest_words::{Bytes, MemoryWant};
use std::alloc::Global;

impl Pages {
    /// The same pages, with no room for any that come back.
    pub fn copy(&self, alloc: Global) -> Result<Pages, MemoryWant>
        ensures ok { IfOk result (λ pages. pages.space ≡ self.now.space) }
        ensures spare { IfOk result (λ pages. pages.spare ≡ 0) }
    {
        let buffers = copied(alloc, self.buffers.as_slice())?;
        Ok(Pages { buffers, spare: 0 })
    }

    /// So many bytes from an address on; one in no page is 0.
    pub fn bytes_at(&self, alloc: Global, from: u64, count: u32) -> Result<Bytes, MemoryWant>
        requires room { from + count ≤ 2 ^ 64 }
        ensures ok { IfOk result (λ bytes. bytes ≡ bytes_at self.now.space from count) }
    {
        let count = count as usize;
        let mut bytes = Vec::with_capacity(alloc, count)?;
        let mut done = 0;
        while done < count {
            done += self.append_bytes(&mut bytes, from + done as u64, count - done)?;
        }
        Ok(Bytes::of(bytes))
    }

    // Appends the first of so many bytes, up to the end of a page, and answers how many these are.
    fn append_bytes(&self, bytes: &mut Vec<u8>, from: u64, most: usize) -> Result<usize, MemoryWant>
        requires some { 0 < most }
        ensures some { IfOk result (λ count. 0 < count) }
        ensures within { IfOk result (λ count. count ≤ most) }
        ensures value { IfOk result (λ count.
            bytes.new.items ≡ bytes.old.items ++ bytes_at self.now.space from count) }
    {
        let Some(stretch) = self.stretch_at(from) else {
            bytes.push(0)?;
            return Ok(1);
        };
        let count = most.min(stretch.bytes.len());
        bytes.extend_from_slice(&stretch.bytes[..count])?;
        Ok(count)
    }
}

fn copied(alloc: Global, buffers: &[PageBuffer]) -> Result<Vec<PageBuffer>, MemoryWant>
    ensures ok { IfOk result (λ copies. AreAlike buffers.now copies.items) }
{
    let mut copies = Vec::with_capacity(alloc, buffers.len())?;
    for buffer in buffers {
        copies.push(buffer.copy(alloc)?)?;
    }
    Ok(copies)
}

impl PageBuffer {
    fn copy(&self, alloc: Global) -> Result<PageBuffer, MemoryWant>
        ensures ok { IfOk result (λ copy. IsAlike self.now copy) }
    {
        Ok(PageBuffer {
            from: self.from,
            rights: self.rights,
            bytes: self.bytes.as_slice().to_vec(alloc)?,
        })
    }
}
