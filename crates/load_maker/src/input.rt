ghost use Rattle.std.specs.Prelude.{◌≡◌, ◌≤◌, IfOk};
ghost use Rattle.load_maker.specs.Input.{input_of};

use guest_words::MemoryWant;
use seed_words::Words;
use std::alloc::Global;

/// The input of the load of a number: 1,000 times so many bytes below 16, a sixteenth of them zero
/// by chance.
pub(crate) fn load_input(alloc: Global, number: u64) -> Result<Vec<u8>, MemoryWant>
    requires most { number ≤ 1000 }
    ensures ok { IfOk result (λ input. input.items ≡ input_of number) }
{
    let mut words = Words::of(number);
    let mut input = Vec::new(alloc);
    for _ in 0..1000 * number {
        input.push((words.draw() % 16) as u8)?;
    }
    Ok(input)
}
