//! Words against those that others expect of the same generator.

use crate::Words;

/// The tests of the generator's own crate expect this of seed 0, the first word as the low half.
#[test]
fn words_of_seed_0(rt: HostRuntime) {
    let mut words = Words::of(0);
    let low = u64::from(words.draw());
    let high = u64::from(words.draw());
    assert_eq!(rt; (high << 32) | low, 18_195_738_587_432_868_099);
}
