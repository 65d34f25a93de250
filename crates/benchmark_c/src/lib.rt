// The benchmark's run behind C's calling convention.
#![tactic(auto)]

// Normalises a word with coefficient 1 so many times.
#[unsafe(no_mangle)]
pub extern "C" fn normalise_many(which: u32, letters: &[u8], times: u64) -> u64 {
    benchmark::normalise_many(which, letters, times)
}
