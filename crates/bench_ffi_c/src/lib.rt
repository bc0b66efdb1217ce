//! The library's boundary as C and Rust see it: one exported function.
#![tactic(auto)]

use std::alloc::Global;

/// A number for all that the calls came to, under TC-Strong or else under TC-Weak; 0 for want of memory.
/// `before` and `calls` have four words for a call.
#[unsafe(no_mangle)]
pub extern "C" fn bench_ffi_run(
    heap: Global,
    cores: u32,
    strong: bool,
    lifetime: u32,
    before: &[u32],
    calls: &[u32],
    rounds: u32,
) -> u32 {
    bench_ffi::run_rows(heap, cores, strong, lifetime, before, calls, rounds)
}
