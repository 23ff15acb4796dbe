//! `bench_lib` for a C caller: the archive that bench/ links.
#![tactic(auto)]

use bench_lib::totals::Totals;
use bench_lib::work;

/// What `bench_lib::work::bench_work` does. False where the tolerance is out of range.
#[unsafe(no_mangle)]
pub extern "C" fn bench_work(text: &[u8], tolerance: u64, totals: &mut Totals) -> bool {
    work::bench_work(text, tolerance, totals).is_ok()
}
