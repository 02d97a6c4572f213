// For the benchmark bench/replace, and for nothing else: opens the part of the store that replaces a stretch of a string to C, so that it can be
// timed alone. The product's library doesn't have this call.
#![tactic(auto)]

ghost use Rattle.std.specs.Prelude.{◌≡◌, ◌<◌};
ghost use Rattle.encoding.specs.BufferLaws.{StoreGood};
ghost use Rattle.replace_bench.specs.Replacements.{replaced_at, replaced_if_good};

use base::{LONGEST, STRINGS};

// Replaces the n bytes from a place of a string on, or its last n where fewer stand there. All stays if it hasn't so many, or if the new string
// doesn't fit its cell.
fn replace_at(store: &mut [u8], place: usize, from: usize, n: usize, v: &[u8])
    requires store_good { StoreGood store.old }
    requires place_bound { place < 32 }
    ensures { store.new ≡ replaced_at store.old place from n v.now }
{
    let old = store::string_length(store, place);
    if n > old || old - n + v.len() > LONGEST {
        return;
    }
    let at = from.min(old - n);
    store::replace(store, place, at, at + n, v);
}

// Replaces so many times, one string after the other; a store that isn't good stays as it is. It looks once whether the store is good.
#[unsafe(no_mangle)]
pub extern "C" fn strigol_bench_replace(
    store: &mut [u8],
    from: usize,
    n: usize,
    v: &[u8],
    times: u32,
)
    ensures { store.new ≡ replaced_if_good store.old from n v.now times }
{
    if !store::keeps(store) {
        return;
    }
    for i in 0..times {
        replace_at(store, i as usize % STRINGS, from, n, v);
    }
}
