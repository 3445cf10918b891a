// The static library of alloc_calls, for C: its function under the same name, with the same promise.
#![tactic(auto)]

ghost use Rattle.std.specs.Prelude.{◌≡◌};
ghost use Rattle.alloc_calls.specs.Placements.{all_placed};

// The places of all calls go into the map; how many slots were made.
#[unsafe(no_mangle)]
pub extern "C" fn agnulfrosc_place_calls(calls: &[u32], pool: &[u8], map: &mut [u32]) -> u16
    ensures { (result ≡ (all_placed calls.now pool.now map.old).state.made) × (map.new ≡ (all_placed calls.now pool.now map.old).map) }
{
    alloc_calls::agnulfrosc_place_calls(calls, pool, map)
}
