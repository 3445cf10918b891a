// Placements one after the other, for another language to call and to time.
#![tactic(auto)]

ghost use Rattle.std.specs.Prelude.{◌≡◌, ◌<◌, ◌/◌, length};
ghost use Rattle.alloc.specs.Good.{Good};
ghost use Rattle.alloc_calls.specs.Placements.{placed, place, all_placed};

use alloc::Alloc;

// Call k is placed.
#[tactic(auto, unfolding(crate::specs::Placements::place))]
fn place_one(s: Alloc, calls: &[u32], pool: &[u8], map: &mut [u32], k: usize) -> Alloc
    requires k_in_bounds { k < length calls.now / 3 }
    requires good { Good s }
    ensures good_2 { Good result }
    ensures map_after { placed result map.new ≡ place calls.now pool.now k (placed s map.old) }
{
    let row = base::get_or(calls, 3 * k, 0);
    let end = base::get_or(calls, 3 * k + 1, 0);
    let h = assign::hint_for(base::get_or(calls, 3 * k + 2, 0));
    s.place(map, k, 0, row, end, h, pool).state
}

// The places of all calls go into the map; how many slots were made.
#[unsafe(no_mangle)]
pub extern "C" fn agnulfrosc_place_calls(calls: &[u32], pool: &[u8], map: &mut [u32]) -> u16
    ensures { (result ≡ (all_placed calls.now pool.now map.old).state.made) × (map.new ≡ (all_placed calls.now pool.now map.old).map) }
{
    let mut s = Alloc::new(pool, &[]);
    for k in 0..calls.len() / 3 {
        s = place_one(s, calls, pool, map, k);
    }
    s.made
}
