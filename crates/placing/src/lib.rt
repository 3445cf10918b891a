// Judging a function and giving its places, without compiling it.
#![tactic(auto)]

ghost use Rattle.std.specs.Prelude.{◌≡◌, true, List, ℕ, take};
ghost use Rattle.std.proofs.lemmas.List.Edits.{sets};
ghost use Rattle.base.specs.Buffers.{zero_from};
ghost use Rattle.place.specs.Registers.{registers};
ghost use Rattle.alloc.specs.Good.{Good};
ghost use Rattle.input.specs.Layout.{values};
ghost use Rattle.judge.specs.Judged.{unfit};
ghost use Rattle.assign.specs.Walk.{assigned, slots_ok};
ghost use Rattle.assign.specs.Fits.{Fits, Lent};
ghost use Rattle.ready.specs.Ready.{Ready};
ghost use Rattle.placing.specs.Placing.{room_ok, outcome, outcome_of, PlacesTried};

use alloc::Alloc;
use refusal::Refusal;

// Slots made, and one past the highest general register used.
#[derive(Clone, Copy)]
pub struct Placed {
    pub slots: u8,
    pub top: u8,
}

// Has each buffer a word for each value?
fn room_ok(ws: &[u32], map: &[u32], hints: &[u32], noted: &[u64]) -> bool
    ensures { result ≡ room_ok ws.now map.now hints.now noted.now }
{
    let n = input::head_field(ws, 3) as usize;
    (n <= map.len()) & (n <= hints.len()) & (n <= noted.len())
}

// The places go into the first words of the map, and what is noted into those of the noted registers.
fn give(ws: &[u32], map: &mut [u32], hints: &mut [u32], noted: &mut [u64]) -> Alloc
    requires ready { Ready ws.now }
    requires room { room_ok ws.now map.old hints.old noted.old ≡ true }
    ensures { (result ≡ (assigned registers ws.now).alloc) × (map.new ≡ sets map.old 0 (assigned registers ws.now).map) × (take (values ws.now) noted.new ≡ (assigned registers ws.now).noted) × Good result }
{
    let n = input::head_field(ws, 3) as usize;
    walk::give_places(ws, &mut map[..n], &mut hints[..n], &mut noted[..n])
}

// Does every value get a place? The buffers are work room.
fn fit_in(ws: &[u32], map: &mut [u32], hints: &mut [u32], noted: &mut [u64]) -> bool
    requires fits { Fits ws.now }
    requires lent { Lent ws.now map.old hints.old noted.old }
    ensures { result ≡ slots_ok registers ws.now }
{
    walk::give_places(ws, map, hints, noted);
    walk::all_placed(ws, map)
}

// The same on arrays of its own: 8 is lower than 9, so it is judged whatever is lent.
pub fn all_fit(ws: &[u32]) -> bool
    requires { Ready ws.now }
    ensures { result ≡ slots_ok registers ws.now }
{
    let n = input::head_field(ws, 3) as usize;
    let mut map = [0u32; 4096];
    let mut hints = [0u32; 4096];
    let mut noted = [0u64; 4096];
    fit_in(ws, &mut map[..n], &mut hints[..n], &mut noted[..n])
}

// The places of a function that no refusal from 1 to 7 hits. A refused call leaves the place buffer as it was.
pub fn place_values(
    ws: &[u32],
    places: &mut [u32],
    hints: &mut [u32],
    noted: &mut [u64],
) -> Result<Placed, Refusal>
    requires { Ready ws.now }
    ensures { PlacesTried registers ws.now places.old hints.old noted.old places.new noted.new result }
{
    let enough = all_fit(ws);
    let wide = room_ok(ws, places, hints, noted);
    if !enough {
        return Err(Refusal::NoSlot);
    }
    if !wide {
        return Err(Refusal::NoRoom);
    }
    let s = give(ws, places, hints, noted);
    Ok(Placed {
        slots: s.made as u8,
        top: walk::top_used(s),
    })
}

// The places of any function. The work room is not zero yet.
fn attempt(
    ws: &[u32],
    functions: &[u64],
    map: &mut [u32],
    hints: &mut [u32],
    noted: &mut [u64],
) -> Result<Placed, Refusal>
    ensures { outcome result map.new (zero_from hints.old 0) (zero_from noted.old 0) ≡ outcome_of registers ws.now functions.now map.old hints.old noted.old }
{
    judge::judge(ws, functions)?;
    place_values(ws, map, hints, noted)
}

// Any words, any function table, any buffers. Hints and noted registers are work room.
pub fn places(
    ws: &[u32],
    functions: &[u64],
    map: &mut [u32],
    hints: &mut [u32],
    noted: &mut [u64],
) -> Result<Placed, Refusal>
    ensures { outcome result map.new hints.new noted.new ≡ outcome_of registers ws.now functions.now map.old hints.old noted.old }
{
    let r = attempt(ws, functions, map, hints, noted);
    base::fill_from(hints, 0, 0);
    base::fill_from(noted, 0, 0);
    r
}
