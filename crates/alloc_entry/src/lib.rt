// The allocator's public entries: each takes any state, any lists and any numbers, and refuses by number.
#![tactic(auto)]

ghost use Rattle.std.specs.Prelude.{◌≡◌, [], ℕ, ◌<◌};
ghost use Rattle.place.specs.Places.{class_number};
ghost use Rattle.alloc.specs.State.{fresh_of};
ghost use Rattle.alloc.specs.Allocation.{place_of};
ghost use Rattle.alloc.specs.Good.{Good};
ghost use Rattle.alloc_entry.specs.Inner.{place_in, place_in_map, pin_in, pin_in_map};
ghost use Rattle.alloc_entry.specs.Entries.{answered, judged, no_slot, hint_ok, call_ok, was_used, fresh_entry, place_entry, place_entry_map, pin_entry, pin_entry_map, expire_entry, slots_entry, live_after_entry, used_entry, place_of_id, register_of_id};

use alloc::Alloc;
use place::{Class, Place, Reg};
use refusal::Refusal;

// What an entry answers where it refuses nothing.
#[derive(Clone, Copy, Debug, PartialEq, Eq)]
pub enum Answer {
    Done,
    Placed(Place),
    NotFree,
    Slots(u16),
    Registers(u64, u64),
    Yes,
    No,
}

#[derive(Clone, Copy)]
pub struct Answered {
    pub answer: Result<Answer, Refusal>,
    pub state: Alloc,
}

// A call that is refused hands the state back as it was.
fn refused(why: Refusal, s: Alloc) -> Answered
    ensures { result ≡ answered (Err why) s }
{
    Answered {
        answer: Err(why),
        state: s,
    }
}

// 2 for the lists, 12 for the state.
fn judged(s: Alloc, gprs: &[u8], fprs: &[u8]) -> Result<(), Refusal>
    ensures { result ≡ judged gprs.now fprs.now s Err (Ok tt) }
{
    if !alloc_state::lists_short(gprs, fprs) {
        return Err(Refusal::TooMany);
    }
    if !alloc_state::state_ok(s, gprs, fprs) {
        return Err(Refusal::BadReg);
    }
    Ok(())
}

fn hint_ok(h: Option<Reg>) -> bool
    ensures { result ≡ hint_ok h }
{
    match h {
        None => true,
        Some(r) => alloc_state::reg_ok(r),
    }
}

// Is the hint a register, and the id in the map?
fn call_ok(map: &[u32], id: usize, h: Option<Reg>) -> bool
    ensures { result ≡ call_ok map.now id h }
{
    hint_ok(h) && id < map.len()
}

// Would a placement find no place? Nothing is changed.
fn finds_none(
    s: Alloc,
    map: &[u32],
    id: usize,
    class: usize,
    at: u32,
    hint: Option<Reg>,
    pool: &[u8],
) -> bool
    requires { (class < 2) × Good s }
    ensures { (end : ℕ) → result ≡ no_slot (place_of map.now id class at end hint pool.now s).got }
{
    match place::found_of(base::get_or(map, id, 0)) {
        Some(_) => false,
        None => s.expire(at).take(class, hint, pool).got.is_none(),
    }
}

// A place for an id of a state that was judged. Where the call's numbers are none, 8 still comes first.
#[tactic(auto, unfolding(crate::specs::Inner::place_in, crate::specs::Inner::place_in_map))]
fn place_in(
    s: Alloc,
    map: &mut [u32],
    id: usize,
    class: usize,
    at: u32,
    end: u32,
    hint: Option<Reg>,
    pool: &[u8],
) -> Answered
    requires { (class < 2) × Good s }
    ensures { (result ≡ place_in map.old id class at end hint pool.now s) × (map.new ≡ place_in_map map.old id class at end hint pool.now s) }
{
    if call_ok(map, id, hint) {
        let t = s.place(map, id, class, at, end, hint, pool);
        return match t.got {
            Some(p) => Answered {
                answer: Ok(Answer::Placed(p)),
                state: t.state,
            },
            None => refused(Refusal::NoSlot, s),
        };
    }
    if finds_none(s, map, id, class, at, hint, pool) {
        return refused(Refusal::NoSlot, s);
    }
    refused(Refusal::BadReg, s)
}

// A pin of an id in a state that was judged.
#[tactic(auto, unfolding(crate::specs::Inner::pin_in, crate::specs::Inner::pin_in_map))]
fn pin_in(s: Alloc, map: &mut [u32], id: usize, reg: Reg, end: u32) -> Answered
    requires { Good s }
    ensures { (result ≡ pin_in map.old id reg end s) × (map.new ≡ pin_in_map map.old id reg s) }
{
    if !call_ok(map, id, Some(reg)) {
        return refused(Refusal::BadReg, s);
    }
    if !s.is_free(reg) {
        return Answered {
            answer: Ok(Answer::NotFree),
            state: s,
        };
    }
    Answered {
        answer: Ok(Answer::Placed(Place::Register(reg))),
        state: s.pin(map, id, reg, end),
    }
}

fn is_used(s: Alloc, r: Reg) -> bool
    ensures { result ≡ was_used r s }
{
    base::has(s.used[place::class_of(r)], place::index_of(r))
}

// A refused fresh state has no register at all.
fn no_state(why: Refusal) -> Answered
    ensures { result ≡ answered (Err why) (fresh_of [] []) }
{
    refused(why, Alloc::new(b"", b""))
}

// A fresh state for two pool lists.
#[tactic(auto, unfolding(crate::specs::Entries::fresh_entry))]
pub fn fresh(gprs: &[u8], fprs: &[u8]) -> Answered
    ensures { result ≡ fresh_entry gprs.now fprs.now }
{
    if !alloc_state::lists_short(gprs, fprs) {
        return no_state(Refusal::TooMany);
    }
    if !alloc_state::all_below(gprs) || !alloc_state::all_below(fprs) {
        return no_state(Refusal::BadReg);
    }
    Answered {
        answer: Ok(Answer::Done),
        state: Alloc::new(gprs, fprs),
    }
}

// A place for an id, the one that it has or a new one.
#[tactic(auto, using(crate::proofs::Refusals::judged_fine, crate::proofs::Refusals::judged_refuses, crate::proofs::Refusals::judged_good), unfolding(crate::specs::Entries::place_entry, crate::specs::Entries::place_entry_map, crate::specs::Inner::place_in, crate::specs::Inner::place_in_map))]
pub fn place_id(
    s: Alloc,
    map: &mut [u32],
    id: usize,
    class: Class,
    at: u32,
    end: u32,
    hint: Option<Reg>,
    gprs: &[u8],
    fprs: &[u8],
) -> Answered
    ensures { (result ≡ place_entry map.old id (class_number class) at end hint gprs.now fprs.now s) × (map.new ≡ place_entry_map map.old id (class_number class) at end hint gprs.now fprs.now s) }
{
    if let Err(why) = judged(s, gprs, fprs) {
        return refused(why, s);
    }
    match class {
        Class::General => place_in(s, map, id, 0, at, end, hint, gprs),
        Class::Floating => place_in(s, map, id, 1, at, end, hint, fprs),
    }
}

// An id in a register of the caller's choice.
#[tactic(auto, using(crate::proofs::Refusals::judged_fine, crate::proofs::Refusals::judged_refuses, crate::proofs::Refusals::judged_good), unfolding(crate::specs::Entries::pin_entry, crate::specs::Entries::pin_entry_map, crate::specs::Inner::pin_in, crate::specs::Inner::pin_in_map))]
pub fn pin_id(
    s: Alloc,
    map: &mut [u32],
    id: usize,
    reg: Reg,
    end: u32,
    gprs: &[u8],
    fprs: &[u8],
) -> Answered
    ensures { (result ≡ pin_entry map.old id reg end gprs.now fprs.now s) × (map.new ≡ pin_entry_map map.old id reg gprs.now fprs.now s) }
{
    if let Err(why) = judged(s, gprs, fprs) {
        return refused(why, s);
    }
    pin_in(s, map, id, reg, end)
}

// The entries that end at or before a row leave.
#[tactic(auto, using(crate::proofs::Refusals::judged_fine, crate::proofs::Refusals::judged_refuses, crate::proofs::Refusals::judged_good), unfolding(crate::specs::Entries::expire_entry))]
pub fn expire_at(s: Alloc, at: u32, gprs: &[u8], fprs: &[u8]) -> Answered
    ensures { result ≡ expire_entry at gprs.now fprs.now s }
{
    if let Err(why) = judged(s, gprs, fprs) {
        return refused(why, s);
    }
    Answered {
        answer: Ok(Answer::Done),
        state: s.expire(at),
    }
}

// The place of an id, if it has one.
pub fn place_of(map: &[u32], id: usize) -> Option<Place>
    ensures { result ≡ place_of_id map.now id }
{
    place::found_of(base::get_or(map, id, 0))
}

// The register of an id, if it is in one.
#[tactic(auto, unfolding(crate::specs::Entries::register_of_id))]
pub fn register_of(map: &[u32], id: usize) -> Option<Place>
    ensures { result ≡ register_of_id map.now id }
{
    match place_of(map, id) {
        Some(Place::Register(r)) => Some(Place::Register(r)),
        _ => None,
    }
}

// How many slots were made.
#[tactic(auto, using(crate::proofs::Refusals::judged_fine, crate::proofs::Refusals::judged_refuses, crate::proofs::Refusals::judged_good), unfolding(crate::specs::Entries::slots_entry))]
pub fn slots_made(s: Alloc, gprs: &[u8], fprs: &[u8]) -> Result<Answer, Refusal>
    ensures { result ≡ slots_entry gprs.now fprs.now s }
{
    judged(s, gprs, fprs)?;
    Ok(Answer::Slots(s.made))
}

// The registers that active entries hold past a row.
#[tactic(auto, using(crate::proofs::Refusals::judged_fine, crate::proofs::Refusals::judged_refuses, crate::proofs::Refusals::judged_good), unfolding(crate::specs::Entries::live_after_entry))]
pub fn live_after(s: Alloc, row: u32, gprs: &[u8], fprs: &[u8]) -> Result<Answer, Refusal>
    ensures { result ≡ live_after_entry row gprs.now fprs.now s }
{
    judged(s, gprs, fprs)?;
    Ok(Answer::Registers(s.live_after(0, row), s.live_after(1, row)))
}

// Was a register ever taken?
#[tactic(auto, using(crate::proofs::Refusals::judged_fine, crate::proofs::Refusals::judged_refuses, crate::proofs::Refusals::judged_good), unfolding(crate::specs::Entries::used_entry))]
pub fn was_used(s: Alloc, reg: Reg, gprs: &[u8], fprs: &[u8]) -> Result<Answer, Refusal>
    ensures { result ≡ used_entry reg gprs.now fprs.now s }
{
    judged(s, gprs, fprs)?;
    if !alloc_state::reg_ok(reg) {
        return Err(Refusal::BadReg);
    }
    Ok(if is_used(s, reg) {
        Answer::Yes
    } else {
        Answer::No
    })
}
