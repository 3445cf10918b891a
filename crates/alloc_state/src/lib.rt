// Judging a state of the allocator, and its pool lists, that are not known to be any.
#![tactic(auto)]

ghost use Rattle.std.specs.Prelude.{◌≡◌, ◌<◌, ◌≤◌};
ghost use Rattle.alloc.specs.State.{most_active, most_slots, live, free_slots};
ghost use Rattle.alloc_state.specs.Judged.{reg_ok, all_below, counts_ok, state_ok, lists_short};
ghost use Rattle.alloc_state.specs.Marks.{within, marks_of, mark_slot, mark_reg, mark, mark_all, slot_places, entry_places};

use alloc::Alloc;
use place::{Place, Reg};

// What was marked of a state, and whether nothing was refused.
#[derive(Clone, Copy)]
struct Marks {
    ok: bool,
    regs: [u64; 2],
    slots: [u64; 2],
}

impl Marks {
    #[tactic(auto, unfolding(crate::specs::Marks::mark_slot))]
    fn slot(mut self, made: u16, k: u16) -> Self
        requires { made ≤ most_slots }
        ensures { result ≡ mark_slot made k self }
    {
        let c = k as usize / 64;
        let n = (k % 64) as u8;
        if k < made && !base::has(self.slots[c], n) {
            self.slots[c] = base::with(self.slots[c], n);
            return self;
        }
        self.ok = false;
        self
    }

    #[tactic(auto, unfolding(crate::specs::Marks::mark_reg))]
    fn reg(mut self, pools: [u64; 2], r: Reg) -> Self
        ensures { result ≡ mark_reg pools r self }
    {
        let c = place::class_of(r);
        let k = place::index_of(r);
        if base::has(pools[c], k) && !base::has(self.regs[c], k) {
            self.regs[c] = base::with(self.regs[c], k);
            return self;
        }
        self.ok = false;
        self
    }

    #[tactic(auto, unfolding(crate::specs::Marks::mark))]
    fn place(self, pools: [u64; 2], made: u16, p: Place) -> Self
        requires { made ≤ most_slots }
        ensures { result ≡ mark pools made p self }
    {
        match p {
            Place::Slot(k) => self.slot(made, k),
            Place::Register(r) => self.reg(pools, r),
        }
    }
}

// Is every register of a pool below 64?
pub fn all_below(pool: &[u8]) -> bool
    ensures { result ≡ all_below pool.now }
{
    pool.iter().all(|r| *r < 64)
}

// Is no count beyond its array?
fn counts_ok(s: Alloc) -> bool
    ensures { result ≡ counts_ok s }
{
    s.count <= 256 && s.spares <= 128 && s.made <= 128
}

// Is every number of the mask a in b?
fn is_within(a: u64, b: u64) -> bool
    ensures { result ≡ within a b }
{
    a & b == a
}

// The free registers, marked; they have to be of the pools.
#[tactic(auto, unfolding(crate::specs::Marks::marks_of))]
fn first_marks(s: Alloc, pools: [u64; 2]) -> Marks
    ensures { result ≡ marks_of pools s }
{
    Marks {
        ok: is_within(s.free[0], pools[0]) && is_within(s.free[1], pools[1]),
        regs: s.free,
        slots: [0; 2],
    }
}

// Marks the free slots.
#[tactic(auto, unfolding(crate::specs::Marks::mark_all))]
fn mark_slots(s: Alloc, pools: [u64; 2], start: Marks) -> Marks
    requires { (s.spares ≤ most_slots) × (s.made ≤ most_slots) }
    ensures { result ≡ mark_all pools s.made (slot_places (free_slots s)) start }
{
    let mut m = start;
    for k in &s.spare[..s.spares] {
        m = m.place(pools, s.made, Place::Slot(*k));
    }
    m
}

// Marks the places of the active entries.
#[tactic(auto, unfolding(crate::specs::Marks::mark_all))]
fn mark_active(s: Alloc, pools: [u64; 2], start: Marks) -> Marks
    requires { (s.count ≤ most_active) × (s.made ≤ most_slots) }
    ensures { result ≡ mark_all pools s.made (entry_places (live s)) start }
{
    let mut m = start;
    for e in &s.active[..s.count] {
        m = m.place(pools, s.made, e.place);
    }
    m
}

// Is it a state for these pools?
#[tactic(auto, unfolding(crate::specs::Judged::state_ok))]
pub fn state_ok(s: Alloc, gprs: &[u8], fprs: &[u8]) -> bool
    ensures { result ≡ state_ok gprs.now fprs.now s }
{
    if !all_below(gprs) || !all_below(fprs) || !counts_ok(s) {
        return false;
    }
    let pools = [alloc::mask_of(gprs), alloc::mask_of(fprs)];
    let slots = mark_slots(s, pools, first_marks(s, pools));
    mark_active(s, pools, slots).ok
}

// Has neither pool more than 64 entries?
pub fn lists_short(gprs: &[u8], fprs: &[u8]) -> bool
    ensures { result ≡ lists_short gprs.now fprs.now }
{
    gprs.len() <= 64 && fprs.len() <= 64
}

pub fn reg_ok(r: Reg) -> bool
    ensures { result ≡ reg_ok r }
{
    place::index_of(r) < 64
}
