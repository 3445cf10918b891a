// The allocator, by value. The pool lists and the map from id to place are lent.
#![tactic(auto)]

ghost use Rattle.std.specs.Prelude.{◌≡◌, ◌<◌, ◌≤◌, get_or};
ghost use Rattle.alloc.specs.State.{most_active, most_slots, live, mask_of, fresh_of};
ghost use Rattle.alloc.specs.Allocation.{free_reg, free_slot, release, expire_of, is_free, take_reg, last_free, take_slot, from_pool, hinted, take_of, entered, new_place, map_entered, place_of, map_after_place, pin_of, map_after_pin, notes, live_after};
ghost use Rattle.alloc.specs.Good.{Good, Releasable};

use place::{Place, Reg};

// Who holds a place, and until when.
#[derive(Clone, Copy, Debug, PartialEq, Eq)]
pub struct Entry {
    pub end: u32,
    pub place: Place,
}

#[derive(Clone, Copy)]
pub struct Alloc {
    pub active: [Entry; 256],
    pub count: usize,
    pub free: [u64; 2],
    pub used: [u64; 2],
    pub spare: [u16; 128],
    pub spares: usize,
    pub made: u16,
}

// What taking a place gives: none where every register and every slot is held.
#[derive(Clone, Copy)]
pub struct Taken {
    pub state: Alloc,
    pub got: Option<Place>,
}

// The last register of the pool that is in the mask.
#[tactic(auto, using(crate::proofs::Pool::last_more), unfolding(crate::specs::Allocation::last_free))]
fn last_free(m: u64, pool: &[u8]) -> Option<u8>
    ensures { result ≡ last_free m pool.now }
{
    for r in pool.iter().rev() {
        if base::has(m, *r) {
            return Some(*r);
        }
    }
    None
}

// The registers of a pool as a mask.
#[tactic(auto, unfolding(crate::specs::State::mask_of))]
pub fn mask_of(pool: &[u8]) -> u64
    ensures { result ≡ mask_of 0 pool.now }
{
    let mut m = 0;
    for r in pool {
        m = base::with(m, *r);
    }
    m
}

// The mask, and the place where it is a register of the class.
fn noted(class: usize, p: Place, m: u64) -> u64
    ensures { result ≡ notes class p m }
{
    match p {
        Place::Register(r) if place::class_of(r) == class => base::with(m, place::index_of(r)),
        _ => m,
    }
}

impl Alloc {
    // Every register of the pools is free.
    #[tactic(auto, unfolding(crate::specs::State::fresh_of))]
    pub fn new(gprs: &[u8], fprs: &[u8]) -> Self
        ensures value { result ≡ fresh_of gprs.now fprs.now }
        ensures good { Good result }
    {
        let empty = Entry {
            end: 0,
            place: Place::Slot(0),
        };
        Self {
            active: [empty; 256],
            count: 0,
            free: [mask_of(gprs), mask_of(fprs)],
            used: [0; 2],
            spare: [0; 128],
            spares: 0,
            made: 0,
        }
    }

    #[tactic(auto, unfolding(crate::specs::Allocation::free_reg))]
    fn free_reg(mut self, r: Reg) -> Self
        ensures { result ≡ free_reg r self }
    {
        let c = place::class_of(r);
        self.free[c] = base::with(self.free[c], place::index_of(r));
        self
    }

    #[tactic(auto, unfolding(crate::specs::Allocation::free_slot))]
    fn free_slot(mut self, k: u16) -> Self
        requires { self.spares < most_slots }
        ensures { result ≡ free_slot k self }
    {
        self.spare[self.spares] = k;
        self.spares += 1;
        self
    }

    #[tactic(auto, unfolding(crate::specs::Allocation::release))]
    fn release(self, p: Place) -> Self
        requires { Releasable p self }
        ensures { result ≡ release p self }
    {
        match p {
            Place::Slot(k) => self.free_slot(k),
            Place::Register(r) => self.free_reg(r),
        }
    }

    // Entries that end at or before `at` leave in list order; the others close up in place.
    pub fn expire(mut self, at: u32) -> Self
        requires { Good self }
        ensures value { result ≡ expire_of at self }
        ensures good { Good result }
    {
        let mut kept = 0;
        for i in 0..self.count {
            let e = self.active[i];
            if e.end <= at {
                self = self.release(e.place);
            } else {
                self.active[kept] = e;
                kept += 1;
            }
        }
        self.count = kept;
        self
    }

    #[tactic(auto, unfolding(crate::specs::Allocation::is_free))]
    pub fn is_free(self, r: Reg) -> bool
        ensures { result ≡ is_free r self }
    {
        base::has(self.free[place::class_of(r)], place::index_of(r))
    }

    #[tactic(auto, unfolding(crate::specs::Allocation::take_reg))]
    fn take_reg(mut self, r: Reg) -> Self
        ensures { result ≡ take_reg r self }
    {
        let c = place::class_of(r);
        let k = place::index_of(r);
        self.free[c] = base::without(self.free[c], k);
        self.used[c] = base::with(self.used[c], k);
        self
    }

    // The top free slot, else a new one.
    #[tactic(auto, unfolding(crate::specs::Allocation::take_slot))]
    fn take_slot(mut self) -> Taken
        requires { self.spares ≤ most_slots }
        ensures { result ≡ take_slot self }
    {
        if 0 < self.spares {
            self.spares -= 1;
            return Taken {
                state: self,
                got: Some(Place::Slot(self.spare[self.spares])),
            };
        }
        if 128 <= self.made {
            return Taken {
                state: self,
                got: None,
            };
        }
        let k = self.made;
        self.made += 1;
        Taken {
            state: self,
            got: Some(Place::Slot(k)),
        }
    }

    // The last free register of the pool, else a slot.
    #[tactic(auto, unfolding(crate::specs::Allocation::from_pool))]
    fn from_pool(self, class: usize, pool: &[u8]) -> Taken
        requires { (class < 2) × (self.spares ≤ most_slots) }
        ensures { result ≡ from_pool class (last_free (get_or self.free class 0) pool.now) self }
    {
        match last_free(self.free[class], pool) {
            Some(k) => {
                let r = place::reg_of(class, k);
                Taken {
                    state: self.take_reg(r),
                    got: Some(Place::Register(r)),
                }
            }
            None => self.take_slot(),
        }
    }

    // Is the hint of the class, and free?
    #[tactic(auto, unfolding(crate::specs::Allocation::hinted))]
    fn hinted(self, class: usize, r: Reg) -> bool
        ensures { result ≡ hinted class r self }
    {
        place::class_of(r) == class && self.is_free(r)
    }

    // The hint where it may be taken, else from the pool.
    #[tactic(auto, unfolding(crate::specs::Allocation::take_of))]
    pub fn take(self, class: usize, hint: Option<Reg>, pool: &[u8]) -> Taken
        requires { (class < 2) × (self.spares ≤ most_slots) }
        ensures { result ≡ take_of class hint pool.now self }
    {
        match hint {
            Some(r) if self.hinted(class, r) => Taken {
                state: self.take_reg(r),
                got: Some(Place::Register(r)),
            },
            _ => self.from_pool(class, pool),
        }
    }

    // One active entry more.
    fn push(mut self, e: Entry) -> Self
        requires { self.count < most_active }
        ensures { result ≡ entered e self }
    {
        self.active[self.count] = e;
        self.count += 1;
        self
    }

    // A place for an id that has none: first expire, then take. Where there is none the state stays as it was.
    #[tactic(auto, using(crate::proofs::Keeps::taken_room), unfolding(crate::specs::Allocation::new_place, crate::specs::Allocation::enter, crate::specs::Allocation::map_entered))]
    fn place_new(
        self,
        map: &mut [u32],
        id: usize,
        class: usize,
        at: u32,
        end: u32,
        hint: Option<Reg>,
        pool: &[u8],
    ) -> Taken
        requires { (class < 2) × Good self }
        ensures { (result ≡ new_place class at end hint pool.now self) × (map.new ≡ map_entered map.old id (take_of class hint pool.now (expire_of at self)).got) }
    {
        let t = self.expire(at).take(class, hint, pool);
        match t.got {
            Some(p) => {
                base::set(map, id, place::word_of(Some(p)));
                Taken {
                    state: t.state.push(Entry { end, place: p }),
                    got: Some(p),
                }
            }
            None => Taken {
                state: self,
                got: None,
            },
        }
    }

    // An id that has a place gets it again, even after expiry.
    #[tactic(auto, using(crate::proofs::Keeps::good_new), unfolding(crate::specs::Allocation::place_of, crate::specs::Allocation::map_after_place))]
    pub fn place(
        self,
        map: &mut [u32],
        id: usize,
        class: usize,
        at: u32,
        end: u32,
        hint: Option<Reg>,
        pool: &[u8],
    ) -> Taken
        requires { (class < 2) × Good self }
        ensures value { (result ≡ place_of map.old id class at end hint pool.now self) × (map.new ≡ map_after_place map.old id class at hint pool.now self) }
        ensures good { Good result.state }
    {
        match place::found_of(base::get_or(map, id, 0)) {
            Some(p) => Taken {
                state: self,
                got: Some(p),
            },
            None => self.place_new(map, id, class, at, end, hint, pool),
        }
    }

    // An id in the register r, where that is free. Nothing expires.
    #[tactic(auto, using(crate::proofs::Keeps::pin_room), unfolding(crate::specs::Allocation::pin_of, crate::specs::Allocation::map_after_pin))]
    pub fn pin(self, map: &mut [u32], id: usize, r: Reg, end: u32) -> Self
        requires { Good self }
        ensures value { (result ≡ pin_of r end self) × (map.new ≡ map_after_pin map.old id r self) }
        ensures good { Good result }
    {
        if self.is_free(r) {
            let taken = self.take_reg(r);
            let p = Place::Register(r);
            base::set(map, id, place::word_of(Some(p)));
            return taken.push(Entry { end, place: p });
        }
        self
    }

    // The registers of a class that active entries hold past a row.
    #[tactic(auto, unfolding(crate::specs::Allocation::live_after))]
    pub fn live_after(self, class: usize, row: u32) -> u64
        requires { self.count ≤ most_active }
        ensures { result ≡ live_after class row (live self) 0 }
    {
        let mut m = 0;
        for e in &self.active[..self.count] {
            if row < e.end {
                m = noted(class, e.place, m);
            }
        }
        m
    }
}
