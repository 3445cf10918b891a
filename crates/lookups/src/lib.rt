// The tables of lookups.
#![tactic(auto)]

ghost use Rattle.std.specs.Prelude.{◌≡◌, [], ◌∷◌, ◌++◌, ℕ, ◌+◌, ◌*◌, ◌%◌, ◌^◌, ◌<◌, ◌≤◌, eqb, set};
ghost use Rattle.base.specs.Choice.{pick};
ghost use Rattle.grow.specs.Growing.{Grows};
ghost use Rattle.input.specs.Layout.{blocks};
ghost use Rattle.input.specs.Records.{is_live, first_instr, instr_count, instr_kind, instr_x, instr_y, lookup, constant_kind, payload_of};
ghost use Rattle.fit.specs.Keys.{keys_at, smallest};
ghost use Rattle.ready.specs.Ready.{Ready, KeysReady};
ghost use Rattle.lookups.specs.Part.{instr_by, instrs_by, blocks_by};
ghost use Rattle.tables.specs.Tables.{slot_count, entry_keys, default_of, filled, store_entries, lookup_slots, slots_in, lookup_heads_after, lookup_values_after};

use grow::End;
use input::kinds;
use tables::{Range, Slots};

// The least rank and the slots of a Lookup's entries.
fn entry_range(ws: &[u32], i: u32) -> Range
    requires { KeysReady ws.now 2 (instr_x ws.now i) (instr_y ws.now i) }
    ensures { (result.low ≡ smallest ws.now (entry_keys ws.now i)) × (result.slots ≡ slot_count ws.now (entry_keys ws.now i)) × (result.slots ≤ 4096) }
{
    let first = input::instr_field(ws, i, 5);
    let n = input::instr_field(ws, i, 6);
    tables::key_range(ws, first, 2, n)
}

// The constant of a Lookup's default.
fn default_constant(ws: &[u32], i: u32) -> usize
    ensures { (result ≡ default_of ws.now i) × (result < 2 ^ 48) }
{
    let first = input::instr_field(ws, i, 5) as usize;
    let n = input::instr_field(ws, i, 6) as usize;
    first + 2 * n
}

// A Lookup's head: as a Switch's, and the default's kind and payload.
fn lookup_head(ws: &[u32], heads: &mut [u64], e: End, k: Range, start: usize, i: u32) -> End
    ensures { Grows (λ l. l ++ (((k.low + 2 ^ 63) % 2 ^ 64) ∷ start ∷ k.slots ∷ constant_kind ws.now (default_of ws.now i) ∷ payload_of ws.now (default_of ws.now i) ∷ [])) heads.old e heads.new result }
{
    let c = default_constant(ws, i);
    let kind = fit::constant_at(ws, c, 0);
    let payload = fit::payload_at(ws, c);
    let f = tables::put_head(heads, e, k, start);
    let g = f.push(heads, kind as u64);
    g.push(heads, payload)
}

// So many slots with one constant.
fn put_filled(values: &mut [u64], e: End, kind: u32, payload: u64, n: usize) -> End
    ensures { Grows (λ l. l ++ filled kind payload n) values.old e values.new result }
{
    let mut f = e;
    for _ in 0..n {
        let g = f.push(values, kind as u64);
        f = g.push(values, payload);
    }
    f
}

// The default's constant in every slot of a Lookup's table.
fn put_default(ws: &[u32], values: &mut [u64], e: End, i: u32, n: usize) -> End
    ensures { Grows (λ l. l ++ filled (constant_kind ws.now (default_of ws.now i)) (payload_of ws.now (default_of ws.now i)) n) values.old e values.new result }
{
    let c = default_constant(ws, i);
    let kind = fit::constant_at(ws, c, 0);
    let payload = fit::payload_at(ws, c);
    put_filled(values, e, kind, payload, n)
}

// The constant c in slot i.
fn store_entry(ws: &[u32], values: &mut [u64], e: End, i: usize, c: usize)
    requires { (i < 2 ^ 61) × (c < 2 ^ 48) }
    ensures { Grows (λ l. set (set l (2 * i) (constant_kind ws.now c)) (2 * i + 1) (payload_of ws.now c)) values.old e values.new e }
{
    let kind = fit::constant_at(ws, c, 0);
    let payload = fit::payload_at(ws, c);
    e.store(values, 2 * i, kind as u64);
    e.store(values, 2 * i + 1, payload);
}

// The values of n entries, the first of them with the key c.
fn store_entries(ws: &[u32], values: &mut [u64], t: Slots, low: u64, c: u32, n: u32)
    requires start_bound { (t.start < 2 ^ 60) × (low ≡ smallest ws.now (keys_at 2 c n)) }
    requires keys_ready { KeysReady ws.now 2 c n }
    ensures { Grows (store_entries ws.now (keys_at 2 c n) t.start c n) values.old t.end values.new t.end }
{
    for j in 0..n {
        let key = c as usize + 2 * j as usize;
        let slot = tables::slot_for(ws, key, low);
        store_entry(ws, values, t.end, t.start + slot, key + 1);
    }
}

// The slots of a Lookup's table: the default's everywhere, then each entry's.
fn lookup_slots(ws: &[u32], values: &mut [u64], e: End, k: Range, start: usize, i: u32) -> End
    requires range { (k.low ≡ smallest ws.now (entry_keys ws.now i)) × (k.slots ≡ slot_count ws.now (entry_keys ws.now i)) × (start < 2 ^ 60) }
    requires keys_ready { KeysReady ws.now 2 (instr_x ws.now i) (instr_y ws.now i) }
    ensures { Grows (lookup_slots ws.now start i) values.old e values.new result }
{
    let f = put_default(ws, values, e, i, k.slots);
    let c = input::instr_field(ws, i, 5);
    let n = input::instr_field(ws, i, 6);
    store_entries(ws, values, Slots { end: f, start }, k.low, c, n);
    f
}

// What a pass puts of each table: its head, or its slots.
#[derive(Clone, Copy)]
enum Part {
    Heads,
    Values,
}

// That of instruction i's table, if it is a Lookup.
fn one_lookup(ws: &[u32], list: &mut [u64], t: Slots, part: Part, i: u32) -> Slots
    requires { (t.start < 2 ^ 60) × (instr_kind ws.now i ≡ lookup → KeysReady ws.now 2 (instr_x ws.now i) (instr_y ws.now i)) }
    ensures start_value { (result.start ≡ t.start + pick (eqb (instr_kind ws.now i) lookup) (slot_count ws.now (entry_keys ws.now i)) 0) × (result.start ≤ t.start + 4096) }
    ensures grows { Grows (λ l. pick (eqb (instr_kind ws.now i) lookup) (instr_by part ws.now t.start i l) l) list.old t.end list.new result.end }
{
    if input::instr_field(ws, i, 0) != kinds::instr::LOOKUP {
        return t;
    }
    let k = entry_range(ws, i);
    let end = match part {
        Part::Heads => lookup_head(ws, list, t.end, k, t.start, i),
        Part::Values => lookup_slots(ws, list, t.end, k, t.start, i),
    };
    Slots {
        end,
        start: t.start + k.slots,
    }
}

// Those of n instructions from the first on.
fn some_lookups(ws: &[u32], list: &mut [u64], t: Slots, part: Part, first: u32, n: u32) -> Slots
    requires n_bound { (first + n < 4294967296) × (t.start + 4096 * n < 2 ^ 60) }
    requires by_index { (i : ℕ) → first ≤ i → i < first + n → instr_kind ws.now i ≡ lookup → KeysReady ws.now 2 (instr_x ws.now i) (instr_y ws.now i) }
    ensures start_value { (result.start ≡ t.start + slots_in ws.now first n) × (result.start ≤ t.start + 4096 * n) }
    ensures grows { Grows (instrs_by part ws.now t.start first n) list.old t.end list.new result.end }
{
    let mut u = t;
    for i in first..first + n {
        u = one_lookup(ws, list, u, part, i);
    }
    u
}

// Those of block b, none of a tombstone.
fn block_lookups(ws: &[u32], list: &mut [u64], t: Slots, part: Part, b: u32) -> Slots
    requires b_bound { (b < blocks ws.now) × (t.start < 2 ^ 59) }
    requires ready { Ready ws.now }
    ensures start_value { (result.start ≡ t.start + pick (is_live ws.now b) (slots_in ws.now (first_instr ws.now b) (instr_count ws.now b)) 0) × (result.start ≤ t.start + 2 ^ 44) }
    ensures grows { Grows (λ l. pick (is_live ws.now b) (instrs_by part ws.now t.start (first_instr ws.now b) (instr_count ws.now b) l) l) list.old t.end list.new result.end }
{
    if input::block_field(ws, b, 1) != 0 {
        return t;
    }
    let first = input::block_field(ws, b, 4);
    let n = input::block_field(ws, b, 5);
    some_lookups(ws, list, t, part, first, n)
}

// Those of all blocks.
fn lookup_pass(ws: &[u32], list: &mut [u64], e: End, used: usize, part: Part) -> End
    requires used_bound { used < 4294967296 }
    requires ready { Ready ws.now }
    ensures { Grows (blocks_by part ws.now used 0 (blocks ws.now)) list.old e list.new result }
{
    let mut t = Slots {
        end: e,
        start: used,
    };
    for b in 0..input::head_field(ws, 4) {
        t = block_lookups(ws, list, t, part, b);
    }
    t.end
}

// The heads of a function's lookup tables.
#[tactic(auto, unfolding(tables::specs::Tables::lookup_heads_after))]
pub fn put_lookup_heads(ws: &[u32], heads: &mut [u64], e: End, used: usize) -> End
    requires used_bound { used < 4294967296 }
    requires ready { Ready ws.now }
    ensures { Grows (lookup_heads_after ws.now used) heads.old e heads.new result }
{
    lookup_pass(ws, heads, e, used, Part::Heads)
}

// The slots of a function's lookup tables.
#[tactic(auto, unfolding(tables::specs::Tables::lookup_values_after))]
pub fn put_lookup_values(ws: &[u32], values: &mut [u64], e: End, used: usize) -> End
    requires used_bound { used < 4294967296 }
    requires ready { Ready ws.now }
    ensures { Grows (lookup_values_after ws.now used) values.old e values.new result }
{
    lookup_pass(ws, values, e, used, Part::Values)
}
