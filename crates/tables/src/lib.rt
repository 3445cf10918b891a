// The keys and slots of a table, and the tables of switches.
#![tactic(auto)]

ghost use Rattle.std.specs.Prelude.{◌≡◌, ◌+◌, ◌-◌, ◌%◌, ◌^◌, ◌<◌, ◌≤◌, [], ◌∷◌, ◌++◌, replicate, slice_set};
ghost use Rattle.base.specs.Choice.{pick};
ghost use Rattle.grow.specs.Growing.{Grows};
ghost use Rattle.input.specs.Layout.{blocks};
ghost use Rattle.input.specs.Records.{term_x, term_y, first_edge, edge_target};
ghost use Rattle.fit.specs.Keys.{keys_at, ranked, smallest};
ghost use Rattle.ready.specs.Ready.{Ready, KeysReady};
ghost use Rattle.edges.specs.Edges.{has_moves, pad_count};
ghost use Rattle.tables.specs.Tables.{slot_count, case_keys, switch_head, store_cases, switch_slots, has_switch, switch_heads_after, switch_targets_after};

use edges::Values;
use grow::End;
use input::kinds;

// The least rank of a table's keys, and how many slots it has.
#[derive(Clone, Copy)]
pub struct Range {
    pub low: u64,
    pub slots: usize,
}

// Those of n keys, each `step` constants behind the one before.
pub fn key_range(ws: &[u32], first: u32, step: u8, n: u32) -> Range
    requires { KeysReady ws.now step first n }
    ensures { (result.low ≡ smallest ws.now (keys_at step first n)) × (result.slots ≡ slot_count ws.now (keys_at step first n)) × (result.slots ≤ 4096) }
{
    let mut low = u64::MAX;
    let mut high = u64::MIN;
    for j in 0..n {
        let key = fit::rank(ws, first as usize + step as usize * j as usize);
        low = low.min(key);
        high = high.max(key);
    }
    Range {
        low,
        slots: (high - low) as usize + 1,
    }
}

// Those of a Switch's cases.
fn case_range(ws: &[u32], b: u32) -> Range
    requires { KeysReady ws.now 1 (term_x ws.now b) (term_y ws.now b) }
    ensures { (result.low ≡ smallest ws.now (case_keys ws.now b)) × (result.slots ≡ slot_count ws.now (case_keys ws.now b)) × (result.slots ≤ 4096) }
{
    let first = input::block_field(ws, b, 12);
    let n = input::block_field(ws, b, 13);
    key_range(ws, first, 1, n)
}

// The slot of the key c.
pub fn slot_for(ws: &[u32], c: usize, low: u64) -> usize
    requires { (c < 2 ^ 48) × (low ≤ ranked ws.now c) }
    ensures { result ≡ ranked ws.now c - low }
{
    (fit::rank(ws, c) - low) as usize
}

// A table's first key, where its slots start, and how many there are.
pub fn put_head(heads: &mut [u64], e: End, k: Range, start: usize) -> End
    ensures { Grows (λ l. l ++ (((k.low + 2 ^ 63) % 2 ^ 64) ∷ start ∷ k.slots ∷ [])) heads.old e heads.new result }
{
    let first = std::num::wrapping_add_u64(k.low, 9223372036854775808);
    let f = e.push(heads, first);
    let g = f.push(heads, start as u64);
    g.push(heads, k.slots as u64)
}

// The end of a list of tables, and where the slots of the next start.
#[derive(Clone, Copy)]
pub struct Slots {
    pub end: End,
    pub start: usize,
}

// Is block b live and ends in a Switch?
fn has_switch(ws: &[u32], b: u32) -> bool
    ensures { result ≡ has_switch ws.now b }
{
    input::block_field(ws, b, 1) == 0 && input::block_field(ws, b, 6) == kinds::term::SWITCH
}

// The head of block b's table, if it has one.
fn switch_head(ws: &[u32], heads: &mut [u64], t: Slots, b: u32) -> Slots
    requires b_bound { (b < blocks ws.now) × (t.start < 2 ^ 60) }
    requires ready { Ready ws.now }
    ensures start_value { result.start ≡ t.start + pick (has_switch ws.now b) (slot_count ws.now (case_keys ws.now b)) 0 }
    ensures grows { Grows (λ l. pick (has_switch ws.now b) (l ++ switch_head ws.now b t.start) l) heads.old t.end heads.new result.end }
{
    if !has_switch(ws, b) {
        return t;
    }
    let k = case_range(ws, b);
    Slots {
        end: put_head(heads, t.end, k, t.start),
        start: t.start + k.slots,
    }
}

// The heads of a function's switch tables.
pub fn put_switch_heads(ws: &[u32], heads: &mut [u64], e: End, used: usize) -> End
    requires used_bound { used < 4294967296 }
    requires ready { Ready ws.now }
    ensures { Grows (switch_heads_after ws.now used) heads.old e heads.new result }
{
    let mut t = Slots {
        end: e,
        start: used,
    };
    for b in 0..input::head_field(ws, 4) {
        t = switch_head(ws, heads, t, b);
    }
    t.end
}

// So many slots with one target.
fn put_targets(targets: &mut [u32], e: End, x: u32, n: usize) -> End
    ensures { Grows (λ l. l ++ replicate n x) targets.old e targets.new result }
{
    let mut f = e;
    for _ in 0..n {
        f = f.push(targets, x);
    }
    f
}

// A case's target: its pad's label where its edge has moves, else its block. The label of the next pad.
fn store_case(vs: Values, targets: &mut [u32], e: End, i: usize, label: u32, edge: u32) -> u32
    requires { label + 1 < 4294967296 }
    ensures value { result ≡ label + pick (has_moves vs.entry.ws.now vs.entry.map.now edge) 1 0 }
    ensures grows { Grows (λ l. slice_set l i (pick (has_moves vs.entry.ws.now vs.entry.map.now edge) label (edge_target vs.entry.ws.now edge))) targets.old e targets.new e }
{
    if edges::has_moves(vs, edge) {
        e.store(targets, i, label);
        return label + 1;
    }
    let target = input::edge_field(vs.ws, edge, 0);
    e.store(targets, i, target);
    label
}

// The default block of block b's Switch.
fn default_target(ws: &[u32], b: u32) -> u32
    requires { first_edge ws.now b + term_y ws.now b < 4294967296 }
    ensures { result ≡ edge_target ws.now (first_edge ws.now b + term_y ws.now b) }
{
    let first = input::block_field(ws, b, 10);
    let last = first + input::block_field(ws, b, 13);
    input::edge_field(ws, last, 0)
}

// The end of the targets, where the slots of the next table start, and the label of the next pad.
#[derive(Clone, Copy)]
struct Cases {
    end: End,
    start: usize,
    label: u32,
}

// The cases of block b's Switch, whose least key has the rank `low`; the label of the next pad.
fn block_cases(vs: Values, targets: &mut [u32], t: Cases, low: u64, b: u32) -> u32
    requires start_bound { (t.start < 2 ^ 60) × (t.label + term_y vs.ws.now b < 4294967296) × (first_edge vs.ws.now b + term_y vs.ws.now b < 4294967296) × (low ≡ smallest vs.ws.now (case_keys vs.ws.now b)) }
    requires keys_ready { KeysReady vs.ws.now 1 (term_x vs.ws.now b) (term_y vs.ws.now b) }
    ensures value { result ≡ t.label + pad_count vs.entry.ws.now vs.entry.map.now (first_edge vs.entry.ws.now b) (term_y vs.entry.ws.now b) }
    ensures grows { Grows (store_cases vs.entry.ws.now vs.entry.map.now (case_keys vs.entry.ws.now b) t.start t.label (term_x vs.entry.ws.now b) (first_edge vs.entry.ws.now b) (term_y vs.entry.ws.now b)) targets.old t.end targets.new t.end }
{
    let c = input::block_field(vs.ws, b, 12);
    let edge = input::block_field(vs.ws, b, 10);
    let n = input::block_field(vs.ws, b, 13);
    let mut next = t.label;
    for j in 0..n {
        let slot = slot_for(vs.ws, c as usize + j as usize, low);
        next = store_case(vs, targets, t.end, t.start + slot, next, edge + j);
    }
    next
}

// The slots of block b's table, if it has one: the default's everywhere, then each case's.
fn switch_slots(vs: Values, targets: &mut [u32], t: Cases, b: u32) -> Cases
    requires b_bound { (b < blocks vs.ws.now) × (t.start < 2 ^ 60) × (t.label < 2 ^ 31) }
    requires ready { Ready vs.ws.now }
    ensures start_value { (result.start ≡ t.start + pick (has_switch vs.entry.ws.now b) (slot_count vs.entry.ws.now (case_keys vs.entry.ws.now b)) 0) × (result.label ≡ t.label + pick (has_switch vs.entry.ws.now b) (pad_count vs.entry.ws.now vs.entry.map.now (first_edge vs.entry.ws.now b) (term_y vs.entry.ws.now b)) 0) }
    ensures grows { Grows (λ l. pick (has_switch vs.entry.ws.now b) (switch_slots vs.entry.ws.now vs.entry.map.now t.start t.label b l) l) targets.old t.end targets.new result.end }
{
    if !has_switch(vs.ws, b) {
        return t;
    }
    let k = case_range(vs.ws, b);
    let other = default_target(vs.ws, b);
    let end = put_targets(targets, t.end, other, k.slots);
    let label = block_cases(vs, targets, Cases { end, ..t }, k.low, b);
    Cases {
        end,
        start: t.start + k.slots,
        label,
    }
}

// The slots of a function's switch tables.
pub fn put_switch_targets(vs: Values, targets: &mut [u32], e: End, used: usize) -> End
    requires used_bound { used < 4294967296 }
    requires ready { Ready vs.ws.now }
    ensures { Grows (switch_targets_after vs.entry.ws.now vs.entry.map.now used) targets.old e targets.new result }
{
    let end = input::head_field(vs.ws, 4);
    let mut t = Cases {
        end: e,
        start: used,
        label: 2 * end,
    };
    for b in 0..end {
        t = switch_slots(vs, targets, t, b);
    }
    t.end
}
