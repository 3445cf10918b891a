// Places a row at a time: what a block's parameters and an instruction do.
#![tactic(auto)]

ghost use Rattle.std.specs.Prelude.{◌≡◌, true, List, [], ℕ, ◌≤◌, eqb};
ghost use Rattle.base.specs.Choice.{pick};
ghost use Rattle.alloc.specs.Good.{Good};
ghost use Rattle.input.specs.Layout.{list_at};
ghost use Rattle.input.specs.Records.{call, sys};
ghost use Rattle.rows.specs.Rows.{params, instr, maybe, defined_by};
ghost use Rattle.assign.specs.Steps.{is_call, pins, places, notes, row_steps};
ghost use Rattle.assign.specs.Walk.{walk, hint_for, place_step, pin_step, run};
ghost use Rattle.assign.specs.Fits.{Fits};

use alloc::Alloc;
use place::Reg;

// What giving places at a row reads: the function's words, the hints, the pool, and which row.
#[derive(Clone, Copy)]
pub struct AtRow<'a> {
    pub ws: &'a [u32],
    pub wish: &'a [u32],
    pub pool: &'a [u8],
    pub row: u32,
}

// What a hint's word says.
#[tactic(auto, unfolding(crate::specs::Walk::hint_for))]
pub fn hint_for(x: u32) -> Option<Reg>
    ensures { result ≡ hint_for x }
{
    match x {
        1..=64 => Some(Reg::Gpr((x - 1) as u8)),
        _ => None,
    }
}

// One value is placed at a row.
#[tactic(auto, unfolding(crate::specs::Walk::place_step))]
fn place_value(s: Alloc, map: &mut [u32], r: AtRow, v: u32) -> Alloc
    requires { Good s }
    ensures good { Good result }
    ensures by_index { (n : List ℕ) → walk result map.new r.entry.wish.now n ≡ place_step r.entry.ws.now r.entry.pool.now r.entry.row v (walk s map.old r.entry.wish.now n) }
{
    let end = input::value_field(r.ws, v, 1);
    let h = hint_for(base::get_or(r.wish, v as usize, 0));
    s.place(map, v as usize, 0, r.row, end, h, r.pool).state
}

// One parameter of block 0 is pinned, or placed where its register isn't free.
#[tactic(auto, unfolding(crate::specs::Walk::pin_step))]
fn pin_value(s: Alloc, map: &mut [u32], r: AtRow, k: u8, v: u32) -> Alloc
    requires { Good s }
    ensures good { Good result }
    ensures by_index { (n : List ℕ) → walk result map.new r.entry.wish.now n ≡ pin_step r.entry.ws.now r.entry.pool.now r.entry.row k v (walk s map.old r.entry.wish.now n) }
{
    let reg = Reg::Gpr(k);
    if s.is_free(reg) {
        let until = input::value_field(r.ws, v, 1);
        return s.pin(map, v as usize, reg, until);
    }
    place_value(s, map, r, v)
}

// The n values of the pool from `at` on are placed at a row.
fn place_list(s: Alloc, map: &mut [u32], r: AtRow, at: u32, n: u32) -> Alloc
    requires { Good s }
    ensures good { Good result }
    ensures by_index { (m : List ℕ) → walk result map.new r.entry.wish.now m ≡ run r.entry.ws.now r.entry.pool.now (places r.entry.row (list_at r.entry.ws.now at n)) (walk s map.old r.entry.wish.now m) }
{
    let mut t = s;
    for j in 0..n {
        let v = input::pool_at(r.ws, at, j);
        t = place_value(t, map, r, v);
    }
    t
}

// They are pinned, the first to register 0.
fn pin_list(s: Alloc, map: &mut [u32], r: AtRow, at: u32, n: u32) -> Alloc
    requires n_bound { n ≤ 62 }
    requires good { Good s }
    ensures good_2 { Good result }
    ensures by_index { (m : List ℕ) → walk result map.new r.entry.wish.now m ≡ run r.entry.ws.now r.entry.pool.now (pins r.entry.row 0 (list_at r.entry.ws.now at n)) (walk s map.old r.entry.wish.now m) }
{
    let mut t = s;
    for j in 0..n {
        let v = input::pool_at(r.ws, at, j);
        t = pin_value(t, map, r, j as u8, v);
    }
    t
}

// Is it the kind of a Call or Sys?
fn calls(kind: u32) -> bool
    ensures { result ≡ pick (eqb kind call) true (eqb kind sys) }
{
    kind == 3 || kind == 4
}

// The registers that active entries hold past a row are noted for a destination, given as 0 for none, else the value and 1.
fn note_maybe(s: Alloc, noted: &mut [u64], row: u32, d: u32)
    requires { Good s }
    ensures { (ws pool m h : List ℕ) → walk s m h noted.new ≡ run ws pool (notes row (maybe d)) (walk s m h noted.old) }
{
    if d != 0 {
        base::set(noted, (d - 1) as usize, s.live_after(0, row));
    }
}

// A Call or Sys notes them for the value that it defines.
#[tactic(auto, unfolding(crate::specs::Walk::run))]
fn note_row(s: Alloc, ws: &[u32], noted: &mut [u64], row: u32, i: u32)
    requires { Good s }
    ensures { (pool m h : List ℕ) → walk s m h noted.new ≡ run ws.now pool (pick (is_call ws.now i) (notes row (defined_by ws.now i)) []) (walk s m h noted.old) }
{
    if calls(input::instr_field(ws, i, 0)) {
        note_maybe(s, noted, row, input::instr_field(ws, i, 2));
    }
}

// A destination, given as 0 for none, else the value and 1.
fn place_maybe(s: Alloc, map: &mut [u32], r: AtRow, d: u32) -> Alloc
    requires { Good s }
    ensures good { Good result }
    ensures by_index { (n : List ℕ) → walk result map.new r.entry.wish.now n ≡ run r.entry.ws.now r.entry.pool.now (places r.entry.row (maybe d)) (walk s map.old r.entry.wish.now n) }
{
    if d == 0 {
        return s;
    }
    place_value(s, map, r, d - 1)
}

// An instruction's row. What is noted are the registers before its destination has a place.
pub fn one_instr(s: Alloc, map: &mut [u32], noted: &mut [u64], r: AtRow, i: u32) -> Alloc
    requires { Good s }
    ensures good { Good result }
    ensures noted_after { walk result map.new r.entry.wish.now noted.new ≡ run r.entry.ws.now r.entry.pool.now (row_steps r.entry.ws.now r.entry.row (instr i)) (walk s map.old r.entry.wish.now noted.old) }
{
    let d = input::instr_field(r.ws, i, 2);
    let t = place_maybe(s, map, r, d);
    note_row(s, r.ws, noted, r.row, i);
    t
}

// The row of a block's parameters.
pub fn param_list(s: Alloc, map: &mut [u32], r: AtRow, b: u32) -> Alloc
    requires fits { Fits r.ws.now }
    requires good { Good s }
    ensures good_2 { Good result }
    ensures by_index { (m : List ℕ) → walk result map.new r.entry.wish.now m ≡ run r.entry.ws.now r.entry.pool.now (row_steps r.entry.ws.now r.entry.row (params b)) (walk s map.old r.entry.wish.now m) }
{
    let at = input::block_field(r.ws, b, 2);
    let n = input::block_field(r.ws, b, 3);
    if b == 0 {
        return pin_list(s, map, r, at, n);
    }
    place_list(s, map, r, at, n)
}
