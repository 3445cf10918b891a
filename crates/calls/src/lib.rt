// Calls and tails.
#![tactic(auto)]

ghost use Rattle.std.specs.Prelude.{◌≡◌, List, reverse, ℕ, ◌+◌, ◌-◌, ◌%◌, ◌^◌, ◌≤◌, ◌<◌, leb, eqb, length, take};
ghost use mathlib.Core.List as list;
ghost use Rattle.base.specs.Emission.{emit, emit_all};
ghost use Rattle.base.specs.Lent.{Lowers};
ghost use Rattle.place.specs.Registers.{registers, first_kept};
ghost use Rattle.op.specs.Words.{word};
ghost use Rattle.op.specs.Ops.{mov};
ghost use Rattle.machine.specs.Stack.{pushes_of, pops_of, raised};
ghost use Rattle.program.specs.Functions.{function_kind, function_number, bytecode, native};
ghost use Rattle.input.specs.Layout.{pool_at, list_at};
ghost use Rattle.input.specs.Forms.{both};
ghost use Rattle.lower.specs.Operands.{place_at, dest_reg, stored};
ghost use Rattle.edges.specs.Pairs.{differing_sources, differing_destinations};
ghost use Rattle.calls.specs.Calls.{masked_from, argument_places, argument_regs, shuffle, call_with, called_as, lower_call, lower_sys, lower_tail};

use base::Pen;
use edges::Values;

// A call's operands, so many of the pool from `at` on: each has a place that the pushes may raise.
#[derive(Clone, Copy)]
pub struct Operands<'a> {
    pub vs: Values<'a>,
    pub at: u32,
    pub count: u32,
    pub ghost few: { count ≤ 62 },
    pub ghost places_low: { (i : ℕ) → i < count → place_at vs.map.now (pool_at vs.ws.now (at + i)) + 62 < 4294967296 },
}

// A call whose result has a place, with the registers noted for it.
#[derive(Clone, Copy)]
pub struct Call<'a> {
    pub operands: Operands<'a>,
    pub noted: u64,
    pub dst: u32,
}

// Registers that a mask can hold.
const MOST_REGS: usize = 64;

// Arguments of a call, whatever N is.
const MOST_ARGUMENTS: usize = 62;

// The registers of the mask below the limit, ascending, at the front of `regs`; how many they are.
fn pushes_of(mask: u64, limit: u8, regs: &mut [u8]) -> usize
    requires { limit ≤ length regs.old }
    ensures { (result ≤ limit) × (take result regs.new ≡ masked_from mask 0 limit) }
{
    let mut k = 0;
    for r in 0..limit {
        if base::has(mask, r) {
            regs[k] = r;
            k += 1;
        }
    }
    k
}

// A place after so many pushes: a slot is raised by them.
fn raised_by(pushes: u32, place: u32) -> u32
    requires { place + pushes < 4294967296 }
    ensures { result ≡ raised pushes place }
{
    if place < 256 { place } else { place + pushes }
}

// The moves of arguments into registers 0 and up, at the front of two columns; how many they are.
fn gather_arguments(a: Operands, src: &mut [u32], dst: &mut [u32], pushes: u32) -> usize
    requires { (a.count ≤ length src.old) × (a.count ≤ length dst.old) × (pushes ≤ 62) }
    ensures { (result ≤ a.entry.count) × (take result src.new ≡ differing_sources (argument_places a.entry.vs.map.now pushes (list_at a.entry.vs.ws.now a.entry.at a.entry.count)) (argument_regs 0 (list_at a.entry.vs.ws.now a.entry.at a.entry.count))) × (take result dst.new ≡ differing_destinations (argument_places a.entry.vs.map.now pushes (list_at a.entry.vs.ws.now a.entry.at a.entry.count)) (argument_regs 0 (list_at a.entry.vs.ws.now a.entry.at a.entry.count))) }
{
    let mut m = 0;
    for j in 0..a.count {
        let place = lower::place_at(a.vs.map, input::pool_at(a.vs.ws, a.at, j));
        let s = raised_by(pushes, place);
        m = edges::add_pair(src, dst, m, s, j);
    }
    m
}

// Each argument into its register, where so many pushes raise the slots.
fn put_shuffle(ops: &mut [u64], spans: &mut [u32], p: Pen, a: Operands, pushes: u32) -> Pen
    requires { pushes ≤ 62 }
    ensures { (l : List ℕ) → Lowers (shuffle registers a.entry.vs.map.now pushes (list_at a.entry.vs.ws.now a.entry.at a.entry.count)) ops.old spans.old l p ops.new spans.new l result }
{
    let mut src = [0; MOST_ARGUMENTS];
    let mut dst = [0; MOST_ARGUMENTS];
    let n = gather_arguments(a, &mut src, &mut dst, pushes);
    moves_code::put_moves(ops, spans, p, &mut src, &mut dst, n)
}

// The pushes of the registers, then the arguments.
fn put_before(ops: &mut [u64], spans: &mut [u32], p: Pen, a: Operands, regs: &[u8]) -> Pen
    requires { length regs.now ≤ 62 }
    ensures { (l : List ℕ) → Lowers (λ q. shuffle registers a.entry.vs.map.now (length regs.now) (list_at a.entry.vs.ws.now a.entry.at a.entry.count) (emit_all (list.map word (pushes_of regs.now)) q)) ops.old spans.old l p ops.new spans.new l result }
{
    let pushed = packs::put_pushes(ops, spans, p, regs);
    put_shuffle(ops, spans, pushed, a, regs.len() as u32)
}

// The result out of register 0, the pops, and the store of a result whose place is a slot.
fn put_after(ops: &mut [u64], spans: &mut [u32], p: Pen, regs: &[u8], dst: u32) -> Pen
    ensures { (l : List ℕ) → Lowers (λ q. stored registers dst (emit_all (list.map word (pops_of (reverse regs.now))) (emit (word (mov (dest_reg registers dst) 0)) q))) ops.old spans.old l p ops.new spans.new l result }
{
    let moved = base::put(ops, spans, p, op::mov(lower::dest_reg(dst), 0));
    let popped = packs::put_pops_back(ops, spans, moved, regs);
    lower::put_store(ops, spans, popped, dst)
}

// Pushes of the noted registers below the limit, arguments, the op that calls, result, pops.
fn put_with(ops: &mut [u64], spans: &mut [u32], p: Pen, call: Call, limit: u8, called: u64) -> Pen
    requires { limit ≤ 62 }
    ensures { (l : List ℕ) → Lowers (call_with registers call.entry.operands.vs.map.now (masked_from call.entry.noted 0 limit) (list_at call.entry.operands.vs.ws.now call.entry.operands.at call.entry.operands.count) called call.entry.dst) ops.old spans.old l p ops.new spans.new l result }
{
    let mut regs = [0; MOST_REGS];
    let k = pushes_of(call.noted, limit, &mut regs);
    let ready = put_before(ops, spans, p, call.operands, &regs[..k]);
    let back = base::put(ops, spans, ready, called);
    put_after(ops, spans, back, &regs[..k], call.dst)
}

// Does native code of a kind return a double?
fn returns_double(kind: u64) -> u8
    requires { kind < 4 }
    ensures { result ≡ kind - native }
{
    u8::from(kind == 3)
}

// The low half of the number of the function of a table word.
fn number_of(f: u64) -> u32
    ensures { result ≡ function_number f % 2 ^ 32 }
{
    (program::number_of(f) % 4294967296) as u32
}

// The op that calls the function of a table word.
#[tactic(auto, unfolding(crate::specs::Calls::called_as))]
pub fn called_as(f: u64) -> u64
    ensures { result ≡ called_as f }
{
    let kind = program::kind_of(f);
    if kind == 1 {
        op::call(number_of(f))
    } else {
        op::native(number_of(f), returns_double(kind))
    }
}

// A call of the function of a table word.
pub fn put_call(ops: &mut [u64], spans: &mut [u32], p: Pen, call: Call, f: u64) -> Pen
    ensures { (l : List ℕ) → Lowers (lower_call registers call.entry.operands.vs.map.now call.entry.noted (list_at call.entry.operands.vs.ws.now call.entry.operands.at call.entry.operands.count) f call.entry.dst) ops.old spans.old l p ops.new spans.new l result }
{
    let called = called_as(f);
    let limit = place::CALLEE_SAVED.max(call.operands.count as u8);
    put_with(ops, spans, p, call, limit, called)
}

// A call of a builtin.
pub fn put_sys(ops: &mut [u64], spans: &mut [u32], p: Pen, call: Call, number: u32) -> Pen
    ensures { (l : List ℕ) → Lowers (lower_sys registers call.entry.operands.vs.map.now call.entry.noted (list_at call.entry.operands.vs.ws.now call.entry.operands.at call.entry.operands.count) number call.entry.dst) ops.old spans.old l p ops.new spans.new l result }
{
    let count = call.operands.count as u8;
    let called = op::sys(number, count);
    put_with(ops, spans, p, call, count.max(1), called)
}

// May the called function take over the frame? Native code and one with arguments in registers that it keeps may not.
fn takes_over(f: u64, count: u32) -> bool
    ensures { result ≡ both (leb count first_kept) (eqb (function_kind f) bytecode) }
{
    count <= 19 && program::kind_of(f) == 1
}

// A call whose result is returned.
pub fn put_tail(ops: &mut [u64], spans: &mut [u32], p: Pen, a: Operands, f: u64) -> Pen
    ensures { (l : List ℕ) → Lowers (lower_tail registers a.entry.vs.map.now (list_at a.entry.vs.ws.now a.entry.at a.entry.count) f) ops.old spans.old l p ops.new spans.new l result }
{
    let ready = put_shuffle(ops, spans, p, a, 0);
    if takes_over(f, a.count) {
        return base::put(ops, spans, ready, op::tail(number_of(f)));
    }
    let called = base::put(ops, spans, ready, called_as(f));
    base::put(ops, spans, called, op::ret())
}
