// Operands, destinations, and the instructions that are one op.
#![tactic(auto)]

ghost use Rattle.std.specs.Prelude.{◌≡◌, List, ℕ, ◌%◌, ◌^◌, eqb};
ghost use Rattle.base.specs.Choice.{pick};
ghost use Rattle.base.specs.Emission.{emit};
ghost use Rattle.base.specs.Lent.{Lowers};
ghost use Rattle.place.specs.Registers.{registers};
ghost use Rattle.op.specs.Words.{word};
ghost use Rattle.input.specs.Records.{true_const, int_const};
ghost use Rattle.lower.specs.Operands.{place_at, loads_scratch, spare, operand_reg, fetched, dest_reg, stored};
ghost use Rattle.lower.specs.Instructions.{lower_bin, lower_bin_imm, cast_op, lower_cast, lower_alloc, lower_store, lower_load, lower_addr_of, lower_lookup, lower_assert, small_int, is_global, lower_const};

use base::Pen;

// The place of a value, by the map.
pub fn place_at(map: &[u32], v: u32) -> u32
    ensures { result ≡ place_at map.now v }
{
    base::get_or(map, v as usize, 0).saturating_sub(1)
}

// Does an op load SCRATCH from a slot?
#[tactic(auto, unfolding(crate::specs::Operands::loads_scratch))]
pub fn loads_scratch(last: u64) -> bool
    ensures { result ≡ loads_scratch registers last }
{
    let o = op::unpack(last);
    o.code == 25 && o.a == place::scratch()
}

// The register that a slot operand is loaded into.
#[tactic(auto, unfolding(crate::specs::Operands::spare))]
pub fn spare_reg(last: u64) -> u8
    ensures { result ≡ spare registers last }
{
    if loads_scratch(last) {
        place::tmp()
    } else {
        place::scratch()
    }
}

// The register that an operand is read from, where `last` is the op before.
#[tactic(auto, unfolding(crate::specs::Operands::operand_reg))]
pub fn operand_reg(place: u32, last: u64) -> u8
    ensures { result ≡ operand_reg registers place last }
{
    if place < 256 {
        place as u8
    } else {
        spare_reg(last)
    }
}

// The register that an op computes a destination in.
#[tactic(auto, unfolding(crate::specs::Operands::dest_reg))]
pub fn dest_reg(place: u32) -> u8
    ensures { result ≡ dest_reg registers place }
{
    if place < 256 {
        place as u8
    } else {
        place::tmp()
    }
}

// A slot operand is loaded.
pub fn put_fetch(ops: &mut [u64], spans: &mut [u32], p: Pen, place: u32) -> Pen
    ensures { (l : List ℕ) → Lowers (fetched registers place) ops.old spans.old l p ops.new spans.new l result }
{
    if place < 256 {
        return p;
    }
    base::put(ops, spans, p, op::load_slot(spare_reg(p.last), place - 256))
}

// A slot destination is stored.
pub fn put_store(ops: &mut [u64], spans: &mut [u32], p: Pen, place: u32) -> Pen
    ensures { (l : List ℕ) → Lowers (stored registers place) ops.old spans.old l p ops.new spans.new l result }
{
    if place < 256 {
        return p;
    }
    base::put(ops, spans, p, op::store_slot(place - 256, place::tmp()))
}

// An op that computes a destination.
fn put_result(ops: &mut [u64], spans: &mut [u32], p: Pen, w: u64, dst: u32) -> Pen
    ensures { (l : List ℕ) → Lowers (λ q. stored registers dst (emit w q)) ops.old spans.old l p ops.new spans.new l result }
{
    let q = base::put(ops, spans, p, w);
    put_store(ops, spans, q, dst)
}

// An op that computes a destination from an operand.
fn put_from(ops: &mut [u64], spans: &mut [u32], p: Pen, src: u32, w: u64, dst: u32) -> Pen
    ensures { (l : List ℕ) → Lowers (λ q. stored registers dst (emit w (fetched registers src q))) ops.old spans.old l p ops.new spans.new l result }
{
    let q = put_fetch(ops, spans, p, src);
    put_result(ops, spans, q, w, dst)
}

// Bin: dst = lhs operator rhs.
pub fn put_bin(
    ops: &mut [u64],
    spans: &mut [u32],
    p: Pen,
    operator: u8,
    dst: u32,
    lhs: u32,
    rhs: u32,
) -> Pen
    ensures { (l : List ℕ) → Lowers (lower_bin registers operator dst lhs rhs) ops.old spans.old l p ops.new spans.new l result }
{
    let left = operand_reg(lhs, p.last);
    let q = put_fetch(ops, spans, p, lhs);
    let right = operand_reg(rhs, q.last);
    put_from(
        ops,
        spans,
        q,
        rhs,
        op::bin(operator, dest_reg(dst), left, right),
        dst,
    )
}

// BinImm: dst = lhs operator imm.
pub fn put_bin_imm(
    ops: &mut [u64],
    spans: &mut [u32],
    p: Pen,
    operator: u8,
    dst: u32,
    lhs: u32,
    imm: u32,
) -> Pen
    ensures { (l : List ℕ) → Lowers (lower_bin_imm registers operator dst lhs imm) ops.old spans.old l p ops.new spans.new l result }
{
    let left = operand_reg(lhs, p.last);
    put_from(
        ops,
        spans,
        p,
        lhs,
        op::bin_imm(operator, dest_reg(dst), left, imm),
        dst,
    )
}

// The op of a cast between types 0 Int, 1 Double, 2 Bool; Bool to Int is a Mov.
fn cast_word(to: u32, from: u32, d: u8, s: u8) -> u64
    ensures { result ≡ word (cast_op to from d s) }
{
    match (from, to) {
        (0, 1) => op::cast_to_double(d, s),
        (0, _) => op::cast_to_bool(d, s),
        (1, _) => op::cast_to_int(d, s),
        _ => op::mov(d, s),
    }
}

// Cast: dst = src as another type.
pub fn put_cast(
    ops: &mut [u64],
    spans: &mut [u32],
    p: Pen,
    to: u32,
    from: u32,
    dst: u32,
    src: u32,
) -> Pen
    ensures { (l : List ℕ) → Lowers (lower_cast registers to from dst src) ops.old spans.old l p ops.new spans.new l result }
{
    let s = operand_reg(src, p.last);
    put_from(
        ops,
        spans,
        p,
        src,
        cast_word(to, from, dest_reg(dst), s),
        dst,
    )
}

// Alloc: dst = new memory.
pub fn put_alloc(
    ops: &mut [u64],
    spans: &mut [u32],
    p: Pen,
    dst: u32,
    kind: u8,
    size: u32,
    align: u8,
) -> Pen
    ensures { (l : List ℕ) → Lowers (lower_alloc registers dst kind size align) ops.old spans.old l p ops.new spans.new l result }
{
    put_result(
        ops,
        spans,
        p,
        op::alloc(dest_reg(dst), kind, size, align),
        dst,
    )
}

// Store: src into memory at an address and an offset.
pub fn put_store_to(
    ops: &mut [u64],
    spans: &mut [u32],
    p: Pen,
    src: u32,
    address: u32,
    offset: u32,
) -> Pen
    ensures { (l : List ℕ) → Lowers (lower_store registers src address offset) ops.old spans.old l p ops.new spans.new l result }
{
    let s = operand_reg(src, p.last);
    let q = put_fetch(ops, spans, p, src);
    let a = operand_reg(address, q.last);
    let r = put_fetch(ops, spans, q, address);
    base::put(ops, spans, r, op::store(a, offset, s))
}

// Load: dst = memory at an address and an offset.
pub fn put_load(
    ops: &mut [u64],
    spans: &mut [u32],
    p: Pen,
    dst: u32,
    address: u32,
    offset: u32,
) -> Pen
    ensures { (l : List ℕ) → Lowers (lower_load registers dst address offset) ops.old spans.old l p ops.new spans.new l result }
{
    let a = operand_reg(address, p.last);
    put_from(
        ops,
        spans,
        p,
        address,
        op::load(dest_reg(dst), a, offset),
        dst,
    )
}

// AddrOf: dst = an address and an offset.
pub fn put_addr_of(
    ops: &mut [u64],
    spans: &mut [u32],
    p: Pen,
    dst: u32,
    address: u32,
    offset: u32,
) -> Pen
    ensures { (l : List ℕ) → Lowers (lower_addr_of registers dst address offset) ops.old spans.old l p ops.new spans.new l result }
{
    let a = operand_reg(address, p.last);
    put_from(
        ops,
        spans,
        p,
        address,
        op::addr_of(dest_reg(dst), a, offset),
        dst,
    )
}

// Lookup: dst = what a table holds for the subject.
pub fn put_lookup(
    ops: &mut [u64],
    spans: &mut [u32],
    p: Pen,
    dst: u32,
    subject: u32,
    table: u32,
) -> Pen
    ensures { (l : List ℕ) → Lowers (lower_lookup registers dst subject table) ops.old spans.old l p ops.new spans.new l result }
{
    let s = operand_reg(subject, p.last);
    put_from(
        ops,
        spans,
        p,
        subject,
        op::lookup(dest_reg(dst), s, table),
        dst,
    )
}

// Assert: a slot destination is stored from TMP, though no op computes it.
pub fn put_assert(ops: &mut [u64], spans: &mut [u32], p: Pen, dst: u32, cond: u32) -> Pen
    ensures { (l : List ℕ) → Lowers (lower_assert registers dst cond) ops.old spans.old l p ops.new spans.new l result }
{
    let c = operand_reg(cond, p.last);
    put_from(ops, spans, p, cond, op::assert(c), dst)
}

// Is the Int strictly between -2147483648 and 2147483647?
fn small_int(payload: u64) -> bool
    ensures { result ≡ small_int payload }
{
    payload < 2147483647 || 18446744071562067968 < payload
}

// Is the constant one that LoadG loads?
#[tactic(auto, unfolding(crate::specs::Instructions::is_global))]
pub fn is_global(kind: u32, payload: u64) -> bool
    ensures { result ≡ is_global kind payload }
{
    if kind == 3 {
        !small_int(payload)
    } else {
        3 < kind
    }
}

// What LoadI loads: an Int's low half, 1 for True, 0 for False.
fn loaded(kind: u32, payload: u64) -> u32
    ensures { result ≡ pick (eqb kind int_const) (payload % 2 ^ 32) (pick (eqb kind true_const) 1 0) }
{
    match kind {
        3 => (payload % 4294967296) as u32,
        2 => 1,
        _ => 0,
    }
}

// LoadConst: dst = a constant, `global` its number among the globals.
pub fn put_const(
    ops: &mut [u64],
    spans: &mut [u32],
    p: Pen,
    dst: u32,
    kind: u32,
    payload: u64,
    global: u32,
) -> Pen
    ensures { (l : List ℕ) → Lowers (lower_const registers dst kind payload global) ops.old spans.old l p ops.new spans.new l result }
{
    let d = dest_reg(dst);
    if is_global(kind, payload) {
        return put_result(ops, spans, p, op::load_g(d, global), dst);
    }
    if kind == 0 {
        return put_store(ops, spans, p, dst);
    }
    put_result(ops, spans, p, op::load_i(d, loaded(kind, payload)), dst)
}
