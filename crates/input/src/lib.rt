// The words of one function: fields of records, and refusal 1.
#![tactic(auto)]

ghost use Rattle.std.specs.Prelude.{◌≡◌, ◌+◌, ◌*◌, ◌<◌, true, eqb, leb, length};
ghost use Rattle.base.specs.Choice.{pick};
ghost use Rattle.input.specs.Layout.{head_field, value_field, block_field, instr_field, edge_field, constant_field, pool_at, head_words, value_words, values, blocks_from, pool_from, pooled};
ghost use Rattle.input.specs.Records.{term_y, edge_count, term_operand_count, destination, operand_count, instr_span, noop, switch, true_const};
ghost use Rattle.input.specs.Forms.{both, fits_count, instr_form, term_form, head_ok, value_ok, instr_ok, term_ok, block_ok, constant_ok, each, words_ok};

pub mod kinds;

// A word of the head.
pub fn head_field(ws: &[u32], k: usize) -> u32
    ensures { result ≡ head_field ws.now k }
{
    base::get_or(ws, k, 0)
}

// Field k of a value, a block, an instruction, an edge, a constant.
pub fn value_field(ws: &[u32], v: u32, k: u32) -> u32
    ensures { result ≡ value_field ws.now v k }
{
    base::get_or(ws, 14 + 3 * (v as usize) + (k as usize), 0)
}

pub fn block_field(ws: &[u32], b: u32, k: u32) -> u32
    ensures { result ≡ block_field ws.now b k }
{
    let from = head_field(ws, 9) as usize;
    base::get_or(ws, from + 14 * (b as usize) + (k as usize), 0)
}

pub fn instr_field(ws: &[u32], i: u32, k: u32) -> u32
    ensures { result ≡ instr_field ws.now i k }
{
    let from = head_field(ws, 10) as usize;
    base::get_or(ws, from + 8 * (i as usize) + (k as usize), 0)
}

pub fn edge_field(ws: &[u32], e: u32, k: u32) -> u32
    ensures { result ≡ edge_field ws.now e k }
{
    let from = head_field(ws, 11) as usize;
    base::get_or(ws, from + 3 * (e as usize) + (k as usize), 0)
}

pub fn constant_field(ws: &[u32], c: u32, k: u32) -> u32
    ensures { result ≡ constant_field ws.now c k }
{
    let from = head_field(ws, 12) as usize;
    base::get_or(ws, from + 3 * (c as usize) + (k as usize), 0)
}

// Number j of a list of the pool that starts at `at`.
pub fn pool_at(ws: &[u32], at: u32, j: u32) -> u32
    ensures { result ≡ pool_at ws.now (at + j) }
{
    let from = head_field(ws, 13) as usize;
    base::get_or(ws, from + ((at as usize) + (j as usize)), 0)
}

// Any number of 32 bits.
const ANY: u32 = u32::MAX;

// The form of each kind of instruction: has a destination, operands, and the most of x, y and z.
const INSTR_FORMS: [[u32; 5]; 13] = [
    [1, 2, 16, 0, 0], // Bin
    [1, 1, 16, ANY, 0], // BinImm
    [1, 0, ANY, 0, 0], // LoadConst
    [1, ANY, ANY, 0, 0], // Call
    [1, ANY, ANY, 0, 0], // Sys
    [1, 1, 3, 3, 0], // Cast
    [1, 0, 255, ANY, 255], // Alloc
    [0, 2, 0, ANY, 0], // Store
    [1, 1, 0, 0, 0], // Assert
    [1, 1, 0, ANY, 0], // Load
    [1, 1, 0, ANY, 0], // AddrOf
    [1, 1, ANY, ANY, 0], // Lookup
    [0, 0, 0, 0, 0], // Noop
];

// The form of each kind of terminator: fewest and most operands, edges, and the most of x, y and the span.
const TERM_FORMS: [[u32; 6]; 8] = [
    [0, 0, 0, 0, 0, 0], // none
    [0, 1, 0, 0, 0, ANY], // Return
    [0, 0, 1, 0, 0, ANY], // Jump
    [1, 1, 2, 0, 0, ANY], // Branch
    [1, 1, 2, 16, ANY, ANY], // BranchCmpImm
    [2, 2, 2, 16, 0, ANY], // BranchCmp
    [0, ANY, 0, ANY, 0, ANY], // Tail
    [1, 1, ANY, ANY, ANY, ANY], // Switch
];

// Number k of the form of a kind, 0 past the table.
fn instr_form(kind: u32, k: u32) -> u32
    requires { k < 5 }
    ensures { result ≡ instr_form kind k }
{
    if kind < kinds::instr::COUNT {
        INSTR_FORMS[kind as usize][k as usize]
    } else {
        0
    }
}

fn term_form(kind: u32, k: u32) -> u32
    requires { k < 6 }
    ensures { result ≡ term_form kind k }
{
    if kind < kinds::term::COUNT {
        TERM_FORMS[kind as usize][k as usize]
    } else {
        0
    }
}

// A table starts where the one before it, of so wide records, ends: the head's words at `next`, `from` and `count`.
fn follows(ws: &[u32], next: usize, from: usize, width: u8, count: usize) -> bool
    ensures { result ≡ eqb (head_field ws.now next) (head_field ws.now from + width * head_field ws.now count) }
{
    let start = head_field(ws, from) as usize;
    let records = head_field(ws, count) as usize;
    head_field(ws, next) as usize == start + (width as usize) * records
}

// The words end with the pool.
fn ends(ws: &[u32]) -> bool
    ensures { result ≡ eqb (length ws.now) (pool_from ws.now + pooled ws.now) }
{
    let start = head_field(ws, 13) as usize;
    ws.len() == start + (head_field(ws, 8) as usize)
}

// The blocks start where the values, behind the head, end.
fn values_first(ws: &[u32]) -> bool
    ensures { result ≡ eqb (blocks_from ws.now) (head_words + value_words * values ws.now) }
{
    let records = head_field(ws, 3) as usize;
    head_field(ws, 9) as usize == 14 + 3 * records
}

pub fn head_ok(ws: &[u32]) -> bool
    ensures { result ≡ head_ok ws.now }
{
    (head_field(ws, 2) <= 1)
        & values_first(ws)
        & follows(ws, 10, 9, 14, 4) // instructions behind blocks
        & follows(ws, 11, 10, 8, 5) // edges behind instructions
        & follows(ws, 12, 11, 3, 6) // constants behind edges
        & follows(ws, 13, 12, 3, 7) // the pool behind constants
        & ends(ws)
}

// A first hint is a register below 64 and 1, or 0.
pub fn value_ok(ws: &[u32], v: u32) -> bool
    ensures { result ≡ value_ok ws.now v }
{
    value_field(ws, v, 2) <= 64
}

// A destination exactly where the form has one.
fn destination_ok(ws: &[u32], i: u32, kind: u32) -> bool
    ensures { result ≡ eqb (instr_form kind 0) (pick (eqb (destination ws.now i) 0) 0 1) }
{
    instr_form(kind, 0) == u32::from(instr_field(ws, i, 2) != 0)
}

// As many operands as the form says, or any number.
fn operands_ok(ws: &[u32], i: u32, kind: u32) -> bool
    ensures { result ≡ fits_count (instr_form kind 1) (operand_count ws.now i) }
{
    let form = instr_form(kind, 1);
    form == ANY || instr_field(ws, i, 4) == form
}

// Field k is at most number f of the form.
fn instr_within(ws: &[u32], i: u32, k: u32, kind: u32, f: u32) -> bool
    requires { f < 5 }
    ensures { result ≡ leb (instr_field ws.now i k) (instr_form kind f) }
{
    let most = instr_form(kind, f);
    instr_field(ws, i, k) <= most
}

// A Noop has no span.
fn noop_ok(ws: &[u32], i: u32, kind: u32) -> bool
    ensures { result ≡ pick (eqb kind noop) (eqb (instr_span ws.now i) 0) true }
{
    kind != kinds::instr::NOOP || instr_field(ws, i, 1) == 0
}

pub fn instr_ok(ws: &[u32], i: u32) -> bool
    ensures { result ≡ instr_ok ws.now i }
{
    let kind = instr_field(ws, i, 0);
    (kind < kinds::instr::COUNT)
        & destination_ok(ws, i, kind)
        & operands_ok(ws, i, kind)
        & instr_within(ws, i, 5, kind, 2)
        & instr_within(ws, i, 6, kind, 3)
        & instr_within(ws, i, 7, kind, 4)
        & noop_ok(ws, i, kind)
}

// At least as many operands as the form asks.
fn term_operands_ok(ws: &[u32], b: u32, kind: u32) -> bool
    ensures { result ≡ leb (term_form kind 0) (term_operand_count ws.now b) }
{
    let fewest = term_form(kind, 0);
    fewest <= block_field(ws, b, 9)
}

// Field k is at most number f of the form.
fn term_within(ws: &[u32], b: u32, k: u32, kind: u32, f: u32) -> bool
    requires { f < 6 }
    ensures { result ≡ leb (block_field ws.now b k) (term_form kind f) }
{
    let most = term_form(kind, f);
    block_field(ws, b, k) <= most
}

// So many edges: of a Switch one for each case and one for the default.
fn edges_ok(ws: &[u32], b: u32, kind: u32) -> bool
    ensures { result ≡ pick (eqb kind switch) (eqb (edge_count ws.now b) (term_y ws.now b + 1)) (eqb (edge_count ws.now b) (term_form kind 2)) }
{
    let count = block_field(ws, b, 11);
    if kind == kinds::term::SWITCH {
        count as usize == (block_field(ws, b, 13) as usize) + 1
    } else {
        count == term_form(kind, 2)
    }
}

pub fn term_ok(ws: &[u32], b: u32) -> bool
    ensures { result ≡ term_ok ws.now b }
{
    let kind = block_field(ws, b, 6);
    (kind < kinds::term::COUNT)
        & term_operands_ok(ws, b, kind)
        & term_within(ws, b, 9, kind, 1)
        & edges_ok(ws, b, kind)
        & term_within(ws, b, 12, kind, 3)
        & term_within(ws, b, 13, kind, 4)
        & term_within(ws, b, 7, kind, 5)
}

// A tombstone mark is 0 or 1.
pub fn block_ok(ws: &[u32], b: u32) -> bool
    ensures { result ≡ block_ok ws.now b }
{
    (block_field(ws, b, 1) <= 1) & term_ok(ws, b)
}

// Undefined, False and True have no payload.
fn payload_ok(ws: &[u32], c: u32, kind: u32) -> bool
    ensures { result ≡ pick (leb kind true_const) (both (eqb (constant_field ws.now c 1) 0) (eqb (constant_field ws.now c 2) 0)) true }
{
    kind > kinds::constant::TRUE || (constant_field(ws, c, 1) == 0 && constant_field(ws, c, 2) == 0)
}

pub fn constant_ok(ws: &[u32], c: u32) -> bool
    ensures { result ≡ constant_ok ws.now c }
{
    let kind = constant_field(ws, c, 0);
    (kind < kinds::constant::COUNT) & payload_ok(ws, c, kind)
}

// No refusal 1. The head goes first: once it passes, no table is longer than the words.
pub fn words_ok(ws: &[u32]) -> bool
    ensures { result ≡ words_ok ws.now }
{
    head_ok(ws)
        && (0..head_field(ws, 3)).all(|v| value_ok(ws, v))
        && (0..head_field(ws, 4)).all(|b| block_ok(ws, b))
        && (0..head_field(ws, 5)).all(|i| instr_ok(ws, i))
        && (0..head_field(ws, 7)).all(|c| constant_ok(ws, c))
}
