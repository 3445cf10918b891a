// Refusals 2 and 3.
#![tactic(auto)]

ghost use Rattle.std.specs.Prelude.{true, ◌≡◌, ◌+◌, ◌-◌, ◌≤◌, leb, eqb};
ghost use Rattle.base.specs.Choice.{pick};
ghost use Rattle.base.specs.Limits.{most_arguments, most_parameters};
ghost use Rattle.place.specs.Registers.{registers};
ghost use Rattle.input.specs.Layout.{blocks, instructions, edges, list_at};
ghost use Rattle.input.specs.Records.{is_live, instr_count, term_kind, no_term};
ghost use Rattle.input.specs.Forms.{both, each};
ghost use Rattle.shape.specs.Counts.{row_count, cases_ok, block_counts, instr_counts, counts_ok};
ghost use Rattle.shape.specs.Shape.{list_in, cast_ok, none_live, may_lack, edge_shape, params_shape, instr_shape, term_shape};

use input::kinds;

// The most of each thing: specs/Limits.antt of crate base.
const MOST_VALUES: u32 = 4096;

const MOST_BLOCKS: u32 = 1024;

const MOST_ROWS: u64 = 16384;

const MOST_PARAMETERS: u32 = 190;

const MOST_CASES: u32 = 1024;

// Arguments go in the registers of the pool.
fn most_arguments() -> u32
    ensures { result ≡ most_arguments registers }
{
    (place::register_count() as u32) - 2
}

// The most parameters of block b: those of block 0 arrive in registers.
fn most_parameters(b: u32) -> u32
    ensures { result ≡ pick (eqb b 0) (most_arguments registers) most_parameters }
{
    if b == 0 {
        most_arguments()
    } else {
        MOST_PARAMETERS
    }
}

// Cases or entries: at least one.
fn cases_ok(n: u32) -> bool
    ensures { result ≡ cases_ok n }
{
    (1 <= n) & (n <= MOST_CASES)
}

// A block's parameters, the arguments of its Tail, the cases of its Switch.
fn block_counts(ws: &[u32], b: u32) -> bool
    ensures { result ≡ block_counts registers ws.now b }
{
    let kind = input::block_field(ws, b, 6);
    (input::block_field(ws, b, 3) <= most_parameters(b))
        & ((kind != kinds::term::TAIL) | (input::block_field(ws, b, 9) <= most_arguments()))
        & ((kind != kinds::term::SWITCH) | cases_ok(input::block_field(ws, b, 13)))
}

// The arguments of a Call or Sys, the entries of a Lookup.
fn instr_counts(ws: &[u32], i: u32) -> bool
    ensures { result ≡ instr_counts registers ws.now i }
{
    let kind = input::instr_field(ws, i, 0);
    let few = input::instr_field(ws, i, 4) <= most_arguments();
    ((kind != kinds::instr::CALL) | few)
        & ((kind != kinds::instr::SYS) | few)
        & ((kind != kinds::instr::LOOKUP) | cases_ok(input::instr_field(ws, i, 6)))
}

// The rows of block b: none of a tombstone.
fn block_rows(ws: &[u32], b: u32) -> u64
    ensures { (result ≡ pick (is_live ws.now b) (instr_count ws.now b + 2) 0) × (result ≤ 4294967297) }
{
    if input::block_field(ws, b, 1) == 0 {
        (input::block_field(ws, b, 5) as u64) + 2
    } else {
        0
    }
}

// In 64 bits, so that the sum over any blocks fits.
fn row_count(ws: &[u32]) -> u64
    ensures { result ≡ row_count ws.now 0 (blocks ws.now) }
{
    let mut rows: u64 = 0;
    for b in 0..input::head_field(ws, 4) {
        rows += block_rows(ws, b);
    }
    rows
}

// No refusal 2. It is judged of every record, of tombstones and of instructions of no block too.
pub fn counts_ok(ws: &[u32]) -> bool
    ensures { result ≡ counts_ok registers ws.now }
{
    input::head_field(ws, 3) <= MOST_VALUES
        && input::head_field(ws, 4) <= MOST_BLOCKS
        && row_count(ws) <= MOST_ROWS
        && (0..input::head_field(ws, 4)).all(|b| block_counts(ws, b))
        && (0..input::head_field(ws, 5)).all(|i| instr_counts(ws, i))
}

// Does a part of a table lie within it?
fn part_in(at: u32, count: u32, most: u32) -> bool
    ensures { result ≡ leb (at + count) most }
{
    (at as u64) + (count as u64) <= (most as u64)
}

// Is a list of the pool there, and every number of it a value?
fn list_in(ws: &[u32], at: u32, count: u32) -> bool
    ensures { result ≡ list_in ws.now at count (list_at ws.now at count) }
{
    let values = input::head_field(ws, 3);
    part_in(at, count, input::head_field(ws, 8))
        && (0..count).all(|j| input::pool_at(ws, at, j) < values)
}

// The part of a block's parameters' row in refusal 3.
pub fn params_shape(ws: &[u32], b: u32) -> bool
    ensures { result ≡ params_shape ws.now b }
{
    let first = input::block_field(ws, b, 4);
    let count = input::block_field(ws, b, 5);
    (input::block_field(ws, b, 0) == b)
        & list_in(
            ws,
            input::block_field(ws, b, 2),
            input::block_field(ws, b, 3),
        )
        & part_in(first, count, input::head_field(ws, 5))
}

// Int to Double or Bool, and each of those to Int.
fn cast_ok(to: u32, from: u32) -> bool
    ensures { result ≡ cast_ok to from }
{
    matches!((to, from), (1 | 2, 0) | (0, 1 | 2))
}

// The part of an instruction's row in refusal 3.
pub fn instr_shape(ws: &[u32], i: u32) -> bool
    ensures { result ≡ instr_shape ws.now i }
{
    let kind = input::instr_field(ws, i, 0);
    let x = input::instr_field(ws, i, 5);
    let y = input::instr_field(ws, i, 6);
    let constants = input::head_field(ws, 7);
    list_in(
        ws,
        input::instr_field(ws, i, 3),
        input::instr_field(ws, i, 4),
    ) & (input::instr_field(ws, i, 2) <= input::head_field(ws, 3))
        & ((kind != kinds::instr::BIN_IMM) | (x < 9))
        & ((kind != kinds::instr::CAST) | cast_ok(x, y))
        & ((kind != kinds::instr::LOAD_CONST) | (x < constants))
        & ((kind != kinds::instr::LOOKUP) | ((x as u64) + 2 * (y as u64) + 1 <= (constants as u64)))
}

// The arguments are read last, when there are no more of them than the block has parameters.
fn edge_shape(ws: &[u32], e: u32) -> bool
    ensures { result ≡ edge_shape ws.now e }
{
    let target = input::edge_field(ws, e, 0);
    let count = input::edge_field(ws, e, 2);
    target < input::head_field(ws, 4)
        && input::block_field(ws, target, 1) == 0
        && count == input::block_field(ws, target, 3)
        && list_in(ws, input::edge_field(ws, e, 1), count)
}

// Are these edges there, and each of them in shape?
fn edges_in(ws: &[u32], first: u32, count: u32) -> bool
    ensures { result ≡ both (leb (first + count) (edges ws.now)) (each (edge_shape ws.now) first count) }
{
    part_in(first, count, input::head_field(ws, 6))
        && (first..first + count).all(|e| edge_shape(ws, e))
}

// Is no block live from `from` on?
fn none_live(ws: &[u32], from: u64) -> bool
    ensures { result ≡ none_live ws.now from (blocks ws.now - from) }
{
    (from..input::head_field(ws, 4) as u64).all(|b| input::block_field(ws, b as u32, 1) != 0)
}

// Has block b a terminator, or may it lack one?
fn has_end(ws: &[u32], b: u32) -> bool
    ensures { result ≡ pick (eqb (term_kind ws.now b) no_term) (may_lack ws.now b) true }
{
    input::block_field(ws, b, 6) != kinds::term::NONE
        || (input::head_field(ws, 0) == 0 && none_live(ws, (b as u64) + 1))
}

// The part of a terminator's row in refusal 3.
pub fn term_shape(ws: &[u32], b: u32) -> bool
    ensures { result ≡ term_shape ws.now b }
{
    let kind = input::block_field(ws, b, 6);
    let x = input::block_field(ws, b, 12);
    let cases = input::block_field(ws, b, 13);
    has_end(ws, b)
        & list_in(
            ws,
            input::block_field(ws, b, 8),
            input::block_field(ws, b, 9),
        )
        & edges_in(
            ws,
            input::block_field(ws, b, 10),
            input::block_field(ws, b, 11),
        )
        & ((kind != kinds::term::BRANCH_CMP_IMM) | (x == 8))
        & ((kind != kinds::term::BRANCH_CMP) | (x == 16))
        & ((kind != kinds::term::SWITCH) | part_in(x, cases, input::head_field(ws, 7)))
}
