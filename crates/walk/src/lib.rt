// Places for a whole function: the rows of all blocks in order.
#![tactic(auto)]

ghost use Rattle.std.specs.Prelude.{◌≡◌, ◌+◌, ◌-◌, ◌<◌, ◌≤◌, length, get_or};
ghost use Rattle.std.proofs.lemmas.List.Edits.{sets};
ghost use Rattle.place.specs.Registers.{registers};
ghost use Rattle.alloc.specs.Good.{Good};
ghost use Rattle.input.specs.Layout.{blocks, values, list_at};
ghost use Rattle.input.specs.Records.{first_instr, instr_count};
ghost use Rattle.rows.specs.Rows.{params, instr_rows, block_rows, rows_of, refs, maybe, defs_of};
ghost use Rattle.assign.specs.Steps.{row_steps};
ghost use Rattle.assign.specs.Walk.{walk, run, pool_of, first_hints, assigned, used_below, all_placed};
ghost use Rattle.assign.specs.Fits.{Fits, Lent, run_rows, rows_placed};

use alloc::Alloc;
use assign::AtRow;

// The rows of n instructions from `first` on.
fn instr_list(s: Alloc, map: &mut [u32], noted: &mut [u64], r: AtRow, first: u32, n: u32) -> Alloc
    requires n_bound { (first + n < 4294967296) × (r.row + n < 4294967296) }
    requires good { Good s }
    ensures good_2 { Good result }
    ensures noted_after { walk result map.new r.entry.wish.now noted.new ≡ run_rows r.entry.ws.now r.entry.pool.now r.entry.row (instr_rows first n) (walk s map.old r.entry.wish.now noted.old) }
{
    let mut t = s;
    for j in 0..n {
        let here = AtRow {
            row: r.row + j,
            ..r
        };
        t = assign::one_instr(t, map, noted, here, first + j);
    }
    t
}

// How many rows a block takes.
fn rows_of(ws: &[u32], b: u32) -> usize
    ensures { result ≡ length (block_rows ws.now b) }
{
    let dead = input::block_field(ws, b, 1);
    if dead != 0 {
        return 0;
    }
    (input::block_field(ws, b, 5) as usize) + 2
}

// The rows of a live block's parameters and instructions.
fn live_block(s: Alloc, map: &mut [u32], noted: &mut [u64], r: AtRow, b: u32) -> Alloc
    requires b_bound { (first_instr r.ws.now b + instr_count r.ws.now b < 4294967296) × (r.row + 1 + instr_count r.ws.now b < 4294967296) }
    requires fits { Fits r.ws.now }
    requires good { Good s }
    ensures good_2 { Good result }
    ensures noted_after { walk result map.new r.entry.wish.now noted.new ≡ run_rows r.entry.ws.now r.entry.pool.now (r.entry.row + 1) (instr_rows (first_instr r.entry.ws.now b) (instr_count r.entry.ws.now b)) (run r.entry.ws.now r.entry.pool.now (row_steps r.entry.ws.now r.entry.row (params b)) (walk s map.old r.entry.wish.now noted.old)) }
{
    let first = input::block_field(r.ws, b, 4);
    let n = input::block_field(r.ws, b, 5);
    let t = assign::param_list(s, map, r, b);
    instr_list(
        t,
        map,
        noted,
        AtRow {
            row: r.row + 1,
            ..r
        },
        first,
        n,
    )
}

// The rows of all blocks. A live block's terminator wishes for its successors.
fn all_blocks(
    s: Alloc,
    ws: &[u32],
    map: &mut [u32],
    wish: &mut [u32],
    noted: &mut [u64],
    pool: &[u8],
) -> Alloc
    requires fits { Fits ws.now }
    requires good { Good s }
    ensures good_2 { Good result }
    ensures noted_after { walk result map.new wish.new noted.new ≡ run_rows ws.now pool.now 0 (rows_of ws.now) (walk s map.old wish.old noted.old) }
{
    let n = input::head_field(ws, 4);
    let mut t = s;
    let mut row: usize = 0;
    for b in 0..n {
        if input::block_field(ws, b, 1) == 0 {
            let r = AtRow {
                ws,
                wish,
                pool,
                row: row as u32,
            };
            t = live_block(t, map, noted, r, b);
            hints::block_edges(ws, map, wish, b);
        }
        row += rows_of(ws, b);
    }
    t
}

// The first hint of each value.
fn first_hints(ws: &[u32], wish: &mut [u32])
    ensures { wish.new ≡ sets wish.old 0 (first_hints ws.now 0 (values ws.now)) }
{
    let n = input::head_field(ws, 3);
    for v in 0..n {
        base::set(wish, v as usize, input::value_field(ws, v, 2));
    }
}

// The registers of the pool, 0 last.
pub fn pool_of(pool: &mut [u8])
    requires { length pool.old ≤ 256 }
    ensures { pool.new ≡ pool_of (length pool.old) }
{
    let n = pool.len();
    for i in 0..n {
        pool[i] = (n - 1 - i) as u8;
    }
}

// The place of every value, and the registers noted at each call, whatever the buffers held.
pub fn assign(
    ws: &[u32],
    map: &mut [u32],
    wish: &mut [u32],
    noted: &mut [u64],
    pool: &[u8],
) -> Alloc
    requires fits { Fits ws.now }
    requires lent { Lent ws.now map.old wish.old noted.old }
    requires pool_value { pool.now ≡ pool_of (registers - 2) }
    ensures good { Good result }
    ensures noted_after { walk result map.new wish.new noted.new ≡ assigned registers ws.now }
{
    base::fill_from(map, 0, 0);
    first_hints(ws, wish);
    base::fill_from(noted, 0, 0);
    all_blocks(Alloc::new(pool, &[]), ws, map, wish, noted, pool)
}

// The same where the pool is still to be made.
fn with_pool(
    ws: &[u32],
    map: &mut [u32],
    wish: &mut [u32],
    noted: &mut [u64],
    pool: &mut [u8],
) -> Alloc
    requires fits { Fits ws.now }
    requires lent { Lent ws.now map.old wish.old noted.old }
    requires pool_len { length pool.old ≡ registers - 2 }
    ensures good { Good result }
    ensures noted_after { walk result map.new wish.new noted.new ≡ assigned registers ws.now }
{
    pool_of(pool);
    assign(ws, map, wish, noted, pool)
}

// The same with a pool of its own.
pub fn give_places(ws: &[u32], map: &mut [u32], wish: &mut [u32], noted: &mut [u64]) -> Alloc
    requires fits { Fits ws.now }
    requires lent { Lent ws.now map.old wish.old noted.old }
    ensures good { Good result }
    ensures noted_after { walk result map.new wish.new noted.new ≡ assigned registers ws.now }
{
    let mut pool = [0; 64];
    let n = (place::register_count() - 2) as usize;
    with_pool(ws, map, wish, noted, &mut pool[0..n])
}

// One past the highest general register that was used, 0 where none was.
pub fn top_used(s: Alloc) -> u8
    ensures { result ≡ used_below (get_or s.used 0 0) 64 }
{
    for r in (0..64).rev() {
        if base::has(s.used[0], r) {
            return r + 1;
        }
    }
    0
}

// Has each of the n values of the pool from `at` on a place?
fn list_placed(ws: &[u32], map: &[u32], at: u32, n: u32) -> bool
    ensures { result ≡ all_placed map.now (refs 0 (list_at ws.now at n)) }
{
    for j in 0..n {
        let v = input::pool_at(ws, at, j);
        if base::get_or(map, v as usize, 0) == 0 {
            return false;
        }
    }
    true
}

// Has a destination a place, given as 0 for none, else the value and 1?
fn maybe_placed(map: &[u32], d: u32) -> bool
    ensures { result ≡ all_placed map.now (refs 0 (maybe d)) }
{
    d == 0 || base::get_or(map, (d - 1) as usize, 0) != 0
}

// Has each destination of n instructions a place?
fn instrs_placed(ws: &[u32], map: &[u32], first: u32, n: u32) -> bool
    requires { first + n < 4294967296 }
    ensures { result ≡ rows_placed map.now ws.now (instr_rows first n) }
{
    for j in 0..n {
        let d = input::instr_field(ws, first + j, 2);
        if !maybe_placed(map, d) {
            return false;
        }
    }
    true
}

// Has each value that block b defines a place?
fn block_placed(ws: &[u32], map: &[u32], b: u32) -> bool
    requires b_bound { b < blocks ws.now }
    requires fits { Fits ws.now }
    ensures { result ≡ rows_placed map.now ws.now (block_rows ws.now b) }
{
    let dead = input::block_field(ws, b, 1);
    if dead != 0 {
        return true;
    }
    let at = input::block_field(ws, b, 2);
    let k = input::block_field(ws, b, 3);
    let first = input::block_field(ws, b, 4);
    let n = input::block_field(ws, b, 5);
    list_placed(ws, map, at, k) && instrs_placed(ws, map, first, n)
}

// Refusal 8 is that a value of the function has none.
pub fn all_placed(ws: &[u32], map: &[u32]) -> bool
    requires { Fits ws.now }
    ensures { result ≡ all_placed map.now (defs_of ws.now) }
{
    let n = input::head_field(ws, 4);
    for b in 0..n {
        if !block_placed(ws, map, b) {
            return false;
        }
    }
    true
}
