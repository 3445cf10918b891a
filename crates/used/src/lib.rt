// Used lengths: which pass a buffer, how many labels a function may have, a pen behind the used ops.
#![tactic(auto)]

ghost use Rattle.std.specs.Prelude.{◌≡◌, ◌≤◌};
ghost use Rattle.used.specs.Used.{within, slots_within, labels_for};
ghost use Rattle.used.specs.Pens.{last_of, op_room, pen_at};

use base::Pen;
use lists::{MOST_OF_A_KIND, Used};

// So many records of `words` words each are used of a buffer of `size` words.
pub fn within(words: usize, used: usize, size: usize) -> bool
    requires { words ≤ 5 }
    ensures { result ≡ within words used size }
{
    used <= MOST_OF_A_KIND && words * used <= size
}

// Slots of tables are counted in 32 bits.
pub fn slots_within(words: usize, used: usize, size: usize) -> bool
    requires { words ≤ 5 }
    ensures { result ≡ slots_within words used size }
{
    used <= 4294967295 && words * used <= size
}

// How many labels a function may have.
pub fn labels_for(ws: &[u32]) -> usize
    ensures { result ≡ labels_for ws.now }
{
    let blocks = input::head_field(ws, 4) as usize;
    let edges = input::head_field(ws, 6) as usize;
    let pads = blocks * edges;
    2 * blocks + pads.min(32767)
}

// The program's last op, 0 where there is none.
fn last_op(ops: &[u64], used: usize) -> u64
    ensures { result ≡ last_of ops.now used }
{
    if used == 0 {
        0
    } else {
        base::get_or(ops, used - 1, 0)
    }
}

// How many ops there is room for.
fn op_room(ops: &[u64], spans: &[u32]) -> usize
    ensures { result ≡ op_room ops.now spans.now }
{
    lists::room(1, ops.len()).min(lists::room(1, spans.len()))
}

// A pen behind the program's ops.
pub fn pen_at(ws: &[u32], ops: &[u64], spans: &[u32], used: usize) -> Pen
    ensures { result ≡ pen_at ws.now ops.now spans.now used }
{
    Pen {
        at: used,
        room: op_room(ops, spans),
        full: false,
        last: last_op(ops, used),
        span: input::head_field(ws, 1),
    }
}

// The used lengths with another number of ops.
pub fn with_ops(u: Used, ops: usize) -> Used
    ensures { result ≡ record { ops = ops; globals = u.globals; builtins = u.builtins; switches = u.switches; targets = u.targets; lookups = u.lookups; values = u.values } }
{
    Used { ops, ..u }
}
