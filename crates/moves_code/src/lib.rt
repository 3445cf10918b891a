// Parallel moves: the emitter over two columns of place numbers.
#![tactic(auto)]

ghost use Rattle.std.specs.Prelude.{◌≡◌, List, ℕ, ◌+◌, ◌≤◌, ◌<◌, map, length, take};
ghost use Rattle.base.specs.Emission.{emit_all};
ghost use Rattle.base.specs.Lent.{Lowers};
ghost use Rattle.place.specs.Registers.{registers, tmp_of};
ghost use Rattle.op.specs.Words.{word};
ghost use Rattle.moves.specs.Moves.{move_ops, first_ready, park, move_words};

use base::Pen;

// The first move whose destination is no remaining source; how many there are where there is none.
fn first_ready(src: &[u32], dst: &[u32]) -> usize
    ensures { result ≡ first_ready src.now dst.now }
{
    dst.iter()
        .position(|d| !src.contains(d))
        .unwrap_or(dst.len())
}

// Each source that is x is read at sc instead.
fn park_all(src: &mut [u32], x: u32, sc: u32)
    ensures { src.new ≡ park x sc src.old }
{
    for s in src {
        if *s == x {
            *s = sc;
        }
    }
}

// The ops of one move.
fn put_move(ops: &mut [u64], spans: &mut [u32], p: Pen, s: u32, d: u32) -> Pen
    ensures { (l : List ℕ) → Lowers (emit_all (map word (move_ops (tmp_of registers) s d))) ops.old spans.old l p ops.new spans.new l result }
{
    if s < 256 {
        if d < 256 {
            base::put(ops, spans, p, op::mov(d as u8, s as u8))
        } else {
            base::put(ops, spans, p, op::store_slot(d - 256, s as u8))
        }
    } else if d < 256 {
        base::put(ops, spans, p, op::load_slot(d as u8, s - 256))
    } else {
        let tmp = place::tmp();
        let q = base::put(ops, spans, p, op::load_slot(tmp, s - 256));
        base::put(ops, spans, q, op::store_slot(d - 256, tmp))
    }
}

// The ops of the first n moves of the two columns, made as if all at once. The columns are used up.
pub fn put_moves(
    ops: &mut [u64],
    spans: &mut [u32],
    p: Pen,
    src: &mut [u32],
    dst: &mut [u32],
    n: usize,
) -> Pen
    requires { (n ≤ length src.old) × (n ≤ length dst.old) × (n ≤ 190) }
    ensures { (l : List ℕ) → Lowers (emit_all (move_words registers (take n src.old) (take n dst.old))) ops.old spans.old l p ops.new spans.new l result }
{
    let scratch = place::scratch() as u32;
    let mut q = p;
    let mut left = n;
    for _turn in 0..n + n {
        if left == 0 {
            return q;
        }
        let i = first_ready(&src[..left], &dst[..left]);
        if i < left {
            q = put_move(ops, spans, q, src[i], dst[i]);
            left -= 1;
            src[i] = src[left];
            dst[i] = dst[left];
        } else {
            let parked = src[0];
            q = put_move(ops, spans, q, parked, scratch);
            park_all(&mut src[..left], parked, scratch);
        }
    }
    q
}
