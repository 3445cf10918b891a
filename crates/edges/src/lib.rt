// Edges and branches: the moves of an edge, its Jmp, and the labels of those that don't fall through.
#![tactic(auto)]

ghost use Rattle.std.specs.Prelude.{◌≡◌, List, [], ◌∷◌, ◌++◌, ℕ, ◌+◌, ◌≤◌, ◌<◌, ltb, eqb, length, take};
ghost use Rattle.base.specs.Choice.{pick};
ghost use Rattle.base.specs.Lent.{Lowers};
ghost use Rattle.place.specs.Registers.{registers};
ghost use Rattle.input.specs.Layout.{list_at};
ghost use Rattle.input.specs.Records.{param_count, edge_target};
ghost use Rattle.fit.specs.Intervals.{unread};
ghost use Rattle.edges.specs.Pairs.{differing_sources, differing_destinations};
ghost use Rattle.edges.specs.Edges.{read_sources, read_destinations, edge_sources, edge_destinations, has_moves, edge, jump_at, branch, pad_count, pads, nowhere, switch_edges};

use base::Pen;
use op::Op;

// A function's words, and the places of its values.
#[derive(Clone, Copy)]
pub struct Values<'a> {
    pub ws: &'a [u32],
    pub map: &'a [u32],
}

// Parameters of a block, and so moves of an edge.
const MOST_MOVES: usize = 190;

// One pair more behind the first m of two columns, unless its places are equal; how many there are then.
pub fn add_pair(src: &mut [u32], dst: &mut [u32], m: usize, s: u32, d: u32) -> usize
    requires { (m < length src.old) × (m < length dst.old) }
    ensures { (result ≤ m + 1) × (take result src.new ≡ take m src.old ++ differing_sources (s ∷ []) (d ∷ [])) × (take result dst.new ≡ take m dst.old ++ differing_destinations (s ∷ []) (d ∷ [])) }
{
    if s == d {
        return m;
    }
    src[m] = s;
    dst[m] = d;
    m + 1
}

// Is a parameter never read?
fn is_unread(ws: &[u32], p: u32) -> bool
    ensures { result ≡ unread ws.now p }
{
    input::value_field(ws, p, 0) == input::value_field(ws, p, 1)
}

// The pair of an argument and a parameter behind the first m of two columns, unless it needs no move.
fn add_argument(vs: Values, src: &mut [u32], dst: &mut [u32], m: usize, a: u32, p: u32) -> usize
    requires { (m < length src.old) × (m < length dst.old) }
    ensures { (result ≤ m + 1) × (take result src.new ≡ take m src.old ++ differing_sources (read_sources vs.entry.ws.now vs.entry.map.now (a ∷ []) (p ∷ [])) (read_destinations vs.entry.ws.now vs.entry.map.now (a ∷ []) (p ∷ []))) × (take result dst.new ≡ take m dst.old ++ differing_destinations (read_sources vs.entry.ws.now vs.entry.map.now (a ∷ []) (p ∷ [])) (read_destinations vs.entry.ws.now vs.entry.map.now (a ∷ []) (p ∷ []))) }
{
    if is_unread(vs.ws, p) {
        return m;
    }
    let s = lower::place_at(vs.map, a);
    let d = lower::place_at(vs.map, p);
    add_pair(src, dst, m, s, d)
}

// The moves of n arguments from `at` on for as many parameters from `to` on, at the front of two columns; how many they are.
fn gather(vs: Values, src: &mut [u32], dst: &mut [u32], at: u32, to: u32, n: u32) -> usize
    requires { (n ≤ length src.old) × (n ≤ length dst.old) }
    ensures { (result ≤ n) × (take result src.new ≡ differing_sources (read_sources vs.entry.ws.now vs.entry.map.now (list_at vs.entry.ws.now at n) (list_at vs.entry.ws.now to n)) (read_destinations vs.entry.ws.now vs.entry.map.now (list_at vs.entry.ws.now at n) (list_at vs.entry.ws.now to n))) × (take result dst.new ≡ differing_destinations (read_sources vs.entry.ws.now vs.entry.map.now (list_at vs.entry.ws.now at n) (list_at vs.entry.ws.now to n)) (read_destinations vs.entry.ws.now vs.entry.map.now (list_at vs.entry.ws.now at n) (list_at vs.entry.ws.now to n))) }
{
    let mut m = 0;
    for j in 0..n {
        let a = input::pool_at(vs.ws, at, j);
        let p = input::pool_at(vs.ws, to, j);
        m = add_argument(vs, src, dst, m, a, p);
    }
    m
}

// The moves of an edge, at the front of two columns; how many they are.
fn gather_edge(vs: Values, e: u32, src: &mut [u32], dst: &mut [u32]) -> usize
    requires { (length src.old ≡ 190) × (length dst.old ≡ 190) × (param_count vs.ws.now (edge_target vs.ws.now e) ≤ 190) }
    ensures { (result ≤ 190) × (take result src.new ≡ differing_sources (edge_sources vs.entry.ws.now vs.entry.map.now e) (edge_destinations vs.entry.ws.now vs.entry.map.now e)) × (take result dst.new ≡ differing_destinations (edge_sources vs.entry.ws.now vs.entry.map.now e) (edge_destinations vs.entry.ws.now vs.entry.map.now e)) }
{
    let target = input::edge_field(vs.ws, e, 0);
    let at = input::edge_field(vs.ws, e, 1);
    let to = input::block_field(vs.ws, target, 2);
    let arguments = input::edge_field(vs.ws, e, 2);
    let parameters = input::block_field(vs.ws, target, 3);
    gather(vs, src, dst, at, to, arguments.min(parameters))
}

// Does an argument need a move to its parameter?
fn is_moved(vs: Values, a: u32, p: u32) -> bool
    ensures { result ≡ ltb 0 (length (differing_sources (read_sources vs.entry.ws.now vs.entry.map.now (a ∷ []) (p ∷ [])) (read_destinations vs.entry.ws.now vs.entry.map.now (a ∷ []) (p ∷ [])))) }
{
    !is_unread(vs.ws, p) && lower::place_at(vs.map, a) != lower::place_at(vs.map, p)
}

// Does one of n arguments from `at` on for as many parameters from `to` on?
fn any_moved(vs: Values, at: u32, to: u32, n: u32) -> bool
    ensures { result ≡ ltb 0 (length (differing_sources (read_sources vs.entry.ws.now vs.entry.map.now (list_at vs.entry.ws.now at n) (list_at vs.entry.ws.now to n)) (read_destinations vs.entry.ws.now vs.entry.map.now (list_at vs.entry.ws.now at n) (list_at vs.entry.ws.now to n)))) }
{
    for j in 0..n {
        let a = input::pool_at(vs.ws, at, j);
        let p = input::pool_at(vs.ws, to, j);
        if is_moved(vs, a, p) {
            return true;
        }
    }
    false
}

// Does an edge have moves?
pub fn has_moves(vs: Values, e: u32) -> bool
    ensures { result ≡ has_moves vs.entry.ws.now vs.entry.map.now e }
{
    let target = input::edge_field(vs.ws, e, 0);
    let at = input::edge_field(vs.ws, e, 1);
    let to = input::block_field(vs.ws, target, 2);
    let arguments = input::edge_field(vs.ws, e, 2);
    let parameters = input::block_field(vs.ws, target, 3);
    any_moved(vs, at, to, arguments.min(parameters))
}

// The moves of an edge, then Jmp, which is dropped when the target is the next live block.
pub fn put_edge(ops: &mut [u64], spans: &mut [u32], p: Pen, vs: Values, next: u32, e: u32) -> Pen
    requires { param_count vs.ws.now (edge_target vs.ws.now e) ≤ 190 }
    ensures { (l : List ℕ) → Lowers (edge registers vs.entry.ws.now vs.entry.map.now next e) ops.old spans.old l p ops.new spans.new l result }
{
    let mut src = [0; MOST_MOVES];
    let mut dst = [0; MOST_MOVES];
    let n = gather_edge(vs, e, &mut src, &mut dst);
    let q = moves_code::put_moves(ops, spans, p, &mut src, &mut dst, n);
    let target = input::edge_field(vs.ws, e, 0);
    if target == next {
        return q;
    }
    base::put(ops, spans, q, op::jmp(target))
}

// A jump, given without its target, to a label.
fn jump_at(jump: Op, label: u32) -> u64
    ensures { result ≡ jump_at jump label }
{
    op::pack(op::aimed(jump, label))
}

// A branch, with the edges no at e and yes behind it: a jump to the no block, then the yes edge; or to a label where the no edge has moves.
pub fn put_branch(
    ops: &mut [u64],
    spans: &mut [u32],
    labels: &mut [u64],
    p: Pen,
    vs: Values,
    jump: Op,
    label: u32,
    next: u32,
    e: u32,
) -> Pen
    requires { (param_count vs.ws.now (edge_target vs.ws.now e) ≤ 190) × (param_count vs.ws.now (edge_target vs.ws.now (e + 1)) ≤ 190) × (e + 1 < 4294967296) }
    ensures { Lowers (branch registers vs.entry.ws.now vs.entry.map.now jump label next e) ops.old spans.old labels.old p ops.new spans.new labels.new result }
{
    if has_moves(vs, e) {
        let jumped = base::put(ops, spans, p, jump_at(jump, label));
        let nowhere = input::head_field(vs.ws, 4);
        let q = put_edge(ops, spans, jumped, vs, nowhere, e + 1);
        base::bind_label(labels, label as usize, q);
        put_edge(ops, spans, q, vs, next, e)
    } else {
        let no = input::edge_field(vs.ws, e, 0);
        let jumped = base::put(ops, spans, p, jump_at(jump, no));
        put_edge(ops, spans, jumped, vs, next, e + 1)
    }
}

// How many of k edges from e on have moves: each is a case that gets a pad.
pub fn pad_count(vs: Values, e: u32, k: u32) -> u32
    requires { e + k < 4294967296 }
    ensures { result ≡ pad_count vs.entry.ws.now vs.entry.map.now e k }
{
    let mut count = 0;
    for i in 0..k {
        if has_moves(vs, e + i) {
            count += 1;
        }
    }
    count
}

// The pads of k cases, the edges from e on, with labels from `label` on.
fn put_pads(
    ops: &mut [u64],
    spans: &mut [u32],
    labels: &mut [u64],
    p: Pen,
    vs: Values,
    label: u32,
    e: u32,
    k: u32,
) -> Pen
    requires { (e + k < 4294967296) × (label + k < 4294967296) × ((i : ℕ) → i < k → param_count vs.ws.now (edge_target vs.ws.now (e + i)) ≤ 190) }
    ensures { Lowers (pads registers vs.entry.ws.now vs.entry.map.now label e k) ops.old spans.old labels.old p ops.new spans.new labels.new result }
{
    let nowhere = input::head_field(vs.ws, 4);
    let mut q = p;
    let mut pad = label;
    for i in 0..k {
        if has_moves(vs, e + i) {
            base::bind_label(labels, pad as usize, q);
            q = put_edge(ops, spans, q, vs, nowhere, e + i);
            pad += 1;
        }
    }
    q
}

// The next block for the default edge: none where pads follow it.
fn next_block(vs: Values, next: u32, e: u32, cases: u32) -> u32
    requires { e + cases < 4294967296 }
    ensures { result ≡ pick (eqb (pad_count vs.entry.ws.now vs.entry.map.now e cases) 0) next (nowhere vs.entry.ws.now) }
{
    if pad_count(vs, e, cases) == 0 {
        next
    } else {
        input::head_field(vs.ws, 4)
    }
}

// The edges of a Switch: the default edge, behind those of the cases, then the pads.
pub fn put_switch_edges(
    ops: &mut [u64],
    spans: &mut [u32],
    labels: &mut [u64],
    p: Pen,
    vs: Values,
    label: u32,
    next: u32,
    e: u32,
    cases: u32,
) -> Pen
    requires { (e + cases < 4294967296) × (label + cases < 4294967296) × ((i : ℕ) → i ≤ cases → param_count vs.ws.now (edge_target vs.ws.now (e + i)) ≤ 190) }
    ensures { Lowers (switch_edges registers vs.entry.ws.now vs.entry.map.now label next e cases) ops.old spans.old labels.old p ops.new spans.new labels.new result }
{
    let after = next_block(vs, next, e, cases);
    let q = put_edge(ops, spans, p, vs, after, e + cases);
    put_pads(ops, spans, labels, q, vs, label, e, cases)
}
