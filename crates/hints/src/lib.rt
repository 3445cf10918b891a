// Hints along the edges of a terminator.
#![tactic(auto)]

ghost use Rattle.std.specs.Prelude.{◌≡◌, true, List, ℕ, ◌+◌, ◌<◌};
ghost use Rattle.alloc.specs.declared.Alloc.{Alloc};
ghost use Rattle.input.specs.Layout.{blocks};
ghost use Rattle.input.specs.Records.{is_live, edge_target, arguments_of, params_of};
ghost use Rattle.rows.specs.Rows.{term};
ghost use Rattle.assign.specs.Steps.{hints, edge_hints, edges_hints, row_steps};
ghost use Rattle.assign.specs.Walk.{walk, hint_step, run};
ghost use Rattle.assign.specs.Fits.{Fits};

// The argument's register, if it has one, becomes the parameter's hint.
#[tactic(auto, unfolding(assign::specs::Walk::hint_step))]
fn hint_one(map: &[u32], wish: &mut [u32], a: u32, p: u32)
    ensures { (s : Alloc) (n : List ℕ) → walk s map.now wish.new n ≡ hint_step a p (walk s map.now wish.old n) }
{
    let w = base::get_or(map, a as usize, 0);
    if w != 0 && w <= 256 {
        base::set(wish, p as usize, w);
    }
}

// The arguments of an edge for the parameters of its target.
fn hint_list(ws: &[u32], map: &[u32], wish: &mut [u32], e: u32)
    ensures { (s : Alloc) (pool k : List ℕ) → walk s map.now wish.new k ≡ run ws.now pool (hints (arguments_of ws.now e) (params_of ws.now (edge_target ws.now e))) (walk s map.now wish.old k) }
{
    let t = input::edge_field(ws, e, 0);
    let a = input::edge_field(ws, e, 1);
    let n = input::edge_field(ws, e, 2);
    let p = input::block_field(ws, t, 2);
    let m = input::block_field(ws, t, 3);
    for j in 0..n.min(m) {
        hint_one(
            map,
            wish,
            input::pool_at(ws, a, j),
            input::pool_at(ws, p, j),
        );
    }
}

// The hints of one edge of block b.
fn edge_hints(ws: &[u32], map: &[u32], wish: &mut [u32], b: u32, e: u32)
    ensures { (s : Alloc) (pool k : List ℕ) → walk s map.now wish.new k ≡ run ws.now pool (edge_hints ws.now b e) (walk s map.now wish.old k) }
{
    if input::edge_field(ws, e, 0) > b {
        hint_list(ws, map, wish, e);
    }
}

// The hints of n edges of block b, from edge `first` on.
fn edges_hints(ws: &[u32], map: &[u32], wish: &mut [u32], b: u32, first: u32, n: u32)
    requires { first + n < 4294967296 }
    ensures { (s : Alloc) (pool k : List ℕ) → walk s map.now wish.new k ≡ run ws.now pool (edges_hints ws.now b first n) (walk s map.now wish.old k) }
{
    for j in 0..n {
        edge_hints(ws, map, wish, b, first + j);
    }
}

// The row of a block's terminator.
pub fn block_edges(ws: &[u32], map: &[u32], wish: &mut [u32], b: u32)
    requires b_bound { (b < blocks ws.now) × (is_live ws.now b ≡ true) }
    requires fits { Fits ws.now }
    ensures { (s : Alloc) (pool k : List ℕ) (r : ℕ) → walk s map.now wish.new k ≡ run ws.now pool (row_steps ws.now r (term b)) (walk s map.now wish.old k) }
{
    let first = input::block_field(ws, b, 10);
    let n = input::block_field(ws, b, 11);
    edges_hints(ws, map, wish, b, first, n);
}
