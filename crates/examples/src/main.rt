// Prints document 01's examples as the code answers them. proofs/Examples.antt proves those marked * there, about the definitions.
#![tactic(auto)]

ghost use Rattle.std.specs.Prelude.{◌≤◌, length};

use moves_entry::Columns;
use op::Op;
use opnames::Stream;
use refusal::Refusal;
use std::fmt;
use std::fmt::Write;

// A register by its name on a machine with 32 registers.
#[derive(Clone, Copy)]
struct Register(u8);

impl fmt::Display for Register {
    fn fmt<W: fmt::Write>(&self, f: &mut fmt::Formatter<W>) -> fmt::Result {
        match self.0 {
            31 => write!(f, "SCRATCH"),
            30 => write!(f, "TMP"),
            r => write!(f, "g{r}"),
        }
    }
}

// A move's op.
#[derive(Clone, Copy)]
struct Shown(Op);

impl fmt::Display for Shown {
    fn fmt<W: fmt::Write>(&self, f: &mut fmt::Formatter<W>) -> fmt::Result {
        let o = self.0;
        let a = Register(o.a);
        match o.code {
            2 => write!(f, "mov {a} {}", Register(o.b)),
            25 => write!(f, "load {a} s{}", o.w),
            24 => write!(f, "store s{} {a}", o.w),
            _ => write!(f, "?"),
        }
    }
}

// The ops with a semicolon between.
fn show_all(ops: &[u64]) -> fmt::Result {
    for (i, word) in ops.iter().enumerate() {
        let between = if i == 0 { "" } else { ";" };
        write!(Stream::Output, "{between} {}", Shown(op::unpack(*word)))?;
    }
    writeln!(Stream::Output)
}

fn refused(why: Refusal) -> fmt::Result {
    writeln!(Stream::Output, " refused with {}", why.number())
}

fn example(name: &str, moves: &[(u32, u32)]) -> fmt::Result
    requires { length moves.now ≤ 190 }
{
    write!(Stream::Output, "{name}:")?;
    let mut ops = [0u64; 16];
    let mut spans = [0u32; 16];
    match moves_entry::emit_columns(&mut ops, &mut spans, 0, 0, columns(moves)) {
        Ok(n) => show_all(&ops[..n.min(16)]),
        Err(why) => refused(why),
    }
}

// Columns of these moves, each from a place to a place.
fn columns(moves: &[(u32, u32)]) -> Columns
    requires { length moves.now ≤ 190 }
{
    let mut c = Columns {
        src: [0u32; 190],
        dst: [0u32; 190],
        count: moves.len(),
    };
    for (i, (src, dst)) in moves.iter().enumerate() {
        c.src[i] = *src;
        c.dst[i] = *dst;
    }
    c
}

fn all_examples() -> fmt::Result {
    example("1. g0>g1, g1>g0, s2>g5", &[(0, 1), (1, 0), (258, 5)])?;
    example("2. g0>g4, g1>g5, g2>g6", &[(0, 4), (1, 5), (2, 6)])?;
    example("3. s0>s1, s1>s0", &[(256, 257), (257, 256)])?;
    example("Trap: g0>g1, g1>g1", &[(0, 1), (1, 1)])?;
    example("Trap: g5>g0, g0>g1, g1>g0", &[(5, 0), (0, 1), (1, 0)])
}

// A stream's writes are always done.
fn main() {
    let _ = all_examples();
}
