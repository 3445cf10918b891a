// Prints the page docs/OPS.md. Which fields an op uses is op's proved table; the names are opnames'.
#![tactic(auto)]

use opnames::{Stream, name_of_op};
use std::fmt;
use std::fmt::Write;

// A used field without a name shows as `?`, and an unused one with a name as `!` and the name.
fn cell(used: bool, name: &str) -> fmt::Result {
    match (used, name) {
        (false, "") => write!(Stream::Output, " | -"),
        (false, _) => write!(Stream::Output, " | !{name}"),
        (true, "") => write!(Stream::Output, " | ?"),
        (true, _) => write!(Stream::Output, " | {name}"),
    }
}

// The row of an opcode, the op's own name first.
fn row(code: u8) -> fmt::Result {
    write!(Stream::Output, "| {code}")?;
    cell(true, name_of_op(code, 0))?;
    let mut fields = op::fields(code);
    for column in 1..5 {
        cell(fields % 2 == 1, name_of_op(code, column))?;
        fields /= 2;
    }
    writeln!(Stream::Output, " |")
}

fn worked(name: &str, word: u64) -> fmt::Result {
    writeln!(Stream::Output, "| {name} | 0x{word:016x} |")
}

fn intro() -> fmt::Result {
    Stream::Output.write_str(
        "# Ops\n\n\
        An op is one word, a u64: the opcode byte, then bytes a, b and c, then a 32-bit w, least byte first. \
        Unused fields are zero.\n\
        Opcodes 35 to 51 are ir's BinOps in its order. The order of 2 to 34 is that of the source's op list.\n\
        A Switch and a Lookup have their table's number in w. Their kind is Int and is not stored.\n\n\
        | Opcode | Op | a | b | c | w |\n|---|---|---|---|---|---|\n",
    )
}

fn example() -> fmt::Result {
    Stream::Output.write_str(
        "\nA function that returns the sum of its two parameters is these words:\n\n\
        | Op | Word |\n|---|---|\n",
    )?;
    worked("IAdd 0 0 1", op::bin(0, 0, 0, 1))?;
    worked("Mov 0 0", op::mov(0, 0))?;
    worked("Ret", op::ret())
}

fn page() -> fmt::Result {
    intro()?;
    for code in 0..61 {
        row(code)?;
    }
    example()
}

// A stream's writes are always done.
fn main() {
    let _ = page();
}
