// The names of the ops and of their fields, and the stream that a text is written to.
#![tactic(auto)]

use std::fmt;

// Each op and its fields a, b, c and w by name, in the order of the opcodes.
static NAMES: [[&str; 5]; 61] = [
    ["Nop", "", "", "", ""],
    ["Halt", "", "", "", ""],
    ["Mov", "dst", "src", "", ""],
    ["LoadI", "dst", "", "", "value"],
    ["LoadG", "dst", "", "", "idx"],
    ["Jmp", "", "", "", "target"],
    ["JmpT", "cond", "", "", "target"],
    ["JmpF", "cond", "", "", "target"],
    [
        "JmpEqI",
        "lhs",
        "target, low byte",
        "target, high byte",
        "imm",
    ],
    [
        "JmpNeI",
        "lhs",
        "target, low byte",
        "target, high byte",
        "imm",
    ],
    ["JmpSEq", "lhs", "rhs", "", "target"],
    ["JmpSNe", "lhs", "rhs", "", "target"],
    ["Switch", "subject", "", "", "table"],
    ["Lookup", "dst", "subject", "", "table"],
    ["Tail", "", "", "", "func"],
    ["Call", "", "", "", "func"],
    ["Sys", "argc", "", "", "idx"],
    ["Native", "returns_double", "", "", "idx"],
    ["Push", "src", "", "", ""],
    ["Push2", "a", "b", "", ""],
    ["Push3", "a", "b", "c", ""],
    ["Pop", "dst", "", "", ""],
    ["Pop2", "a", "b", "", ""],
    ["Pop3", "a", "b", "c", ""],
    ["StoreSlot", "src", "", "", "slot"],
    ["LoadSlot", "dst", "", "", "slot"],
    ["CastToInt", "dst", "src", "", ""],
    ["CastToDouble", "dst", "src", "", ""],
    ["CastToBool", "dst", "src", "", ""],
    ["Alloc", "dst", "kind", "align", "size"],
    ["Store", "base", "src", "", "offset"],
    ["Load", "dst", "base", "", "offset"],
    ["AddrOf", "dst", "base", "", "offset"],
    ["Ret", "", "", "", ""],
    ["Assert", "cond", "", "", ""],
    ["IAdd", "dst", "lhs", "rhs", ""],
    ["ISub", "dst", "lhs", "rhs", ""],
    ["IMul", "dst", "lhs", "rhs", ""],
    ["IDiv", "dst", "lhs", "rhs", ""],
    ["IMod", "dst", "lhs", "rhs", ""],
    ["IAnd", "dst", "lhs", "rhs", ""],
    ["ILt", "dst", "lhs", "rhs", ""],
    ["IGt", "dst", "lhs", "rhs", ""],
    ["IEq", "dst", "lhs", "rhs", ""],
    ["DAdd", "dst", "lhs", "rhs", ""],
    ["DSub", "dst", "lhs", "rhs", ""],
    ["DMul", "dst", "lhs", "rhs", ""],
    ["DDiv", "dst", "lhs", "rhs", ""],
    ["DLt", "dst", "lhs", "rhs", ""],
    ["DGt", "dst", "lhs", "rhs", ""],
    ["BEq", "dst", "lhs", "rhs", ""],
    ["SEq", "dst", "lhs", "rhs", ""],
    ["IAddI", "dst", "lhs", "", "imm"],
    ["ISubI", "dst", "lhs", "", "imm"],
    ["IMulI", "dst", "lhs", "", "imm"],
    ["IDivI", "dst", "lhs", "", "imm"],
    ["IModI", "dst", "lhs", "", "imm"],
    ["IAndI", "dst", "lhs", "", "imm"],
    ["IEqI", "dst", "lhs", "", "imm"],
    ["IGtI", "dst", "lhs", "", "imm"],
    ["ILtI", "dst", "lhs", "", "imm"],
];

// A name of an op: column 0 is its own, 1 to 4 are those of a, b, c and w. What is no op or no column has an empty one.
pub fn name_of_op(code: u8, column: u8) -> &'static str {
    NAMES
        .get(code as usize)
        .and_then(|names| names.get(column as usize))
        .copied()
        .unwrap_or("")
}

// The standard streams by their numbers. A write that fails is passed over.
#[derive(Clone, Copy)]
pub enum Stream {
    Output = 1,
    Error = 2,
}

impl fmt::Write for Stream {
    fn write_str(&mut self, s: &str) -> fmt::Result {
        io::write_all(*self as i32, s.as_bytes());
        Ok(())
    }
}
