// The numbers of the kinds, in ir's order.

// Of instructions.
pub mod instr {
    pub const BIN: u32 = 0;

    pub const BIN_IMM: u32 = 1;

    pub const LOAD_CONST: u32 = 2;

    pub const CALL: u32 = 3;

    pub const SYS: u32 = 4;

    pub const CAST: u32 = 5;

    pub const ALLOC: u32 = 6;

    pub const STORE: u32 = 7;

    pub const ASSERT: u32 = 8;

    pub const LOAD: u32 = 9;

    pub const ADDR_OF: u32 = 10;

    pub const LOOKUP: u32 = 11;

    pub const NOOP: u32 = 12;

    pub const COUNT: u32 = 13;
}

// Of terminators: 0 for none.
pub mod term {
    pub const NONE: u32 = 0;

    pub const RETURN: u32 = 1;

    pub const JUMP: u32 = 2;

    pub const BRANCH: u32 = 3;

    pub const BRANCH_CMP_IMM: u32 = 4;

    pub const BRANCH_CMP: u32 = 5;

    pub const TAIL: u32 = 6;

    pub const SWITCH: u32 = 7;

    pub const COUNT: u32 = 8;
}

// Of constants.
pub mod constant {
    pub const UNDEFINED: u32 = 0;

    pub const FALSE: u32 = 1;

    pub const TRUE: u32 = 2;

    pub const INT: u32 = 3;

    pub const DOUBLE: u32 = 4;

    pub const STR: u32 = 5;

    pub const COUNT: u32 = 6;
}
