// What a program is made of, as words of lent buffers.
#![tactic(auto)]

ghost use Rattle.std.specs.Prelude.{◌≡◌, ◌<◌};
ghost use Rattle.program.specs.Functions.{function_kind, function_number, function_at, bytecode};

// What the function of a table word is: 0 not there, 1 bytecode, 2 native, 3 native that returns a double.
pub fn kind_of(f: u64) -> u64
    ensures { result ≡ function_kind f }
{
    f % 4
}

// Where it is: the pc of bytecode, the builtin number of native code.
pub fn number_of(f: u64) -> u64
    ensures { result ≡ function_number f }
{
    f / 4
}

// The table word of bytecode that starts at pc.
pub fn bytecode_at(pc: u32) -> u64
    ensures { result ≡ function_at bytecode pc }
{
    1 + 4 * (pc as u64)
}
