// What a listing says of an op, a constant, an entry of the function table and a place.
use op::Op;
use opnames::name_of_op;
use refusal::Refusal;
use std::fmt;

// An Int is shown as a number, a Double by its bits, a Str by its number.
#[derive(Clone, Copy)]
pub struct Constant {
    pub kind: u64,
    pub payload: u64,
}

impl fmt::Display for Constant {
    fn fmt<W: fmt::Write>(&self, f: &mut fmt::Formatter<W>) -> fmt::Result {
        let payload = self.payload;
        match self.kind {
            0 => write!(f, "Undefined"),
            1 => write!(f, "False"),
            2 => write!(f, "True"),
            3 => write!(f, "Int {}", payload.cast_signed()),
            4 => write!(f, "Double {payload:016x}"),
            5 => write!(f, "Str {payload}"),
            _ => Ok(()),
        }
    }
}

// An op by name, with the fields that it uses.
#[derive(Clone, Copy)]
pub struct Mnemonic(pub Op);

impl fmt::Display for Mnemonic {
    fn fmt<W: fmt::Write>(&self, f: &mut fmt::Formatter<W>) -> fmt::Result {
        let o = self.0;
        let fields = op::fields(o.code);
        f.write_str(name_of_op(o.code, 0))?;
        byte_field(f, fields % 2, o.a)?;
        if op::in_bytes(o.code) {
            return write!(f, " {} -> {}", o.w.cast_signed(), op::target_of(o));
        }
        byte_field(f, fields / 2 % 2, o.b)?;
        byte_field(f, fields / 4 % 2, o.c)?;
        if fields / 8 % 2 != 0 {
            last_field(f, o)?;
        }
        Ok(())
    }
}

// A byte of an op, if it uses it.
fn byte_field<W: fmt::Write>(f: &mut fmt::Formatter<W>, bit: u8, x: u8) -> fmt::Result {
    if bit == 0 { Ok(()) } else { write!(f, " {x}") }
}

// An op's w: a jump's target, a number in two's complement, or a number with its name.
fn last_field<W: fmt::Write>(f: &mut fmt::Formatter<W>, o: Op) -> fmt::Result {
    let w = o.w;
    match o.code {
        5 => write!(f, " {w}"),
        6 | 7 | 10 | 11 => write!(f, " -> {w}"),
        3 | 52..=60 => write!(f, " {}", w.cast_signed()),
        code => write!(f, " {} {w}", name_of_op(code, 4)),
    }
}

// What a word of the function table stands for.
#[derive(Clone, Copy)]
pub struct Entry(pub u64);

impl fmt::Display for Entry {
    fn fmt<W: fmt::Write>(&self, f: &mut fmt::Formatter<W>) -> fmt::Result {
        let number = program::number_of(self.0);
        match program::kind_of(self.0) {
            1 => write!(f, "bytecode from pc {number}"),
            2 => write!(f, "native {number}"),
            _ => write!(f, "native, returns a double: {number}"),
        }
    }
}

// A word of a map: 0 is no place, then come the registers, the slots and the floating registers.
#[derive(Clone, Copy)]
pub struct Word(pub u32);

impl fmt::Display for Word {
    fn fmt<W: fmt::Write>(&self, f: &mut fmt::Formatter<W>) -> fmt::Result {
        match self.0 {
            0 => write!(f, "no place"),
            word @ 1..=256 => write!(f, "r{}", word - 1),
            word @ 257..=65792 => write!(f, "slot {}", word - 257),
            word => write!(f, "f{}", word - 65793),
        }
    }
}

// Document 01's number of an answer, and its name.
#[derive(Clone, Copy)]
pub struct Verdict(pub Result<(), Refusal>);

impl fmt::Display for Verdict {
    fn fmt<W: fmt::Write>(&self, f: &mut fmt::Formatter<W>) -> fmt::Result {
        match self.0 {
            Ok(()) => write!(f, "0 Fit"),
            Err(why) => write!(f, "{} {why}", why.number()),
        }
    }
}
