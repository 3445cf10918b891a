// What the programs that replay test vectors share: the words of a text, and buffers held against them.
// A row of the text has numbers, and lists: where a list starts, how many entries it has, and, for what a buffer should hold, the entry that stands
// everywhere behind them.
#![tactic(auto)]

ghost use Rattle.std.specs.Prelude.{◌≡◌, ◌<◌, ◌≤◌, ◌+◌, Bool, List, ℕ, length, get_or, eqb};
ghost use Rattle.std.proofs.lemmas.List.Edits.{sets};
ghost use Rattle.base.specs.Choice.{pick};
ghost use Rattle.replay.specs.Words.{word_at, wide_at, word_in, wide_in, entries, alike_by, listed, list_by, entry_by};

// The numbers of standard input and output.
const STDIN_FILENO: i32 = 0;

const STDOUT_FILENO: i32 = 1;

fn byte(bytes: &[u8], at: usize) -> u32
    requires { at < length bytes.now }
    ensures { (result ≡ get_or bytes.now at 0) × (result < 256) }
{
    bytes[at] as u32
}

// Word i of a file, least byte first; 0 where the file does not have the whole of it.
pub fn word(bytes: &[u8], i: usize) -> u32
    ensures { result ≡ word_at bytes.now i }
{
    if bytes.len() / 4 <= i {
        return 0;
    }
    let at = 4 * i;
    let low = byte(bytes, at) + 256 * byte(bytes, at + 1);
    let high = byte(bytes, at + 2) + 256 * byte(bytes, at + 3);
    low + 65536 * high
}

// Words i and i + 1 as one number, low half first.
pub fn wide(bytes: &[u8], i: usize) -> u64
    ensures { result ≡ wide_at bytes.now i }
{
    if bytes.len() / 4 <= i {
        return 0;
    }
    let low = word(bytes, i) as u64;
    let high = word(bytes, i + 1) as u64;
    low + 4294967296 * high
}

// Entry i of a list that starts at word `at`: a word, or two as one number.
pub fn word_in(bytes: &[u8], at: usize, i: usize) -> u32
    ensures { result ≡ word_in bytes.now at i }
{
    let words = bytes.len() / 4;
    if words <= at {
        return 0;
    }
    if words <= i {
        return 0;
    }
    word(bytes, at + i)
}

pub fn wide_in(bytes: &[u8], at: usize, i: usize) -> u64
    ensures { result ≡ wide_in bytes.now at i }
{
    let words = bytes.len() / 4;
    if words <= at {
        return 0;
    }
    if words <= i {
        return 0;
    }
    wide(bytes, at + 2 * i)
}

// An entry of a list: a word, or two words as one number, low half first.
pub trait Entry: Copy {
    ghost read: { List ℕ → ℕ → ℕ → Self };

    ghost of: { ℕ → Self };

    ghost same: { Self → Self → Bool };

    // Entry i of a list that starts at word `at`.
    fn read(bytes: &[u8], at: usize, i: usize) -> Self
        ensures { result ≡ read bytes.now at i };

    fn of(word: u32) -> Self
        ensures { result ≡ of word };

    fn same(self, other: Self) -> bool
        ensures { result ≡ same self other };
}

impl Entry for u32 {
    ghost read = { word_in };

    ghost of = { λ word. word };

    ghost same = { eqb };

    fn read(bytes: &[u8], at: usize, i: usize) -> u32 {
        word_in(bytes, at, i)
    }

    fn of(word: u32) -> u32 {
        word
    }

    fn same(self, other: u32) -> bool {
        self == other
    }
}

impl Entry for u64 {
    ghost read = { wide_in };

    ghost of = { λ word. word };

    ghost same = { eqb };

    fn read(bytes: &[u8], at: usize, i: usize) -> u64 {
        wide_in(bytes, at, i)
    }

    fn of(word: u32) -> u64 {
        word as u64
    }

    fn same(self, other: u64) -> bool {
        self == other
    }
}

// The first n entries of a list, as the first of a buffer.
pub fn load<T: Entry>(bytes: &[u8], at: usize, to: &mut [T], n: usize)
    ensures { to.new ≡ sets to.old 0 (entries (T.read bytes.now at) 0 n) }
{
    for i in 0..n {
        base::set(to, i, T::read(bytes, at, i));
    }
}

// What should stand at i of a buffer: the list up to `used`, then the same entry everywhere.
fn want<T: Entry>(bytes: &[u8], at: usize, used: usize, rest: T, i: usize) -> T
    ensures { result ≡ listed (T.read bytes.now at) used rest i }
{
    if i < used {
        T::read(bytes, at, i)
    } else {
        rest
    }
}

// Are the first n of a buffer so?
pub fn right<T: Entry>(bytes: &[u8], at: usize, used: usize, rest: T, a: &[T], n: usize) -> bool
    ensures { result ≡ alike_by T.same (T.of 0) (listed (T.read bytes.now at) used rest) a.now 0 n }
{
    let none = T::of(0);
    for i in 0..n {
        if !base::get_or(a, i, none).same(want(bytes, at, used, rest, i)) {
            return false;
        }
    }
    true
}

// Are the first n of two buffers the same?
pub fn equal<T: Entry>(a: &[T], b: &[T], n: usize) -> bool
    ensures { result ≡ alike_by T.same (T.of 0) (λ i. get_or b.now i (T.of 0)) a.now 0 n }
{
    let none = T::of(0);
    for i in 0..n {
        if !base::get_or(a, i, none).same(base::get_or(b, i, none)) {
            return false;
        }
    }
    true
}

// Are the first n zero?
pub fn zeros<T: Entry>(a: &[T], n: usize) -> bool
    ensures { result ≡ alike_by T.same (T.of 0) (λ i. T.of 0) a.now 0 n }
{
    let none = T::of(0);
    for i in 0..n {
        if !base::get_or(a, i, none).same(none) {
            return false;
        }
    }
    true
}

// The list that a row has at k, as the first of a buffer.
pub fn put<T: Entry>(text: &[u8], row: usize, k: usize, to: &mut [T])
    requires { k ≤ 1000 }
    ensures { to.new ≡ sets to.old 0 (list_by T.read text.now row k) }
{
    let at = word_in(text, row, k) as usize;
    let n = word_in(text, row, k + 1) as usize;
    load(text, at, to, n);
}

// 0 where the first n of a buffer are the list that a row has at k, and behind it the entry that should stand there; else the mark.
pub fn wrong_list<T: Entry>(
    text: &[u8],
    row: usize,
    k: usize,
    a: &[T],
    n: usize,
    mark: usize,
) -> usize
    requires { k ≤ 1000 }
    ensures { result ≡ pick (alike_by T.same (T.of 0) (entry_by T.read T.of text.now row k) a.now 0 n) 0 mark }
{
    let at = word_in(text, row, k) as usize;
    let used = word_in(text, row, k + 1) as usize;
    let rest = T::of(word_in(text, row, k + 2));
    if right(text, at, used, rest, a, n) {
        0
    } else {
        mark
    }
}

// The same for a number.
pub fn wrong(text: &[u8], row: usize, k: usize, x: u64, mark: usize) -> usize
    ensures { result ≡ pick (eqb x (word_in text.now row k)) 0 mark }
{
    if x == word_in(text, row, k) as u64 {
        0
    } else {
        mark
    }
}

// The next bytes of standard input, as many as the buffer has: are they there?
pub fn next_bytes(bytes: &mut [u8]) -> bool {
    io::read_full(STDIN_FILENO, bytes) == bytes.len()
}

// The next word of standard input, 0 past its end.
pub fn next_word() -> u32 {
    let mut bytes = [0u8; 4];
    let n = io::read_full(STDIN_FILENO, &mut bytes);
    word(&bytes[..n], 0)
}

pub fn write(text: &[u8]) {
    io::write_all(STDOUT_FILENO, text);
}

pub fn number(n: usize) {
    io::print_decimal(STDOUT_FILENO, n as u64);
}
