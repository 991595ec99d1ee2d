//! The commands of the bench program: what a line of its input asks for.

#![tactic(auto)]

ghost use Rattle.std.specs.Prelude.{◌≡◌, ◌+◌, ◌*◌, ◌≤◌, ◌<◌, get_or};
ghost use Rattle.commands.specs.Parsing.{digit_value, digit_count, decimal_value, numbered, alone, filled, act_alone, command_of};

// What a line asks for.
#[derive(Clone, Copy)]
pub enum Act {
    // w: fills the page with the byte
    Write { page: u64, byte: u8 },
    // r
    Read { page: u64 },
    // c
    Commit { stripe: u64 },
    // x: the chip is lost from here
    Lose { chip: u64 },
}

#[derive(Clone, Copy)]
pub struct Command {
    // of the number as given: the line's first 2 + digits bytes are letter and number
    pub digits: usize,
    pub act: Act,
}

// The byte at offset i, and 0 past the end.
fn byte_at(s: &[u8], i: usize) -> u8
    ensures { result ≡ get_or s.now i 0 }
{
    if i < s.len() { s[i] } else { 0 }
}

// The value of a digit, and 16 for any other byte.
fn digit_value(b: u8) -> u8
    ensures { result ≡ digit_value b }
{
    if (b'0' <= b) & (b <= b'9') {
        b - b'0'
    } else if (b'a' <= b) & (b <= b'f') {
        b - b'a' + 10
    } else {
        16
    }
}

// How many decimal digits the bytes begin with.
fn digit_count(s: &[u8]) -> usize
    ensures { result ≡ digit_count s.now }
{
    for (i, b) in s.iter().enumerate() {
        if 10 <= digit_value(*b) {
            return i;
        }
    }
    s.len()
}

// The number that the first k digits spell.
fn decimal_value(s: &[u8], k: usize) -> u64
    requires { k ≤ 5 }
    ensures { result ≡ decimal_value s.now k }
{
    let mut n = 0;
    for i in 0..k {
        n = n * 10 + u64::from(digit_value(byte_at(s, i)));
    }
    n
}

// Whether a space and a number of k digits follow the letter.
fn is_numbered(line: &[u8], k: usize) -> bool
    ensures { result ≡ numbered line.now k }
{
    (byte_at(line, 1) == b' ') & (1 <= k) & (k <= 5)
}

// Whether the letter takes a number alone, and nothing follows it.
fn is_alone(line: &[u8], k: usize) -> bool
    requires { k ≤ 5 }
    ensures { result ≡ alone line.now k }
{
    let letter = byte_at(line, 0);
    ((letter == b'r') | (letter == b'c') | (letter == b'x')) & (line.len() == k + 2)
}

// Whether the letter takes a byte too, and a space and two digits follow the number.
fn is_filled(line: &[u8], k: usize) -> bool
    requires { k ≤ 5 }
    ensures { result ≡ filled line.now k }
{
    (byte_at(line, 0) == b'w')
        & (byte_at(line, k + 2) == b' ')
        & (digit_value(byte_at(line, k + 3)) < 16)
        & (digit_value(byte_at(line, k + 4)) < 16)
        & (line.len() == k + 5)
}

// The byte that two hexadecimal digits spell.
fn byte_value(high: u8, low: u8) -> u8
    requires { (digit_value high < 16) × (digit_value low < 16) }
    ensures { result ≡ 16 * digit_value high + digit_value low }
{
    16 * digit_value(high) + digit_value(low)
}

// What a letter asks for that takes a number alone.
fn act_alone(letter: u8, number: u64) -> Act
    ensures { result ≡ act_alone letter number }
{
    match letter {
        b'r' => Act::Read { page: number },
        b'c' => Act::Commit { stripe: number },
        _ => Act::Lose { chip: number },
    }
}

// The command of a line, which stands without its newline; none where it is any other line.
pub fn parse(line: &[u8]) -> Option<Command>
    ensures { result ≡ command_of line.now }
{
    if line.len() < 2 {
        return None;
    }
    let digits = digit_count(&line[2..]);
    if !is_numbered(line, digits) {
        return None;
    }
    let number = decimal_value(&line[2..], digits);
    if is_alone(line, digits) {
        let act = act_alone(byte_at(line, 0), number);
        return Some(Command { digits, act });
    }
    if is_filled(line, digits) {
        let byte = byte_value(byte_at(line, digits + 3), byte_at(line, digits + 4));
        let act = Act::Write { page: number, byte };
        return Some(Command { digits, act });
    }
    None
}
