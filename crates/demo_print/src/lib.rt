// The bench program's output: a line that is printed.
#![tactic(auto)]

ghost use Rattle.std.specs.Prelude.{◌≡◌, ◌∷◌, ◌++◌, ◌+◌, ◌*◌, ◌/◌, ◌≤◌, ◌<◌, length};
ghost use Rattle.demo_print.specs.Output.{digit as digitOf, decimal as decimalOf, hex as hexOf, sectors as sectors_of, counts as counts_of, format_line, write_line, read_line, unknown_line, Put, Printed};

use arrayvec::ArrayVec;
use rules::Answer;

// A line with its end. None that Board T prints has more than 96 bytes.
pub type Text = ArrayVec<u8, 96>;

// The character of a digit.
fn digit(d: u8) -> u8
    requires { d < 16 }
    ensures { result ≡ digitOf d }
{
    if d < 10 { b'0' + d } else { b'a' + (d - 10) }
}

// Adds bytes to a line.
fn add<const N: usize>(line: &mut ArrayVec<u8, N>, bytes: &[u8])
    requires { length line.old.items + length bytes.now ≤ N }
    ensures { line.new.items ≡ line.old.items ++ bytes.now }
{
    let _fits = line.try_extend_from_slice(bytes);
}

// Adds a tab and a number in decimal.
fn add_number<const N: usize>(line: &mut ArrayVec<u8, N>, n: u32)
    requires { length line.old.items + 11 ≤ N }
    ensures text { line.new.items ≡ line.old.items ++ 9 ∷ decimalOf n }
    ensures upper_bound { length line.new.items ≤ length line.old.items + 11 }
{
    let mut digits = itoa::Buffer::new();
    line.push(b'\t');
    add(line, digits.format(n).as_bytes());
}

// Adds bytes in hex.
fn add_hex<const N: usize>(line: &mut ArrayVec<u8, N>, bytes: &[u8])
    requires { length line.old.items + 2 * length bytes.now ≤ N }
    ensures { line.new.items ≡ line.old.items ++ hexOf bytes.now }
{
    for b in bytes {
        line.push(digit(*b / 16));
        line.push(digit(*b % 16));
    }
}

// A whole sector in hex, after a tab.
fn sector_text(sector: &[u8]) -> ArrayVec<u8, 33>
    requires { length sector.now ≡ 16 }
    ensures { result.items ≡ 9 ∷ hexOf sector.now }
{
    let mut text = ArrayVec::new();
    text.push(b'\t');
    add_hex(&mut text, sector);
    text
}

// Puts bytes at an index of a buffer, and returns the index after them.
fn put(out: &mut [u8], at: usize, bytes: &[u8]) -> usize
    requires { at + length bytes.now ≤ length out.old }
    ensures { Put bytes.now at out.old out.new result }
{
    let end = at + bytes.len();
    out[at..end].copy_from_slice(bytes);
    end
}

// Puts each whole sector of `bytes` there.
fn put_sectors(out: &mut [u8], at: usize, bytes: &[u8]) -> usize
    requires { at + 33 * (length bytes.now / 16) ≤ length out.old }
    ensures put { Put (sectors_of (length bytes.now / 16) bytes.now) at out.old out.new result }
    ensures upper_bound { result ≤ at + 33 * (length bytes.now / 16) }
{
    let mut end = at;
    for sector in bytes.chunks_exact(16) {
        end = put(out, end, sector_text(sector).as_slice());
    }
    end
}

// The letter, the reply and document 01's two counts.
fn counts(letter: u8, a: Answer) -> Text
    ensures text { result.items ≡ counts_of letter a }
    ensures upper_bound { length result.items ≤ 34 }
{
    let mut line = ArrayVec::new();
    line.push(letter);
    add_number(&mut line, u32::from(a.reply));
    add_number(&mut line, a.programs);
    add_number(&mut line, a.erases);
    line
}

// The line of a format.
pub fn print_format(a: Answer) -> Text
    ensures { result.items ≡ format_line a }
{
    let mut line = counts(b'F', a);
    line.push(b'\n');
    line
}

// The line of a write, with the spare areas that it looked at as its last field.
pub fn print_write(a: Answer) -> Text
    ensures { result.items ≡ write_line a }
{
    let mut line = counts(b'W', a);
    add_number(&mut line, a.looks);
    line.push(b'\n');
    line
}

// Prints the line of a read that was asked for the sectors of `bytes` into a buffer, and returns its length.
pub fn print_read(out: &mut [u8], a: Answer, bytes: &[u8]) -> usize
    requires { 13 + 33 * (length bytes.now / 16) ≤ length out.old }
    ensures { Printed (read_line a (length bytes.now / 16) bytes.now) out.old out.new result }
{
    let mut head: ArrayVec<u8, 12> = ArrayVec::new();
    head.push(b'R');
    let reply = u32::from(a.reply);
    add_number(&mut head, reply);
    let mut end = put(out, 0, head.as_slice());
    if reply == 0 {
        end = put_sectors(out, end, bytes);
    }
    put(out, end, b"\n")
}

// That line alone, with room for N bytes.
pub fn read_text<const N: usize>(a: Answer, bytes: &[u8]) -> ArrayVec<u8, N>
    requires { 13 + 33 * (length bytes.now / 16) ≤ N }
    ensures { result.items ≡ read_line a (length bytes.now / 16) bytes.now }
{
    let mut out = [0; N];
    let end = print_read(&mut out, a, bytes);
    let mut line = ArrayVec::new();
    add(&mut line, &out[..end]);
    line
}

// The line for a line of another form.
pub fn print_unknown() -> Text
    ensures { result.items ≡ unknown_line }
{
    let mut line = ArrayVec::new();
    add(&mut line, b"?\n");
    line
}
