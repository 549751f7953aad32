// The bench program: formats Board T, then answers each line of standard input with a line on standard output.
// All but `main` is for any reader and writer; where these say which bytes they have, `run` is proved to print what `bench` says of the input.
#![tactic(auto)]

ghost use Rattle.std.specs.Prelude.{◌≡◌, ℕ, ◌-◌, ◌^◌, ◌<◌, List, [], ◌∷◌, length, Some, OnOk, IfOk};
ghost use Rattle.std.specs.Io.KnownBytes.{Appends};
ghost use Rattle.demo_board.specs.Store.{store_board};
ghost use Rattle.demo_lines.specs.Held.{Holds};
ghost use Rattle.demo_session.specs.Session.{bench, lines_from, turns};
ghost use Rattle.demo.specs.Served.{Served, Ended};

use demo_board::Store;
use demo_lines::Held;
use std::io;
use std::io::{Read, Write};

// Takes one byte of the input: LF ends a line, and any other byte belongs to it.
fn take<W: Write>(to: &mut W, store: &mut Store<'_>, held: Held, b: u8) -> io::Result<Held>
    ensures { (l : List ℕ) → Holds held l → IfOk result (λ h. Served (W.contents to.old) (W.contents to.new) (store_board store.old) (store_board store.new) l (b ∷ []) h) }
{
    if b == b'\n' {
        demo_serve::answer(to, store, demo_lines::asked(&held))?;
        Ok(demo_lines::none())
    } else {
        Ok(demo_lines::push(held, b))
    }
}

// Takes the bytes that one read gave.
fn take_all<W: Write>(to: &mut W, store: &mut Store<'_>, held: Held, s: &[u8]) -> io::Result<Held>
    ensures { (l : List ℕ) → Holds held l → IfOk result (λ h. Served (W.contents to.old) (W.contents to.new) (store_board store.old) (store_board store.new) l s.now h) }
{
    let mut h = held;
    for b in s {
        h = take(to, store, h, *b)?;
    }
    Ok(h)
}

// Takes the input to its end in chunks, and returns the line that no LF ended. A proved loop has to end, and nothing says that
// an input does, so this one counts its turns, up to a number that no run uses up.
fn take_input<R: Read, W: Write>(
    from: &mut R,
    to: &mut W,
    store: &mut Store<'_>,
) -> io::Result<Held>
    ensures { IfOk result (λ h. Ended (R.remaining from.old) (R.remaining from.new) (W.contents to.old) (W.contents to.new) (store_board store.old) (store_board store.new) h) }
{
    let mut held = demo_lines::none();
    let mut chunk = [0u8; 4096];
    for turn in 0..u64::MAX {
        let n = from.read(&mut chunk)?;
        if n == 0 {
            return Ok(held);
        }
        held = take_all(to, store, held, &chunk[..n])?;
    }
    Ok(held)
}

// Answers the lines of the input; a last line without LF counts.
fn session<R: Read, W: Write>(from: &mut R, to: &mut W, store: &mut Store<'_>) -> io::Result<()>
    ensures { (input : List ℕ) → R.remaining from.old ≡ Some input → length input < 2 ^ 64 - 1 → OnOk result (Appends (W.contents to.old) (W.contents to.new) (turns (store_board store.old) (lines_from [] input))) }
{
    let held = take_input(from, to, store)?;
    if demo_lines::is_begun(&held) {
        demo_serve::answer(to, store, demo_lines::asked(&held))?;
    }
    Ok(())
}

// The bench program on any reader and writer: what it prints is what `bench` says of the input.
fn run<R: Read, W: Write>(from: &mut R, to: &mut W) -> io::Result<()>
    ensures { (input : List ℕ) → R.remaining from.old ≡ Some input → length input < 2 ^ 64 - 1 → OnOk result (Appends (W.contents to.old) (W.contents to.new) (bench input)) }
{
    let mut chip = demo_board::blank_chip();
    let mut ct = [0u16; 6];
    let mut bt = [0u16; 4];
    let mut fst = [0u16; 2];
    let mut bst = [0u8; 5];
    let mut wear = [0u32; 5];
    let mut marks = [0u64; 16];
    let mut stamps = [0u32; 2];
    let mut store = Store {
        chip: &mut chip,
        ct: &mut ct,
        bt: &mut bt,
        fst: &mut fst,
        bst: &mut bst,
        wear: &mut wear,
        marks: &mut marks,
        stamps: &mut stamps,
    };
    demo_serve::start(to, &mut store)?;
    session(from, to, &mut store)
}

fn main(rt: HostRuntime) -> io::Result<()> {
    let mut from = rt.reader();
    let mut to = io::writer(&rt);
    run(&mut from, &mut to)
}
