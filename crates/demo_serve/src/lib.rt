// What the bench program does for a line, and for the format before them all: the call on Board T, and the line that it prints.
// Where a writer says which bytes it holds, the line is what they grow by; a write that fails ends the call with its error.
#![tactic(auto)]

ghost use Rattle.std.specs.Prelude.{◌≡◌, ◌≤◌, ◌/◌, length, OnOk};
ghost use Rattle.std.specs.Io.KnownBytes.{Appends};
ghost use Rattle.rules.specs.Calls.{outcome_of};
ghost use Rattle.rules.specs.Lent.{board_seen};
ghost use Rattle.demo_board.specs.Store.{SameSlices, store_board};
ghost use Rattle.rules.specs.Requests.{read, request_of};
ghost use Rattle.cases.specs.BoardT.{board_t};
ghost use Rattle.demo_print.specs.Output.{format_line, read_line, unknown_line, write_line};
ghost use Rattle.demo_serve.specs.Turned.{started_text, Started, turned_text, Turned};

use demo_board::Store;
use demo_lines::Line;
use rules::Seen;
use std::io;
use std::io::Write;

// Writes sectors of one byte value, and prints the answer. The board becomes the one that the line leaves.
fn write<W: Write>(
    to: &mut W,
    store: &mut Store<'_>,
    lba: u32,
    count: u32,
    value: u8,
) -> io::Result<()>
    ensures same { SameSlices store.old store.new }
    ensures turned { Turned (Line.Write lba count value) (store_board store.old) (store_board store.new) }
    ensures text { OnOk result (Appends (W.contents to.old) (W.contents to.new) (turned_text (store_board store.old) (Line.Write lba count value))) }
{
    let bytes = demo_board::filled(value);
    let n = demo_board::lent(count);
    let a = calls::write(
        demo_board::board(),
        store.chip,
        store.ct,
        store.bt,
        store.fst,
        store.bst,
        store.wear,
        store.marks,
        store.stamps,
        lba,
        count,
        &bytes[..n],
    );
    to.write_all(demo_print::print_write(a).as_slice())
}

// Reads sectors into the lent bytes, and prints the answer with them.
fn read_into<W: Write>(
    to: &mut W,
    board: Seen<'_>,
    lba: u32,
    count: u32,
    bytes: &mut [u8],
) -> io::Result<()>
    requires { length bytes.old ≤ 32 }
    ensures { let o = outcome_of board_t (board_seen board.entry) (read (request_of lba count bytes.old)) in
        OnOk result (Appends (W.contents to.old) (W.contents to.new) (read_line o.answer (length bytes.old / 16) o.bytes)) }
{
    let a = calls::read(demo_board::board(), board, lba, count, bytes);
    to.write_all(demo_print::read_text::<96>(a, bytes).as_slice())
}

// Reads sectors, and prints the answer with their bytes.
fn read<W: Write>(to: &mut W, board: Seen<'_>, lba: u32, count: u32) -> io::Result<()>
    ensures { OnOk result (Appends (W.contents to.old) (W.contents to.new) (turned_text (board_seen board.entry) (Line.Read lba count))) }
{
    let mut bytes = demo_board::filled(0);
    let n = demo_board::lent(count);
    read_into(to, board, lba, count, &mut bytes[..n])
}

// Does what a line asks, and prints one line. The board becomes the one that the line leaves.
pub fn answer<W: Write>(to: &mut W, store: &mut Store<'_>, line: Line) -> io::Result<()>
    ensures same { SameSlices store.old store.new }
    ensures turned { Turned line (store_board store.old) (store_board store.new) }
    ensures text { OnOk result (Appends (W.contents to.old) (W.contents to.new) (turned_text (store_board store.old) line)) }
{
    match line {
        Line::Write(lba, count, value) => { write(to, store, lba, count, value) }
        Line::Read(lba, count) => { read(to, store.seen(), lba, count) }
        Line::Other => to.write_all(demo_print::print_unknown().as_slice()),
    }
}

// Formats the board, lent with its sixteen words of marks, and prints the answer.
pub fn start<W: Write>(to: &mut W, store: &mut Store<'_>) -> io::Result<()>
    requires { length store.old.marks.now ≡ 16 }
    ensures same { SameSlices store.old store.new }
    ensures started { Started (store_board store.old) (store_board store.new) }
    ensures text { OnOk result (Appends (W.contents to.old) (W.contents to.new) (started_text (store_board store.old))) }
{
    let a = calls::format(
        demo_board::board(),
        store.chip,
        store.ct,
        store.bt,
        store.fst,
        store.bst,
        store.wear,
        store.marks,
        store.stamps,
    );
    to.write_all(demo_print::print_format(a).as_slice())
}
