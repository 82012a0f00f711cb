// Prints the table of changeover days to standard output, one number to a line, right-justified in 6.
#![tactic(auto)]

ghost use Rattle.std.specs.Prelude.{◌≡◌, length, OnOk};
ghost use Rattle.std.specs.Io.KnownBytes.{Appends};
ghost use Rattle.lists.specs.Pages.{Room, Added};
ghost use Rattle.changeovers.specs.Text.{line_bytes, day_line, text_bytes, changeover_text};

use lists::Page;
use std::io;
use std::io::Write;

// The width of a line's column.
const WIDTH: usize = 6;

// How many bytes the lines of all entries have: the column's and LF for each.
const TEXT_BYTES: usize = (WIDTH + 1) * calendar::CHANGEOVERS.len();

// Puts the line of an entry on a page, not by `Display`: this column is proved to be read back, and a format would need that law once more.
#[tactic(auto, using(columns::proofs::Laws::length_column))]
fn put_line(page: &mut Page<u8>, day: u64)
    requires { Room line_bytes page.old }
    ensures { Added (day_line day) page.old page.new }
{
    columns::put_number(page, WIDTH, day);
    page.put(&[lines::LINE_FEED]);
}

// Fills a buffer with the lines of all entries.
fn put_lines(out: &mut [u8])
    requires { length out.old ≡ text_bytes }
    ensures { out.new ≡ changeover_text }
{
    let mut page = Page { space: out, end: 0 };
    for day in &calendar::CHANGEOVERS {
        put_line(&mut page, u64::from(*day));
    }
}

// Writes the lines of all entries.
fn print_table<W: Write>(writer: &mut W) -> io::Result<()>
    ensures { OnOk result (Appends (W.contents writer.old) (W.contents writer.new) changeover_text) }
{
    let mut out = [0; TEXT_BYTES];
    put_lines(&mut out);
    writer.write_all(&out)
}

// The program: it writes the table to standard output, and ends with the error of a write that failed.
fn main(rt: HostRuntime) -> io::Result<()> {
    print_table(&mut rt.stdout())
}
