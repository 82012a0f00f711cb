// The lines of a text, and lines with a letter and numbers in columns, read and written.
#![tactic(auto)]

ghost use Rattle.std.specs.Prelude.{◌≡◌, ◌+◌, ◌≤◌, ◌<◌, ◌^◌, eqb, length, position};
ghost use Rattle.columns.specs.Fields.{total, columns_of, numbers_in};
ghost use Rattle.lists.specs.Pages.{Room, Added};
ghost use Rattle.lines.specs.Line.{first_line, after_line};
ghost use Rattle.lines.specs.Lines.{line_of, is_framed, line_in};

use lists::Page;

// The byte that ends a line.
pub const LINE_FEED: u8 = b'\n';

// A line's letter and the widths of its columns.
#[derive(Clone, Copy)]
pub struct Format<const N: usize> {
    pub letter: u8,
    pub widths: [usize; N],
}

impl<const N: usize> Format<N> {
    // The numbers of a line of this format.
    pub fn read(&self, line: &[u8]) -> Option<[u64; N]>
        requires { total self.now.widths < 2 ^ 64 }
        ensures { result ≡ line_in self.now.letter self.now.widths line.now }
    {
        let size = total(&self.widths);
        if !is_framed(line, self.letter, size) {
            return None;
        }
        read_columns(&line[1..], &self.widths)
    }

    // Puts a line of this format with these numbers on a page.
    pub fn put(&self, page: &mut Page<u8>, numbers: [u64; N])
        requires { Room (total self.now.widths + 2) page.old }
        ensures { Added (line_of self.now.letter self.now.widths numbers.entry) page.old page.new }
    {
        page.put(&[self.letter]);
        put_columns(page, &self.widths, &numbers);
        page.put(&[LINE_FEED]);
    }
}

// The place of the first LF of a text.
fn line_feed(text: &[u8]) -> Option<usize>
    ensures { result ≡ position (λ byte. eqb byte 10) text.now }
{
    text.iter().position(|byte| *byte == LINE_FEED)
}

// The first line of a text, with its LF, and the text after it: whoever reads a registration, or looks for its end, needs the text that is left, which the
// library's `split_inclusive` does not give.
pub fn split_line(text: &[u8]) -> (&[u8], &[u8])
    ensures line { result.0.now ≡ first_line text.now }
    ensures rest { result.1.now ≡ after_line text.now }
{
    let end = line_feed(text).map_or(text.len(), |place| place + 1);
    text.split_at(end)
}

// Whether a line has this letter, so many bytes, LF, and nothing else.
pub fn is_framed(line: &[u8], letter: u8, size: usize) -> bool
    ensures { result ≡ is_framed letter size line.now }
{
    line.len() >= 2 && line.len() - 2 == size && line[0] == letter && line[size + 1] == LINE_FEED
}

// How many bytes columns of these widths take.
#[tactic(auto, using(columns::proofs::Laws::total_sum))]
fn total(widths: &[usize]) -> usize
    requires { total widths.now < 2 ^ 64 }
    ensures { result ≡ total widths.now }
{
    widths.iter().sum()
}

// The numbers in the columns of these widths at the front of the bytes. The index stays: as `numbers.iter_mut().zip(widths)` its proof did not close, since
// of what is written through that iterator nothing is known.
pub fn read_columns<const N: usize>(bytes: &[u8], widths: &[usize; N]) -> Option<[u64; N]>
    requires { total widths.now ≤ length bytes.now }
    ensures { result ≡ numbers_in widths.now bytes.now }
{
    let mut numbers = [0; N];
    let mut rest = bytes;
    for (i, width) in widths.iter().enumerate() {
        let (column, others) = rest.split_at(*width);
        numbers[i] = columns::read_number(column)?;
        rest = others;
    }
    Some(numbers)
}

// Puts numbers in columns of these widths on a page.
pub fn put_columns<const N: usize>(page: &mut Page<u8>, widths: &[usize; N], numbers: &[u64; N])
    requires { Room (total widths.now) page.old }
    ensures { Added (columns_of widths.now numbers.now) page.old page.new }
{
    for (width, number) in widths.iter().zip(numbers) {
        columns::put_number(page, *width, *number);
    }
}
