ghost use Rattle.std.specs.Prelude.{◌≡◌, ◌^◌, ◌<◌, ◌≤◌, ◌+◌, length, not, IfOk, slice_index};
ghost use Rattle.std.specs.Str.{IsCharBoundary};
ghost use Rattle.src_text.specs.Place.{place, start_at, units, splits_nothing, ends_line, line_starts, place_on};
ghost use Rattle.src_text.specs.Units.{all_units};

use crate::{Mem, Seq};
use std::alloc::Global;
use std::marker::Model;

/// Where the lines of a text begin.
#[derive(Debug, Drop)]
pub struct LineIndex {
    starts: Seq<u32>,
}

impl Model for LineIndex {
    ghost use Rattle.std.specs.Prelude.{List, ℕ};

    ghost Value = { List ℕ };

    ghost view = { λ index. index.starts };
}

/// The index of a text's lines.
pub fn line_index(alloc: Global, text: &str) -> Mem<LineIndex>
    requires { length text.now < 2 ^ 32 }
    ensures { IfOk result (λ index. index ≡ line_starts text.now) }
{
    let mut starts = Seq::new(alloc);
    starts.push(0)?;
    let mut at = 0u32;
    let mut rest = text.as_bytes();
    while let [byte, more @ ..] = rest {
        at += 1;
        if is_line_end(*byte, more) {
            starts.push(at)?;
        }
        rest = more;
    }
    Ok(LineIndex { starts })
}

impl LineIndex {
    /// The line and the character of a byte, in UTF-16 units, for the text that the index was made of.
    pub fn place_of(&self, text: &str, byte: u32) -> (u32, u32)
        requires size { length text.now < 2 ^ 32 }
        requires own { self.now ≡ line_starts text.now }
        ensures { result ≡ place text.now byte }
    {
        let end = start_of(text, text.len().min(byte as usize));
        place_in(self.starts.as_slice(), text, end)
    }
}

// The place of an offset at which a character begins, by the starts of the lines.
fn place_in(starts: &[u32], text: &str, end: usize) -> (u32, u32)
    requires size { length text.now < 2 ^ 32 }
    requires own { starts.now ≡ line_starts text.now }
    requires boundary { IsCharBoundary text.now end }
    ensures { result ≡ place_on 0 0 text.now end }
{
    let line = line_at(starts, end);
    let start = starts[line] as usize;
    let character = units_in(&text.as_bytes()[start..end]);
    (line as u32, character as u32)
}

// Whether a line ends with this byte, before these others.
fn is_line_end(byte: u8, more: &[u8]) -> bool
    ensures { result ≡ ends_line byte more.now }
{
    match byte {
        b'\n' => true,
        b'\r' => match more {
            [b'\n', ..] => false,
            _ => true,
        },
        _ => false,
    }
}

// The line of an offset: the last that begins no later.
fn line_at(starts: &[u32], end: usize) -> usize
    requires some { 0 < length starts.now }
    requires first { slice_index starts.now 0 ≤ end }
    ensures within { result < length starts.now }
    ensures begins { slice_index starts.now result ≤ end }
    ensures last { result + 1 < length starts.now → end < slice_index starts.now (result + 1) }
{
    let mut line = 0;
    let mut next = starts.len();
    while line + 1 < next {
        let middle = line + (next - line) / 2;
        if starts[middle] as usize <= end {
            line = middle;
        } else {
            next = middle;
        }
    }
    line
}

// The UTF-16 units of these bytes.
fn units_in(bytes: &[u8]) -> u64
    requires { length bytes.now < 2 ^ 32 }
    ensures { result ≡ all_units bytes.now }
{
    let mut count = 0;
    let mut rest = bytes;
    while let [byte, more @ ..] = rest {
        count += u64::from(units_of(*byte));
        rest = more;
    }
    count
}

// The UTF-16 units of the character that a byte begins, and 0 inside one.
fn units_of(byte: u8) -> u32
    ensures { result ≡ units byte }
{
    match byte {
        0..=127 => 1,
        128..=191 => 0,
        192..=239 => 1,
        _ => 2,
    }
}

// The start of the character or \r\n that has this byte.
fn start_of(text: &str, byte: usize) -> usize
    requires { byte ≤ length text.now }
    ensures start { result ≡ start_at text.now byte }
    ensures before { result ≤ byte }
    ensures boundary { IsCharBoundary text.now result }
{
    let bytes = text.as_bytes();
    let mut at = byte;
    while at > 0 && is_split(bytes, at) {
        at -= 1;
    }
    at
}

// Whether a character or a \r\n goes on over this offset.
fn is_split(text: &[u8], at: usize) -> bool
    requires above { 0 < at }
    requires within { at ≤ length text.now }
    ensures { result ≡ not (splits_nothing text.now at) }
{
    match text.get(at) {
        None => false,
        Some(128..=191) => true,
        Some(b'\n') => text[at - 1] == b'\r',
        Some(_) => false,
    }
}
