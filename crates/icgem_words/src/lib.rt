// The lines and words of a gravity field file (document 02, T-10): where each ends, and whether two words are the same.

#![tactic(auto)]

ghost use Rattle.std.specs.Prelude.{◌≡◌, ◌+◌, ◌^◌, ◌<◌, ◌≤◌, length, drop, nat_le};
ghost use Rattle.icgem_words.specs.Words.{is_line_end, is_blank, words, same_word};
ghost use Rattle.icgem_words.specs.Inner.{in_line, part, RunTo, Run, NextWord};

pub fn is_line_end(b: u8) -> bool
    ensures { result ≡ is_line_end b }
{
    matches!(b, b'\n' | b'\r')
}

pub fn is_blank(b: u8) -> bool
    ensures { result ≡ is_blank b }
{
    matches!(b, b' ' | b'\t')
}

// The first byte at or after a place that ends a run, or the text's end.
pub fn run_end<F: Fn(u8) -> bool>(text: &[u8], from: usize, ends: F) -> usize
    requires from_in_bounds { from ≤ length text.now }
    requires ends_callable { F.IsAlwaysCallable ends }
    ensures { RunTo (F.post ends) text.now from result }
{
    (from..text.len())
        .find(|i| ends(text[*i]))
        .unwrap_or(text.len())
}

// The first line end at or after a place, or the text's end.
pub fn line_end(text: &[u8], from: usize) -> usize
    requires { from ≤ length text.now }
    ensures { Run in_line text.now from result }
{
    run_end(text, from, is_line_end)
}

// A part of a text.
#[derive(Clone, Copy, Debug, PartialEq, Eq)]
pub struct Span {
    pub from: usize,
    pub to: usize,
    ghost ordered: { from ≤ to },
}

impl Span {
    pub fn of(self, text: &[u8]) -> &[u8]
        requires { self.to ≤ length text.now }
        ensures { result.now ≡ part self.from self.to text.now }
    {
        &text[self.from..self.to]
    }

    pub fn is_empty(self) -> bool
        ensures { result ≡ nat_le self.to self.from }
    {
        self.to <= self.from
    }

    // The same part of a text with so many bytes more in front.
    pub fn moved(self, by: usize) -> Self
        requires { by + self.to < 2 ^ 64 }
        ensures from_moved { result.from ≡ by + self.from }
        ensures to_moved { result.to ≡ by + self.to }
    {
        Self {
            from: by + self.from,
            to: by + self.to,
        }
    }
}

// The first word at or after a place; empty, at the line's end, where there is none.
pub fn next_word(line: &[u8], at: usize) -> Span
    requires { at ≤ length line.now }
    ensures { NextWord line.now at result.from result.to }
{
    let from = run_end(line, at, |b| !is_blank(b));
    let to = run_end(line, from, is_blank);
    Span { from, to }
}

// How many words stand from a place on.
pub fn count_words(line: &[u8], at: usize) -> usize
    requires { at ≤ length line.now }
    ensures { result ≡ length (words (drop at line.now)) }
{
    let mut count = 0;
    let mut word = next_word(line, at);
    while !word.is_empty() {
        count += 1;
        word = next_word(line, word.to);
    }
    count
}

pub fn same_word(word: &[u8], other: &[u8]) -> bool
    ensures { result ≡ same_word word.now other.now }
{
    word == other
}
