// A sheet: a text that is written in lines of at most 100 columns. What has no room is left out, so that nobody need count. What is written has no promise beyond that it stays on the sheet:
// an explanation's words are read through, and its facts are proved before they are written.
#![tactic(auto)]

ghost use Rattle.std.specs.Prelude.{◌≡◌, ℕ, [], ◌∷◌, ◌++◌, ◌-◌, ◌<◌, ◌≤◌, length, take, replicate, IfSome};
ghost use Rattle.text_places.specs.PlacePromises.{LineStart};

use bounded_texts::BoundedText;
use itoa::Buffer;
use text_places::{NEWLINE, SPACE, is_blank, line_start};

// How many bytes a sheet has.
pub const SHEET: usize = 65536;

// The widest line.
pub const COLUMNS: usize = 100;

#[derive(Drop)]
pub struct Sheet {
    text: BoundedText<SHEET>,
}

impl Sheet {
    pub fn new() -> Sheet
        ensures { result.text ≡ [] }
    {
        Sheet {
            text: BoundedText::new(),
        }
    }

    // What is written.
    pub fn as_slice(&self) -> &[u8]
        ensures value { result.now ≡ self.now.text }
        ensures within { length result.now ≤ 65536 }
    {
        self.text.as_slice()
    }

    // How many columns the line has so far.
    fn column(&self) -> usize
        ensures { (r : ℕ) → LineStart self.now.text (length self.now.text) r → result ≡ length self.now.text - r }
    {
        let text = self.as_slice();
        text.len() - line_start(text, text.len())
    }

    // The place of the last space of the line behind its indentation.
    fn last_space(&self, indent: usize) -> Option<usize>
        ensures { IfSome result (λ k. (k < length self.now.text) × (k < 65536)) }
    {
        let text = self.as_slice();
        let from = line_start(text, text.len())
            .saturating_add(indent)
            .min(text.len());
        let k = text[from..].iter().rposition(|b| *b == SPACE)?;
        Some(from + k)
    }

    // n times the same byte.
    pub fn repeat(&mut self, b: u8, n: usize)
        ensures { self.new.text ≡ take 65536 (self.old.text ++ replicate n b) }
    {
        self.text.repeat(b, n);
    }

    // To the next line, which is indented.
    fn next_line(&mut self, indent: usize) {
        self.text.put(NEWLINE);
        self.text.repeat(SPACE, indent);
    }

    // The last word of a full line goes to the next one, which is indented.
    fn wrap(&mut self, indent: usize) {
        match self.last_space(indent) {
            Some(k) => {
                self.text.set(k, NEWLINE);
                self.text.insert(k + 1, SPACE, indent);
            }
            None => self.next_line(indent),
        }
    }

    // One byte, on the next line where there is no room for it, as long as the words there let that be.
    pub fn put(&mut self, b: u8, indent: usize)
        ensures newline { b ≡ 10 → self.new.text ≡ take 65536 (self.old.text ++ b ∷ []) }
        ensures inside { (r : ℕ) → LineStart self.old.text (length self.old.text) r → length self.old.text - r < 100 → self.new.text ≡ take 65536 (self.old.text ++ b ∷ []) }
    {
        if b == NEWLINE || self.column() < COLUMNS {
            self.text.put(b);
            return;
        }
        if b == SPACE {
            self.next_line(indent);
            return;
        }
        self.wrap(indent);
        self.text.put(b);
    }

    // Is there a blank before what is written next? A sheet begins as a line does.
    fn ends_blank(&self) -> bool {
        self.as_slice().last().is_none_or(|b| is_blank(*b))
    }

    // The bytes of a text, in lines; its blanks become single spaces.
    pub fn flow(&mut self, text: &[u8], indent: usize) {
        for b in text {
            if !is_blank(*b) {
                self.put(*b, indent);
            } else if !self.ends_blank() {
                self.put(SPACE, indent);
            }
        }
    }

    // A number.
    pub fn put_number(&mut self, n: usize, indent: usize) {
        let mut digits = Buffer::new();
        self.flow(digits.format(n).as_bytes(), indent);
    }

    // Spaces up to a column, on the next line where this one is past it.
    pub fn tab(&mut self, to: usize) {
        let column = self.column();
        if column < to {
            self.text.repeat(SPACE, to - column);
        } else {
            self.next_line(to);
        }
    }
}
