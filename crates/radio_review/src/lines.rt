//! Which lines of a text in TOML begin a statement: a key with its value, or the head of a table.

/// What the bytes so far are part of.
#[derive(Clone, Copy, PartialEq, Eq)]
enum LinePart {
    /// A key, a value, a bracket or blanks.
    Plain,
    /// A comment, which ends with its line.
    Comment,
    /// So many quotes of this kind have come: one may begin a string, and two may be an empty one.
    Opening { quote: u8, quotes: u8 },
    /// A string of one line, whose quote is this.
    Line { quote: u8 },
    /// Such a string of `"`, behind a backslash.
    LineEscape,
    /// A string of several lines, of which so many quotes have come last.
    Block { quote: u8, quotes: u8 },
    /// Such a string of `"`, behind a backslash.
    BlockEscape,
}

/// What is known behind some bytes of a text.
#[derive(Drop)]
pub struct Scan {
    within: LinePart,
    /// How many brackets and braces are open.
    depth: usize,
}

impl Scan {
    /// At the start of a text.
    pub fn new() -> Scan {
        Scan {
            within: LinePart::Plain,
            depth: 0,
        }
    }

    /// Whether what comes next is part of no value.
    pub fn is_between(&self) -> bool {
        self.within == LinePart::Plain && self.depth == 0
    }

    /// Passes over a line, and over its end.
    pub fn pass(&mut self, line: &str) {
        for byte in line.bytes() {
            self.step(byte);
        }
        self.step(b'\n');
    }

    fn step(&mut self, byte: u8) {
        self.within = after(self.within, byte);
        if self.within == LinePart::Plain {
            match byte {
                b'[' | b'{' => self.depth = self.depth.saturating_add(1),
                b']' | b'}' => self.depth = self.depth.saturating_sub(1),
                _ => {}
            }
        }
    }
}

/// What a byte makes of what the bytes before it are part of.
fn after(within: LinePart, byte: u8) -> LinePart {
    match within {
        LinePart::Plain => after_plain(byte),
        LinePart::Comment => after_comment(byte),
        LinePart::Opening { quote, quotes } => after_quotes(quote, quotes, byte),
        LinePart::Line { quote } => after_line(quote, byte),
        LinePart::LineEscape => LinePart::Line { quote: b'"' },
        LinePart::Block { quote, quotes } => after_block(quote, quotes, byte),
        LinePart::BlockEscape => LinePart::Block {
            quote: b'"',
            quotes: 0,
        },
    }
}

fn after_plain(byte: u8) -> LinePart {
    match byte {
        b'#' => LinePart::Comment,
        b'"' | b'\'' => LinePart::Opening {
            quote: byte,
            quotes: 1,
        },
        _ => LinePart::Plain,
    }
}

fn after_comment(byte: u8) -> LinePart {
    if byte == b'\n' {
        LinePart::Plain
    } else {
        LinePart::Comment
    }
}

/// The third quote begins a string of several lines; anything else behind two of them is behind an empty string.
fn after_quotes(quote: u8, quotes: u8, byte: u8) -> LinePart {
    match (byte == quote, quotes) {
        (true, 1) => LinePart::Opening { quote, quotes: 2 },
        (true, _) => LinePart::Block { quote, quotes: 0 },
        (false, 1) => after_line(quote, byte),
        (false, _) => after_plain(byte),
    }
}

fn after_line(quote: u8, byte: u8) -> LinePart {
    if byte == quote {
        LinePart::Plain
    } else if byte == b'\\' && quote == b'"' {
        LinePart::LineEscape
    } else {
        LinePart::Line { quote }
    }
}

/// Three quotes or more end it, of which the last three are its end.
fn after_block(quote: u8, quotes: u8, byte: u8) -> LinePart {
    if byte == quote {
        LinePart::Block {
            quote,
            quotes: quotes.saturating_add(1),
        }
    } else if quotes >= 3 {
        after_plain(byte)
    } else if byte == b'\\' && quote == b'"' {
        LinePart::BlockEscape
    } else {
        LinePart::Block { quote, quotes: 0 }
    }
}
