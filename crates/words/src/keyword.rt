ghost use Rattle.std.specs.Prelude.{◌≡◌, ℕ, Bool, List};
ghost use Rattle.words.specs.Words.{WordRead, command_spelling, command_counts, header_spelling, header_counts};
ghost use Rattle.std.proofs.Common.{rules};

// A kind of words of which one begins a line.
pub trait Keyword: Sized {
    // How each word is written.
    ghost spelling: { Self → List ℕ };

    // Which counts of fields a line with the word may have, the word among them.
    ghost counts: { Self → ℕ → Bool };

    // The word that the bytes spell, if one does. `TryFrom` is no plainer: its error would say no more than `None`.
    fn from_bytes(bytes: &[u8]) -> Option<Self>
        ensures { WordRead spelling bytes.now result };

    // Whether a line with this word may have so many fields.
    fn takes(&self, count: usize) -> bool
        ensures { result ≡ counts self.now count };

    // No two words are written alike.
    ghost distinct: { (v w : Self) → spelling v ≡ spelling w → v ≡ w };
}

// The words of line 1.
#[derive(Clone, Copy, PartialEq, Eq, Debug)]
pub enum HeaderWord {
    Disc,
    Plane,
    Bounds,
}

// The words of the later lines.
#[derive(Clone, Copy, PartialEq, Eq, Debug)]
pub enum CommandWord {
    Row,
    Strike,
    Restore,
    Check,
    Shuffle,
    Settle,
}

impl Keyword for HeaderWord {
    ghost spelling = { header_spelling };

    ghost counts = { header_counts };

    ghost distinct = { Prim.search rules };

    fn from_bytes(bytes: &[u8]) -> Option<HeaderWord> {
        match bytes {
            b"disc" => Some(HeaderWord::Disc),
            b"plane" => Some(HeaderWord::Plane),
            b"box" => Some(HeaderWord::Bounds),
            _ => None,
        }
    }

    fn takes(&self, count: usize) -> bool {
        match self {
            HeaderWord::Disc | HeaderWord::Bounds => count == 1,
            HeaderWord::Plane => count == 3,
        }
    }
}

impl Keyword for CommandWord {
    ghost spelling = { command_spelling };

    ghost counts = { command_counts };

    ghost distinct = { Prim.search rules };

    fn from_bytes(bytes: &[u8]) -> Option<CommandWord> {
        match bytes {
            b"row" => Some(CommandWord::Row),
            b"strike" => Some(CommandWord::Strike),
            b"restore" => Some(CommandWord::Restore),
            b"check" => Some(CommandWord::Check),
            b"shuffle" => Some(CommandWord::Shuffle),
            b"settle" => Some(CommandWord::Settle),
            _ => None,
        }
    }

    fn takes(&self, count: usize) -> bool {
        match self {
            CommandWord::Row => count == 5,
            CommandWord::Strike | CommandWord::Restore | CommandWord::Shuffle => count == 2,
            CommandWord::Check => count >= 2,
            CommandWord::Settle => count == 1,
        }
    }
}
