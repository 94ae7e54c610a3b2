ghost use Rattle.std.specs.Prelude.{◌≡◌, ℕ, ◌<◌, List, [], ◌∷◌, ◌++◌, length, Decides, IfNone, IfSome, ◌≢◌, slice_index};
ghost use Rattle.format.specs.Line.{Holds, LineJudged, Taken};

use arrayvec::ArrayVec;
use fields::byte::find_byte;
use rows::refusal::Refusal;

// The most bytes that a line may have.
pub const LIMIT: usize = 80;

// The bytes of a line as they come, unless more came than a line may have.
#[derive(Drop)]
pub struct LineBuffer {
    kept: Option<ArrayVec<u8, LIMIT>>,
}

// The index of the first byte that ends a line.
fn line_end(bytes: &[u8]) -> Option<usize>
    ensures none { IfNone result ((k : ℕ) → k < length bytes.now → slice_index bytes.now k ≢ 10) }
    ensures before { IfSome result (λ end. (k : ℕ) → k < end → slice_index bytes.now k ≢ 10) }
    ensures found { IfSome result (λ end. (end < length bytes.now) × (slice_index bytes.now end ≡ 10)) }
{
    find_byte(b'\n', bytes)
}

impl LineBuffer {
    pub fn new() -> LineBuffer
        ensures { Holds result [] }
    {
        LineBuffer {
            kept: Some(ArrayVec::new()),
        }
    }

    // Takes more bytes of the line.
    fn extend(&mut self, bytes: &[u8])
        ensures { (xs : List ℕ) → Holds self.old xs → Holds self.new (xs ++ bytes.now) }
    {
        if let Some(kept) = &mut self.kept {
            if kept.try_extend_from_slice(bytes).is_err() {
                self.kept = None;
            }
        }
    }

    // Takes one more byte of the line.
    pub fn push(&mut self, byte: u8)
        ensures { (xs : List ℕ) → Holds self.old xs → Holds self.new (xs ++ (byte ∷ [])) }
    {
        self.extend(&[byte]);
    }

    // Takes bytes of a file up to the end of the line, and says how many with the byte that ends it;
    // none where the line goes on after them.
    pub fn fill(&mut self, bytes: &[u8]) -> Option<usize>
        ensures { Taken self.old bytes.now result self.new }
    {
        let Some(end) = line_end(bytes) else {
            self.extend(bytes);
            return None;
        };
        self.extend(&bytes[..end]);
        Some(end + 1)
    }

    // The line, unless it has more than 80 bytes.
    pub fn line(&self) -> Result<&[u8], Refusal>
        ensures { (xs : List ℕ) → Holds self.now xs → LineJudged xs result }
    {
        self.kept
            .as_ref()
            .map(|kept| kept.as_slice())
            .ok_or(Refusal::LongLine)
    }

    // Whether no byte came since the buffer was made or cleared.
    pub fn is_empty(&self) -> bool
        ensures { (xs : List ℕ) → Holds self.now xs → Decides result (xs ≡ []) }
    {
        self.kept.as_ref().is_some_and(|kept| kept.is_empty())
    }

    // Forgets the bytes, so that the next line can begin.
    pub fn clear(&mut self)
        ensures { Holds self.new [] }
    {
        *self = LineBuffer::new();
    }
}
