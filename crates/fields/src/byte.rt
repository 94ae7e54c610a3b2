ghost use Rattle.std.specs.Prelude.{◌≡◌, ℕ, ◌<◌, length, IfNone, IfSome, ◌≢◌, slice_index};

// The index of the first byte that is the wanted one.
pub fn find_byte(wanted: u8, bytes: &[u8]) -> Option<usize>
    ensures none { IfNone result ((k : ℕ) → k < length bytes.now → slice_index bytes.now k ≢ wanted) }
    ensures before { IfSome result (λ end. (k : ℕ) → k < end → slice_index bytes.now k ≢ wanted) }
    ensures found { IfSome result (λ end. (end < length bytes.now) × (slice_index bytes.now end ≡ wanted)) }
{
    bytes.iter().position(|byte| *byte == wanted)
}
