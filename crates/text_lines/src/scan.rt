//! Scanning the front of bytes in one pass.
ghost use Rattle.std.specs.Prelude.{◌≡◌, ◌+◌, ◌≤◌, ◌++◌, length, IfSome, IfNone, List, ℕ, drop};
ghost use Rattle.std.specs.Bool.{MatchBool};

/// Returns the place after the word, if it is at `at`. A word of eight bytes is compared at once.
#[inline(always)]
pub fn after_word_at(bytes: &[u8], at: usize, word: &[u8]) -> Option<usize>
    requires { at + length word.now ≤ length bytes.now }
    ensures rest { IfSome result (λ end. drop at bytes.now ≡ word.now ++ drop end bytes.now) }
    ensures end { IfSome result (λ end. end ≡ at + length word.now) }
    ensures none { IfNone result ((rest : List ℕ) → drop at bytes.now ≡ word.now ++ rest → ⊥) }
{
    let end = at + word.len();
    if !is_same(&bytes[at..end], word) {
        return None;
    }
    Some(end)
}

/// Returns whether the bytes are those of the word.
#[inline(always)]
fn is_same(bytes: &[u8], word: &[u8]) -> bool
    requires { length bytes.now ≡ length word.now }
    ensures { MatchBool result (bytes.now ≡ word.now) (bytes.now ≡ word.now → ⊥) }
{
    if word.len() == 8
        && let Some(bytes) = bytes.first_chunk()
        && let Some(word) = word.first_chunk()
    {
        return is_same_eight(bytes, word);
    }
    let mut is_same = true;
    for i in 0..word.len() {
        is_same &= bytes[i] == word[i];
    }
    is_same
}

/// Returns whether both are equal, comparing each as one number.
#[inline(always)]
fn is_same_eight(bytes: &[u8; 8], word: &[u8; 8]) -> bool
    ensures { MatchBool result (bytes.now ≡ word.now) (bytes.now ≡ word.now → ⊥) }
{
    u64::from_le_bytes(*bytes) == u64::from_le_bytes(*word)
}
