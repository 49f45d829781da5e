//! Laws of the container's grammar. The functions do nothing:
//! their contracts are what they are for.
ghost use Rattle.std.specs.Prelude.{◌≡◌, ◌<◌, ◌≤◌, [], ◌∷◌, ◌++◌, length, map};
ghost use Rattle.std.specs.Prelude.{slice_get, List, ℕ, Some, None, take};
ghost use Rattle.rec_container.specs.Container.{Entry, IsEntry, IsPrefix, addition, content_of};
ghost use Rattle.rec_container.specs.Container.{content_bytes, ending, prefix, spell, AreFrom};
ghost use Rattle.rec_container.specs.Container.{IsContainer, StandsWithin, place_from};
ghost use Rattle.rec_container.specs.declared.errors.ContainerError.{ContainerError};
ghost use Rattle.rec_container.specs.Reading.{IsFault};
ghost use Rattle.rec_container.specs.WholePrefixes.{IsWholePrefix};

/// States that bytes spell at most one list of entries.
pub fn one_reading()
    ensures { (bytes : List ℕ) (es fs : List Entry)
        → IsContainer bytes es
        → IsContainer bytes fs
        → es ≡ fs }
{}

/// States that no container begins a longer one: its end is known without what follows.
pub fn no_prefix()
    ensures { (bytes more : List ℕ) (es fs : List Entry)
        → IsContainer bytes es
        → IsContainer (bytes ++ more) fs
        → more ≡ [] }
{}

/// States that bytes that spell entries have no fault, and that others have one first fault at
/// most.
pub fn one_fault()
    ensures spelled { (bytes : List ℕ) (es : List Entry) (e : ContainerError)
        → IsContainer bytes es
        → IsFault bytes e
        → ⊥ }
    ensures others { (bytes : List ℕ) (e f : ContainerError)
        → IsFault bytes e
        → IsFault bytes f
        → e ≡ f }
{}

/// States that what the calls of a writer write, one after the other, is the spelling of its
/// entries.
pub fn one_spelling()
    ensures push { (es : List Entry) (e : Entry)
        → prefix (es ++ e ∷ []) ≡ prefix es ++ addition es e }
    ensures end { (es : List Entry) → prefix es ++ ending es ≡ spell es }
    ensures whole { (es : List Entry) → AreFrom [] es → IsContainer (spell es) es }
{}

/// States that the content of each entry stands in the spelling at its place, and ends within it.
pub fn placed_contents()
    ensures { (es : List Entry) (i : ℕ) (content : List ℕ)
        → slice_get (map (λ e. e.content) es) i ≡ Some content
        → StandsWithin (spell es) (place_from 8 es i) content }
{}

/// States that no number about a container is above its length.
pub fn within_length()
    ensures more { (es fs : List Entry) → length (spell es) ≤ length (spell (es ++ fs)) }
    ensures contents { (es : List Entry) → content_bytes es < length (spell es) }
    ensures entries { (es : List Entry) → length es < length (spell es) }
{}

/// States that the whole prefix of bytes is the longest list of whole, distinct entries that they
/// begin with, and the only one after which none of a new name stands.
pub fn one_whole_prefix()
    ensures longest { (bytes more : List ℕ) (es fs : List Entry)
        → IsWholePrefix bytes es
        → IsPrefix bytes fs more
        → (rest : List Entry) × (es ≡ fs ++ rest) }
    ensures one { (bytes : List ℕ) (es fs : List Entry)
        → IsWholePrefix bytes es
        → IsWholePrefix bytes fs
        → es ≡ fs }
    // What a writer leaves that has written entries and was stopped in one more.
    ensures stopped { (d e : Entry) (es : List Entry) (k : ℕ)
        → AreFrom [] (d ∷ es)
        → IsEntry e
        → content_of (d ∷ es) e.name ≡ None
        → k < length (addition (d ∷ es) e)
        → IsWholePrefix (prefix (d ∷ es) ++ take k (addition (d ∷ es) e)) (d ∷ es) }
    ensures ended { (es : List Entry) → AreFrom [] es → IsWholePrefix (spell es) es }
{}
