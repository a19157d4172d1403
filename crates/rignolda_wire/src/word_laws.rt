//! Laws of the words that links in a store show. Each is a function with an empty body; its
//! contract is the law.

ghost use Rattle.std.specs.Prelude.{◌≡◌, ◌<◌, ◌^◌, ◌++◌, ℕ, List, [], Ok, Some, false};
ghost use Rattle.std.specs.Int.{w32, to_be_bytes};
ghost use Rattle.rignolda_wire.specs.declared.said.Expect.{Expect};
ghost use Rattle.rignolda_wire.specs.Reading.{message_at};
ghost use Rattle.rignolda_wire.specs.Said.{Greeted, IsGreeting, IsMessage, Said, hello, spelling};
ghost use Rattle.rignolda_wire.specs.Seen.{AreBytes};
ghost use Rattle.rignolda_wire.specs.Words.{Headed, down, down_with, head_of, headed_bytes};
ghost use Rattle.rignolda_wire.specs.Words.{reports_of, up, word_at, word_bytes};

/// Of a word that begins with a hello the hello is read, and the bytes behind it.
pub fn a_word_is_read()
    ensures { (g : Greeted) (rest : List ℕ) → IsGreeting 1 g
        → word_at (spelling (hello false g) ++ rest) ≡ Some (g, rest) }
{}

/// So each word comes apart into what it was made of: a parent's into its hello and a frame, or
/// whatever else may be expected there, and a child's into its hello and the count.
pub fn words_come_apart()
    ensures down { (g : Greeted) → IsGreeting 1 g → word_at (word_bytes (down g)) ≡ Some (g, []) }
    ensures down_with { (expect : Expect) (g : Greeted) (m : Said) → IsGreeting 1 g
        → IsMessage expect m → (word_at (word_bytes (down_with g m)) ≡ Some (g, spelling m))
        × (message_at expect (spelling m) ≡ Ok (m, [])) }
    ensures up { (g : Greeted) (reports : ℕ) → IsGreeting 1 g → reports < 2 ^ 32
        → (word_at (word_bytes (up g reports)) ≡ Some (g, to_be_bytes w32 reports))
        × (reports_of (to_be_bytes w32 reports) ≡ Some reports) }
{}

/// What is read of a word was spelled so: a look is none.
pub fn a_word_that_is_read_was_spelled()
    ensures { (bytes : List ℕ) (x : Greeted × List ℕ) → AreBytes bytes → word_at bytes ≡ Some x
        → IsGreeting 1 x.0 × (bytes ≡ spelling (hello false x.0) ++ x.1) }
{}

/// What a frame has before its body is read, even if the body has not come or is cut.
pub fn a_head_is_read()
    ensures { (h : Headed) (rest : List ℕ) → h.label < 2 ^ 16 → h.item < 2 ^ 32 → h.len < 2 ^ 32
        → head_of (headed_bytes h ++ rest) ≡ Some h }
{}

/// What is read of a head was spelled so.
pub fn a_head_that_is_read_was_spelled()
    ensures { (bytes : List ℕ) (h : Headed) → AreBytes bytes → head_of bytes ≡ Some h
        → (rest : List ℕ) × (bytes ≡ headed_bytes h ++ rest) }
{}

/// How often a report was set is read of its four bytes, and of no others.
pub fn a_count_is_read()
    ensures again { (n : ℕ) → n < 2 ^ 32 → reports_of (to_be_bytes w32 n) ≡ Some n }
    ensures spelled { (bytes : List ℕ) (n : ℕ) → AreBytes bytes → reports_of bytes ≡ Some n
        → bytes ≡ to_be_bytes w32 n }
{}
