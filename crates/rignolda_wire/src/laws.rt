//! Laws of messages as bytes. Each is a function with an empty body; its contract is the law.

ghost use Rattle.std.specs.Prelude.{◌≡◌, ◌≢◌, ◌<◌, ◌≤◌, ℕ, List, [], ◌++◌, Ok, Err, length, take};
ghost use Rattle.std.specs.Prelude.{Bool, ◌∷◌, true};
ghost use Rattle.rignolda_wire.specs.declared.fault.Fault.{Fault};
ghost use Rattle.rignolda_wire.specs.declared.fault.Fault.TheVariants.{More, NoName};
ghost use Rattle.rignolda_wire.specs.declared.said.Expect.{Expect};
ghost use Rattle.rignolda_wire.specs.declared.said.Expect.TheVariants.{Hello};
ghost use Rattle.rignolda_wire.specs.Names.{name_limit};
ghost use Rattle.rignolda_wire.specs.Reading.{message_at};
ghost use Rattle.rignolda_wire.specs.Said.{Greeted, IsGreeting, IsMessage, Said};
ghost use Rattle.rignolda_wire.specs.Said.{before_names, most, name_bytes, oldest, spelling};
ghost use Rattle.rignolda_wire.specs.Seen.{AreBytes};
ghost use Rattle.rignolda_wire.specs.Streams.{Splits};
ghost use Rattle.rignolda_wire.specs.Versions.{range_of, versions_of};
ghost use Rattle.rignolda_wire.specs.Writing.{head_bytes, is_written, tail_bytes, with_text};

/// What is spelled is read, whatever follows it.
pub fn what_is_spelled_is_read()
    ensures { (expect : Expect) (m : Said) (rest : List ℕ) → IsMessage expect m
        → message_at expect (spelling m ++ rest) ≡ Ok (m, rest) }
{}

/// What is read was spelled so, and may come. So no two messages have one spelling, and none begins
/// another.
pub fn what_is_read_is_spelled()
    ensures { (expect : Expect) (bytes : List ℕ) (x : Said × List ℕ) → AreBytes bytes
        → message_at expect bytes ≡ Ok x → IsMessage expect x.0 × (bytes ≡ spelling x.0 ++ x.1) }
{}

/// What is refused stays refused, whatever comes: no message begins so.
pub fn what_is_refused_stays_refused()
    ensures { (expect : Expect) (bytes more : List ℕ) (fault : Fault) → AreBytes bytes
        → message_at expect bytes ≡ Err fault → fault ≢ More
        → message_at expect (bytes ++ more) ≡ Err fault }
{}

/// A front of a message that is not all of it is neither read nor refused: more has to come.
pub fn a_front_of_a_message_is_no_message()
    ensures { (expect : Expect) (m : Said) (front rest : List ℕ) → IsMessage expect m
        → spelling m ≡ front ++ rest → rest ≢ [] → AreBytes front
        → message_at expect front ≡ Err More }
{}

/// A name of a hello that is too long is refused at its length, before any byte of it has come: the
/// end's own one, and the other's.
pub fn a_long_name_is_refused_at_its_length()
    ensures own { (is_look : Bool) (g : Greeted) (len : ℕ) → IsGreeting (oldest is_look) g
        → name_limit < len → message_at Hello (before_names is_look g ++ (len ∷ [])) ≡ Err NoName }
    ensures other { (is_look : Bool) (g : Greeted) (len : ℕ) → IsGreeting (oldest is_look) g
        → name_limit < len
        → message_at Hello (before_names is_look g ++ (name_bytes g.from ++ (len ∷ [])))
        ≡ Err NoName }
{}

/// While more has to come there are few bytes.
pub fn few_bytes_are_kept()
    ensures { (expect : Expect) (bytes : List ℕ) → AreBytes bytes
        → message_at expect bytes ≡ Err More → length bytes < most expect }
{}

/// A stream is read in one way, in whatever pieces it comes: its messages are the same, and what
/// follows them.
pub fn a_stream_is_read_in_one_way()
    ensures { (expect : Expect) (stream : List ℕ) (one other : List Said) (rest after : List ℕ)
        (why reason : Fault)
        → Splits expect stream one rest why → Splits expect stream other after reason
        → (one ≡ other) × (rest ≡ after) × (why ≡ reason) }
{}

/// A message is its head and what follows that: the body of a frame, the names of a way, the text
/// of a report.
pub fn a_message_is_its_head_and_tail()
    ensures { (m : Said) → spelling m ≡ head_bytes m ++ tail_bytes m }
{}

/// What is written is read again: the head, whatever the buffer held, and what follows it.
pub fn what_is_written_is_read()
    ensures { (expect : Expect) (m : Said) (buffer rest : List ℕ) → IsMessage expect m
        → message_at expect (take (length (head_bytes m)) (with_text buffer 0 (head_bytes m))
        ++ (tail_bytes m ++ rest)) ≡ Ok (m, rest) }
{}

/// Each message that may come is written, if there is room for its head.
pub fn a_message_is_written()
    ensures { (expect : Expect) (m : Said) (buffer : List ℕ) → IsMessage expect m
        → length (head_bytes m) ≤ length buffer → is_written buffer m ≡ true }
{}

/// The versions that are said in the place of a label are read there, and no label of a link, which
/// is below 256, is taken for any.
pub fn versions_are_read()
    ensures range { (g : Greeted) (oldest newest : ℕ) → 1 ≤ oldest → oldest ≤ newest → newest < 256
        → 2 ≤ g.version → g.label ≡ range_of oldest newest → versions_of g ≡ (oldest, newest) }
    ensures one { (g : Greeted) → g.label < 256 → versions_of g ≡ (g.version, g.version) }
{}
