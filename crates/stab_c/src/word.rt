ghost use Rattle.std.specs.Prelude.{◌≡◌, true, is_some, Some};
ghost use Rattle.stab_c.specs.Meaning.{frame_of, written, written_frame};
ghost use Rattle.stab_c.specs.Word.{frame_code, frame_shown, label_code, label_shown};

use crate::line::LineFrame;

/// The word of the frame with label 0 and item 0; those of frames lie below twice as much.
const FIRST_FRAME: u64 = 0x1_0000_0000_0000;

/// How many items there are: the place of the label in the word of a frame.
const ITEMS: u64 = 0x1_0000_0000;

/// How many labels a word has room for, and the word of the acknowledgement of label 0; those of
/// acknowledgements lie below twice as much.
const LABELS: u64 = 0x1_0000;

/// The word of a frame.
#[unsafe(no_mangle)]
pub extern "C" fn rignolda_word_of_frame(frame: &LineFrame) -> u64
    ensures code { result ≡ frame_code (frame_of frame.now) }
    ensures back { frame_shown result ≡ Some (frame_of frame.now) }
{
    FIRST_FRAME + u64::from(frame.label) * ITEMS + u64::from(frame.item)
}

/// Writes the frame that a word shows, and returns true; or returns false where it shows none.
#[unsafe(no_mangle)]
pub extern "C" fn rignolda_word_frame(word: u64, frame: &mut LineFrame) -> bool
    ensures some { result ≡ is_some (frame_shown word) }
    ensures written { frame.new ≡ written_frame frame.old (frame_shown word) }
    ensures code { result ≡ true → word ≡ frame_code (frame_of frame.new) }
{
    if word < FIRST_FRAME || word >= 2 * FIRST_FRAME {
        return false;
    }
    *frame = LineFrame {
        item: (word % ITEMS) as u32,
        label: (word / ITEMS % LABELS) as u16,
        unused: 0,
    };
    true
}

/// The word of the acknowledgement of a label.
#[unsafe(no_mangle)]
pub extern "C" fn rignolda_word_of_label(label: u16) -> u64
    ensures code { result ≡ label_code label }
    ensures back { label_shown result ≡ Some label }
{
    LABELS + u64::from(label)
}

/// Writes the label of the acknowledgement that a word shows, and returns true; or returns false
/// where it shows none.
#[unsafe(no_mangle)]
pub extern "C" fn rignolda_word_label(word: u64, label: &mut u16) -> bool
    ensures some { result ≡ is_some (label_shown word) }
    ensures written { label.new ≡ written label.old (label_shown word) }
    ensures code { result ≡ true → word ≡ label_code label.new }
{
    if word < LABELS || word >= 2 * LABELS {
        return false;
    }
    *label = (word % LABELS) as u16;
    true
}
