ghost use Rattle.std.specs.Prelude.{◌≡◌};
ghost use Rattle.rignolda_agent.specs.Rooms.{changed, fits};

/// The most settings of a whole table, and the most bytes that their entries have together.
const MOST_SETTINGS: u64 = 65_536;

const MOST_BYTES: u64 = 16_777_203;

/// What a whole table takes. Every bit pattern of it is a count.
#[repr(C)]
#[derive(Clone, Copy)]
pub struct Room {
    /// How many settings there are.
    pub settings: u64,
    /// How many bytes the entries of all of them have.
    pub bytes: u64,
}

impl Room {
    /// A setting is set or unset: its entry had so many bytes, and has so many now. One that is not
    /// there has none.
    pub fn change(&mut self, had: u64, has: u64)
        ensures { self.new ≡ changed self.old had has }
    {
        let come = u64::from(has > 0);
        let gone = u64::from(had > 0);
        self.settings = self.settings.saturating_add(come).saturating_sub(gone);
        self.bytes = self.bytes.saturating_add(has).saturating_sub(had);
    }

    /// Whether all these settings are one whole table.
    pub fn fits(&self) -> bool
        ensures { result ≡ fits self.now }
    {
        self.settings <= MOST_SETTINGS && self.bytes <= MOST_BYTES
    }
}
