//! How much a log repeats itself.

/// So many lines that are not known, one after another, are looked up before no more are.
const PATIENCE: u32 = 8_192;

/// A line that is known makes up for so many that are not.
const WORTH: u32 = 16;

/// The bits of the number of a line of which none is set for one line of eight: for `PATIENCE` lines, one after another.
const PAUSE: u32 = 7 * PATIENCE;

/// How much a log repeats its lines. Where it hardly does, they are looked up now and then alone.
#[derive(Clone, Copy, Debug)]
pub struct Repetition {
    /// How many lines came, the lower half of that number.
    lines: u32,
    /// How many lines more are looked up, if none of them is known.
    patience: u32,
}

impl Repetition {
    /// That of a log of which nothing was read.
    pub fn new() -> Repetition {
        Repetition {
            lines: 0,
            patience: PATIENCE,
        }
    }

    /// Counts the next line, and says whether it is looked up.
    #[inline]
    pub fn looks_up_next(&mut self) -> bool {
        let is_looked_up = self.patience > 0 || self.lines & PAUSE == 0;
        self.lines = self.lines.wrapping_add(1);
        self.patience = self.patience.saturating_sub(1);
        is_looked_up
    }

    /// The line that was counted last is known.
    #[inline]
    pub fn note_known(&mut self) {
        self.patience = self.patience.saturating_add(WORTH).min(PATIENCE);
    }
}
