//! One word of a record.

ghost use Rattle.std.specs.Prelude.{◌≡◌, ◌<◌};
ghost use Rattle.type_record.specs.Words.{word_of, FitsWord};
ghost use Rattle.type_record.specs.TheOne.{IsTheOne};

use clr_base::Handle;

/// What one word of a record tells: a number, and at most one type. `K` is what stands for the type.
#[derive(Clone, Copy, PartialEq, Eq)]
pub struct Entry<K> {
    pub number: u64,
    pub key: Option<K>,
}

impl Entry<Handle> {
    /// The word of an entry: `1 + h + 524288 * number`, where h is 0 without a handle, else the handle plus 1.
    pub fn word(self) -> u64
        requires { FitsWord self }
        ensures { (result ≡ word_of self) × (0 < result) }
    {
        let at = match self.key {
            None => 0,
            Some(handle) => handle.0 as u64 + 1,
        };
        1 + at + 524_288 * self.number
    }

    /// The entry of a word, or None where no entry has it.
    pub fn read(word: u64) -> Option<Entry<Handle>>
        ensures { IsTheOne (λ e. FitsWord e × (word_of e ≡ word)) result }
    {
        let rest = word.checked_sub(1)?;
        let at = (rest % 524_288) as u32;
        if at > 262_144 {
            return None;
        }
        let key = if at == 0 { None } else { Some(Handle(at - 1)) };
        Some(Entry {
            number: rest / 524_288,
            key,
        })
    }
}
